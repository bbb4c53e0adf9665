// What a task holds.
ghost use Rattle.std.specs.Prelude.{◌≡◌, ◌<◌, [], length, true, OnOk, IfOk};
ghost use Rattle.std.specs.List.{AllByRecursion};
ghost use Rattle.saber_plan.specs.declared.rows.Side.TheVariants as sides;
ghost use Rattle.saber_plan.specs.Trees.{tree_of};
ghost use Rattle.saber_plan.specs.Values as v;
ghost use Rattle.saber_plan.specs.Answers.{pair_key};
ghost use Rattle.saber_plan.specs.GivenRows.{IsRowOf};
ghost use Rattle.saber_join.specs.Rows.{IsOn, AllOn};
ghost use Rattle.saber_join.specs.Shelves.{card_with, cards_at, lefts_with, rights_with};
ghost use Rattle.saber_join.specs.Open.{seen_parts, Changed, ChangedAt, MeetsAlike, MeetsLefts, MeetsRights, with_pair};

use crate::join::Join;
use crate::pairs::Pairs;
use crate::seen::Seen;
use crate::shelf::Shelf;
use saber_plan::{NoMemory, Side};
use std::alloc::Global;
use std::collections::BTreeMap;

/// The rows so far of each side that lie in windows that aren't closed, and the pairs found of each
/// window.
#[derive(Drop)]
pub(crate) struct HeldRows<'a> {
    pub(crate) lefts: Shelf<'a>,
    pub(crate) rights: Shelf<'a>,
    pub(crate) windows: BTreeMap<u64, Pairs>,
    // the places of the rows that one row meets
    pub(crate) found: Vec<usize>,
}

// The key of a pair: the places of its rows.
fn places(left: &Seen, right: &Seen) -> [i64; 2]
    ensures { result ≡ pair_key left.now right.now }
{
    [left.place(), right.place()]
}

// Puts a pair that passes into a window.
fn put_at(
    alloc: Global,
    join: &Join,
    left: &Seen,
    right: &Seen,
    window: u64,
    windows: &mut BTreeMap<u64, Pairs>,
) -> Result<(), NoMemory>
    requires left { IsOn (tree_of join.now) sides.Left left.now.row }
    requires right { IsOn (tree_of join.now) sides.Right right.now.row }
    requires passes { v.passes (tree_of join.now).predicate left.now.row.values right.now.row.values ≡ true }
    ensures { OnOk result (ChangedAt (with_pair (tree_of join.now) left.now right.now window) window
        (seen_parts windows.old.entries) (seen_parts windows.new.entries)) }
{
    let values = join.values(alloc, left.row(), right.row())?;
    match windows.get_mut(&window) {
        Some(pairs) => {
            pairs.put(places(left, right), values)?;
            Ok(())
        }
        None => {
            let mut pairs = Pairs::empty(alloc);
            pairs.put(places(left, right), values)?;
            windows.insert(window, pairs)?;
            Ok(())
        }
    }
}

// Adds a pair to each window from the one up to the other, if it passes.
fn add_pair(
    alloc: Global,
    join: &Join,
    left: &Seen,
    right: &Seen,
    low: u64,
    past: u64,
    windows: &mut BTreeMap<u64, Pairs>,
) -> Result<(), NoMemory>
    requires left { IsOn (tree_of join.now) sides.Left left.now.row }
    requires right { IsOn (tree_of join.now) sides.Right right.now.row }
    ensures { OnOk result (Changed (with_pair (tree_of join.now) left.now right.now) low past (seen_parts windows.old.entries) (seen_parts windows.new.entries)) }
{
    if !join.passes(left.row(), right.row()) {
        return Ok(());
    }
    for window in low..past {
        put_at(alloc, join, left, right, window, windows)?;
    }
    Ok(())
}

// Adds the pairs of a left row with right rows, those at these places, to each window that both lie
// in.
fn meet_rights(
    alloc: Global,
    join: &Join,
    left: &Seen,
    low: u64,
    past: u64,
    rights: &Shelf,
    found: &[usize],
    windows: &mut BTreeMap<u64, Pairs>,
) -> Result<(), NoMemory>
    requires left { IsOn (tree_of join.now) sides.Left left.now.row }
    requires rights { AllOn (tree_of join.now) sides.Right rights.now }
    requires there { AllByRecursion (λ i. i < length rights.now) found.now }
    ensures { OnOk result (MeetsRights (tree_of join.now) left.now (cards_at rights.now found.now) low past windows.old.entries windows.new.entries) }
{
    for i in found {
        let right = rights.at(*i);
        let from = low.max(right.first);
        let to = past.min(right.past);
        add_pair(alloc, join, left, &right.seen, from, to, windows)?;
    }
    Ok(())
}

// Adds the pairs of a right row with left rows, those at these places, to each window that both lie
// in.
fn meet_lefts(
    alloc: Global,
    join: &Join,
    right: &Seen,
    low: u64,
    past: u64,
    lefts: &Shelf,
    found: &[usize],
    windows: &mut BTreeMap<u64, Pairs>,
) -> Result<(), NoMemory>
    requires right { IsOn (tree_of join.now) sides.Right right.now.row }
    requires lefts { AllOn (tree_of join.now) sides.Left lefts.now }
    requires there { AllByRecursion (λ i. i < length lefts.now) found.now }
    ensures { OnOk result (MeetsLefts (tree_of join.now) right.now (cards_at lefts.now found.now) low past windows.old.entries windows.new.entries) }
{
    for i in found {
        let left = lefts.at(*i);
        let from = low.max(left.first);
        let to = past.min(left.past);
        add_pair(alloc, join, &left.seen, right, from, to, windows)?;
    }
    Ok(())
}

impl<'a> HeldRows<'a> {
    /// No row and no pair, and room for so many rows of each side.
    pub(crate) fn new(alloc: Global, rows: usize) -> Result<HeldRows<'a>, NoMemory>
        ensures lefts { IfOk result (λ h. h.lefts ≡ []) }
        ensures rights { IfOk result (λ h. h.rights ≡ []) }
        ensures windows { IfOk result (λ h. h.windows.entries ≡ []) }
    {
        let lefts = Shelf::new(alloc, rows)?;
        match Shelf::new(alloc, rows) {
            Ok(rights) => Ok(HeldRows {
                lefts,
                rights,
                windows: BTreeMap::new(alloc),
                found: Vec::new(alloc),
            }),
            Err(want) => {
                lefts.let_go();
                Err(want)
            }
        }
    }

    /// The pairs found of each window. The rows are let go.
    pub(crate) fn into_windows(self) -> BTreeMap<u64, Pairs>
        ensures { result.entries ≡ self.entry.windows.entries }
    {
        self.lefts.let_go();
        self.rights.let_go();
        self.windows
    }

    /// Lets all go. Where a function held this at an exit of its own, the steps that let each part
    /// go would stand in that function, once for each exit, and its proof would take them all in.
    pub(crate) fn let_go(self) {
        self.lefts.let_go();
        self.rights.let_go();
    }

    /// Keeps a row that is looked back on, under its key.
    #[inline(always)]
    pub(crate) fn note(
        &mut self,
        key: i64,
        first: u64,
        past: u64,
        seen: Seen<'a>,
    ) -> Result<(), NoMemory>
        ensures lefts { OnOk result (self.new.lefts ≡ lefts_with (card_with key first past seen.entry) self.old.lefts) }
        ensures rights { OnOk result (self.new.rights ≡ rights_with (card_with key first past seen.entry) self.old.rights) }
        ensures windows { OnOk result (self.new.windows.entries ≡ self.old.windows.entries) }
    {
        match seen.row().side() {
            Side::Left => self.lefts.put(key, first, past, seen)?,
            Side::Right => self.rights.put(key, first, past, seen)?,
        }
        Ok(())
    }

    /// Adds the pairs of a row of the task with the other side's rows before it that have its key,
    /// to each window that both lie in.
    #[inline(always)]
    pub(crate) fn meet(
        &mut self,
        alloc: Global,
        join: &Join,
        key: i64,
        first: u64,
        past: u64,
        seen: &Seen,
    ) -> Result<(), NoMemory>
        requires row { IsRowOf (tree_of join.now) seen.now.row }
        requires lefts { AllOn (tree_of join.now) sides.Left self.old.lefts }
        requires rights { AllOn (tree_of join.now) sides.Right self.old.rights }
        ensures lefts { OnOk result (self.new.lefts ≡ self.old.lefts) }
        ensures rights { OnOk result (self.new.rights ≡ self.old.rights) }
        ensures windows { OnOk result (MeetsAlike (tree_of join.now) seen.now key first past self.old.lefts self.old.rights
            self.old.windows.entries self.new.windows.entries) }
    {
        match seen.row().side() {
            Side::Left => {
                self.rights.find(key, first, &mut self.found)?;
                meet_rights(
                    alloc,
                    join,
                    seen,
                    first,
                    past,
                    &self.rights,
                    &self.found,
                    &mut self.windows,
                )?;
            }
            Side::Right => {
                self.lefts.find(key, first, &mut self.found)?;
                meet_lefts(
                    alloc,
                    join,
                    seen,
                    first,
                    past,
                    &self.lefts,
                    &self.found,
                    &mut self.windows,
                )?;
            }
        }
        Ok(())
    }
}
