// What is kept of the rows of each key list.
ghost use Rattle.std.specs.Prelude.{◌≡◌, ◌++◌, List, None, length, map, max, IfOk, OnOk};
ghost use Rattle.std.specs.FinMap.{empty, insert};
ghost use Rattle.saber_plan.specs.declared.rows.Row.{Row};
ghost use Rattle.saber_plan.specs.Texts.{Behind};
ghost use Rattle.saber_plan.specs.Trees.{tree_of};
ghost use Rattle.saber_plan.specs.Answers.{closed_at_last, frame};
ghost use Rattle.saber_partition.specs.Streams.{Asks, Printed};
ghost use Rattle.saber_partition.specs.Lists.{TakenAll};
ghost use Rattle.saber_partition.specs.Pieces.{EndCame, RowCame, RowComes, RowsCame, RowsCome};
ghost use Rattle.saber_partition.specs.Stores.{kept_lists, lists_of, made_of, own_lists, own_of, IsLong};
ghost use Rattle.saber_places.specs.Numbering.{lists_in, number_of};

use crate::keyed::Keyed;
use crate::letting::let_old_go;
use crate::numbers::numbers_behind;
use crate::pieces::RowPiece;
use arrayvec::ArrayVec;
use saber_partial::{RowParts, Steps};
use saber_places::Numbered;
use saber_plan::{NoMemory, Plan};
use saber_window::Windows;
use std::alloc::Global;
use std::collections::BTreeMap;
use std::mem;
use std::sync::ledger::Ledger;

/// What is kept from task to task: the key lists with their numbers, and by these the parts that
/// the open windows of each have.
#[derive(Drop)]
pub struct ListStore {
    pub(crate) known: Numbered,
    pub(crate) lists: Vec<Keyed>,
}

// A key list that is new, with what is kept of it.
fn put_new(store: &mut ListStore, list: ArrayVec<i64, 8>, own: Keyed) -> Result<(), NoMemory>
    requires missing { number_of list.items store.old.known ≡ None }
    requires long { IsLong store.old }
    ensures put { OnOk result (kept_lists store.new ≡ insert (kept_lists store.old) list.items (own_of own)) }
    ensures long { OnOk result (IsLong store.new) }
{
    match store.known.add(list) {
        Ok(()) => {}
        Err(want) => {
            own.let_go();
            return Err(want);
        }
    }
    store.lists.push(own)?;
    Ok(())
}

// The same as `take_row` of a key list that no row had before. It stands by itself, since what is
// made here would cost each row.
#[inline(never)]
fn take_first<L: Ledger>(
    alloc: Global,
    plan: &Plan,
    windows: &Windows,
    store: &mut ListStore,
    row: RowPiece,
    parts: &RowParts,
    out: &mut Vec<u8>,
    steps: &mut Steps<L>,
) -> Result<(), NoMemory>
    requires windows { windows.now ≡ frame (tree_of plan.now) }
    requires long { IsLong store.old }
    requires comes { (xs : List Row) × (r : Row) × RowComes (tree_of plan.now) xs r (made_of parts.now row) (kept_lists store.old) }
    requires missing { number_of row.list.items store.old.known ≡ None }
    ensures came { OnOk result ((xs : List Row) (r : Row) → RowComes (tree_of plan.now) xs r (made_of parts.now row) (kept_lists store.old)
        → RowCame (tree_of plan.now) xs r (kept_lists store.new) out.old.items out.new.items) }
    ensures long { OnOk result (IsLong store.new) }
    ensures behind { Behind out.old.items out.new.items }
{
    let RowPiece { list, place, part } = row;
    let (low, past) = numbers_behind(windows, place);
    let mut own = Keyed::of_none(alloc);
    match own.take_row(alloc, plan, low, past, parts, part, out, steps) {
        Ok(()) => {}
        Err(want) => {
            own.let_go();
            return Err(want);
        }
    }
    put_new(store, list, own)
}

/// Takes in a row, whose part lies among others, and appends the lines of the window that it
/// closes.
pub(crate) fn take_row<L: Ledger>(
    alloc: Global,
    plan: &Plan,
    windows: &Windows,
    store: &mut ListStore,
    row: RowPiece,
    parts: &RowParts,
    out: &mut Vec<u8>,
    steps: &mut Steps<L>,
) -> Result<(), NoMemory>
    requires windows { windows.now ≡ frame (tree_of plan.now) }
    requires long { IsLong store.old }
    requires comes { (xs : List Row) × (r : Row) × RowComes (tree_of plan.now) xs r (made_of parts.now row) (kept_lists store.old) }
    ensures came { OnOk result ((xs : List Row) (r : Row) → RowComes (tree_of plan.now) xs r (made_of parts.now row) (kept_lists store.old)
        → RowCame (tree_of plan.now) xs r (kept_lists store.new) out.old.items out.new.items) }
    ensures long { OnOk result (IsLong store.new) }
    ensures behind { Behind out.old.items out.new.items }
{
    match store.known.find(&row.list) {
        Some(number) => {
            let (low, past) = numbers_behind(windows, row.place);
            let own = &mut store.lists[number];
            own.take_row(alloc, plan, low, past, parts, row.part, out, steps)
        }
        None => take_first(alloc, plan, windows, store, row, parts, out, steps),
    }
}

/// Takes in rows, one after another.
pub(crate) fn take_rows<L: Ledger>(
    alloc: Global,
    plan: &Plan,
    windows: &Windows,
    store: &mut ListStore,
    rows: Vec<RowPiece>,
    parts: &RowParts,
    out: &mut Vec<u8>,
    steps: &mut Steps<L>,
) -> Result<(), NoMemory>
    requires windows { windows.now ≡ frame (tree_of plan.now) }
    requires long { IsLong store.old }
    requires come { (xs : List Row) × (rs : List Row) × RowsCome (tree_of plan.now) xs rs (map (made_of parts.now) rows.items) (kept_lists store.old) }
    ensures came { OnOk result ((xs rs : List Row) → RowsCome (tree_of plan.now) xs rs (map (made_of parts.now) rows.items) (kept_lists store.old)
        → RowsCame (tree_of plan.now) xs rs (kept_lists store.new) out.old.items out.new.items) }
    ensures long { OnOk result (IsLong store.new) }
    ensures behind { Behind out.old.items out.new.items }
{
    for row in rows {
        take_row(alloc, plan, windows, store, row, parts, out, steps)?;
    }
    Ok(())
}

// Appends the lines of the windows of a key list that are begun and not closed.
fn close_list<L: Ledger>(
    alloc: Global,
    plan: &Plan,
    kept: Keyed,
    out: &mut Vec<u8>,
    steps: &mut Steps<L>,
) -> Result<(), NoMemory>
    requires { Asks (tree_of plan.now) }
    ensures printed { OnOk result (Printed (tree_of plan.now) kept.windows.next kept.windows.slices.entries (max kept.windows.next kept.begun) out.old.items out.new.items) }
    ensures behind { Behind out.old.items out.new.items }
{
    let mut own = kept;
    let begun = own.begun;
    match own.windows.close_lines(alloc, plan, begun, out, steps) {
        Ok(()) => {
            own.let_go();
            Ok(())
        }
        Err(want) => {
            own.let_go();
            Err(want)
        }
    }
}

// Appends those of all key lists, in their order.
fn close_all<L: Ledger>(
    alloc: Global,
    plan: &Plan,
    lists: BTreeMap<ArrayVec<i64, 8>, Keyed>,
    out: &mut Vec<u8>,
    steps: &mut Steps<L>,
) -> Result<(), NoMemory>
    requires { Asks (tree_of plan.now) }
    ensures printed { OnOk result ((xs : List Row) → TakenAll (tree_of plan.now) xs (lists_of lists.entries)
        → out.new.items ≡ out.old.items ++ closed_at_last (tree_of plan.now) xs) }
    ensures behind { Behind out.old.items out.new.items }
{
    let _count = lists.len();
    for (list, kept) in lists {
        close_list(alloc, plan, kept, out, steps)?;
    }
    Ok(())
}

// Key lists with what is kept of each, in the order of the lists.
fn in_order(
    alloc: Global,
    lists: Vec<ArrayVec<i64, 8>>,
    owns: Vec<Keyed>,
) -> Result<BTreeMap<ArrayVec<i64, 8>, Keyed>, NoMemory>
    requires { length owns.items ≡ length lists.items }
    ensures { IfOk result (λ m. lists_of m.entries ≡ own_lists (lists_in lists.items) owns.items) }
{
    let mut lists = lists;
    let mut owns = owns;
    let mut all = BTreeMap::new(alloc);
    while let Some(list) = lists.pop() {
        let Some(own) = owns.pop() else {
            return Ok(all);
        };
        let old = all.insert(list, own)?;
        let_old_go(old);
    }
    Ok(all)
}

// All that is kept, in the order of the lists, after which nothing is.
fn take_all(
    alloc: Global,
    store: &mut ListStore,
) -> Result<BTreeMap<ArrayVec<i64, 8>, Keyed>, NoMemory>
    requires { IsLong store.old }
    ensures all { IfOk result (λ m. lists_of m.entries ≡ kept_lists store.old) }
    ensures none { OnOk result (kept_lists store.new ≡ empty) }
    ensures long { OnOk result (IsLong store.new) }
{
    let known = mem::replace(&mut store.known, Numbered::new(alloc));
    let owns = mem::replace(&mut store.lists, Vec::new(alloc));
    let all = in_order(alloc, known.into_lists(), owns)?;
    Ok(all)
}

/// The input's end, if it comes here: nothing is kept behind it.
pub(crate) fn take_end<L: Ledger>(
    alloc: Global,
    plan: &Plan,
    store: &mut ListStore,
    ended: bool,
    out: &mut Vec<u8>,
    steps: &mut Steps<L>,
) -> Result<(), NoMemory>
    requires asks { Asks (tree_of plan.now) }
    requires long { IsLong store.old }
    ensures came { OnOk result ((xs : List Row) → TakenAll (tree_of plan.now) xs (kept_lists store.old)
        → EndCame (tree_of plan.now) xs ended (kept_lists store.new) out.old.items out.new.items) }
    ensures long { OnOk result (IsLong store.new) }
    ensures behind { Behind out.old.items out.new.items }
{
    if !ended {
        return Ok(());
    }
    let all = take_all(alloc, store)?;
    close_all(alloc, plan, all, out, steps)?;
    Ok(())
}
