// Partial answers by pane.
ghost use Rattle.std.specs.Prelude.{◌≡◌, ◌+◌, ◌≤◌, ◌^◌, ◌<◌, [], ◌∷◌, ℕ, length, nat_le, true, Some, None, IfSome, IfNone, OnOk};
ghost use Rattle.std.specs.FinMap.{empty, len, retain_keys};
ghost use Rattle.saber_plan.specs.declared.plans.Shape.TheVariants.{Group};
ghost use Rattle.saber_plan.specs.Trees.{tree_of};
ghost use Rattle.saber_plan.specs.Checked.{IsChecked};
ghost use Rattle.saber_plan.specs.Windows.{one, placed_after};
ghost use Rattle.saber_plan.specs.Answers.{frame};
ghost use Rattle.saber_plan.specs.GivenRows.{IsRowOf, RowsFit};
ghost use Rattle.saber_plan.specs.Merges.{both};
ghost use Rattle.saber_plan.specs.Parts.{Part, group_part, merge};
ghost use Rattle.saber_plan.specs.Values as v;
ghost use Rattle.saber_partial.specs.Tallies.{CanMerge};
ghost use Rattle.saber_panes.specs.Panes.{counted_rows, first_pane, is_counted, joined_at, or_none, pane_count, pane_of, panes_here, window_part, with_part, with_row_in, CanTakeIn, HasRowRoom, RowsRoom, WindowRoom};

use crate::cuts::Cuts;
use crate::pane_part::PanePart;
use saber_flat::{RowRef, Rows};
use saber_partial::{Partial, Steps};
use saber_plan::{Mark, NoMemory, Plan};
use std::alloc::Global;
use std::collections::BTreeMap;
use std::marker::Model;
use std::sync::ledger::Ledger;

/// The parts of panes (SABER 2016, after Li et al. 2005): a row that lies in many windows goes into
/// one pane, and a window merges its panes. Contracts see them as a finite map from pane numbers to
/// parts.
#[derive(Drop)]
pub struct Panes {
    parts: BTreeMap<u64, PanePart>,
}

impl Model for Panes {
    ghost use Rattle.saber_plan.specs.Tasks.{Parts};
    ghost use Rattle.saber_plan.specs.Codes.{coded_parts};
    ghost use Rattle.saber_panes.specs.Panes.{seen_panes};
    ghost use Rattle.std.specs.Coded.{codes};

    ghost Value = { Parts };

    ghost coded = { Prim.hlevel (codes, coded_parts) };

    ghost view = { λ p. seen_panes p.parts.entries };
}

impl Panes {
    /// No panes. Takes no memory.
    pub fn empty(alloc: Global) -> Panes
        ensures { result ≡ empty }
    {
        Panes {
            parts: BTreeMap::new(alloc),
        }
    }

    // Adds a row to the part of its pane: one step.
    fn add_row<L: Ledger>(
        &mut self,
        alloc: Global,
        plan: &Plan,
        pane: u64,
        row: &RowRef,
        steps: &mut Steps<L>,
    ) -> Result<(), NoMemory>
        requires checked { IsChecked (tree_of plan.now) }
        requires group { (tree_of plan.now).shape ≡ Group }
        requires row { IsRowOf (tree_of plan.now) row.now }
        requires room { CanMerge (or_none (joined_at self.old pane)) (group_part (tree_of plan.now) (row.now.values ∷ [])) }
        ensures ok { OnOk result (self.new ≡ with_part self.old pane (group_part (tree_of plan.now) (row.now.values ∷ []))) }
        ensures steps { steps.new ≡ steps.old + 1 }
    {
        match self.parts.get_mut(&pane) {
            Some(mine) => mine.add_row(alloc, plan, row, steps),
            None => {
                let part = PanePart::of_row(alloc, plan, row, steps)?;
                self.parts.insert(pane, part)?;
                Ok(())
            }
        }
    }

    // Adds a row to its pane, if it is counted: one step at most.
    fn fold_row<L: Ledger>(
        &mut self,
        alloc: Global,
        plan: &Plan,
        cuts: &Cuts,
        before: &Mark,
        row: &RowRef,
        steps: &mut Steps<L>,
    ) -> Result<(), NoMemory>
        requires group { (tree_of plan.now).shape ≡ Group }
        requires cuts { cuts.now ≡ plan.now }
        requires row { IsRowOf (tree_of plan.now) row.now }
        requires left { before.now.left ≤ 2 ^ 40 }
        requires right { before.now.right ≤ 2 ^ 40 }
        requires room { HasRowRoom (tree_of plan.now) self.old (record { row = row.now; before = before.now }) }
        ensures ok { OnOk result (self.new ≡ with_row_in (tree_of plan.now) self.old (record { row = row.now; before = before.now })) }
        ensures steps { steps.new ≤ steps.old + length (counted_rows (tree_of plan.now) (record { row = row.now; before = before.now } ∷ [])) }
    {
        if cuts.is_counted(row, before) {
            let pane = cuts.pane_of(row, before);
            return self.add_row(alloc, plan, pane, row, steps);
        }
        Ok(())
    }

    /// Adds the rows of a task, behind the mark before them, each to its pane: at most one step for
    /// each row that lies in a window and passes WHERE, however many windows have it. A row in no
    /// window has no pane. After want of memory they are only safe.
    pub fn fold<L: Ledger>(
        &mut self,
        alloc: Global,
        p: &Plan,
        before: &Mark,
        rows: &Rows,
        steps: &mut Steps<L>,
    ) -> Result<(), NoMemory>
        requires group { (tree_of p.now).shape ≡ Group }
        requires rows { RowsFit (tree_of p.now) before.now rows.now }
        requires room { RowsRoom (tree_of p.now) self.old (counted_rows (tree_of p.now) (placed_after before.now rows.now)) }
        ensures ok { OnOk result (self.new ≡ both merge self.old (panes_here (tree_of p.now) before.now rows.now)) }
        ensures steps { steps.new ≤ steps.old + length (counted_rows (tree_of p.now) (placed_after before.now rows.now)) }
    {
        let cuts = Cuts::new(p);
        let mut mark = *before;
        for i in 0..rows.len() {
            let row = rows.row(i);
            self.fold_row(alloc, p, &cuts, &mark, &row, steps)?;
            mark = cuts.step(&mark, &row);
        }
        Ok(())
    }

    // Merges a pane into a part, if it is there: one step at most.
    fn merge_pane<L: Ledger>(
        &self,
        alloc: Global,
        pane: u64,
        out: &mut Partial,
        steps: &mut Steps<L>,
    ) -> Result<(), NoMemory>
        requires { CanMerge out.old (or_none (joined_at self.now pane)) }
        ensures ok { OnOk result (out.new ≡ merge out.old (or_none (joined_at self.now pane))) }
        ensures steps { steps.new ≤ steps.old + 1 }
    {
        match self.parts.get(&pane) {
            Some(part) => part.merge_into(alloc, out, steps),
            None => Ok(()),
        }
    }

    // The first pane that is there from one on and below another.
    fn next_pane(&self, from: u64, past: u64) -> Option<u64>
        requires { from ≤ past }
        ensures some { IfSome result (λ j. (from ≤ j) × (j < past) × ((k : ℕ) → from ≤ k → k < j → joined_at self.now k ≡ None)) }
        ensures none { IfNone result ((k : ℕ) → from ≤ k → k < past → joined_at self.now k ≡ None) }
    {
        match self.parts.range(from..past).next() {
            Some((pane, _)) => Some(*pane),
            None => None,
        }
    }

    /// Merges the panes of window i into a part: at most one step for each of them, and none for
    /// one that isn't there, so that a gap costs nothing. After want of memory the part is only
    /// safe.
    pub fn window<L: Ledger>(
        &self,
        alloc: Global,
        p: &Plan,
        i: u64,
        out: &mut Partial,
        steps: &mut Steps<L>,
    ) -> Result<(), NoMemory>
        requires group { (tree_of p.now).shape ≡ Group }
        requires near { first_pane (frame (tree_of p.now)) i + pane_count (frame (tree_of p.now)) < 2 ^ 64 }
        requires room { WindowRoom (tree_of p.now) i self.now out.old }
        ensures ok { OnOk result (out.new ≡ merge out.old (window_part (frame (tree_of p.now)) i self.now)) }
        ensures steps { steps.new ≤ steps.old + pane_count (frame (tree_of p.now)) }
    {
        let cuts = Cuts::new(p);
        let (first, past) = cuts.panes_of(i);
        let mut next = first;
        loop {
            match self.next_pane(next, past) {
                Some(pane) => {
                    self.merge_pane(alloc, pane, out, steps)?;
                    next = pane + 1;
                }
                None => return Ok(()),
            }
        }
    }

    // Takes in the part of later rows of one pane: one step at most.
    fn take_pane<L: Ledger>(
        &mut self,
        pane: u64,
        part: PanePart,
        steps: &mut Steps<L>,
    ) -> Result<(), NoMemory>
        requires { (a : Part) → joined_at self.old pane ≡ Some a → CanMerge a part }
        ensures ok { OnOk result (self.new ≡ with_part self.old pane part) }
        ensures steps { steps.new ≤ steps.old + 1 }
    {
        match self.parts.get_mut(&pane) {
            Some(mine) => mine.take_in(part, steps),
            None => {
                self.parts.insert(pane, part)?;
                Ok(())
            }
        }
    }

    /// Takes in the parts of later rows' panes: at most one step for each of these. After want of
    /// memory they are only safe.
    pub fn take_in<L: Ledger>(&mut self, other: Panes, steps: &mut Steps<L>) -> Result<(), NoMemory>
        requires { CanTakeIn self.old other }
        ensures ok { OnOk result (self.new ≡ both merge self.old other) }
        ensures steps { steps.new ≤ steps.old + len other }
    {
        let _count = other.parts.len();
        for (pane, part) in other.parts {
            self.take_pane(pane, part, steps)?;
        }
        Ok(())
    }

    /// Drops the panes below one. Takes no memory.
    pub fn drop_below(&mut self, pane: u64)
        ensures { self.new ≡ retain_keys self.old (λ j. nat_le pane j) }
    {
        self.parts.retain(
            |j, mine|
                ensures kept { result ≡ nat_le pane j.now }
                ensures same { mine.exit.now ≡ mine.entry.now }
            { *j >= pane },
        );
    }
}
