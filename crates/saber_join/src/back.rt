// The blocks that a task looks back on.
ghost use Rattle.std.specs.Prelude.{◌≡◌, ◌≤◌, [], length, take, drop, true, OnOk, IfOk};
ghost use Rattle.saber_plan.specs.declared.windows.Mark.{Mark};
ghost use Rattle.saber_plan.specs.Trees.{tree_of};
ghost use Rattle.saber_plan.specs.Answers.{frame};
ghost use Rattle.saber_plan.specs.Windows.{mark_after, placed_after};
ghost use Rattle.saber_plan.specs.GivenRows.{RowsFit};
ghost use Rattle.saber_fragment.specs.Drafts.{Sight, seen_back, CanLookBack};
ghost use Rattle.saber_join.specs.Keeping.{NoneLies};
ghost use Rattle.saber_join.specs.Sights.{HasSeen};

use crate::draft::JoinDraft;
use crate::join::Join;
use saber_flat::Rows;
use saber_fragment::Block;
use saber_plan::{Mark, NoMemory, Side};
use std::alloc::Global;

// Rows have room for so many numbers each at first; with more of them it grows.
const USUAL_COLUMNS: usize = 4;

// The rows from this one on.
fn rest_of(alloc: Global, rows: &Rows, from: usize) -> Result<Rows, NoMemory>
    requires { from ≤ length rows.now }
    ensures { IfOk result (λ rest. rest ≡ drop from rows.now) }
{
    if from == 0 {
        return rows.copy(alloc);
    }
    let count = rows.len() - from;
    let mut rest = Rows::with_capacity(alloc, count, count.saturating_mul(USUAL_COLUMNS))?;
    for i in from..rows.len() {
        rest.push(&rows.row(i))?;
    }
    Ok(rest)
}

/// The mark before some rows, where that behind them is known, and the last timestamp before them.
pub(crate) fn mark_before(after: &Mark, last: Option<i64>, rows: &Rows) -> Mark
    requires { (m : Mark) × (after.now ≡ mark_after m rows.now) × (m.last ≡ last) }
    ensures { (m : Mark) → after.now ≡ mark_after m rows.now → m.last ≡ last → result ≡ m }
{
    let mut lefts: u64 = 0;
    let mut rights: u64 = 0;
    for i in 0..rows.len() {
        match rows.row(i).side() {
            Side::Left => lefts += 1,
            Side::Right => rights += 1,
        }
    }
    Mark {
        left: after.left - lefts,
        right: after.right - rights,
        last,
        ended: after.ended,
    }
}

impl Join<'_> {
    // How many rows in front reach no window from `closed` on. Only windows by time tell that by
    // halves; of others none is counted.
    fn passed_over(&self, closed: u64, before: &Mark, rows: &Rows) -> usize
        requires fits { RowsFit (tree_of self.now) before.now rows.now }
        ensures within { result ≤ length rows.now }
        ensures none { NoneLies (frame (tree_of self.now)) closed (placed_after before.now (take result rows.now)) }
    {
        let _plan = &self.plan;
        if !self.goes_by_time() {
            return 0;
        }
        let mut low = 0;
        let mut high = rows.len();
        while low < high {
            let middle = low + (high - low) / 2;
            if self.reaches(closed, &rows.row(middle), before) {
                high = middle;
            } else {
                low = middle + 1;
            }
        }
        low
    }

    // The last timestamp before row `from` of some rows.
    fn last_before(&self, before: &Mark, rows: &Rows, from: usize) -> Option<i64>
        requires fits { RowsFit (tree_of self.now) before.now rows.now }
        requires within { from ≤ length rows.now }
        ensures { result ≡ (mark_after before.now (take from rows.now)).last }
    {
        if from == 0 {
            return before.last;
        }
        self.step(before, &rows.row(from - 1)).last
    }

    // Takes in the first block of which rows may be kept: those in front that reach no window which
    // is open before the task's own rows are of no use to it.
    fn begin_back(
        &self,
        alloc: Global,
        draft: &mut JoinDraft,
        block: &Block,
    ) -> Result<(), NoMemory>
        requires none { draft.old.back ≡ [] }
        requires sight { (s : Sight) × HasSeen (tree_of self.now) draft.old s × CanLookBack (tree_of self.now) s block.now }
        ensures { OnOk result ((s : Sight) → HasSeen (tree_of self.now) draft.old s → CanLookBack (tree_of self.now) s block.now
            → HasSeen (tree_of self.now) draft.new (seen_back s block.now)) }
    {
        let closed = self.closed_below(&draft.before);
        let from = self.passed_over(closed, &block.before, &block.rows);
        draft.last = self.last_before(&block.before, &block.rows, from);
        draft.back = rest_of(alloc, &block.rows, from)?;
        Ok(())
    }

    /// Takes in one block more that is looked back on.
    pub(crate) fn look_back(
        &self,
        alloc: Global,
        draft: &mut JoinDraft,
        block: &Block,
    ) -> Result<(), NoMemory>
        requires { (s : Sight) × HasSeen (tree_of self.now) draft.old s × CanLookBack (tree_of self.now) s block.now }
        ensures { OnOk result ((s : Sight) → HasSeen (tree_of self.now) draft.old s → CanLookBack (tree_of self.now) s block.now
            → HasSeen (tree_of self.now) draft.new (seen_back s block.now)) }
    {
        if draft.back.len() == 0 {
            self.begin_back(alloc, draft, block)
        } else {
            draft.back.extend(&block.rows)
        }
    }
}
