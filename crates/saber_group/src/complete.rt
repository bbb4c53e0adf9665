// What a task answers itself: the windows that lie whole in it and in the rows before it that its
// block has.
ghost use Rattle.std.specs.Prelude.{◌≡◌, [], ◌+◌, ◌*◌, ◌≤◌, ◌++◌, Some, length, take, true, IfOk, IfSome, OnOk};
ghost use Rattle.std.specs.List.{AllByRecursion, slice_get};
ghost use Rattle.saber_plan.specs.Windows.{mark_after, end_mark, closed_count};
ghost use Rattle.saber_plan.specs.Answers.{frame};
ghost use Rattle.saber_plan.specs.Trees.{tree_of};
ghost use Rattle.saber_plan.specs.GivenRows.{RowsFit};
ghost use Rattle.saber_group.specs.declared.slices.Slice.{Slice};
ghost use Rattle.saber_sliding.specs.Entries.{CanFollow};
ghost use Rattle.saber_group.specs.SliceParts.{closed_by, EnteredFrom, Holds};
ghost use Rattle.saber_group.specs.SlicePieces.{Gives, SlicesFrom, TaskSteps};

use crate::batch::Batch;
use crate::group::Group;
use crate::slice_list::Slices;
use saber_changes::Output;
use saber_fragment::Earlier;
use saber_partial::Steps;
use saber_plan::NoMemory;
use saber_sliding::{Front, Open};
use std::alloc::Global;
use std::sync::ledger::Ledger;

/// The text of the windows from `low` on that are done, each of which lies whole in a task and the
/// rows before it that its block has (SABER 2016: complete, where it has none), and what is open
/// behind them.
#[derive(Drop)]
pub(crate) struct Complete {
    pub(crate) low: u64,
    pub(crate) text: Vec<u8>,
    pub(crate) open: Open,
}

/// How many slices, from the first on, have a window below `low`.
pub(crate) fn closing_end(slices: &Slices, low: u64) -> usize
    ensures within { result ≤ length slices.now }
    ensures firsts { AllByRecursion (λ (r : Slice). r.first ≤ low) (take result slices.now) }
    ensures behind { (r : Slice) → Some r ≡ slice_get slices.now result → low ≤ r.first }
{
    let count = slices.len();
    for at in 0..count {
        match slices.first(at) {
            Some(first) => {
                if low <= first {
                    return at;
                }
            }
            None => return at,
        }
    }
    count
}

// Whether a task gives so few of its slices as copies that a slice costs three steps at most: two
// in its own task's queue, and one more as the task behind sums it up, or two for half of them in
// the store's.
fn are_few(copies: usize, slices: usize, earlier: usize) -> bool
    ensures half { result ≡ true → 2 * copies ≤ slices }
{
    if earlier == 0 {
        copies <= slices / 2
    } else {
        copies == 0
    }
}

impl Group<'_> {
    // The queue of the windows from `low` on, with the rows before a task: one step for each of
    // their slices, and none is owed. None of the windows below that they begin is closed by them.
    fn open_behind<L: Ledger>(
        &self,
        alloc: Global,
        earlier: &Batch,
        low: u64,
        steps: &mut Steps<L>,
    ) -> Result<Open, NoMemory>
        requires fits { RowsFit (tree_of self.now) earlier.now.before earlier.now.rows.now }
        requires low { closed_by (tree_of self.now) earlier.now.before earlier.now.rows.now ≤ low }
        ensures next { IfOk result (λ o. o.next ≡ low) }
        ensures slices { IfOk result (λ o. Holds (tree_of self.now) earlier.now.before earlier.now.rows.now low o.slices.entries) }
        ensures owed { IfOk result (λ o. o.slices.owed ≡ 0) }
        ensures steps { OnOk result (steps.new ≤ steps.old + length earlier.now.rows.now) }
    {
        let _plan = &self.plan;
        let (slices, _) = self.slices_of(alloc, earlier)?;
        let mut rest = slices;
        let mut front = Front::empty(alloc);
        while rest.len() > 0 {
            match rest.wait_first(alloc, low, &mut front) {
                Ok(()) => {}
                Err(want) => {
                    front.let_go();
                    rest.let_go();
                    return Err(want);
                }
            }
        }
        rest.let_go();
        Ok(Open {
            next: low,
            slices: front.into_queue(alloc, steps)?,
        })
    }

    /// What a task answers itself, of its slices: the windows up to `high` that lie whole in it and
    /// these rows before it. It takes its slices in as the store would, in as many steps, behind a
    /// queue of those rows. The windows that begin before have the slices that are given back,
    /// which are copies. Where these would be too many, or no window lies whole, the slices are
    /// given back as they are.
    pub(crate) fn completed<L: Ledger>(
        &self,
        alloc: Global,
        earlier: &Earlier,
        batch: &Batch,
        slices: Slices,
        high: u64,
        steps: &mut Steps<L>,
    ) -> Result<(Slices, Option<Complete>), NoMemory>
        requires meets { batch.now.before ≡ mark_after earlier.now.before earlier.now.rows }
        requires fits { RowsFit (tree_of self.now) earlier.now.before (earlier.now.rows ++ batch.now.rows.now) }
        requires slices { SlicesFrom (tree_of self.now) batch.now.before batch.now.rows.now 0 slices }
        requires high { high ≡ closed_count (frame (tree_of self.now)) (end_mark batch.now.ended (mark_after batch.now.before batch.now.rows.now)) }
        ensures gives { IfOk result (λ r. Gives (tree_of self.now) earlier.now batch.now.before batch.now.rows.now batch.now.ended r.0 r.1) }
        ensures few { IfOk result (λ r. IfSome r.1 (λ c. 2 * length r.0 ≤ length slices)) }
        ensures steps { IfOk result (λ r. TaskSteps (length earlier.now.rows) (length slices) r.1 steps.old steps.new) }
    {
        let _plan = &self.plan;
        let closed = self.closed_below(&batch.before);
        let low = self.begun_below(&earlier.before).max(closed);
        let count = closing_end(&slices, low);
        if high <= low || !are_few(count, slices.len(), earlier.rows.len()) {
            return Ok((slices, None));
        }
        let before = Batch {
            before: earlier.before,
            rows: &earlier.rows,
            ended: false,
        };
        let closing = match slices.copy_front(alloc, count) {
            Ok(closing) => closing,
            Err(want) => {
                slices.let_go();
                return Err(want);
            }
        };
        let mut open = match self.open_behind(alloc, &before, low, steps) {
            Ok(open) => open,
            Err(want) => {
                closing.let_go();
                slices.let_go();
                return Err(want);
            }
        };
        let mut text = Vec::new(alloc);
        let mut each = Output::Each;
        match self.take_slices(alloc, &mut open, slices, high, &mut each, &mut text, steps) {
            Ok(()) => {
                each.let_go();
                Ok((closing, Some(Complete { low, text, open })))
            }
            Err(want) => {
                each.let_go();
                closing.let_go();
                open.let_go();
                Err(want)
            }
        }
    }
}
