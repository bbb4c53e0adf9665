// What a task gives: its slices.
ghost use Rattle.std.specs.Prelude.{◌≡◌, ◌<◌, ◌≤◌, ◌++◌, ◌∷◌, [], None, length, IfOk, OnOk};
ghost use Rattle.saber_plan.specs.Trees.{tree_of};
ghost use Rattle.saber_plan.specs.Windows.{mark_after, end_mark};
ghost use Rattle.saber_plan.specs.GivenRows.{RowsFit};
ghost use Rattle.saber_group.specs.SlicePieces.{Gives, SlicesFrom, TaskSteps};

use crate::batch::Batch;
use crate::complete::{Complete, closing_end};
use crate::group::Group;
use crate::letting::{let_groups_go, let_part_go, let_spans_go};
use crate::slice_list::{Listed, Slices};
use crate::slices::Slice;
use saber_fragment::Earlier;
use saber_partial::{Gathering, OneGathering, Steps};
use saber_plan::{Mark, NoMemory};
use saber_window::end_mark;
use std::alloc::Global;
use std::collections::VecDeque;
use std::sync::ledger::{Blank, Ledger};

/// The slices of a task's rows, in order, with the mark behind the rows, which has the input's end
/// if that comes there. Where the task answers windows itself, the slices are those of the windows
/// that it doesn't answer.
#[derive(Drop)]
pub struct SlicePiece {
    pub(crate) slices: Slices,
    pub(crate) complete: Option<Complete>,
    pub(crate) after: Mark,
}

// Where there is no slice yet, room for those of so many rows, if each is as long as the first, and
// for 1,025 at most.
fn room_for_first(slices: &mut VecDeque<Slice>, rows: usize, first: usize) -> Result<(), NoMemory>
    requires { 1 ≤ first }
    ensures { slices.new.items ≡ slices.old.items }
{
    if slices.is_empty() {
        slices.try_reserve_exact((rows / first).min(1024) + 1)?;
    }
    Ok(())
}

// Puts a slice of a task of so many rows behind others.
#[inline]
fn keep_slice(slices: &mut VecDeque<Slice>, rows: usize, slice: Slice) -> Result<(), NoMemory>
    requires { 1 ≤ slice.end }
    ensures { OnOk result (slices.new.items ≡ slices.old.items ++ slice ∷ []) }
{
    match room_for_first(slices, rows, slice.end) {
        Ok(()) => {}
        Err(want) => {
            slice.let_go();
            return Err(want);
        }
    }
    slices.push_back(slice)?;
    Ok(())
}

impl Group<'_> {
    // The slices of some rows where parts may have many groups, and the mark behind these.
    fn groups_of(&self, alloc: Global, batch: &Batch) -> Result<(VecDeque<Slice>, Mark), NoMemory>
        requires { RowsFit (tree_of self.now) batch.now.before batch.now.rows.now }
        ensures slices { IfOk result (λ r. SlicesFrom (tree_of self.now) batch.now.before batch.now.rows.now 0 r.0.items) }
        ensures mark { IfOk result (λ r. r.1 ≡ mark_after batch.now.before batch.now.rows.now) }
    {
        let mut slices = VecDeque::new(alloc);
        let mut part = Gathering::empty(alloc);
        let mut mark = batch.before;
        let mut from = 0;
        while from < batch.rows.len() {
            let slice = match self.slice_from(alloc, batch, from, &mark, &mut part) {
                Ok(slice) => slice,
                Err(want) => {
                    let_groups_go(slices);
                    let_part_go(part);
                    return Err(want);
                }
            };
            mark = self.mark_behind(batch, from, slice.end, &mark);
            from = slice.end;
            match keep_slice(&mut slices, batch.rows.len(), slice) {
                Ok(()) => {}
                Err(want) => {
                    let_groups_go(slices);
                    let_part_go(part);
                    return Err(want);
                }
            }
        }
        let_part_go(part);
        Ok((slices, mark))
    }

    // The same where a part has one group at most, without a key.
    fn ones_of(&self, alloc: Global, batch: &Batch) -> Result<(Slices, Mark), NoMemory>
        requires fits { RowsFit (tree_of self.now) batch.now.before batch.now.rows.now }
        requires keyless { (tree_of self.now).keys ≡ [] }
        ensures slices { IfOk result (λ r. SlicesFrom (tree_of self.now) batch.now.before batch.now.rows.now 0 r.0) }
        ensures mark { IfOk result (λ r. r.1 ≡ mark_after batch.now.before batch.now.rows.now) }
    {
        let mut spans = Vec::new(alloc);
        let mut parts = OneGathering::empty(alloc);
        match self.spans_of(batch, &mut spans, &mut parts) {
            Ok(mark) => {
                let parts = parts.into_parts();
                let listed = Listed::Ones {
                    spans,
                    next: 0,
                    parts,
                };
                Ok((Slices { listed }, mark))
            }
            Err(want) => {
                let_spans_go(spans, parts);
                Err(want)
            }
        }
    }

    /// The slices of some rows, and the mark behind these. Each row is looked at once.
    pub(crate) fn slices_of(&self, alloc: Global, batch: &Batch) -> Result<(Slices, Mark), NoMemory>
        requires { RowsFit (tree_of self.now) batch.now.before batch.now.rows.now }
        ensures slices { IfOk result (λ r. SlicesFrom (tree_of self.now) batch.now.before batch.now.rows.now 0 r.0) }
        ensures mark { IfOk result (λ r. r.1 ≡ mark_after batch.now.before batch.now.rows.now) }
    {
        if self.has_no_key() {
            return self.ones_of(alloc, batch);
        }
        let (slices, mark) = self.groups_of(alloc, batch)?;
        let listed = Listed::Groups(slices);
        Ok((Slices { listed }, mark))
    }

    /// The piece of a task that answers no window: what its first one prints stands on the window
    /// before.
    pub(crate) fn all_slices(&self, alloc: Global, batch: &Batch) -> Result<SlicePiece, NoMemory>
        requires { RowsFit (tree_of self.now) batch.now.before batch.now.rows.now }
        ensures slices { IfOk result (λ p. SlicesFrom (tree_of self.now) batch.now.before batch.now.rows.now 0 p.slices) }
        ensures none { IfOk result (λ p. p.complete ≡ None) }
        ensures after { IfOk result (λ p. p.after ≡ end_mark batch.now.ended (mark_after batch.now.before batch.now.rows.now)) }
    {
        let (slices, mark) = self.slices_of(alloc, batch)?;
        let after = end_mark(batch.ended, &mark);
        Ok(SlicePiece {
            slices,
            complete: None,
            after,
        })
    }

    // Whether a task is to look at the rows before its own: where most of its slices are of windows
    // that begin there, and it closes one for 32 of these rows at least.
    fn looks_back(&self, earlier: &Earlier, before: &Mark, slices: &Slices, high: u64) -> bool {
        let windows = high.saturating_sub(self.closed_below(before));
        closing_end(slices, self.begun_below(before)) > slices.len() / 2
            && earlier.rows.len() as u64 / 32 <= windows
    }

    /// The piece of a task, whose block has these rows of those before its own.
    pub(crate) fn piece_of<L: Ledger>(
        &self,
        alloc: Global,
        earlier: &Earlier,
        batch: &Batch,
        steps: &mut Steps<L>,
    ) -> Result<SlicePiece, NoMemory>
        requires fits { RowsFit (tree_of self.now) batch.now.before batch.now.rows.now }
        requires meets { batch.now.before ≡ mark_after earlier.now.before earlier.now.rows }
        requires all_fit { RowsFit (tree_of self.now) earlier.now.before (earlier.now.rows ++ batch.now.rows.now) }
        ensures gives { IfOk result (λ p. Gives (tree_of self.now) earlier.now batch.now.before batch.now.rows.now batch.now.ended p.slices p.complete) }
        ensures after { IfOk result (λ p. p.after ≡ end_mark batch.now.ended (mark_after batch.now.before batch.now.rows.now)) }
        ensures steps { IfOk result (λ p. TaskSteps (length earlier.now.rows) (length batch.now.rows.now) p.complete steps.old steps.new) }
    {
        let (slices, mark) = self.slices_of(alloc, batch)?;
        let after = end_mark(batch.ended, &mark);
        let high = self.closed_below(&after);
        let none = Earlier::none(alloc, batch.before);
        let (slices, complete) = if self.looks_back(earlier, &batch.before, &slices, high) {
            self.completed(alloc, earlier, batch, slices, high, steps)?
        } else {
            self.completed(alloc, &none, batch, slices, high, steps)?
        };
        Ok(SlicePiece {
            slices,
            complete,
            after,
        })
    }

    /// The same, where nobody asks for the steps.
    pub(crate) fn piece_uncounted<L: Ledger>(
        &self,
        alloc: Global,
        earlier: &Earlier,
        batch: &Batch,
        blank: Blank,
    ) -> Result<SlicePiece, NoMemory>
        requires fits { RowsFit (tree_of self.now) batch.now.before batch.now.rows.now }
        requires meets { batch.now.before ≡ mark_after earlier.now.before earlier.now.rows }
        requires all_fit { RowsFit (tree_of self.now) earlier.now.before (earlier.now.rows ++ batch.now.rows.now) }
        requires name { blank.name ≡ L.name }
        requires parts { blank.parts ≡ L.parts }
        requires some { 0 < blank.parts }
        ensures gives { IfOk result (λ p. Gives (tree_of self.now) earlier.now batch.now.before batch.now.rows.now batch.now.ended p.slices p.complete) }
        ensures after { IfOk result (λ p. p.after ≡ end_mark batch.now.ended (mark_after batch.now.before batch.now.rows.now)) }
    {
        let mut steps = Steps::<L>::new(blank);
        self.piece_of(alloc, earlier, batch, &mut steps)
    }
}
