// Rows that lie in the same windows.
ghost use Rattle.std.specs.Prelude.{◌≡◌, ◌&&◌, ◌≤◌, ◌<◌, ◌++◌, [], ◌∷◌, length, take, OnOk, IfOk};
ghost use Rattle.saber_plan.specs.Values.{passes};
ghost use Rattle.saber_plan.specs.Windows.{mark_after};
ghost use Rattle.saber_plan.specs.Parts as p;
ghost use Rattle.saber_plan.specs.Trees.{tree_of};
ghost use Rattle.saber_plan.specs.GivenRows.{IsRowOf, RowsFit};
ghost use Rattle.saber_partial.specs.Tallies.{CanMerge};
ghost use Rattle.saber_partial.specs.Ones.{AreOf};
ghost use Rattle.saber_group.specs.SliceParts.{IsSlice, with_row};
ghost use Rattle.saber_group.specs.SlicePieces.{SlicesFrom};
ghost use Rattle.saber_group.specs.SliceLists.{part_in, spans_left, Grew, Stands};

use crate::batch::Batch;
use crate::group::Group;
use crate::slice_list::Span;
use saber_eval::passes;
use saber_flat::RowRef;
use saber_partial::{Gathering, OneGathering, Partial};
use saber_plan::{Mark, NoMemory};
use std::alloc::Global;

/// Some rows of a task, one after another, that lie in the windows from `first` up to `past` and in
/// no other, with their part (SABER 2016: a pane). It is worked out once, and goes into each of
/// these windows. Behind it comes row `end`.
#[derive(Drop)]
pub(crate) struct Slice {
    pub(crate) first: u64,
    pub(crate) past: u64,
    pub(crate) end: usize,
    pub(crate) part: Partial,
}

impl Slice {
    /// The same with memory of its own.
    pub(crate) fn copy(&self, alloc: Global) -> Result<Slice, NoMemory>
        ensures { IfOk result (λ r. r ≡ self.now) }
    {
        Ok(Slice {
            first: self.first,
            past: self.past,
            end: self.end,
            part: self.part.copy(alloc)?,
        })
    }
}

// Puts a slice of a task of so many rows behind others. Where there is none yet, it makes room for
// those of so many rows, if each is as long as the first, and for 1,025 at most.
#[inline(always)]
fn keep_span(spans: &mut Vec<Span>, rows: usize, span: Span) -> Result<(), NoMemory>
    requires { 1 ≤ span.end }
    ensures { OnOk result (spans.new.items ≡ spans.old.items ++ span ∷ []) }
{
    if spans.is_empty() {
        spans.try_reserve_exact((rows / span.end).min(1024) + 1)?;
    }
    spans.push(span)?;
    Ok(())
}

impl Group<'_> {
    // Whether a row counts: if it is wanted, and passes WHERE.
    #[tactic(auto, using(saber_eval::proofs::FittingLaws::group_fits))]
    #[inline]
    fn counts(&self, is_wanted: bool, row: &RowRef) -> bool
        requires { IsRowOf (tree_of self.now) row.now }
        ensures { result ≡ is_wanted && passes (tree_of self.now).predicate row.now.values [] }
    {
        is_wanted && passes(self.plan, row)
    }

    // Adds a row to a part, if it counts.
    #[tactic(auto, using(crate::proofs::GroupPlans::row_fits))]
    fn add_row(
        &self,
        alloc: Global,
        is_wanted: bool,
        row: &RowRef,
        part: &mut Gathering,
    ) -> Result<(), NoMemory>
        requires row { IsRowOf (tree_of self.now) row.now }
        requires room { CanMerge part.old (p.group_part (tree_of self.now) (row.now.values ∷ [])) }
        ensures { OnOk result (part.new ≡ with_row (tree_of self.now) is_wanted part.old row.now) }
    {
        if self.counts(is_wanted, row) {
            part.add_row(alloc, &self.aggregates, row)?;
        }
        Ok(())
    }

    // The part of one row, if it counts.
    #[tactic(auto, using(crate::proofs::GroupPlans::row_fits))]
    fn part_of_row(&self, alloc: Global, is_wanted: bool, row: &RowRef) -> Result<Partial, NoMemory>
        requires { IsRowOf (tree_of self.now) row.now }
        ensures { IfOk result (λ part. part ≡ with_row (tree_of self.now) is_wanted p.no_part row.now) }
    {
        if self.counts(is_wanted, row) {
            return Partial::of_row(alloc, &self.aggregates, row);
        }
        Ok(Partial::empty(alloc))
    }

    /// The rows from row `from` on that lie in the windows of this one, before which `mark` stands.
    /// Where they end is worked out first, so that none of them is asked for its windows. They are
    /// gathered in `part`, which has no group before and behind, and whose memory serves one slice
    /// after another.
    pub(crate) fn slice_from(
        &self,
        alloc: Global,
        batch: &Batch,
        from: usize,
        mark: &Mark,
        part: &mut Gathering,
    ) -> Result<Slice, NoMemory>
        requires fits { RowsFit (tree_of self.now) batch.now.before batch.now.rows.now }
        requires there { from < length batch.now.rows.now }
        requires mark { mark.now ≡ mark_after batch.now.before (take from batch.now.rows.now) }
        requires none { part.old ≡ p.no_part }
        ensures slice { IfOk result (λ r. IsSlice (tree_of self.now) batch.now.before batch.now.rows.now from r.end r.first r.past r.part) }
        ensures more { IfOk result (λ r. from < r.end) }
        ensures within { IfOk result (λ r. r.end ≤ length batch.now.rows.now) }
        ensures none { OnOk result (part.new ≡ p.no_part) }
    {
        let _plan = &self.plan;
        let rows = batch.rows;
        let row = rows.row(from);
        let (first, past) = self.row_windows(&row, mark);
        let end = self.slice_end(batch, from, mark);
        let has_windows = first < past;
        if end == from + 1 {
            return Ok(Slice {
                first,
                past,
                end,
                part: self.part_of_row(alloc, has_windows, &row)?,
            });
        }
        for i in from..end {
            self.add_row(alloc, has_windows, &rows.row(i), part)?;
        }
        Ok(Slice {
            first,
            past,
            end,
            part: part.take_part(alloc)?,
        })
    }

    // Adds a row to a part without a key, if it counts.
    #[tactic(auto, using(crate::proofs::GroupPlans::row_fits))]
    #[inline(always)]
    fn add_one(
        &self,
        is_wanted: bool,
        row: &RowRef,
        part: &mut OneGathering,
    ) -> Result<(), NoMemory>
        requires row { IsRowOf (tree_of self.now) row.now }
        requires keyless { (tree_of self.now).keys ≡ [] }
        requires others { AreOf (tree_of self.now) part.old.done }
        requires room { CanMerge part.old.last (p.group_part (tree_of self.now) (row.now.values ∷ [])) }
        ensures done { part.new.done ≡ part.old.done }
        ensures last { OnOk result (part.new.last ≡ with_row (tree_of self.now) is_wanted part.old.last row.now) }
    {
        if self.counts(is_wanted, row) {
            part.add_row(&self.aggregates, row)?;
        }
        Ok(())
    }

    // The same as `slice_from` where a part has one group at most, without a key. The part stands
    // behind those that are done.
    #[inline(always)]
    fn span_from(
        &self,
        batch: &Batch,
        from: usize,
        mark: &Mark,
        part: &mut OneGathering,
    ) -> Result<Span, NoMemory>
        requires fits { RowsFit (tree_of self.now) batch.now.before batch.now.rows.now }
        requires keyless { (tree_of self.now).keys ≡ [] }
        requires there { from < length batch.now.rows.now }
        requires mark { mark.now ≡ mark_after batch.now.before (take from batch.now.rows.now) }
        requires others { AreOf (tree_of self.now) part.old.done }
        requires none { part.old.last ≡ p.no_part }
        ensures slice { IfOk result (λ r. IsSlice (tree_of self.now) batch.now.before batch.now.rows.now from r.end r.first r.past (part_in part.new.done r.part)) }
        ensures stands { IfOk result (λ r. Stands part.new.done r.part) }
        ensures grew { OnOk result (Grew part.old.done part.new.done) }
        ensures all { OnOk result (AreOf (tree_of self.now) part.new.done) }
        ensures none { OnOk result (part.new.last ≡ p.no_part) }
        ensures more { IfOk result (λ r. from < r.end) }
        ensures within { IfOk result (λ r. r.end ≤ length batch.now.rows.now) }
    {
        let _plan = &self.plan;
        let rows = batch.rows;
        let row = rows.row(from);
        let (first, past) = self.row_windows(&row, mark);
        let end = self.slice_end(batch, from, mark);
        let has_windows = first < past;
        for i in from..end {
            self.add_one(has_windows, &rows.row(i), part)?;
        }
        let place = part.end();
        Ok(Span {
            first,
            past,
            end,
            part: place,
        })
    }

    /// The slices of some rows into an empty list, and their parts into another. Tells the mark
    /// behind these rows.
    pub(crate) fn spans_of(
        &self,
        batch: &Batch,
        spans: &mut Vec<Span>,
        parts: &mut OneGathering,
    ) -> Result<Mark, NoMemory>
        requires fits { RowsFit (tree_of self.now) batch.now.before batch.now.rows.now }
        requires keyless { (tree_of self.now).keys ≡ [] }
        requires none { spans.old.items ≡ [] }
        requires no_part { parts.old.done ≡ [] }
        requires no_row { parts.old.last ≡ p.no_part }
        ensures slices { OnOk result (SlicesFrom (tree_of self.now) batch.now.before batch.now.rows.now 0 (spans_left parts.new.done spans.new.items)) }
        ensures last { OnOk result (parts.new.last ≡ p.no_part) }
        ensures mark { IfOk result (λ m. m ≡ mark_after batch.now.before batch.now.rows.now) }
    {
        let mut mark = batch.before;
        let mut from = 0;
        while from < batch.rows.len() {
            let span = self.span_from(batch, from, &mark, parts)?;
            mark = self.mark_behind(batch, from, span.end, &mark);
            from = span.end;
            keep_span(spans, batch.rows.len(), span)?;
        }
        Ok(mark)
    }
}
