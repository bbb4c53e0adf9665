// The rows of one input, or those of two, merged.
ghost use Rattle.std.specs.Prelude.{◌≡◌, ◌≢◌, ◌≤◌, ◌<◌, ◌+◌, ◌-◌, ◌^◌, Err, [], length, drop};
ghost use Rattle.std.specs.List.{AllByRecursion};
ghost use Rattle.saber_plan.specs.Rows.{stamp};
ghost use Rattle.saber_plan.specs.Windows.{mark_after};
ghost use Rattle.saber_plan.specs.declared.rows.Side.{Side};
ghost use Rattle.saber_rows.specs.declared.ends.RowEnd.{RowEnd};
ghost use Rattle.saber_dispatch.specs.declared.ends.End.{End};
ghost use Rattle.saber_rows.specs.Reader.{reader_of};
ghost use Rattle.saber_rows.specs.Merging.{merger_of};
ghost use Rattle.saber_dispatch.specs.Readings.{Reads, one, two, reading_of, answer_one, answer_two, Suits, Steps, FaultsAreReal};
ghost use Rattle.saber_dispatch.specs.Filling.{TakesOn};
ghost use Rattle.saber_dispatch.specs.Sources.{each_input, NoneFell};
ghost use Rattle.saber_plan.specs.Trees.{Tree};

use crate::ends::{End, end_at};
use crate::inputs::Inputs;
use saber_flat::RowBuilder;
use saber_io::Source;
use saber_plan::{Mark, Row, Side};
use saber_rows::{Lines, Merge, RowEnd};
use saber_window::step_mark;

/// The reader of a query's inputs. Contracts see it as a `Reading`, by `reading_of`.
#[derive(Drop)]
pub(crate) enum Reader {
    One(Lines),
    Two(Merge),
}

// What the only reader's answer says.
fn answer_one(answer: Result<Option<Row>, RowEnd>) -> Result<Row, End>
    ensures { result ≡ answer_one answer }
{
    match answer {
        Ok(Some(row)) => Ok(row),
        Ok(None) => Err(End::AllRead),
        Err(end) => Err(end_at(Side::Left, end)),
    }
}

// What a merge's answer says.
fn answer_two(answer: Result<Option<Row>, (Side, RowEnd)>) -> Result<Row, End>
    ensures { result ≡ answer_two answer }
{
    match answer {
        Ok(Some(row)) => Ok(row),
        Ok(None) => Err(End::AllRead),
        Err((side, end)) => Err(end_at(side, end)),
    }
}

// The next row of one input.
fn next_of_one<S: Source>(lines: &mut Lines, inputs: &mut Inputs<S>) -> Result<Row, End>
    requires { Suits (one (reader_of lines.old)) (each_input S.left inputs.old) }
    ensures step { Steps result (one (reader_of lines.old)) (one (reader_of lines.new)) (each_input S.left inputs.old) (each_input S.left inputs.new) }
    ensures cause { FaultsAreReal result (one (reader_of lines.old)) (each_input S.faults inputs.old) (each_input S.faults inputs.new) }
    ensures good { ((side : Side) → result ≢ Err (End.ReadFault side)) → each_input S.faults inputs.new ≡ each_input S.faults inputs.old }
    ensures count { NoneFell (each_input S.faults inputs.old) (each_input S.faults inputs.new) }
{
    match inputs {
        Inputs::One(source) => answer_one(lines.next(source)),
        Inputs::Two(..) => unreachable!(),
    }
}

// The next row of two.
fn next_of_two<S: Source>(merge: &mut Merge, inputs: &mut Inputs<S>) -> Result<Row, End>
    requires { Suits (two (merger_of merge.old)) (each_input S.left inputs.old) }
    ensures step { Steps result (two (merger_of merge.old)) (two (merger_of merge.new)) (each_input S.left inputs.old) (each_input S.left inputs.new) }
    ensures cause { FaultsAreReal result (two (merger_of merge.old)) (each_input S.faults inputs.old) (each_input S.faults inputs.new) }
    ensures good { ((side : Side) → result ≢ Err (End.ReadFault side)) → each_input S.faults inputs.new ≡ each_input S.faults inputs.old }
    ensures count { NoneFell (each_input S.faults inputs.old) (each_input S.faults inputs.new) }
{
    match inputs {
        Inputs::One(..) => unreachable!(),
        Inputs::Two(left, right) => answer_two(merge.next(left, right)),
    }
}

// Appends the next rows of one input, up to so many, as far as they are held and need no second
// look, and steps the mark over them: all are of one stream, so the last of them tells its time.
#[inline(always)]
fn take_of_one(lines: &mut Lines, mark: &mut Mark, out: &mut RowBuilder, most: usize) -> usize
    requires begun { out.old.begun ≡ [] }
    requires reads { (q : Tree) × Reads q mark.old (one (reader_of lines.old)) }
    ensures most { result ≤ most }
    ensures begun { out.new.begun ≡ [] }
    ensures takes { TakesOn result mark.old mark.new (one (reader_of lines.old)) (one (reader_of lines.new)) out.old.rows out.new.rows }
{
    let taken = lines.take_quick(out, most);
    if taken == 0 {
        return 0;
    }
    let before = Mark {
        left: mark.left + (taken as u64 - 1),
        right: mark.right,
        last: mark.last,
        ended: mark.ended,
    };
    *mark = step_mark(&before, &out.row(out.len() - 1));
    taken
}

// The mark behind the rows from this one on.
fn mark_from(before: &Mark, out: &RowBuilder, from: usize) -> Mark
    requires within { from ≤ length out.now.rows }
    requires left { before.now.left + (length out.now.rows - from) < 2 ^ 63 }
    requires right { before.now.right + (length out.now.rows - from) < 2 ^ 63 }
    requires times { AllByRecursion (λ r. stamp r.values < 2 ^ 63) (drop from out.now.rows) }
    ensures { result ≡ mark_after before.now (drop from out.now.rows) }
{
    let mut mark = *before;
    for i in from..out.len() {
        let row = out.row(i);
        mark = step_mark(&mark, &row);
    }
    mark
}

// Appends the next rows of two inputs, up to so many, as far as both sides hold theirs and they
// need no second look, and steps the mark over them.
#[inline(always)]
fn take_of_two(merge: &mut Merge, mark: &mut Mark, out: &mut RowBuilder, most: usize) -> usize
    requires begun { out.old.begun ≡ [] }
    requires reads { (q : Tree) × Reads q mark.old (two (merger_of merge.old)) }
    ensures most { result ≤ most }
    ensures begun { out.new.begun ≡ [] }
    ensures takes { TakesOn result mark.old mark.new (two (merger_of merge.old)) (two (merger_of merge.new)) out.old.rows out.new.rows }
{
    let from = out.len();
    let taken = merge.take_quick(out, most);
    *mark = mark_from(mark, out, from);
    taken
}

impl Reader {
    /// Appends the next rows, up to so many, as far as the reader holds them and needs no second
    /// look at them, steps the mark over them, and answers how many they are. No input is asked.
    #[inline(always)]
    pub(crate) fn take_quick(&mut self, mark: &mut Mark, out: &mut RowBuilder, most: usize) -> usize
        requires begun { out.old.begun ≡ [] }
        requires reads { (q : Tree) × Reads q mark.old (reading_of self.old) }
        ensures most { result ≤ most }
        ensures begun { out.new.begun ≡ [] }
        ensures takes { TakesOn result mark.old mark.new (reading_of self.old) (reading_of self.new) out.old.rows out.new.rows }
    {
        match self {
            Reader::One(lines) => take_of_one(lines, mark, out, most),
            Reader::Two(merge) => take_of_two(merge, mark, out, most),
        }
    }

    /// The next row, or why none comes. It is called with the same inputs each time.
    pub(crate) fn next<S: Source>(&mut self, inputs: &mut Inputs<S>) -> Result<Row, End>
        requires { Suits (reading_of self.old) (each_input S.left inputs.old) }
        ensures step { Steps result (reading_of self.old) (reading_of self.new) (each_input S.left inputs.old) (each_input S.left inputs.new) }
        ensures cause { FaultsAreReal result (reading_of self.old) (each_input S.faults inputs.old) (each_input S.faults inputs.new) }
        ensures good { ((side : Side) → result ≢ Err (End.ReadFault side)) → each_input S.faults inputs.new ≡ each_input S.faults inputs.old }
        ensures count { NoneFell (each_input S.faults inputs.old) (each_input S.faults inputs.new) }
    {
        match self {
            Reader::One(lines) => next_of_one(lines, inputs),
            Reader::Two(merge) => next_of_two(merge, inputs),
        }
    }
}
