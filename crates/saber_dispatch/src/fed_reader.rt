// The rows of a feed.
ghost use Rattle.std.specs.Prelude.{◌≡◌, ◌≢◌, ◌≤◌};
ghost use Rattle.saber_plan.specs.Outputs.{Rose};
ghost use Rattle.saber_plan.specs.declared.rows.Side.{Side};
ghost use Rattle.saber_rows.specs.Reader.{reader_of};
ghost use Rattle.saber_dispatch.specs.declared.ends.End.{End};
ghost use Rattle.saber_dispatch.specs.declared.fed_reader.Got.{Got};
ghost use Rattle.saber_dispatch.specs.Readings.{one, reading_of, Suits, IsOpen};
ghost use Rattle.saber_dispatch.specs.FedReadings.{only, got_of, FedSteps, IsSeen, TellsOf, LeavesKnown};

use crate::ends::{End, end_at};
use crate::reader::Reader;
use saber_io::Feed;
use saber_plan::{Row, Side};
use saber_rows::{FedRow, Lines, RowEnd};

/// What a reader gives of a feed.
#[derive(Drop)]
pub(crate) enum Got {
    Row(Row),
    /// Nothing is there as yet.
    Dry,
    Ended(End),
}

// What the reader's answer says.
fn got_of(answer: Result<FedRow, RowEnd>) -> Got
    ensures { result ≡ got_of answer }
{
    match answer {
        Ok(FedRow::Row(row)) => Got::Row(row),
        Ok(FedRow::End) => Got::Ended(End::AllRead),
        Ok(FedRow::NotYet) => Got::Dry,
        Err(end) => Got::Ended(end_at(Side::Left, end)),
    }
}

// The next row of the only input.
fn next_of_feed<F: Feed>(lines: &mut Lines, feed: &mut F) -> Got
    ensures step { FedSteps result (one (reader_of lines.old)) (one (reader_of lines.new)) (only (F.waiting feed.old)) (only (F.waiting feed.new)) }
    ensures seen { IsSeen (one (reader_of lines.old)) (F.mark feed.old) → IsSeen (one (reader_of lines.new)) (F.mark feed.old) }
    ensures told { TellsOf result (one (reader_of lines.old)) (F.waiting feed.new) (F.mark feed.old) }
    ensures known { LeavesKnown result (one (reader_of lines.old)) (one (reader_of lines.new)) (F.waiting feed.old) (F.waiting feed.new) (F.mark feed.old) }
    ensures cause { IsOpen (one (reader_of lines.old)) → (side : Side) → result ≡ Got.Ended (End.ReadFault side) → Rose (F.faults feed.old) (F.faults feed.new) }
    ensures good { ((side : Side) → result ≢ Got.Ended (End.ReadFault side)) → F.faults feed.new ≡ F.faults feed.old }
    ensures count { F.faults feed.old ≤ F.faults feed.new }
    ensures stands { (F.taken feed.new ≡ F.taken feed.old) × (F.mark feed.new ≡ F.mark feed.old) }
{
    got_of(lines.next_fed(feed))
}

impl Reader {
    /// The next row of a feed, which is the only input, or that nothing is there as yet, or why
    /// none comes. It is called with the same feed each time.
    pub(crate) fn next_fed<F: Feed>(&mut self, feed: &mut F) -> Got
        requires { Suits (reading_of self.old) (only (F.waiting feed.old)) }
        ensures step { FedSteps result (reading_of self.old) (reading_of self.new) (only (F.waiting feed.old)) (only (F.waiting feed.new)) }
        ensures seen { IsSeen (reading_of self.old) (F.mark feed.old) → IsSeen (reading_of self.new) (F.mark feed.old) }
        ensures told { TellsOf result (reading_of self.old) (F.waiting feed.new) (F.mark feed.old) }
        ensures known { LeavesKnown result (reading_of self.old) (reading_of self.new) (F.waiting feed.old) (F.waiting feed.new) (F.mark feed.old) }
        ensures cause { IsOpen (reading_of self.old) → (side : Side) → result ≡ Got.Ended (End.ReadFault side) → Rose (F.faults feed.old) (F.faults feed.new) }
        ensures good { ((side : Side) → result ≢ Got.Ended (End.ReadFault side)) → F.faults feed.new ≡ F.faults feed.old }
        ensures count { F.faults feed.old ≤ F.faults feed.new }
        ensures stands { (F.taken feed.new ≡ F.taken feed.old) × (F.mark feed.new ≡ F.mark feed.old) }
    {
        match self {
            Reader::One(lines) => next_of_feed(lines, feed),
            Reader::Two(_) => unreachable!(),
        }
    }
}
