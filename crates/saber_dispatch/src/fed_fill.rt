// The rows of one block of a feed.
ghost use Rattle.std.specs.Prelude.{◌≡◌, ◌≢◌, ◌≤◌, [], ◌∷◌, ◌++◌, length, OnOk};
ghost use Rattle.saber_plan.specs.Outputs.{Rose};
ghost use Rattle.saber_plan.specs.declared.rows.Side.{Side};
ghost use Rattle.saber_dispatch.specs.declared.ends.End.{End};
ghost use Rattle.saber_dispatch.specs.declared.fed_fill.Progress.{Progress};
ghost use Rattle.saber_dispatch.specs.Readings.{reading_of, IsOpen};
ghost use Rattle.saber_dispatch.specs.FedReadings.{only, AreFew, IsSeen};
ghost use Rattle.saber_dispatch.specs.FedFilling.{IsBegun, FillsFedOn, IsShortOf, ProgressTold};

use crate::ends::End;
use crate::fed_reader::Got;
use crate::reader::Reader;
use saber_flat::{RowRef, Rows};
use saber_io::Feed;
use saber_plan::{Mark, NoMemory, Row};
use saber_window::step_mark;

/// What a block has come to.
#[derive(Drop)]
pub(crate) enum Progress {
    /// All its rows are there.
    Full,
    /// Some aren't, and nothing is there as yet.
    Dry,
    /// No more come.
    Ended(End),
}

// One row more, behind the others.
fn push(rows: &mut Rows, row: Row) -> Result<(), NoMemory>
    ensures { OnOk result (rows.new ≡ rows.old ++ row ∷ []) }
{
    rows.push(&RowRef::of(&row))
}

/// Appends the next rows of a feed, until there are so many, and steps the mark over them.
pub(crate) fn fill_fed<F: Feed>(
    reader: &mut Reader,
    feed: &mut F,
    mark: &mut Mark,
    rows: &mut Rows,
    size: usize,
) -> Progress
    requires opened { IsOpen (reading_of reader.old) }
    requires few { length rows.old ≤ size }
    requires filling { IsBegun mark.old (reading_of reader.old) (only (F.waiting feed.old)) rows.old }
    requires seen { IsSeen (reading_of reader.old) (F.mark feed.old) }
    ensures fills { FillsFedOn result size mark.old mark.new (reading_of reader.old) (reading_of reader.new)
        (only (F.waiting feed.old)) (only (F.waiting feed.new)) rows.old rows.new }
    ensures seen { IsSeen (reading_of reader.new) (F.mark feed.new) }
    ensures told { ProgressTold result (F.waiting feed.new) (F.mark feed.new) }
    ensures short { AreFew size (length rows.old) (reading_of reader.old) (F.waiting feed.old) (F.mark feed.old) → IsShortOf result }
    ensures cause { (side : Side) → result ≡ Progress.Ended (End.ReadFault side) → Rose (F.faults feed.old) (F.faults feed.new) }
    ensures good { ((side : Side) → result ≢ Progress.Ended (End.ReadFault side)) → F.faults feed.new ≡ F.faults feed.old }
    ensures count { F.faults feed.old ≤ F.faults feed.new }
    ensures stands { (F.taken feed.new ≡ F.taken feed.old) × (F.mark feed.new ≡ F.mark feed.old) }
{
    'taking: while rows.len() < size {
        match reader.next_fed(feed) {
            Got::Row(row) => {
                *mark = step_mark(mark, &RowRef::of(&row));
                if push(rows, row).is_err() {
                    return Progress::Ended(End::NoMemory);
                }
            }
            Got::Dry => return Progress::Dry,
            Got::Ended(end) => return Progress::Ended(end),
        }
    }
    Progress::Full
}
