// Why no more blocks come.
use saber_plan::{RowCause, Side};
use saber_rows::RowEnd;

/// Why no more blocks come of some inputs.
#[derive(Clone, Copy)]
pub enum End {
    /// All rows are in blocks.
    AllRead,
    /// A line is refused; the rows before it are in blocks.
    Bad {
        /// The input that it stands in.
        side: Side,
        /// Its number, from 1 on.
        line: u64,
        /// Why it is refused.
        cause: RowCause,
    },
    /// An input can't be read; the whole tasks before that are blocks.
    ReadFault {
        /// Which input.
        side: Side,
    },
    /// A task needs the rows of more tasks than there is room for.
    TooWide {
        /// The first task that does, from 0 on.
        task: u64,
        /// How many it needs, its own counted.
        need: u64,
    },
    /// Want of memory.
    NoMemory,
}

ghost use Rattle.std.specs.Prelude.{◌≡◌};
ghost use Rattle.saber_dispatch.specs.Readings.{end_at};

/// The end that a side's reader tells.
pub(crate) fn end_at(side: Side, end: RowEnd) -> End
    ensures { result ≡ end_at side end }
{
    match end {
        RowEnd::ReadFault => End::ReadFault { side },
        RowEnd::NoMemory => End::NoMemory,
        RowEnd::Bad { line, cause } => End::Bad { side, line, cause },
    }
}
