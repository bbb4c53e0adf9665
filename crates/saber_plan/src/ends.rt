// The end of a run.
use crate::rows::{RowCause, Side};

/// How a run ended.
#[derive(Clone, Copy, Debug, PartialEq, Eq)]
pub enum RunEnd {
    /// All rows are answered.
    AllRead,
    /// A line was refused; the rows before it are answered. Lines count from 1.
    Bad {
        side: Side,
        line: u64,
        cause: RowCause,
    },
    /// An input can't be read.
    ReadFault {
        side: Side,
    },
    /// A task needs the rows of more tasks than the ring has room for.
    TooWide {
        task: u64,
        need: u64,
    },
    /// The answer can't be written.
    WriteFault,
    /// Want of memory.
    NoMemory,
}
