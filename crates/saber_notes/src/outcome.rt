// The ends of a call.
ghost use Rattle.std.specs.Prelude.{◌≡◌};

use saber_plan::{RowCause, Side};
use saber_query::Cause;
use std::alloc::AllocError;

/// A file that a command names.
#[derive(Clone, Copy, PartialEq, Eq)]
pub enum InputFile {
    Query,
    Left,
    Right,
    /// The query over the answer of another.
    SecondQuery,
}

/// How a call of the program ends.
#[derive(Clone, Copy, PartialEq, Eq)]
pub enum Outcome {
    /// All is answered.
    Done,
    /// The words are no command.
    Usage,
    /// The query names another number of streams than the command names files.
    FileCount {
        streams: u64,
        files: u64,
    },
    /// The query's text has this fault, first of all, at this byte (counted from 0).
    QueryFault {
        byte: u64,
        cause: Cause,
    },
    /// The text of the second query of a chain has this fault, in the same way.
    SecondQueryFault {
        byte: u64,
        cause: Cause,
    },
    /// The query of a chain that this file has is none for its place: the first one is a selection
    /// without a stream word, whose lines have no number of a window, or has PARTITION BY, under
    /// which the numbers may fall; or the second one is a join.
    Unchainable(InputFile),
    /// A line of a row file is refused; lines count from 1.
    LineRefused {
        side: Side,
        line: u64,
        cause: RowCause,
    },
    /// The second query of a chain refuses a line of the first one's answer; lines count from 1.
    ChainLineRefused {
        line: u64,
        cause: RowCause,
    },
    /// A file can't be opened.
    OpenFault(InputFile),
    /// A file can't be read.
    ReadFault(InputFile),
    /// The answer can't be written.
    WriteFault,
    /// A task of a join needs the rows of more tasks than the ring has room for, its own counted.
    TooWide {
        task: u64,
        need: u64,
        ring: u64,
    },
    /// Want of memory.
    NoMemory,
}

impl Outcome {
    ghost use Rattle.saber_notes.specs.Notes.{status_of};

    /// The status that the process ends with.
    pub fn status(self) -> u8
        ensures { result ≡ status_of self }
    {
        match self {
            Outcome::Done => 0,
            Outcome::Usage => 2,
            Outcome::FileCount { .. } => 2,
            Outcome::QueryFault { .. } => 3,
            Outcome::SecondQueryFault { .. } => 3,
            Outcome::Unchainable(_) => 3,
            Outcome::LineRefused { .. } => 4,
            Outcome::ChainLineRefused { .. } => 4,
            Outcome::OpenFault(_) => 5,
            Outcome::ReadFault(_) => 5,
            Outcome::WriteFault => 6,
            Outcome::TooWide { .. } => 7,
            Outcome::NoMemory => 8,
        }
    }
}

impl From<AllocError> for Outcome {
    ghost use Rattle.std.specs.Prelude.{◌≡◌};
    ghost use Rattle.saber_notes.specs.declared.outcome.Outcome.{Outcome};

    ghost from_gives = { λ _ outcome. outcome ≡ Outcome.NoMemory };

    fn from(_: AllocError) -> Self {
        Outcome::NoMemory
    }
}
