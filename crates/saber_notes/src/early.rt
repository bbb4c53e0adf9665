// The ends of `many` before any query is run.
use saber_query::Cause;
use std::alloc::{AllocError, AllocFailed};

/// How a call with several queries over one input ends where none of them is run. Queries are
/// numbered from 1.
#[derive(Clone, Copy)]
pub enum Early {
    /// The words are no command.
    Usage,
    /// The file of this query can't be opened.
    QueryUnopened { query: u64 },
    /// The file of this query can't be read.
    QueryUnread { query: u64 },
    /// The text of this query has this fault, first of all, at this byte (counted from 0).
    QueryFault { query: u64, byte: u64, cause: Cause },
    /// This query can't share the input of the first one: it has two streams, or another number of
    /// columns.
    Unshareable { query: u64 },
    /// The left file can't be opened.
    LeftUnopened,
    /// The file that this query writes to can't be created.
    CreateFault { query: u64 },
    /// Want of memory.
    NoMemory,
}

impl Early {
    ghost use Rattle.std.specs.Prelude.{◌≡◌};
    ghost use Rattle.saber_notes.specs.ManyNotes.{early_status};

    /// The status that the process ends with.
    pub fn status(self) -> u8
        ensures { result ≡ early_status self }
    {
        match self {
            Early::Usage => 2,
            Early::QueryUnopened { .. } => 5,
            Early::QueryUnread { .. } => 5,
            Early::QueryFault { .. } => 3,
            Early::Unshareable { .. } => 3,
            Early::LeftUnopened => 5,
            Early::CreateFault { .. } => 6,
            Early::NoMemory => 8,
        }
    }
}

impl From<AllocError> for Early {
    ghost use Rattle.std.specs.Prelude.{◌≡◌};
    ghost use Rattle.saber_notes.specs.declared.early.Early.{Early};

    ghost from_gives = { λ _ early. early ≡ Early.NoMemory };

    fn from(_: AllocError) -> Self {
        Early::NoMemory
    }
}

impl<T: Drop> From<AllocFailed<T>> for Early {
    ghost use Rattle.std.specs.Prelude.{◌≡◌};
    ghost use Rattle.saber_notes.specs.declared.early.Early.{Early};

    ghost from_gives = { λ _ early. early ≡ Early.NoMemory };

    fn from(_: AllocFailed<T>) -> Self {
        Early::NoMemory
    }
}
