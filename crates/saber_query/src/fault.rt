// Why a text is no query, and where.
ghost use Rattle.std.specs.Prelude.{◌≡◌};
ghost use Rattle.saber_query.specs.declared.fault.QueryFault.TheVariants.{NoMemory};

use std::alloc::{AllocError, AllocFailed};

/// What is wrong with a text or its query. The first five are of the text, found by `parse`, the
/// others of the query that it means, found by the checks that follow. Where several begin at one
/// word, the earlier here is told.
#[derive(Clone, Copy, PartialEq, Eq)]
pub enum Cause {
    /// More than 65,536 bytes.
    TooLong,
    /// A byte that begins no token.
    BadByte,
    /// A number above 2^63.
    NumberRange,
    /// A token that the grammar doesn't allow there, or a text that ends too early.
    Syntax,
    /// A NOT or an opening parenthesis inside 64 others.
    Depth,
    /// A stream or a column declared a second time, or a stream that FROM names twice.
    DuplicateName,
    /// A stream that isn't declared.
    UnknownStream,
    /// A column that isn't declared.
    UnknownColumn,
    /// A column that both streams have, without its stream's name.
    Ambiguous,
    /// More streams, columns, items or keys than the limits allow.
    TooMany,
    /// A size or slide of a window that is zero or too large.
    WindowRange,
    /// Windows that lie over one another too often.
    Overlap,
    /// Parts of a query that don't go together.
    Shape,
    /// An item beside an aggregate that is no column of GROUP BY or PARTITION BY.
    NotGrouped,
    /// An expression whose value may need too many bits.
    ExprTooWide,
    /// A sum whose value may need too many bits.
    SumTooWide,
}

/// A fault of a text: its cause and the byte where it stands, or want of memory.
#[derive(Clone, Copy)]
pub enum QueryFault {
    /// Memory ran out.
    NoMemory,
    /// The cause, and the byte where the token at fault begins, or the text's length where a token
    /// lacks.
    At { byte: u64, cause: Cause },
}

impl From<AllocError> for QueryFault {
    ghost from_gives = { λ _ e. e ≡ NoMemory };

    fn from(_: AllocError) -> QueryFault {
        QueryFault::NoMemory
    }
}

impl<T: Drop> From<AllocFailed<T>> for QueryFault {
    ghost from_gives = { λ _ e. e ≡ NoMemory };

    fn from(_: AllocFailed<T>) -> QueryFault {
        QueryFault::NoMemory
    }
}
