// Why a file of cases is refused.
use std::alloc::{AllocError, AllocFailed};
use std::fmt;

/// What is wrong with a line of a file of cases.
#[derive(Clone, Copy)]
pub enum Cause {
    /// A line that is no comment, no part of a text, and has no `:`.
    NoColon,
    /// A word before the `:` that means nothing.
    UnknownField,
    /// A field that its section or case has already.
    Twice,
    /// An indented line with no field before it.
    NoField,
    /// A field that stands before the first section.
    NoSection,
    /// A `\` with a byte behind it that means nothing.
    BadEscape,
    /// A text that is named and was not given before.
    UnknownText,
    /// A `\{` without its `}`, or a `\<` without its `>`.
    Unclosed,
    /// A number that can't be read, or a count of repetitions above two million.
    BadNumber,
    /// A gate that is neither a hold nor an order, or lateness that is neither yes nor no.
    UnknownWord,
    /// An order of more than 64 tasks.
    LongOrder,
    /// Words or a file's name that are no UTF-8.
    NotUtf8,
    /// A case without words.
    NoWords,
}

impl fmt::Display for Cause {
    fn fmt<W: fmt::Write>(&self, f: &mut fmt::Formatter<W>) -> fmt::Result {
        let text = match self {
            Cause::NoColon => "no colon",
            Cause::UnknownField => "unknown field",
            Cause::Twice => "field given twice",
            Cause::NoField => "indented line without a field",
            Cause::NoSection => "field before the first section",
            Cause::BadEscape => "bad escape",
            Cause::UnknownText => "unknown text",
            Cause::Unclosed => "repetition or name not closed",
            Cause::BadNumber => "bad number",
            Cause::UnknownWord => "unknown word",
            Cause::LongOrder => "order of more than 64 tasks",
            Cause::NotUtf8 => "not UTF-8",
            Cause::NoWords => "no words",
        };
        write!(f, "{text}")
    }
}

/// Why cases were not tried any further.
#[derive(Clone, Copy)]
pub enum Refused {
    /// Memory ran out.
    NoMemory,
    /// A line of the file, from 1, and what is wrong with it.
    At { line: u64, cause: Cause },
}

impl fmt::Display for Refused {
    fn fmt<W: fmt::Write>(&self, f: &mut fmt::Formatter<W>) -> fmt::Result {
        match self {
            Refused::NoMemory => write!(f, "out of memory"),
            Refused::At { line, cause } => write!(f, "line {line}: {cause}"),
        }
    }
}

impl From<AllocError> for Refused {
    fn from(_: AllocError) -> Refused {
        Refused::NoMemory
    }
}

impl<T: Drop> From<AllocFailed<T>> for Refused {
    fn from(_: AllocFailed<T>) -> Refused {
        Refused::NoMemory
    }
}
