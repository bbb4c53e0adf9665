// How a reader ends.
ghost use Rattle.std.specs.Prelude.{◌≡◌};
ghost use Rattle.saber_rows.specs.FedTurns.{answer_in};

use saber_plan::{Row, RowCause};

/// Why a reader gives no more rows, where that isn't the end of its source.
#[derive(Clone, Copy)]
pub enum RowEnd {
    /// A read failed. Comes first only in a call in which the source's count of faults rose.
    ReadFault,
    /// Want of memory, which comes only with more than eight columns or a slack.
    NoMemory,
    /// A line is refused. Lines count from 1, empty ones too.
    Bad { line: u64, cause: RowCause },
}

/// What a reader over a feed gives: a row, the end of the rows, or that nothing is there as yet.
#[derive(Drop)]
pub enum FedRow {
    Row(Row),
    End,
    NotYet,
}

// What the answer of a reader over a source is over a feed. None says that nothing is there as yet.
pub(crate) fn fed_row(answer: Option<Result<Option<Row>, RowEnd>>) -> Result<FedRow, RowEnd>
    ensures { answer_in result ≡ answer }
{
    match answer {
        None => Ok(FedRow::NotYet),
        Some(Ok(Some(row))) => Ok(FedRow::Row(row)),
        Some(Ok(None)) => Ok(FedRow::End),
        Some(Err(end)) => Err(end),
    }
}

/// The end that is known to stand behind the rows that a reader holds.
#[derive(Clone, Copy)]
pub(crate) enum Behind {
    AllRead,
    Refused { line: u64, cause: RowCause },
}

impl Behind {
    ghost use Rattle.std.specs.Prelude.{◌≡◌};
    ghost use Rattle.saber_rows.specs.Reader.{stop_behind};

    /// How a reader stops there.
    pub(crate) fn stop(self) -> Stop
        ensures { result ≡ stop_behind self }
    {
        match self {
            Behind::AllRead => Stop::AllRead,
            Behind::Refused { line, cause } => Stop::Failed(RowEnd::Bad { line, cause }),
        }
    }
}

/// What a reader that has stopped answers.
#[derive(Clone, Copy)]
pub(crate) enum Stop {
    AllRead,
    Failed(RowEnd),
}

impl Stop {
    ghost use Rattle.std.specs.Prelude.{◌≡◌};
    ghost use Rattle.saber_rows.specs.Reader.{answer_of};

    /// The answer of a reader that has stopped so.
    pub(crate) fn answer(self) -> Result<Option<Row>, RowEnd>
        ensures { result ≡ answer_of self }
    {
        match self {
            Stop::AllRead => Ok(None),
            Stop::Failed(end) => Err(end),
        }
    }
}
