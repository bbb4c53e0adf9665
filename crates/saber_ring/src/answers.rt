//! What the calls of a seat answer. Each refusal carries the word that the call's own last step
//! found.
use crate::job::Job;
use crate::turn::Turn;
use saber_core::Work;

/// Which word hinders a fill.
#[derive(Clone, Copy, Debug, PartialEq, Eq)]
pub enum Place {
    /// The cell of the task.
    Cell,
    /// The word of the turn.
    Turn,
}

/// What `Seat::fill` answers.
pub enum Fill<W: Work> {
    /// The rows are at home, and the task is filled.
    Put,
    /// The task's cell isn't idle for it, or its block is needed by a task that isn't assembled;
    /// the rows come back.
    Full {
        place: Place,
        word: u64,
        rows: W::Rows,
    },
}

/// What `Seat::claim` answers.
pub enum Claim<W: Work> {
    Got(Job<W>),
    /// The task isn't ready.
    Not { word: u64 },
}

/// What `Seat::read` answers.
pub enum Read<W: Work> {
    /// The rows of the block, until they are put back.
    Got(W::Rows),
    /// Another seat reads the block.
    Held { word: u64 },
}

/// What `Seat::win` answers.
pub enum Win<W: Work> {
    Got(Turn<W>),
    /// Another seat has the turn, or won it between the load and the exchange.
    Held { word: u64 },
}

/// What `Seat::take` answers.
pub enum Take<W: Work> {
    /// The piece of the task after those behind the stage, or none: the mark of want of memory.
    Got(Option<W::Piece>),
    /// That task isn't done.
    NotYet { word: u64 },
}
