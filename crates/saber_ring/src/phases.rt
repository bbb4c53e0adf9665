//! The phases of a task, as the word of its cell shows them.
ghost use Rattle.std.specs.Prelude.{◌≡◌};

/// Where the word of a cell says that its task is.
#[derive(Clone, Copy)]
pub enum Phase {
    /// Free for the task.
    Idle,
    /// No word shows it.
    Filling,
    /// The task is filled, and nobody has it.
    Ready,
    /// A seat has the task.
    Held,
    /// The piece is at home.
    Done,
    /// The holder of the turn has the piece, or a stopped stage had it.
    Taken,
    /// As done, with the mark of want of memory in place of a piece.
    Marked,
    /// As taken, with the mark.
    Gone,
}

/// Where the word of a block says that its rows are.
#[derive(Clone, Copy)]
pub enum BlockPhase {
    /// Never filled.
    Empty,
    /// The first seat is putting the rows in.
    Filling,
    /// The rows are at home.
    Home,
    /// A seat reads them.
    Reading,
}
