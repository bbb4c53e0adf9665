//! What can happen to a core, and what a task goes through.
ghost use Rattle.std.specs.Prelude.{◌≡◌};

/// Where a task stands, from its fill until it is given back.
#[derive(Clone, Copy)]
pub enum TaskPhase {
    /// Filled, and claimed by nobody.
    Ready,
    /// Claimed by a seat, which works on it.
    Held { seat: u32 },
    /// Handed in: its piece, or the mark of want of memory.
    Done { mark: bool },
    /// Taken by the holder of the turn, with the piece or the mark that was handed in.
    Taken { mark: bool },
}

/// What a seat does to a core. Seats are numbered from 0.
#[derive(Clone, Copy)]
pub enum Event {
    /// The next task is filled.
    Fill,
    /// A seat takes a ready task to work on.
    Claim { seat: u32, task: u64 },
    /// A seat hands in the piece of a task that it holds, or the mark of want of memory.
    Deposit { seat: u32, task: u64, mark: bool },
    /// A seat takes the free turn.
    Win { seat: u32 },
    /// The holder of the turn takes what was handed in for the first task that isn't given.
    Take { seat: u32 },
    /// The holder of the turn has assembled the piece that it took, and gives the slot back.
    Give { seat: u32 },
    /// The holder of the turn lets go of it. After a take that wasn't given the stage is stopped.
    Release { seat: u32 },
}

impl Event {
    ghost use Rattle.saber_core.specs.Machine.{seat_of};

    // The seat that makes it; a fill names none.
    pub(crate) fn seat(&self) -> Option<u32>
        ensures { result ≡ seat_of self.now }
    {
        match *self {
            Event::Fill => None,
            Event::Claim { seat, .. }
            | Event::Deposit { seat, .. }
            | Event::Win { seat }
            | Event::Take { seat }
            | Event::Give { seat }
            | Event::Release { seat } => Some(seat),
        }
    }
}
