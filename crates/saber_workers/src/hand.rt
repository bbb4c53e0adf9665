//! What a worker has in hand from one turn of work to the next.
ghost use Rattle.std.specs.Prelude.{◌≡◌, not};
ghost use Rattle.saber_workers.specs.Hands.{is_empty};
ghost use Rattle.saber_workers.specs.declared.hand.InHand.TheVariants.{Empty};

use saber_core::Work;
use saber_ring::Job;

/// A job, and how far it is.
pub enum InHand<W: Work, D> {
    /// No job.
    Empty,
    /// A job of which no block is in.
    Claimed(Job<W>),
    /// A job whose draft has the task's own block, and those before it up to this one.
    Begun { job: Job<W>, next: u64, draft: D },
}

impl<W: Work, D> InHand<W, D> {
    // There is a job.
    pub(crate) fn is_some(&self) -> bool
        ensures { result ≡ not (is_empty self.now) }
    {
        !matches!(self, InHand::Empty)
    }
}

/// The next task to ask for, and the job in hand. A job that waits for a block which another seat
/// reads stays in hand until a later turn.
pub struct Hand<W: Work, D> {
    pub cursor: u64,
    pub(crate) held: InHand<W, D>,
}

impl<W: Work, D> Hand<W, D> {
    /// Nothing in hand. Takes no memory.
    pub fn new(cursor: u64) -> Hand<W, D>
        ensures cursor { result.cursor ≡ cursor }
        ensures empty { result.held ≡ Empty }
    {
        Hand {
            cursor,
            held: InHand::Empty,
        }
    }
}
