// Bytes that come while others are still at work on them.
ghost use Rattle.std.specs.Prelude.{◌≡◌, ◌≤◌, ◌<◌, ℕ, List, Option, IfOk, OnOk, OnErr, length};
ghost use Rattle.saber_io.specs.declared.feeds.EndMark.{EndMark};
ghost use Rattle.saber_plan.specs.Outputs.{Rose};
ghost use Rattle.saber_io.specs.Feeds.{Feeds, IsCut, Refills};

use crate::Failed;

/// How a feed ends: all has come, or it was cut off before.
#[derive(Clone, Copy)]
pub enum EndMark {
    End,
    Cut,
}

/// What a feed gives: so many bytes, its end, or nothing as yet.
#[derive(Clone, Copy)]
pub enum Fed {
    Bytes(usize),
    End,
    NotYet,
}

/// Bytes that another end makes meanwhile. They are taken by `refill` into a buffer, and given by
/// `feed` out of it.
pub trait Feed {
    /// The bytes that were taken so far.
    ghost taken: { Self → List ℕ };

    /// The last of them, which are still in the buffer.
    ghost waiting: { Self → List ℕ };

    /// The mark that was taken, if one was.
    ghost mark: { Self → Option EndMark };

    /// How often it has told of a cut.
    ghost faults: { Self → ℕ };

    /// Fills the front of the buffer with what waits, and answers with how many bytes. Where none
    /// wait, it tells the mark: Failed for Cut.
    fn feed(&mut self, buf: &mut [u8]) -> Result<Fed, Failed>
        requires { 0 < length buf.old }
        ensures ok { IfOk result (λ fed. Feeds (waiting self.old) (waiting self.new) (mark self.old) buf.new fed) }
        ensures failed { OnErr result (IsCut (waiting self.old) (waiting self.new) (mark self.old)) }
        ensures stands { (taken self.new ≡ taken self.old) × (mark self.new ≡ mark self.old) }
        ensures cause { OnErr result (Rose (faults self.old) (faults self.new)) }
        ensures good { OnOk result (faults self.new ≡ faults self.old) }
        ensures count { faults self.old ≤ faults self.new };

    /// Takes what comes next, where nothing waits. It may wait for others; false tells that nothing
    /// was there to take.
    fn refill(&mut self) -> bool
        ensures more { Refills (taken self.old) (taken self.new) (waiting self.old) (waiting self.new) (mark self.old) (mark self.new) result }
        ensures count { faults self.new ≡ faults self.old };
}
