// What a writer left behind that has written all.
ghost use Rattle.std.specs.Prelude.{◌≡◌, ◌++◌, Some, true, ⊤};
ghost use Rattle.saber_pipe.specs.Lefts.{sent_out, left_out, whole_out};

use crate::left::{Left, send_left};
use crate::outbox::Outbox;
use crate::{PipeFeed, PipeName};
use saber_io::EndMark;
use saber_pause::Pause;
use std::sync::Wait;
use std::sync::atomic::{AtomicBool, Ordering};

// A flag that is set while a writer is alone. What it holds no clause can say; so it is a type
// parameter, and who tells that it was set has asked it.
pub(crate) trait AloneFlag {
    ghost was_set: { Self → Type 0 };

    // Takes it back; true where it was set.
    fn take_back(&self) -> bool
        ensures { result ≡ true → Self.was_set self.now };
}

impl AloneFlag for AtomicBool {
    ghost was_set = { λ flag. ⊤ };

    fn take_back(&self) -> bool {
        self.swap(false, Ordering::SeqCst)
    }
}

/// What is still to be sent of what was written, and the mark behind it.
#[derive(Drop)]
pub struct Backlog<'a, P: PipeName> {
    pub(crate) left: Left<'a, P>,
    pub(crate) mark: EndMark,
    /// Whether the writer was alone when it left: its `swap` found that `alone` was set.
    pub was_alone: bool,
    pub ghost promised: { whole_out left ≡ Some (sent_out left ++ left_out left mark) },
}

impl<'a, P: PipeName> Backlog<'a, P> {
    ghost use Rattle.std.specs.Prelude.{◌≡◌, ◌↔◌, [], Some, true, IsTrue, ◌++◌};
    ghost use Rattle.saber_pipe.specs.Outboxes.{whole_of, all_of};
    ghost use Rattle.saber_pipe.specs.PipeFeeds.{known, IsToldMore};
    ghost use Rattle.saber_pipe.specs.Backlogs.{sent_by, to_send, IsPoured, IsSentUnlessAlone, Moved};

    pub(crate) fn new(outbox: Outbox<'a, P>, mark: EndMark) -> Backlog<'a, P>
        requires { whole_of outbox ≡ Some (all_of outbox mark) }
        ensures { sent_by result ++ to_send result ≡ all_of outbox.entry mark }
    {
        Backlog {
            left: Left::Kept(outbox),
            mark,
            was_alone: false,
        }
    }

    /// Whether all was sent, the mark too.
    pub fn is_empty(&self) -> bool
        ensures { IsTrue result ↔ (to_send self.now ≡ []) }
    {
        matches!(self.left, Left::Sent(_))
    }

    // Sends what there is room for, and the mark behind it. It never waits.
    pub(crate) fn pour<R: Wait>(self, rt: &R) -> Backlog<'a, P>
        ensures moved { Moved self.entry result }
        ensures until { IsPoured result }
    {
        let Backlog {
            left,
            mark,
            was_alone,
        } = self;
        let left = match left {
            Left::Kept(outbox) => send_left(rt, outbox, mark),
            Left::Sent(receipt) => Left::Sent(receipt),
        };
        Backlog {
            left,
            mark,
            was_alone,
        }
    }

    // Lets the end that reads know what was sent.
    pub(crate) fn tell<R: Wait>(self, feed: &mut PipeFeed<'_, R, P>) -> Backlog<'a, P>
        ensures known { known feed.new ≡ sent_by self.entry }
        ensures feed { IsToldMore feed.old feed.new }
        ensures same { (sent_by result ≡ sent_by self.entry) × (to_send result ≡ to_send self.entry) }
        ensures poured { IsPoured self.entry → IsPoured result }
    {
        let Backlog {
            left,
            mark,
            was_alone,
        } = self;
        let left = feed.hear_left(left);
        Backlog {
            left,
            mark,
            was_alone,
        }
    }

    // Sends all, and waits for room while somebody reads. Where the writer is alone, it sends what
    // there is room for, never waits, and takes `alone` back: who would read from now on finds it
    // taken, and reads what is left too.
    pub(crate) fn send<R: Wait, A: AloneFlag>(self, rt: &R, alone: &A) -> Backlog<'a, P>
        ensures moved { Moved self.entry result }
        ensures poured { IsPoured result }
        ensures until { IsSentUnlessAlone result }
        ensures asked { result.was_alone ≡ true → A.was_set alone.now }
    {
        let mut backlog = self;
        let mut pause = Pause::new();
        for _ in rt.forever() {
            backlog = backlog.pour(rt);
            backlog.was_alone = !backlog.is_empty() && alone.take_back();
            if backlog.is_empty() || backlog.was_alone {
                return backlog;
            }
            pause.wait(rt);
        }
        unreachable!()
    }
}
