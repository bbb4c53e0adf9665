//! How a thread waits that finds nothing to do.
//! Workers, the loop of the crew and the pipe pause between two looks; so nobody has to wake a
//! thread.
//!
//! - Parts: `lib`, with the one type `Pause`.
//! - Calls: `wait` lets other threads run, and from the 65th time in a row on sleeps, 8
//!   microseconds and twice as long each time up to half a millisecond; `reset` says that there was
//!   something to do.
//! - Proved: how often in a row there was nothing to do, counted up to 70 (`specs/Pauses.antt`).
//! - Not claimed: how long anything takes, and that others run meanwhile. docs/RUN.md says who
//!   waits.
#![tactic(auto)]

ghost use Rattle.std.specs.Prelude.{◌≤◌};

use std::sync::Wait;
use std::sync::atomic::AtomicU64;
use std::thread::yield_now;
use std::time::Duration;

// So often in a row others are let run; then each further time is a sleep.
const YIELDS: u32 = 64;

// The sleeps double from the first, 8 microseconds, to the last, half a millisecond.
const FIRST_SLEEP: u32 = 8_000;

const DOUBLINGS: u32 = 6;

/// How often in a row a thread found nothing to do. It lets others run at first, and then sleeps,
/// longer each time: so a thread without work leaves its processor to others, and one whose work
/// comes soon is awake. Nobody wakes it: no sleep is longer than half a millisecond.
#[derive(Drop)]
pub struct Pause {
    // It isn't counted further than to the longest sleep.
    pub(crate) idle: u32,
    // A sleep is one on this word, which never changes.
    word: AtomicU64,
    pub ghost counted: { idle ≤ 70 },
}

impl Pause {
    ghost use Rattle.std.specs.Prelude.{◌≡◌, ◌+◌, min};
    ghost use Rattle.saber_pause.specs.Pauses.{idle_times};

    pub fn new() -> Self
        ensures { idle_times result ≡ 0 }
    {
        Pause {
            idle: 0,
            word: AtomicU64::new(0),
        }
    }

    /// There was something to do.
    pub fn reset(&mut self)
        ensures { idle_times self.new ≡ 0 }
    {
        self.idle = 0;
    }

    /// There was nothing to do.
    pub fn wait<R: Wait>(&mut self, rt: &R)
        ensures { idle_times self.new ≡ min (idle_times self.old + 1) 70 }
    {
        if self.idle < YIELDS {
            self.idle += 1;
            yield_now();
            return;
        }
        let doublings = self.idle - YIELDS;
        if doublings < DOUBLINGS {
            self.idle += 1;
        }
        let sleep = Duration::from_nanos((FIRST_SLEEP << doublings) as u64);
        self.word.park_timeout(rt, 0, sleep);
    }
}
