// The walk over closed windows.
ghost use Rattle.std.specs.Prelude.{◌≡◌, ◌≤◌, ◌<◌, ◌+◌, ◌^◌, ℕ, [], OnOk};
ghost use Rattle.saber_plan.specs.Answers as a;
ghost use Rattle.saber_plan.specs.Texts.{Behind};
ghost use Rattle.saber_changes.specs.Walks.{Stands, NoneFrom, Walks};

use crate::answers::Answers;
use crate::cancel::{Change, write_change};
use saber_plan::NoMemory;
use std::alloc::Global;

/// How far a walk over closed windows is: the number of the next window, and the answers of the one
/// before it.
#[derive(Drop)]
pub struct Walk {
    /// The first window that the walk hasn't passed.
    pub next: u64,
    /// The answers of the window before it.
    pub last: Answers,
}

impl Walk {
    /// Before the first window, where the empty list stands. Takes no memory.
    pub fn new(alloc: Global) -> Walk
        ensures next { result.next ≡ 0 }
        ensures last { result.last ≡ [] }
    {
        Walk {
            next: 0,
            last: Answers::new(alloc),
        }
    }

    /// Passes the windows before this one, which have no answer, and appends what the first of them
    /// loses.
    pub fn reach(
        &mut self,
        alloc: Global,
        change: Change,
        window: u64,
        out: &mut Vec<u8>,
    ) -> Result<(), NoMemory>
        requires { self.old.next ≤ window }
        ensures ok { OnOk result ((at : ℕ → a.Answers) → Stands at self.old → NoneFrom at self.old.next window
            → Walks change at self.old self.new window out.old.items out.new.items) }
        ensures next { OnOk result (self.new.next ≡ window) }
        ensures behind { Behind out.old.items out.new.items }
    {
        if self.next < window {
            let none = Answers::new(alloc);
            write_change(alloc, change, self.next, &self.last, &none, out)?;
            self.last = none;
            self.next = window;
        }
        Ok(())
    }

    /// Passes this window, which has these answers, and those before it, which have none, and
    /// appends what they gain or lose.
    pub fn pass(
        &mut self,
        alloc: Global,
        change: Change,
        window: u64,
        answers: Answers,
        out: &mut Vec<u8>,
    ) -> Result<(), NoMemory>
        requires low { self.old.next ≤ window }
        requires high { window + 1 < 2 ^ 64 }
        ensures ok { OnOk result ((at : ℕ → a.Answers) → Stands at self.old → NoneFrom at self.old.next window → at window ≡ answers
            → Walks change at self.old self.new (window + 1) out.old.items out.new.items) }
        ensures next { OnOk result (self.new.next ≡ window + 1) }
        ensures behind { Behind out.old.items out.new.items }
    {
        self.reach(alloc, change, window, out)?;
        write_change(alloc, change, window, &self.last, &answers, out)?;
        self.last = answers;
        self.next = window + 1;
        Ok(())
    }
}
