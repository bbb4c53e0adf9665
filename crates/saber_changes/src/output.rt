// What closed windows print.
ghost use Rattle.std.specs.Prelude.{◌≡◌, ◌≤◌, ◌<◌, ℕ, [], OnOk};
ghost use Rattle.saber_plan.specs.Answers as a;
ghost use Rattle.saber_plan.specs.Texts.{Behind};
ghost use Rattle.saber_changes.specs.Outputs.{change_in, last_in, IsBefore, IsUpTo, Passed, StandsIn};

use crate::cancel::Change;
use crate::walk::Walk;
use saber_plan::NoMemory;
use std::alloc::Global;

/// What closed windows print, in order: each its lines, or each what it gains or loses against the
/// one before, whose answers the walk keeps.
#[derive(Drop)]
pub enum Output {
    Each,
    Delta(Change, Walk),
}

impl Output {
    /// That of lines, or of this change, before the first window. Takes no memory.
    pub fn new(alloc: Global, change: Option<Change>) -> Output
        ensures change { change_in result ≡ change }
        ensures before { IsBefore result 0 }
        ensures last { last_in result ≡ [] }
    {
        match change {
            None => Output::Each,
            Some(change) => Output::Delta(change, Walk::new(alloc)),
        }
    }

    /// Lets the answers go that it keeps.
    pub fn let_go(self) {}

    /// Passes the windows below `low`, which have no answer, and appends what the first of them
    /// loses.
    #[inline(always)]
    pub fn skip(&mut self, alloc: Global, low: u64, out: &mut Vec<u8>) -> Result<(), NoMemory>
        requires { IsUpTo self.old low }
        ensures passed { OnOk result ((at : ℕ → a.Answers) (n : ℕ) → ((i : ℕ) → n ≤ i → i < low → at i ≡ []) → IsBefore self.old n → StandsIn at self.old
            → Passed at self.old self.new n low out.old.items out.new.items) }
        ensures before { OnOk result (IsBefore self.new low) }
        ensures behind { Behind out.old.items out.new.items }
    {
        match self {
            Output::Each => Ok(()),
            Output::Delta(change, walk) => {
                walk.reach(alloc, *change, low, out)?;
                Ok(())
            }
        }
    }
}
