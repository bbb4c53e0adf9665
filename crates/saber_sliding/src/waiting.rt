// The two forms of parts that wait.
ghost use Rattle.std.specs.Prelude.{◌≡◌};
ghost use Rattle.saber_sliding.specs.Waits.{waiting_entries, WaitsOne};

use crate::stack::Stack;
use saber_partial::Partial;
use std::alloc::Global;

/// The entries of a front in one of the two forms of a queue.
#[derive(Drop)]
pub(crate) enum Waiting {
    Groups(Vec<(u64, Partial)>),
    Ones(Stack),
}

impl Waiting {
    /// Takes the form of many groups where no part is there.
    #[inline(always)]
    pub(crate) fn be_of_groups(&mut self, alloc: Global)
        ensures entries { waiting_entries self.new ≡ waiting_entries self.old }
        ensures kept { WaitsOne self.new }
    {
        match self {
            Waiting::Groups(_) => return,
            Waiting::Ones(stack) => {
                if !stack.is_empty() {
                    return;
                }
            }
        }
        *self = Waiting::Groups(Vec::new(alloc));
    }
}
