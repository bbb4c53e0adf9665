// The two forms of a queue.
ghost use Rattle.std.specs.Prelude.{◌≡◌, ◌≤◌};
ghost use Rattle.saber_sliding.specs.Entries.{CanFollow};
ghost use Rattle.saber_sliding.specs.Forms.{queue_of, HasOne, Suits};

use crate::groups::GroupQueue;
use crate::ones::OneQueue;
use saber_partial::RowPart;
use std::alloc::Global;

/// How the entries of a queue are kept: a part as rows of a list of its own, or each as one row of
/// a list of all. The first part that comes tells which.
#[derive(Drop)]
pub(crate) enum Form {
    Groups(GroupQueue),
    Ones(OneQueue),
}

impl Form {
    /// Takes the form of many groups where nothing is kept.
    #[inline(always)]
    pub(crate) fn be_of_groups(&mut self, alloc: Global)
        ensures entries { (queue_of self.new).entries ≡ (queue_of self.old).entries }
        ensures owed { (queue_of self.new).owed ≤ (queue_of self.old).owed }
        ensures kept { HasOne self.new }
    {
        match self {
            Form::Groups(_) => return,
            Form::Ones(queue) => {
                if !queue.is_empty() {
                    return;
                }
            }
        }
        *self = Form::Groups(GroupQueue::empty(alloc));
    }

    /// Takes the form that can keep the part of one group: behind parts without a key it has none.
    #[inline(always)]
    pub(crate) fn suit(&mut self, alloc: Global, part: &RowPart)
        requires { CanFollow part.now (queue_of self.old).entries }
        ensures entries { (queue_of self.new).entries ≡ (queue_of self.old).entries }
        ensures owed { (queue_of self.new).owed ≤ (queue_of self.old).owed }
        ensures suits { Suits part.now self.new }
    {
        if !part.has_no_key() {
            self.be_of_groups(alloc);
        }
    }
}
