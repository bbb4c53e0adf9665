// Parts that are to be summed up at once.
ghost use Rattle.std.specs.Prelude.{◌≡◌, ◌+◌, ◌≤◌, [], ◌∷◌, ◌++◌, length, OnOk, OnErr, IfOk};
ghost use Rattle.saber_partial.specs.Ones.{IsOne};
ghost use Rattle.saber_sliding.specs.Entries.{pushed_entries, CanFollow, Entered};

use crate::groups::GroupQueue;
use crate::ones::OneQueue;
use crate::queue::Sliding;
use crate::stack::Stack;
use crate::waiting::Waiting;
use saber_partial::{Partial, RowPart, Steps};
use saber_plan::NoMemory;
use std::alloc::Global;
use std::marker::Model;
use std::sync::ledger::Ledger;

/// Parts of rows that follow one another, each with the number of the first window that doesn't
/// have it, before any of them is merged: where nothing is asked until all are there, they become a
/// queue in one step for each. Contracts see the entries of that queue.
#[derive(Drop)]
pub struct Front {
    waiting: Waiting,
}

impl Model for Front {
    ghost use Rattle.saber_sliding.specs.Entries.{coded_entries, suffixes, Chained, Entries};

    ghost Value = { Entries };

    ghost coded = { coded_entries };

    ghost use Rattle.saber_sliding.specs.Waits.{waiting_entries};

    ghost view = { λ f. suffixes (waiting_entries f.waiting) };

    ghost invariant = { λ f. Chained (waiting_entries f.waiting) };
}

// The part of one group behind all others, in memory of its own.
#[inline(always)]
fn push_row(entries: &mut Vec<(u64, Partial)>, number: u64, part: &RowPart) -> Result<(), NoMemory>
    ensures ok { OnOk result (entries.new.items ≡ entries.old.items ++ (number, part.now) ∷ []) }
    ensures err { OnErr result (entries.new.items ≡ entries.old.items) }
{
    let alloc = *entries.allocator();
    let mut none = None;
    let own = Partial::of_row_in(alloc, &mut none, part)?;
    entries.push((number, own))?;
    Ok(())
}

impl Front {
    /// No part. Takes no memory.
    pub fn empty(alloc: Global) -> Front
        ensures { result ≡ [] }
    {
        Front {
            waiting: Waiting::Ones(Stack::empty(alloc)),
        }
    }

    /// A part of rows behind all others, unless it has no group.
    pub fn push(&mut self, alloc: Global, number: u64, part: Partial) -> Result<(), NoMemory>
        requires { CanFollow part self.old }
        ensures { OnOk result (Entered self.old number part self.new) }
    {
        self.waiting.be_of_groups(alloc);
        match &mut self.waiting {
            Waiting::Groups(entries) => {
                if part.is_empty() {
                    return Ok(());
                }
                entries.push((number, part))?;
                Ok(())
            }
            Waiting::Ones(stack) => match part.first() {
                Some(own) => stack.push(number, &own),
                None => Ok(()),
            },
        }
    }

    /// The part of one group behind all others, which has no key.
    #[inline]
    pub fn push_one(&mut self, number: u64, part: &RowPart) -> Result<(), NoMemory>
        requires one { IsOne part.now }
        requires room { CanFollow part.now self.old }
        ensures { OnOk result (self.new ≡ pushed_entries self.old number part.now) }
    {
        match &mut self.waiting {
            Waiting::Groups(entries) => push_row(entries, number, part),
            Waiting::Ones(stack) => stack.push(number, part),
        }
    }

    /// Lets the parts go.
    pub fn let_go(self) {}

    /// The queue of them: one step for each, and none is owed.
    pub fn into_queue<L: Ledger>(
        self,
        alloc: Global,
        steps: &mut Steps<L>,
    ) -> Result<Sliding, NoMemory>
        ensures entries { IfOk result (λ s. s.entries ≡ self) }
        ensures owed { IfOk result (λ s. s.owed ≡ 0) }
        ensures steps { OnOk result (steps.new ≤ steps.old + length self) }
    {
        match self.waiting {
            Waiting::Groups(entries) => {
                let queue = GroupQueue::of_entries(alloc, entries, steps)?;
                Ok(Sliding::of_groups(queue))
            }
            Waiting::Ones(stack) => {
                let queue = OneQueue::of_entries(alloc, stack, steps);
                Ok(Sliding::of_ones(queue))
            }
        }
    }
}
