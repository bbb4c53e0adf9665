// The queue of parts, in one of two forms.
ghost use Rattle.std.specs.Prelude.{◌≡◌, ◌+◌, ◌≤◌, [], ◌++◌, OnOk, OnErr, IfOk};
ghost use Rattle.saber_plan.specs.declared.plans.Shape.TheVariants.{Group};
ghost use Rattle.saber_plan.specs.Parts.{part_answers, part_lines};
ghost use Rattle.saber_plan.specs.Trees.{tree_of};
ghost use Rattle.saber_sliding.specs.Entries.{dropped_entries, first_number, pushed_entries, whole, CanFollow, Entered, Put};

use crate::form::Form;
use crate::groups::GroupQueue;
use crate::ones::OneQueue;
use saber_changes::Answers;
use saber_partial::{Partial, RowPart, Steps};
use saber_plan::{NoMemory, Plan};
use std::alloc::Global;
use std::marker::Model;
use std::sync::ledger::Ledger;

/// Parts of rows that follow one another, each with the number of the first window that doesn't
/// have it. It is a queue of two stacks (SABER 2016 names incremental computation over panes; the
/// two stacks are those of Tangwongsan et al. 2015): the front one keeps merges of its entries to
/// its end, the back one its entries' own parts and the merge of all. So a part is merged once
/// where it comes, once where the back becomes the front, and once for each time that the whole is
/// asked. The back becomes the front when something is asked or comes, and not as entries go: a
/// queue that nobody asks again is never summed up. Contracts see the entries in order, each with
/// the merge of its part and all behind it, and how many steps for them are still owed: each merge
/// of two parts is a step. Parts of one group without a key are kept in another form than others,
/// which contracts don't see.
#[derive(Drop)]
pub struct Sliding {
    form: Form,
}

impl Model for Sliding {
    ghost use Rattle.saber_sliding.specs.Entries.{coded_queue, Queue};

    ghost Value = { Queue };

    ghost coded = { coded_queue };

    ghost use Rattle.saber_sliding.specs.Forms.{queue_of};

    ghost view = { λ s. queue_of s.form };
}

impl Sliding {
    /// No part. Takes no memory.
    pub fn empty(alloc: Global) -> Sliding
        ensures entries { result.entries ≡ [] }
        ensures owed { result.owed ≡ 0 }
    {
        Sliding {
            form: Form::Ones(OneQueue::empty(alloc)),
        }
    }

    // That of entries of many groups.
    pub(crate) fn of_groups(queue: GroupQueue) -> Sliding
        ensures { result ≡ queue }
    {
        Sliding {
            form: Form::Groups(queue),
        }
    }

    // That of entries of one group each.
    pub(crate) fn of_ones(queue: OneQueue) -> Sliding
        ensures { result ≡ queue }
    {
        Sliding {
            form: Form::Ones(queue),
        }
    }

    /// The first entry's number.
    #[inline(always)]
    pub fn first_number(&self) -> Option<u64>
        ensures { result ≡ first_number self.now.entries }
    {
        match &self.form {
            Form::Groups(queue) => queue.first_number(),
            Form::Ones(queue) => queue.first_number(),
        }
    }

    /// A part of rows behind all others, unless it has no group. It costs two steps, each now or
    /// later. After want of memory nothing is kept.
    #[inline(always)]
    pub fn push<L: Ledger>(
        &mut self,
        alloc: Global,
        number: u64,
        part: Partial,
        steps: &mut Steps<L>,
    ) -> Result<(), NoMemory>
        requires { CanFollow part self.old.entries }
        ensures entries { OnOk result (Entered self.old.entries number part self.new.entries) }
        ensures steps { OnOk result (steps.new + self.new.owed ≤ steps.old + self.old.owed + 2) }
    {
        self.form.be_of_groups(alloc);
        match &mut self.form {
            Form::Groups(queue) => {
                if part.is_empty() {
                    return Ok(());
                }
                queue.push(alloc, number, part, steps)
            }
            Form::Ones(queue) => match part.first() {
                Some(own) => queue.push(alloc, number, &own, steps),
                None => Ok(()),
            },
        }
    }

    /// The part of one group behind all others. Else as `push`.
    #[inline(always)]
    pub fn push_one<L: Ledger>(
        &mut self,
        alloc: Global,
        number: u64,
        part: &RowPart,
        steps: &mut Steps<L>,
    ) -> Result<(), NoMemory>
        requires { CanFollow part.now self.old.entries }
        ensures entries { OnOk result (self.new.entries ≡ pushed_entries self.old.entries number part.now) }
        ensures steps { OnOk result (steps.new + self.new.owed ≤ steps.old + self.old.owed + 2) }
    {
        self.form.suit(alloc, part);
        match &mut self.form {
            Form::Groups(queue) => queue.push_row(alloc, number, part, steps),
            Form::Ones(queue) => queue.push(alloc, number, part, steps),
        }
    }

    /// The part of a row behind all others: where the last entry has this number and is kept with
    /// its own part, it goes into that; else it becomes an entry, as with `push`. It costs two
    /// steps, each now or later. After want of memory it is only safe to let go.
    #[inline(always)]
    pub fn put<L: Ledger>(
        &mut self,
        alloc: Global,
        number: u64,
        part: &RowPart,
        steps: &mut Steps<L>,
    ) -> Result<(), NoMemory>
        requires { CanFollow part.now self.old.entries }
        ensures entries { OnOk result (Put self.old.entries number part.now self.new.entries) }
        ensures steps { OnOk result (steps.new + self.new.owed ≤ steps.old + self.old.owed + 2) }
    {
        self.form.suit(alloc, part);
        match &mut self.form {
            Form::Groups(queue) => queue.put(alloc, number, part, steps),
            Form::Ones(queue) => queue.put(alloc, number, part, steps),
        }
    }

    /// Drops the entries at the front that window i doesn't have. Takes no memory and no step.
    #[inline(always)]
    pub fn drop_to(&mut self, i: u64)
        ensures entries { self.new.entries ≡ dropped_entries i self.old.entries }
        ensures owed { self.new.owed ≤ self.old.owed }
    {
        match &mut self.form {
            Form::Groups(queue) => queue.drop_to(i),
            Form::Ones(queue) => queue.drop_to(i),
        }
    }

    /// Writes the lines of the merge of all parts behind what `out` has, in a walk over two lists
    /// of groups at most: one step beside those owed. Where memory is wanting, `out` stays as it
    /// was.
    #[inline(always)]
    pub fn lines<L: Ledger>(
        &mut self,
        plan: &Plan,
        window: u64,
        out: &mut Vec<u8>,
        steps: &mut Steps<L>,
    ) -> Result<(), NoMemory>
        requires group { (tree_of plan.now).shape ≡ Group }
        ensures ok { OnOk result (out.new.items ≡ out.old.items ++ part_lines (tree_of plan.now) window (whole self.old.entries)) }
        ensures same { OnOk result (self.new.entries ≡ self.old.entries) }
        ensures err { OnErr result (out.new.items ≡ out.old.items) }
        ensures steps { OnOk result (steps.new + self.new.owed ≤ steps.old + self.old.owed + 1) }
    {
        match &mut self.form {
            Form::Groups(queue) => queue.lines(plan, window, out, steps),
            Form::Ones(queue) => queue.lines(plan, window, out, steps),
        }
    }

    /// The answers of the merge of all parts, as those of a `Partial`: one step beside those owed.
    /// After want of memory nothing is kept.
    pub fn answers<L: Ledger>(
        &mut self,
        plan: &Plan,
        steps: &mut Steps<L>,
    ) -> Result<Answers, NoMemory>
        requires group { (tree_of plan.now).shape ≡ Group }
        ensures ok { IfOk result (λ a. a ≡ part_answers (tree_of plan.now) (whole self.old.entries)) }
        ensures same { OnOk result (self.new.entries ≡ self.old.entries) }
        ensures steps { OnOk result (steps.new + self.new.owed ≤ steps.old + self.old.owed + 1) }
    {
        match &mut self.form {
            Form::Groups(queue) => queue.answers(plan, steps),
            Form::Ones(queue) => queue.answers(plan, steps),
        }
    }
}
