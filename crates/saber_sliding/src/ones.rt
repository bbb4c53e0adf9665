// Parts that follow one another, of one group each and without a key, with the merge of all from
// any one on.
ghost use Rattle.std.specs.Prelude.{◌≡◌, ◌+◌, ◌≤◌, [], ◌++◌, length, false, true, OnOk, OnErr, IfOk, MatchOption};
ghost use Rattle.saber_plan.specs.declared.plans.Shape.TheVariants.{Group};
ghost use Rattle.saber_plan.specs.Parts.{merge, no_part, part_answers, part_lines};
ghost use Rattle.saber_plan.specs.Trees.{tree_of};
ghost use Rattle.saber_partial.specs.Ones.{IsOne};
ghost use Rattle.saber_partial.specs.Piles.{piled_part};
ghost use Rattle.saber_partial.specs.Tallies.{CanMerge};
ghost use Rattle.saber_sliding.specs.Entries.{dropped_entries, first_number, joined_entries, pushed_entries, queue_entries, suffixes, whole, CanFollow, Chained, IsSound, Put, Sound};

use crate::one_front::OneFront;
use crate::stack::Stack;
use saber_changes::Answers;
use saber_partial::{Ones, RowPart, Steps};
use saber_plan::{NoMemory, Plan};
use std::alloc::Global;
use std::marker::Model;
use std::sync::ledger::Ledger;

/// The queue of two stacks where each part has one group, without a key: then all parts of a stack
/// lie in one list of numbers, a merge is one walk over a row's width, and no entry takes memory of
/// its own. Contracts see it as they see `GroupQueue`.
#[derive(Drop)]
pub(crate) struct OneQueue {
    front: OneFront,
    back: Stack,
    // the merge of the back's, if it has an entry
    all: Ones,
    // whether the back is still to become the front, which has none then
    late: bool,
}

impl Model for OneQueue {
    ghost use Rattle.std.specs.Prelude.{◌≡◌, ◌≤◌, ◌+◌, length};
    ghost use Rattle.saber_partial.specs.Piles.{piled_part};
    ghost use Rattle.saber_sliding.specs.Entries.{coded_queue, queue_entries, Queue, IsSound};

    ghost Value = { Queue };

    ghost coded = { coded_queue };

    ghost view = { λ s. record { entries = queue_entries s.front s.back (piled_part s.all); owed = length s.back + length s.all } };

    ghost invariant = { λ s. IsSound s.late s.front s.back (piled_part s.all) × (length s.all ≤ 1) };
}

// The back becomes the front, where that is still to be done: one step for each of its entries at
// most.
#[inline(always)]
fn settle<L: Ledger>(
    late: &mut bool,
    front: &mut OneFront,
    back: &mut Stack,
    all: &mut Ones,
    steps: &mut Steps<L>,
)
    requires sound { IsSound late.old front.old back.old (piled_part all.old) }
    requires few { length all.old ≤ 1 }
    ensures sound { Sound front.new back.new (piled_part all.new) }
    ensures few { length all.new ≤ 1 }
    ensures late { late.new ≡ false }
    ensures entries { queue_entries front.new back.new (piled_part all.new) ≡ queue_entries front.old back.old (piled_part all.old) }
    ensures steps { steps.new + (length back.new + length all.new) ≤ steps.old + (length back.old + length all.old) }
{
    if !*late {
        return;
    }
    front.take_over(back, steps);
    all.clear();
    *late = false;
}

// The merge of all of the back, if it has an entry.
#[inline(always)]
fn merged(all: &Ones) -> Option<RowPart<'_>>
    requires { length all.now ≤ 1 }
    ensures { MatchOption result (piled_part all.now ≡ no_part) (λ r. (piled_part all.now ≡ r) × IsOne r) }
{
    if all.len() == 0 {
        return None;
    }
    Some(all.part(0))
}

// The merge of all of the back, with a part behind: one step, if one piece more counts for one.
#[inline(always)]
fn take_behind<L: Ledger>(
    all: &mut Ones,
    part: &RowPart,
    steps: &mut Steps<L>,
) -> Result<(), NoMemory>
    requires one { IsOne part.now }
    requires few { length all.old ≤ 1 }
    requires can { CanMerge (piled_part all.old) part.now }
    ensures part { OnOk result (piled_part all.new ≡ merge (piled_part all.old) part.now) }
    ensures few { length all.new ≤ 1 }
    ensures steps { OnOk result (steps.new + length all.new ≤ steps.old + length all.old + 1) }
{
    if all.len() == 0 {
        return all.push(part);
    }
    all.join(0, part, steps);
    Ok(())
}

// One entry more, once the back is the front where that is still to be done.
#[inline(always)]
fn put_settled<L: Ledger>(
    late: &mut bool,
    front: &mut OneFront,
    back: &mut Stack,
    all: &mut Ones,
    number: u64,
    part: &RowPart,
    steps: &mut Steps<L>,
) -> Result<(), NoMemory>
    requires sound { IsSound late.old front.old back.old (piled_part all.old) }
    requires few { length all.old ≤ 1 }
    requires one { IsOne part.now }
    requires room { CanFollow part.now (queue_entries front.old back.old (piled_part all.old)) }
    ensures sound { OnOk result (Sound front.new back.new (piled_part all.new)) }
    ensures few { length all.new ≤ 1 }
    ensures late { OnOk result (late.new ≡ false) }
    ensures entries { OnOk result (queue_entries front.new back.new (piled_part all.new) ≡ pushed_entries (queue_entries front.old back.old (piled_part all.old)) number part.now) }
    ensures steps { OnOk result (steps.new + (length back.new + length all.new) ≤ steps.old + (length back.old + length all.old) + 2) }
{
    settle(late, front, back, all, steps);
    back.push(number, part)?;
    take_behind(all, part, steps)?;
    Ok(())
}

// The part of a row into the last entry of the back, and the merge of all where that is kept: two
// steps, if each piece more counts for one.
#[inline(always)]
fn join_behind<L: Ledger>(
    late: bool,
    back: &mut Stack,
    all: &mut Ones,
    part: &RowPart,
    steps: &mut Steps<L>,
) -> Result<(), NoMemory>
    requires some { 1 ≤ length back.old }
    requires one { IsOne part.now }
    requires few { length all.old ≤ 1 }
    requires room { CanFollow part.now (suffixes back.old) }
    requires can { late ≡ false → CanMerge (piled_part all.old) part.now }
    ensures back { OnOk result (back.new ≡ joined_entries part.now back.old) }
    ensures part { OnOk result (late ≡ false → piled_part all.new ≡ merge (piled_part all.old) part.now) }
    ensures few { length all.new ≤ 1 }
    ensures steps { OnOk result (steps.new + (length back.new + length all.new) ≤ steps.old + (length back.old + length all.old) + 2) }
{
    back.join_last(part, steps);
    if late {
        return Ok(());
    }
    take_behind(all, part, steps)
}

// The lines of the merge of all, once the back is the front where that is still to be done.
#[inline(always)]
fn lines_settled<L: Ledger>(
    late: &mut bool,
    front: &mut OneFront,
    back: &mut Stack,
    all: &mut Ones,
    plan: &Plan,
    window: u64,
    out: &mut Vec<u8>,
    steps: &mut Steps<L>,
) -> Result<(), NoMemory>
    requires group { (tree_of plan.now).shape ≡ Group }
    requires sound { IsSound late.old front.old back.old (piled_part all.old) }
    requires few { length all.old ≤ 1 }
    ensures ok { OnOk result (out.new.items ≡ out.old.items ++ part_lines (tree_of plan.now) window (whole (queue_entries front.old back.old (piled_part all.old)))) }
    ensures err { OnErr result (out.new.items ≡ out.old.items) }
    ensures sound { OnOk result (Sound front.new back.new (piled_part all.new)) }
    ensures few { length all.new ≤ 1 }
    ensures late { OnOk result (late.new ≡ false) }
    ensures entries { OnOk result (queue_entries front.new back.new (piled_part all.new) ≡ queue_entries front.old back.old (piled_part all.old)) }
    ensures steps { OnOk result (steps.new + (length back.new + length all.new) ≤ steps.old + (length back.old + length all.old) + 1) }
{
    settle(late, front, back, all, steps);
    match front.first() {
        Some(first) => match merged(all) {
            Some(last) => first.lines_with(&last, plan, window, out, steps),
            None => first.lines(plan, window, out),
        },
        None => match merged(all) {
            Some(last) => last.lines(plan, window, out),
            None => Ok(()),
        },
    }
}

// The answers of the merge of all, once the back is the front where that is still to be done.
fn answers_settled<L: Ledger>(
    alloc: Global,
    late: &mut bool,
    front: &mut OneFront,
    back: &mut Stack,
    all: &mut Ones,
    plan: &Plan,
    steps: &mut Steps<L>,
) -> Result<Answers, NoMemory>
    requires group { (tree_of plan.now).shape ≡ Group }
    requires sound { IsSound late.old front.old back.old (piled_part all.old) }
    requires few { length all.old ≤ 1 }
    ensures ok { IfOk result (λ a. a ≡ part_answers (tree_of plan.now) (whole (queue_entries front.old back.old (piled_part all.old)))) }
    ensures sound { OnOk result (Sound front.new back.new (piled_part all.new)) }
    ensures few { length all.new ≤ 1 }
    ensures late { OnOk result (late.new ≡ false) }
    ensures entries { OnOk result (queue_entries front.new back.new (piled_part all.new) ≡ queue_entries front.old back.old (piled_part all.old)) }
    ensures steps { OnOk result (steps.new + (length back.new + length all.new) ≤ steps.old + (length back.old + length all.old) + 1) }
{
    settle(late, front, back, all, steps);
    match front.first() {
        Some(first) => match merged(all) {
            Some(last) => first.answers_with(alloc, &last, plan, steps),
            None => first.answers(alloc, plan),
        },
        None => match merged(all) {
            Some(last) => last.answers(alloc, plan),
            None => Ok(Answers::new(alloc)),
        },
    }
}

// Without the entries at the front that window i doesn't have.
#[tactic(auto, using(crate::proofs::Stacked::first_goes, crate::proofs::Stacked::first_stays, crate::proofs::Stacked::none_stays, crate::proofs::Stacked::first_there, crate::proofs::Stacked::shorter))]
#[inline(always)]
fn drop_front(front: &mut OneFront, i: u64)
    ensures { front.new ≡ dropped_entries i front.old }
{
    loop {
        match front.first_number() {
            Some(number) => {
                if number > i {
                    return;
                }
                front.pop();
            }
            None => return,
        }
    }
}

impl OneQueue {
    /// No part. Takes no memory.
    pub(crate) fn empty(alloc: Global) -> OneQueue
        ensures entries { result.entries ≡ [] }
        ensures owed { result.owed ≡ 0 }
    {
        OneQueue {
            front: OneFront::empty(alloc),
            back: Stack::empty(alloc),
            all: Ones::empty(alloc),
            late: false,
        }
    }

    /// The queue of entries with their own parts: one step for each.
    pub(crate) fn of_entries<L: Ledger>(
        alloc: Global,
        entries: Stack,
        steps: &mut Steps<L>,
    ) -> OneQueue
        requires { Chained entries }
        ensures entries { result.entries ≡ suffixes entries }
        ensures owed { result.owed ≡ 0 }
        ensures steps { steps.new ≤ steps.old + length entries }
    {
        let mut back = entries;
        let mut front = OneFront::empty(alloc);
        front.take_over(&mut back, steps);
        OneQueue {
            front,
            back,
            all: Ones::empty(alloc),
            late: false,
        }
    }

    /// Whether no entry is kept. Those that are have one group, without a key.
    #[inline(always)]
    pub(crate) fn is_empty(&self) -> bool
        ensures none { result ≡ true → self.now.entries ≡ [] }
        ensures some { result ≡ false → IsOne (whole self.now.entries) }
    {
        self.all.are_ones();
        match self.front.first() {
            Some(_) => false,
            None => self.back.is_empty(),
        }
    }

    /// The first entry's number.
    #[inline(always)]
    pub(crate) fn first_number(&self) -> Option<u64>
        ensures { result ≡ first_number self.now.entries }
    {
        match self.front.first_number() {
            Some(number) => Some(number),
            None => self.back.first_number(),
        }
    }

    /// A part of rows behind all others. It costs two steps, each now or later. After want of
    /// memory nothing is kept.
    #[inline]
    pub(crate) fn push<L: Ledger>(
        &mut self,
        alloc: Global,
        number: u64,
        part: &RowPart,
        steps: &mut Steps<L>,
    ) -> Result<(), NoMemory>
        requires one { IsOne part.now }
        requires room { CanFollow part.now self.old.entries }
        ensures entries { OnOk result (self.new.entries ≡ pushed_entries self.old.entries number part.now) }
        ensures steps { OnOk result (steps.new + self.new.owed ≤ steps.old + self.old.owed + 2) }
    {
        match put_settled(
            &mut self.late,
            &mut self.front,
            &mut self.back,
            &mut self.all,
            number,
            part,
            steps,
        ) {
            Ok(()) => Ok(()),
            Err(lacks) => {
                *self = OneQueue::empty(alloc);
                Err(lacks)
            }
        }
    }

    /// A part of rows behind all others: where the last entry has this number and is kept with its
    /// own part, it goes into that; else it becomes an entry, as with `push`.
    #[inline]
    pub(crate) fn put<L: Ledger>(
        &mut self,
        alloc: Global,
        number: u64,
        part: &RowPart,
        steps: &mut Steps<L>,
    ) -> Result<(), NoMemory>
        requires one { IsOne part.now }
        requires room { CanFollow part.now self.old.entries }
        ensures entries { OnOk result (Put self.old.entries number part.now self.new.entries) }
        ensures steps { OnOk result (steps.new + self.new.owed ≤ steps.old + self.old.owed + 2) }
    {
        if !self.back.ends_with(number) {
            return self.push(alloc, number, part, steps);
        }
        match join_behind(self.late, &mut self.back, &mut self.all, part, steps) {
            Ok(()) => Ok(()),
            Err(lacks) => {
                *self = OneQueue::empty(alloc);
                Err(lacks)
            }
        }
    }

    // The same as `drop_to` where the first entry goes.
    #[inline]
    fn drop_some(&mut self, i: u64)
        ensures entries { self.new.entries ≡ dropped_entries i self.old.entries }
        ensures owed { self.new.owed ≤ self.old.owed }
    {
        drop_front(&mut self.front, i);
        match self.front.first_number() {
            Some(_) => return,
            None => {}
        }
        let gone = self.back.count_gone(i);
        if gone == 0 {
            return;
        }
        self.back.drop_front(gone);
        self.all.clear();
        self.late = true;
    }

    /// Drops the entries at the front that window i doesn't have. Takes no memory and no step.
    #[inline(always)]
    pub(crate) fn drop_to(&mut self, i: u64)
        ensures entries { self.new.entries ≡ dropped_entries i self.old.entries }
        ensures owed { self.new.owed ≤ self.old.owed }
    {
        match self.first_number() {
            Some(number) => {
                if number <= i {
                    self.drop_some(i);
                }
            }
            None => {}
        }
    }

    /// Writes the lines of the merge of all parts behind what `out` has: one step beside those
    /// owed. Where memory is wanting, `out` stays as it was.
    #[inline]
    pub(crate) fn lines<L: Ledger>(
        &mut self,
        plan: &Plan,
        window: u64,
        out: &mut Vec<u8>,
        steps: &mut Steps<L>,
    ) -> Result<(), NoMemory>
        requires group { (tree_of plan.now).shape ≡ Group }
        ensures ok { OnOk result (out.new.items ≡ out.old.items ++ part_lines (tree_of plan.now) window (whole self.old.entries)) }
        ensures same { OnOk result (self.new.entries ≡ self.old.entries) }
        ensures err { OnErr result (out.new.items ≡ out.old.items) }
        ensures steps { OnOk result (steps.new + self.new.owed ≤ steps.old + self.old.owed + 1) }
    {
        let alloc = self.all.allocator();
        match lines_settled(
            &mut self.late,
            &mut self.front,
            &mut self.back,
            &mut self.all,
            plan,
            window,
            out,
            steps,
        ) {
            Ok(()) => Ok(()),
            Err(lacks) => {
                *self = OneQueue::empty(alloc);
                Err(lacks)
            }
        }
    }

    /// The answers of the merge of all parts, as those of a `Partial`: one step beside those owed.
    /// After want of memory nothing is kept.
    pub(crate) fn answers<L: Ledger>(
        &mut self,
        plan: &Plan,
        steps: &mut Steps<L>,
    ) -> Result<Answers, NoMemory>
        requires group { (tree_of plan.now).shape ≡ Group }
        ensures ok { IfOk result (λ a. a ≡ part_answers (tree_of plan.now) (whole self.old.entries)) }
        ensures same { OnOk result (self.new.entries ≡ self.old.entries) }
        ensures steps { OnOk result (steps.new + self.new.owed ≤ steps.old + self.old.owed + 1) }
    {
        let alloc = self.all.allocator();
        match answers_settled(
            alloc,
            &mut self.late,
            &mut self.front,
            &mut self.back,
            &mut self.all,
            plan,
            steps,
        ) {
            Ok(answers) => Ok(answers),
            Err(lacks) => {
                *self = OneQueue::empty(alloc);
                Err(lacks)
            }
        }
    }
}
