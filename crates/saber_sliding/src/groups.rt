// Parts that follow one another, of many groups, with the merge of all from any one on.
ghost use Rattle.std.specs.Prelude.{◌≡◌, ◌+◌, ◌≤◌, [], ◌∷◌, ◌++◌, drop, length, false, OnOk, OnErr, IfOk};
ghost use Rattle.saber_plan.specs.declared.plans.Shape.TheVariants.{Group};
ghost use Rattle.saber_plan.specs.Parts.{merge, no_part, part_answers, part_lines};
ghost use Rattle.saber_plan.specs.Trees.{tree_of};
ghost use Rattle.saber_partial.specs.Tallies.{CanMerge};
ghost use Rattle.saber_sliding.specs.Entries.{dropped_entries, first_number, pushed_entries, queue_entries, suffixes, whole, CanFollow, Chained, IsSound, Sound};

use saber_changes::Answers;
use saber_partial::{Partial, Pile, Steps};
use saber_plan::{NoMemory, Plan};
use std::alloc::Global;
use std::collections::VecDeque;
use std::marker::Model;
use std::sync::ledger::Ledger;

/// Parts of rows that follow one another, each with the number of the first window that doesn't
/// have it. It is a queue of two stacks (SABER 2016 names incremental computation over panes; the
/// two stacks are those of Tangwongsan et al. 2015): the front one keeps merges of its entries to
/// its end, the back one its entries' own parts and the merge of all. So a part is merged once
/// where it comes, once where the back becomes the front, and once for each time that the whole is
/// asked. The back becomes the front when something is asked or comes, and not as entries go: a
/// queue that nobody asks again is never summed up. Contracts see the entries in order, each with
/// the merge of its part and all behind it, and how many steps for them are still owed: each merge
/// of two parts is a step.
#[derive(Drop)]
pub(crate) struct GroupQueue {
    pub(crate) front: VecDeque<(u64, Partial)>,
    pub(crate) back: Vec<(u64, Partial)>,
    pub(crate) back_part: Pile,
    // whether the back is still to become the front, which has none then
    pub(crate) late: bool,
    // of no meaning: its memory is for the next entry
    pub(crate) spare: Option<Partial>,
}

impl Model for GroupQueue {
    ghost use Rattle.std.specs.Prelude.{◌+◌, length};
    ghost use Rattle.saber_sliding.specs.Entries.{coded_queue, queue_entries, Queue, IsSound};

    ghost Value = { Queue };

    ghost coded = { coded_queue };

    ghost view = { λ s. record { entries = queue_entries s.front.items s.back.items s.back_part.part; owed = length s.back.items + s.back_part.pieces } };

    ghost invariant = { λ s. IsSound s.late s.front.items s.back.items s.back_part.part };
}

// A part, and the merge of all that stand behind it: one step at most.
#[tactic(auto, using(crate::proofs::Entered::units))]
fn merge_behind<L: Ledger>(
    alloc: Global,
    part: &mut Partial,
    front: &VecDeque<(u64, Partial)>,
    steps: &mut Steps<L>,
) -> Result<(), NoMemory>
    requires { CanMerge part.old (whole front.now.items) }
    ensures part { OnOk result (part.new ≡ merge part.old (whole front.now.items)) }
    ensures steps { steps.new ≤ steps.old + 1 }
{
    match front.front() {
        Some(next) => part.merge_from(alloc, &next.1, steps),
        None => Ok(()),
    }
}

// Turns entries with their own parts, but for the first `gone`, into ones with the merge from
// theirs on, one step for each at most.
fn sum_up<L: Ledger>(
    alloc: Global,
    gone: usize,
    back: &mut Vec<(u64, Partial)>,
    front: &mut VecDeque<(u64, Partial)>,
    steps: &mut Steps<L>,
) -> Result<(), NoMemory>
    requires chained { Chained back.old.items }
    requires there { gone ≤ length back.old.items }
    requires none { front.old.items ≡ [] }
    ensures front { OnOk result (front.new.items ≡ suffixes (drop gone back.old.items)) }
    ensures steps { OnOk result (steps.new + gone ≤ steps.old + length back.old.items) }
{
    while gone < back.len() {
        let Some((number, mut part)) = back.pop() else {
            return Ok(());
        };
        merge_behind(alloc, &mut part, front, steps)?;
        front.push_front((number, part))?;
    }
    Ok(())
}

// The entries of the back but for the first `gone` become the front, which had none. The memory of
// both stays, with room for as many entries in the back again, and one more.
fn turn<L: Ledger>(
    alloc: Global,
    gone: usize,
    front: &mut VecDeque<(u64, Partial)>,
    back: &mut Vec<(u64, Partial)>,
    back_part: &mut Pile,
    steps: &mut Steps<L>,
) -> Result<(), NoMemory>
    requires chained { Chained back.old.items }
    requires there { gone ≤ length back.old.items }
    requires none { front.old.items ≡ [] }
    ensures front { OnOk result (front.new.items ≡ suffixes (drop gone back.old.items)) }
    ensures back { OnOk result (back.new.items ≡ []) }
    ensures part { OnOk result (back_part.new.part ≡ no_part) }
    ensures pieces { OnOk result (back_part.new.pieces ≡ 0) }
    ensures steps { OnOk result (steps.new ≤ steps.old + length back.old.items) }
{
    let count = back.len();
    front.try_reserve_exact(count - gone)?;
    sum_up(alloc, gone, back, front, steps)?;
    back.clear();
    back.try_reserve_exact(count + 1)?;
    back_part.clear();
    Ok(())
}

// The back becomes the front, where that is still to be done: one step for each of its entries at
// most.
fn settle<L: Ledger>(
    alloc: Global,
    late: &mut bool,
    front: &mut VecDeque<(u64, Partial)>,
    back: &mut Vec<(u64, Partial)>,
    back_part: &mut Pile,
    steps: &mut Steps<L>,
) -> Result<(), NoMemory>
    requires { IsSound late.old front.old.items back.old.items back_part.old.part }
    ensures sound { OnOk result (Sound front.new.items back.new.items back_part.new.part) }
    ensures late { OnOk result (late.new ≡ false) }
    ensures entries { OnOk result (queue_entries front.new.items back.new.items back_part.new.part ≡ queue_entries front.old.items back.old.items back_part.old.part) }
    ensures steps { OnOk result (steps.new + (length back.new.items + back_part.new.pieces) ≤ steps.old + (length back.old.items + back_part.old.pieces)) }
{
    if !*late {
        return Ok(());
    }
    turn(alloc, 0, front, back, back_part, steps)?;
    *late = false;
    Ok(())
}

// Without the first entry, whose memory stays.
fn drop_one(front: &mut VecDeque<(u64, Partial)>, spare: &mut Option<Partial>)
    ensures { front.new.items ≡ drop 1 front.old.items }
{
    match front.pop_front() {
        Some(entry) => *spare = Some(entry.1),
        None => {}
    }
}

// Without the entries at the front that window i doesn't have. The memory of the last of them
// stays.
fn drop_front(front: &mut VecDeque<(u64, Partial)>, spare: &mut Option<Partial>, i: u64)
    ensures { front.new.items ≡ dropped_entries i front.old.items }
{
    loop {
        match front.front() {
            Some(entry) => {
                if entry.0 > i {
                    return;
                }
                drop_one(front, spare);
            }
            None => return,
        }
    }
}

// How many entries, from the first on, window i doesn't have.
fn count_gone(back: &[(u64, Partial)], i: u64) -> usize
    ensures gone { drop result back.now ≡ dropped_entries i back.now }
    ensures within { result ≤ length back.now }
{
    for gone in 0..back.len() {
        if back[gone].0 > i {
            return gone;
        }
    }
    back.len()
}

// Without the first entries. The memory of the first stays.
fn drop_first(back: &mut Vec<(u64, Partial)>, spare: &mut Option<Partial>, gone: usize)
    requires { gone ≤ length back.old.items }
    ensures { back.new.items ≡ drop gone back.old.items }
{
    let mut entries = back.drain(..gone);
    match entries.next() {
        Some(entry) => *spare = Some(entry.1),
        None => {}
    }
}

// One entry more with its own part, and the merge of all: one step, if each piece more counts for
// one.
fn put_behind<L: Ledger>(
    alloc: Global,
    back: &mut Vec<(u64, Partial)>,
    back_part: &mut Pile,
    number: u64,
    part: Partial,
    steps: &mut Steps<L>,
) -> Result<(), NoMemory>
    requires { CanMerge back_part.old.part part }
    ensures back { OnOk result (back.new.items ≡ back.old.items ++ (number, part) ∷ []) }
    ensures part { OnOk result (back_part.new.part ≡ merge back_part.old.part part) }
    ensures steps { OnOk result (steps.new + back_part.new.pieces ≤ steps.old + back_part.old.pieces + 1) }
{
    back.push((number, part))?;
    match back.last() {
        Some(entry) => back_part.take_from(alloc, &entry.1, steps),
        None => Ok(()),
    }
}

// The same, once the back is the front where that is still to be done.
fn put_settled<L: Ledger>(
    alloc: Global,
    late: &mut bool,
    front: &mut VecDeque<(u64, Partial)>,
    back: &mut Vec<(u64, Partial)>,
    back_part: &mut Pile,
    number: u64,
    part: Partial,
    steps: &mut Steps<L>,
) -> Result<(), NoMemory>
    requires sound { IsSound late.old front.old.items back.old.items back_part.old.part }
    requires room { CanFollow part (queue_entries front.old.items back.old.items back_part.old.part) }
    ensures sound { OnOk result (Sound front.new.items back.new.items back_part.new.part) }
    ensures late { OnOk result (late.new ≡ false) }
    ensures entries { OnOk result (queue_entries front.new.items back.new.items back_part.new.part ≡ pushed_entries (queue_entries front.old.items back.old.items back_part.old.part) number part) }
    ensures steps { OnOk result (steps.new + (length back.new.items + back_part.new.pieces) ≤ steps.old + (length back.old.items + back_part.old.pieces) + 2) }
{
    settle(alloc, late, front, back, back_part, steps)?;
    put_behind(alloc, back, back_part, number, part, steps)?;
    Ok(())
}

// The lines of the merge of all, once the back is the front where that is still to be done.
fn lines_settled<L: Ledger>(
    alloc: Global,
    late: &mut bool,
    front: &mut VecDeque<(u64, Partial)>,
    back: &mut Vec<(u64, Partial)>,
    back_part: &mut Pile,
    plan: &Plan,
    window: u64,
    out: &mut Vec<u8>,
    steps: &mut Steps<L>,
) -> Result<(), NoMemory>
    requires group { (tree_of plan.now).shape ≡ Group }
    requires sound { IsSound late.old front.old.items back.old.items back_part.old.part }
    ensures ok { OnOk result (out.new.items ≡ out.old.items ++ part_lines (tree_of plan.now) window (whole (queue_entries front.old.items back.old.items back_part.old.part))) }
    ensures err { OnErr result (out.new.items ≡ out.old.items) }
    ensures sound { OnOk result (Sound front.new.items back.new.items back_part.new.part) }
    ensures late { OnOk result (late.new ≡ false) }
    ensures entries { OnOk result (queue_entries front.new.items back.new.items back_part.new.part ≡ queue_entries front.old.items back.old.items back_part.old.part) }
    ensures steps { OnOk result (steps.new + (length back.new.items + back_part.new.pieces) ≤ steps.old + (length back.old.items + back_part.old.pieces) + 1) }
{
    settle(alloc, late, front, back, back_part, steps)?;
    match front.front() {
        Some(first) => back_part.lines_behind(&first.1, plan, window, out, steps),
        None => back_part.lines(plan, window, out, steps),
    }
}

// The answers of the merge of all, once the back is the front where that is still to be done.
fn answers_settled<L: Ledger>(
    alloc: Global,
    late: &mut bool,
    front: &mut VecDeque<(u64, Partial)>,
    back: &mut Vec<(u64, Partial)>,
    back_part: &mut Pile,
    plan: &Plan,
    steps: &mut Steps<L>,
) -> Result<Answers, NoMemory>
    requires group { (tree_of plan.now).shape ≡ Group }
    requires sound { IsSound late.old front.old.items back.old.items back_part.old.part }
    ensures ok { IfOk result (λ a. a ≡ part_answers (tree_of plan.now) (whole (queue_entries front.old.items back.old.items back_part.old.part))) }
    ensures sound { OnOk result (Sound front.new.items back.new.items back_part.new.part) }
    ensures late { OnOk result (late.new ≡ false) }
    ensures entries { OnOk result (queue_entries front.new.items back.new.items back_part.new.part ≡ queue_entries front.old.items back.old.items back_part.old.part) }
    ensures steps { OnOk result (steps.new + (length back.new.items + back_part.new.pieces) ≤ steps.old + (length back.old.items + back_part.old.pieces) + 1) }
{
    settle(alloc, late, front, back, back_part, steps)?;
    match front.front() {
        Some(first) => back_part.answers_behind(alloc, &first.1, plan, steps),
        None => back_part.answers(alloc, plan, steps),
    }
}

impl GroupQueue {
    /// No part. Takes no memory.
    pub(crate) fn empty(alloc: Global) -> GroupQueue
        ensures entries { result.entries ≡ [] }
        ensures owed { result.owed ≡ 0 }
    {
        GroupQueue {
            front: VecDeque::new(alloc),
            back: Vec::new(alloc),
            back_part: Pile::empty(alloc),
            late: false,
            spare: None,
        }
    }

    /// The queue of entries with their own parts: one step for each.
    pub(crate) fn of_entries<L: Ledger>(
        alloc: Global,
        entries: Vec<(u64, Partial)>,
        steps: &mut Steps<L>,
    ) -> Result<GroupQueue, NoMemory>
        requires { Chained entries.items }
        ensures entries { IfOk result (λ s. s.entries ≡ suffixes entries.items) }
        ensures owed { IfOk result (λ s. s.owed ≡ 0) }
        ensures steps { OnOk result (steps.new ≤ steps.old + length entries.items) }
    {
        let mut back = entries;
        let mut front = VecDeque::new(alloc);
        front.try_reserve_exact(back.len())?;
        sum_up(alloc, 0, &mut back, &mut front, steps)?;
        Ok(GroupQueue {
            front,
            back: Vec::new(alloc),
            back_part: Pile::empty(alloc),
            late: false,
            spare: None,
        })
    }

    /// The first entry's number.
    pub(crate) fn first_number(&self) -> Option<u64>
        ensures { result ≡ first_number self.now.entries }
    {
        match self.front.front() {
            Some(entry) => Some(entry.0),
            None => match self.back.first() {
                Some(entry) => Some(entry.0),
                None => None,
            },
        }
    }

    /// A part of rows behind all others. It costs two steps, each now or later. After want of
    /// memory nothing is kept.
    #[inline(always)]
    pub(crate) fn push<L: Ledger>(
        &mut self,
        alloc: Global,
        number: u64,
        part: Partial,
        steps: &mut Steps<L>,
    ) -> Result<(), NoMemory>
        requires { CanFollow part self.old.entries }
        ensures entries { OnOk result (self.new.entries ≡ pushed_entries self.old.entries number part) }
        ensures steps { OnOk result (steps.new + self.new.owed ≤ steps.old + self.old.owed + 2) }
    {
        match put_settled(
            alloc,
            &mut self.late,
            &mut self.front,
            &mut self.back,
            &mut self.back_part,
            number,
            part,
            steps,
        ) {
            Ok(()) => Ok(()),
            Err(lacks) => {
                *self = GroupQueue::empty(alloc);
                Err(lacks)
            }
        }
    }

    // The same as `drop_to` where the first entry goes.
    #[inline(never)]
    fn drop_some(&mut self, i: u64)
        ensures entries { self.new.entries ≡ dropped_entries i self.old.entries }
        ensures owed { self.new.owed ≤ self.old.owed }
    {
        drop_front(&mut self.front, &mut self.spare, i);
        if !self.front.is_empty() {
            return;
        }
        let gone = count_gone(&self.back, i);
        if gone == 0 {
            return;
        }
        drop_first(&mut self.back, &mut self.spare, gone);
        self.back_part.clear();
        self.late = true;
    }

    /// Drops the entries at the front that window i doesn't have. Takes no memory and no step.
    #[inline]
    pub(crate) fn drop_to(&mut self, i: u64)
        ensures entries { self.new.entries ≡ dropped_entries i self.old.entries }
        ensures owed { self.new.owed ≤ self.old.owed }
    {
        match self.first_number() {
            Some(number) => {
                if number <= i {
                    self.drop_some(i);
                }
            }
            None => {}
        }
    }

    /// Writes the lines of the merge of all parts behind what `out` has, in a walk over two lists
    /// of groups at most: one step beside those owed. Where memory is wanting, `out` stays as it
    /// was.
    #[inline(always)]
    pub(crate) fn lines<L: Ledger>(
        &mut self,
        plan: &Plan,
        window: u64,
        out: &mut Vec<u8>,
        steps: &mut Steps<L>,
    ) -> Result<(), NoMemory>
        requires group { (tree_of plan.now).shape ≡ Group }
        ensures ok { OnOk result (out.new.items ≡ out.old.items ++ part_lines (tree_of plan.now) window (whole self.old.entries)) }
        ensures same { OnOk result (self.new.entries ≡ self.old.entries) }
        ensures err { OnErr result (out.new.items ≡ out.old.items) }
        ensures steps { OnOk result (steps.new + self.new.owed ≤ steps.old + self.old.owed + 1) }
    {
        let alloc = *self.back.allocator();
        let written = lines_settled(
            alloc,
            &mut self.late,
            &mut self.front,
            &mut self.back,
            &mut self.back_part,
            plan,
            window,
            out,
            steps,
        );
        match written {
            Ok(()) => Ok(()),
            Err(lacks) => {
                *self = GroupQueue::empty(alloc);
                Err(lacks)
            }
        }
    }

    /// The answers of the merge of all parts, as those of a `Partial`: one step beside those owed.
    /// After want of memory nothing is kept.
    pub(crate) fn answers<L: Ledger>(
        &mut self,
        plan: &Plan,
        steps: &mut Steps<L>,
    ) -> Result<Answers, NoMemory>
        requires group { (tree_of plan.now).shape ≡ Group }
        ensures ok { IfOk result (λ a. a ≡ part_answers (tree_of plan.now) (whole self.old.entries)) }
        ensures same { OnOk result (self.new.entries ≡ self.old.entries) }
        ensures steps { OnOk result (steps.new + self.new.owed ≤ steps.old + self.old.owed + 1) }
    {
        let alloc = *self.back.allocator();
        let all = answers_settled(
            alloc,
            &mut self.late,
            &mut self.front,
            &mut self.back,
            &mut self.back_part,
            plan,
            steps,
        );
        match all {
            Ok(answers) => Ok(answers),
            Err(lacks) => {
                *self = GroupQueue::empty(alloc);
                Err(lacks)
            }
        }
    }
}
