// Parts that follow one another, as few lists that fall in size.
ghost use Rattle.std.specs.Prelude.{◌≡◌, ◌+◌, ◌<◌, ◌≤◌, ◌++◌, true, length, MatchOption, OnOk, OnErr, IfOk};
ghost use Rattle.saber_plan.specs.declared.plans.Shape.TheVariants.{Group};
ghost use Rattle.saber_plan.specs.Parts.{merge, no_part, part_answers, part_lines};
ghost use Rattle.saber_plan.specs.Trees.{tree_of};
ghost use Rattle.saber_partial.specs.Tallies.{CanMerge};
ghost use Rattle.saber_partial.specs.Piles.{piled_part, CanPile};

use crate::groups::Partial;
use crate::row_parts::RowPart;
use crate::steps::Steps;
use saber_changes::Answers;
use saber_plan::{NoMemory, Plan};
use std::alloc::Global;
use std::marker::{Brand, Model};
use std::sync::ledger::{Blank, Ledger};

/// A part that is taken in piece by piece. The pieces are merged by twos as they come to be of like
/// size, as a binary counter carries, so that a group is moved as often as the number of groups has
/// halves, and not once for each piece. Contracts see the merge of all, and in how many pieces it
/// lies: as a merge makes one piece of two, there are never more merges than pieces that were taken
/// in.
#[derive(Drop)]
pub struct Pile {
    // from first to last
    parts: Vec<Partial>,
    // of no meaning: its memory is for the next of them
    spare: Option<Partial>,
}

impl Model for Pile {
    ghost use Rattle.std.specs.Prelude.{length};
    ghost use Rattle.saber_partial.specs.Piles as piles;
    ghost use Rattle.saber_partial.specs.Piles.{coded_pile, piled_part, CanPile};

    ghost Value = { piles.Pile };

    ghost coded = { coded_pile };

    ghost view = { λ p. record { part = piled_part p.parts.items; pieces = length p.parts.items } };

    ghost invariant = { λ p. CanPile p.parts.items };
}

// A part of fewer groups takes in what comes behind it at once, mostly without memory.
const FEW: usize = 16;

// Whether there are two parts at least, and the one before the last isn't twice as great as the
// last.
fn are_like(parts: &[Partial]) -> bool
    ensures { result ≡ true → 2 ≤ length parts.now }
{
    let count = parts.len();
    count > 1 && parts[count - 2].len() / 2 < parts[count - 1].len()
}

// The last of some parts takes in what comes behind it: one step.
fn merge_behind<L: Ledger>(
    alloc: Global,
    parts: &mut Vec<Partial>,
    part: &Partial,
    steps: &mut Steps<L>,
) -> Result<(), NoMemory>
    requires some { 1 ≤ length parts.old.items }
    requires can { CanPile parts.old.items }
    requires room { CanMerge (piled_part parts.old.items) part.now }
    ensures all { OnOk result (piled_part parts.new.items ≡ merge (piled_part parts.old.items) part.now) }
    ensures can { CanPile parts.new.items }
    ensures fewer { length parts.new.items ≤ length parts.old.items }
    ensures steps { steps.new ≤ steps.old + 1 }
{
    let Some(last) = parts.last_mut() else {
        return Ok(());
    };
    match last.merge_from(alloc, part, steps) {
        Ok(()) => Ok(()),
        Err(lacks) => {
            parts.clear();
            Err(lacks)
        }
    }
}

// The last two of two parts at least become one: one step.
fn merge_last<L: Ledger>(parts: &mut Vec<Partial>, steps: &mut Steps<L>) -> Result<(), NoMemory>
    requires two { 2 ≤ length parts.old.items }
    requires can { CanPile parts.old.items }
    ensures same { OnOk result (piled_part parts.new.items ≡ piled_part parts.old.items) }
    ensures fewer { length parts.new.items + 1 ≤ length parts.old.items }
    ensures can { CanPile parts.new.items }
    ensures steps { steps.new ≤ steps.old + 1 }
{
    let alloc = *parts.allocator();
    let Some(last) = parts.pop() else {
        return Ok(());
    };
    merge_behind(alloc, parts, &last, steps)
}

// Merges the last two while they are of like size: at most a step for each part that is fewer.
fn carry<L: Ledger>(parts: &mut Vec<Partial>, steps: &mut Steps<L>) -> Result<(), NoMemory>
    requires { CanPile parts.old.items }
    ensures same { OnOk result (piled_part parts.new.items ≡ piled_part parts.old.items) }
    ensures can { CanPile parts.new.items }
    ensures steps { steps.new + length parts.new.items ≤ steps.old + length parts.old.items }
{
    while are_like(parts) {
        merge_last(parts, steps)?;
    }
    Ok(())
}

// Merges all into one: at most a step for each part that is fewer.
fn settle<L: Ledger>(parts: &mut Vec<Partial>, steps: &mut Steps<L>) -> Result<(), NoMemory>
    requires { CanPile parts.old.items }
    ensures same { OnOk result (piled_part parts.new.items ≡ piled_part parts.old.items) }
    ensures one { OnOk result (length parts.new.items ≤ 1) }
    ensures can { CanPile parts.new.items }
    ensures steps { steps.new + length parts.new.items ≤ steps.old + length parts.old.items }
{
    while parts.len() > 1 {
        merge_last(parts, steps)?;
    }
    Ok(())
}

// The part that is all, if there is one.
fn only(parts: &[Partial]) -> Option<&Partial>
    requires { length parts.now ≤ 1 }
    ensures { MatchOption result (piled_part parts.now ≡ no_part) (λ part. piled_part parts.now ≡ part.now) }
{
    parts.first()
}

// The lines of a part and of what comes behind it, which is one part at most: one step at most.
fn write_behind<L: Ledger>(
    first: &Partial,
    parts: &[Partial],
    plan: &Plan,
    window: u64,
    out: &mut Vec<u8>,
    steps: &mut Steps<L>,
) -> Result<(), NoMemory>
    requires group { (tree_of plan.now).shape ≡ Group }
    requires one { length parts.now ≤ 1 }
    requires can { CanMerge first.now (piled_part parts.now) }
    ensures ok { OnOk result (out.new.items ≡ out.old.items ++ part_lines (tree_of plan.now) window (merge first.now (piled_part parts.now))) }
    ensures err { OnErr result (out.new.items ≡ out.old.items) }
    ensures steps { steps.new ≤ steps.old + 1 }
{
    let Some(part) = only(parts) else {
        return first.lines(plan, window, out);
    };
    first.lines_with(part, plan, window, out, steps)
}

// The answers of a part and of what comes behind it, which is one part at most: one step at most.
fn answers_of_both<L: Ledger>(
    alloc: Global,
    first: &Partial,
    parts: &[Partial],
    plan: &Plan,
    steps: &mut Steps<L>,
) -> Result<Answers, NoMemory>
    requires group { (tree_of plan.now).shape ≡ Group }
    requires one { length parts.now ≤ 1 }
    requires can { CanMerge first.now (piled_part parts.now) }
    ensures ok { IfOk result (λ a. a ≡ part_answers (tree_of plan.now) (merge first.now (piled_part parts.now))) }
    ensures steps { steps.new ≤ steps.old + 1 }
{
    let Some(part) = only(parts) else {
        return first.answers(alloc, plan);
    };
    first.answers_with(alloc, part, plan, steps)
}

// Whether the last part has few groups, or isn't twice as great as one of so many that comes behind
// it.
fn is_like_last(parts: &[Partial], groups: usize) -> bool
    ensures { result ≡ true → 1 ≤ length parts.now }
{
    match parts.last() {
        Some(last) => last.len() < FEW || last.len() / 2 < groups,
        None => false,
    }
}

// The last of some parts takes in the part of a row that comes behind it: one step.
fn merge_row_behind<L: Ledger>(
    parts: &mut Vec<Partial>,
    part: &RowPart,
    steps: &mut Steps<L>,
) -> Result<(), NoMemory>
    requires some { 1 ≤ length parts.old.items }
    requires can { CanPile parts.old.items }
    requires room { CanMerge (piled_part parts.old.items) part.now }
    ensures all { OnOk result (piled_part parts.new.items ≡ merge (piled_part parts.old.items) part.now) }
    ensures can { CanPile parts.new.items }
    ensures fewer { length parts.new.items ≤ length parts.old.items }
    ensures steps { steps.new ≤ steps.old + 1 }
{
    let Some(last) = parts.last_mut() else {
        return Ok(());
    };
    match last.merge_row(part, steps) {
        Ok(()) => Ok(()),
        Err(lacks) => {
            parts.clear();
            Err(lacks)
        }
    }
}

// The part of a row behind all others.
fn put_row<L: Ledger>(
    alloc: Global,
    parts: &mut Vec<Partial>,
    spare: &mut Option<Partial>,
    part: &RowPart,
    steps: &mut Steps<L>,
) -> Result<(), NoMemory>
    requires can { CanPile parts.old.items }
    requires room { CanMerge (piled_part parts.old.items) part.now }
    ensures all { OnOk result (piled_part parts.new.items ≡ merge (piled_part parts.old.items) part.now) }
    ensures can { CanPile parts.new.items }
    ensures steps { steps.new + length parts.new.items ≤ steps.old + length parts.old.items + 1 }
{
    if is_like_last(parts, 1) {
        merge_row_behind(parts, part, steps)?;
        return carry(parts, steps);
    }
    parts.push(Partial::of_row_in(alloc, spare, part)?)?;
    Ok(())
}

// What comes behind all others, which is lent.
fn put_copy<L: Ledger>(
    alloc: Global,
    parts: &mut Vec<Partial>,
    spare: &mut Option<Partial>,
    part: &Partial,
    steps: &mut Steps<L>,
) -> Result<(), NoMemory>
    requires can { CanPile parts.old.items }
    requires room { CanMerge (piled_part parts.old.items) part.now }
    ensures all { OnOk result (piled_part parts.new.items ≡ merge (piled_part parts.old.items) part.now) }
    ensures can { CanPile parts.new.items }
    ensures steps { steps.new + length parts.new.items ≤ steps.old + length parts.old.items + 1 }
{
    if is_like_last(parts, part.len()) {
        merge_behind(alloc, parts, part, steps)?;
        return carry(parts, steps);
    }
    parts.push(part.copy_in(alloc, spare)?)?;
    Ok(())
}

// All in one part, after which there is none.
fn take_all<L: Ledger>(
    alloc: Global,
    parts: &mut Vec<Partial>,
    steps: &mut Steps<L>,
) -> Result<Partial, NoMemory>
    requires { CanPile parts.old.items }
    ensures { IfOk result (λ p. p ≡ piled_part parts.old.items) }
{
    settle(parts, steps)?;
    match parts.pop() {
        Some(part) => Ok(part),
        None => Ok(Partial::empty(alloc)),
    }
}

// The same of parts that are given up.
fn join_all<L: Ledger>(
    alloc: Global,
    parts: Vec<Partial>,
    blank: Blank,
) -> Result<Partial, NoMemory>
    requires can { CanPile parts.items }
    requires name { blank.name ≡ L.name }
    requires parts { blank.parts ≡ L.parts }
    requires some { 0 < blank.parts }
    ensures { IfOk result (λ p. p ≡ piled_part parts.items) }
{
    let mut steps = Steps::<L>::new(blank);
    let mut all = parts;
    take_all(alloc, &mut all, &mut steps)
}

// A part behind all others.
fn put_behind<L: Ledger>(
    parts: &mut Vec<Partial>,
    part: Partial,
    blank: Blank,
) -> Result<(), NoMemory>
    requires can { CanPile parts.old.items }
    requires room { CanMerge (piled_part parts.old.items) part }
    requires name { blank.name ≡ L.name }
    requires parts { blank.parts ≡ L.parts }
    requires some { 0 < blank.parts }
    ensures all { OnOk result (piled_part parts.new.items ≡ merge (piled_part parts.old.items) part) }
    ensures can { CanPile parts.new.items }
{
    let mut steps = Steps::<L>::new(blank);
    parts.push(part)?;
    carry(parts, &mut steps)
}

impl Pile {
    /// No group. Takes no memory.
    pub fn empty(alloc: Global) -> Pile
        ensures part { result.part ≡ no_part }
        ensures pieces { result.pieces ≡ 0 }
    {
        Pile {
            parts: Vec::new(alloc),
            spare: None,
        }
    }

    /// Lets all go. The memory stays for what comes next.
    pub fn clear(&mut self)
        ensures part { self.new.part ≡ no_part }
        ensures pieces { self.new.pieces ≡ 0 }
    {
        self.parts.truncate(1);
        match self.parts.pop() {
            Some(part) => self.spare = Some(part),
            None => {}
        }
        self.parts.clear();
    }

    /// Whether nothing was taken in.
    pub(crate) fn is_empty(&self) -> bool
        ensures { result ≡ true → self.now.part ≡ no_part }
    {
        self.parts.is_empty()
    }

    /// Takes in what is known of later rows. Its steps are counted nowhere. After want of memory it
    /// is only safe, as with `Partial::merge`.
    pub(crate) fn take_in(&mut self, part: Partial) -> Result<(), NoMemory>
        requires { CanMerge self.old.part part }
        ensures { OnOk result (self.new.part ≡ merge self.old.part part) }
    {
        if part.is_empty() {
            return Ok(());
        }
        put_behind::<Brand>(&mut self.parts, part, Blank::new(1))
    }

    /// Takes in what is known of later rows, which is lent: one step, if each piece more counts for
    /// one. After want of memory it is only safe, as with `Partial::merge`.
    #[inline(always)]
    pub fn take_from<L: Ledger>(
        &mut self,
        alloc: Global,
        part: &Partial,
        steps: &mut Steps<L>,
    ) -> Result<(), NoMemory>
        requires { CanMerge self.old.part part.now }
        ensures part { OnOk result (self.new.part ≡ merge self.old.part part.now) }
        ensures steps { steps.new + self.new.pieces ≤ steps.old + self.old.pieces + 1 }
    {
        if part.is_empty() {
            return Ok(());
        }
        put_copy(alloc, &mut self.parts, &mut self.spare, part, steps)
    }

    /// The same of the part of a row.
    #[inline]
    pub fn take_row<L: Ledger>(
        &mut self,
        alloc: Global,
        part: &RowPart,
        steps: &mut Steps<L>,
    ) -> Result<(), NoMemory>
        requires { CanMerge self.old.part part.now }
        ensures part { OnOk result (self.new.part ≡ merge self.old.part part.now) }
        ensures steps { steps.new + self.new.pieces ≤ steps.old + self.old.pieces + 1 }
    {
        put_row(alloc, &mut self.parts, &mut self.spare, part, steps)
    }

    /// All in one part. Its steps are counted nowhere.
    pub(crate) fn into_part(self, alloc: Global) -> Result<Partial, NoMemory>
        ensures { IfOk result (λ p. p ≡ self.part) }
    {
        join_all::<Brand>(alloc, self.parts, Blank::new(1))
    }

    /// Writes the lines of all groups behind what `out` has: a step for each piece that is fewer.
    /// Where memory is wanting, `out` stays as it was.
    pub fn lines<L: Ledger>(
        &mut self,
        plan: &Plan,
        window: u64,
        out: &mut Vec<u8>,
        steps: &mut Steps<L>,
    ) -> Result<(), NoMemory>
        requires group { (tree_of plan.now).shape ≡ Group }
        ensures ok { OnOk result (out.new.items ≡ out.old.items ++ part_lines (tree_of plan.now) window self.old.part) }
        ensures same { OnOk result (self.new.part ≡ self.old.part) }
        ensures err { OnErr result (out.new.items ≡ out.old.items) }
        ensures steps { steps.new + self.new.pieces ≤ steps.old + self.old.pieces }
    {
        settle(&mut self.parts, steps)?;
        let Some(part) = only(&self.parts) else {
            return Ok(());
        };
        part.lines(plan, window, out)
    }

    /// The same of a part before them and of all together: one step more, for they are merged as
    /// they are written.
    pub fn lines_behind<L: Ledger>(
        &mut self,
        first: &Partial,
        plan: &Plan,
        window: u64,
        out: &mut Vec<u8>,
        steps: &mut Steps<L>,
    ) -> Result<(), NoMemory>
        requires group { (tree_of plan.now).shape ≡ Group }
        requires can { CanMerge first.now self.old.part }
        ensures ok { OnOk result (out.new.items ≡ out.old.items ++ part_lines (tree_of plan.now) window (merge first.now self.old.part)) }
        ensures same { OnOk result (self.new.part ≡ self.old.part) }
        ensures err { OnErr result (out.new.items ≡ out.old.items) }
        ensures steps { steps.new + self.new.pieces ≤ steps.old + self.old.pieces + 1 }
    {
        settle(&mut self.parts, steps)?;
        write_behind(first, &self.parts, plan, window, out, steps)
    }

    /// The answers of all groups, as those of a `Partial`: a step for each piece that is fewer.
    pub fn answers<L: Ledger>(
        &mut self,
        alloc: Global,
        plan: &Plan,
        steps: &mut Steps<L>,
    ) -> Result<Answers, NoMemory>
        requires group { (tree_of plan.now).shape ≡ Group }
        ensures ok { IfOk result (λ a. a ≡ part_answers (tree_of plan.now) self.old.part) }
        ensures same { OnOk result (self.new.part ≡ self.old.part) }
        ensures steps { steps.new + self.new.pieces ≤ steps.old + self.old.pieces }
    {
        settle(&mut self.parts, steps)?;
        let Some(part) = only(&self.parts) else {
            return Ok(Answers::new(alloc));
        };
        part.answers(alloc, plan)
    }

    /// The same of a part before them and of all together: one step more, in which they are merged.
    pub fn answers_behind<L: Ledger>(
        &mut self,
        alloc: Global,
        first: &Partial,
        plan: &Plan,
        steps: &mut Steps<L>,
    ) -> Result<Answers, NoMemory>
        requires group { (tree_of plan.now).shape ≡ Group }
        requires can { CanMerge first.now self.old.part }
        ensures ok { IfOk result (λ a. a ≡ part_answers (tree_of plan.now) (merge first.now self.old.part)) }
        ensures same { OnOk result (self.new.part ≡ self.old.part) }
        ensures steps { steps.new + self.new.pieces ≤ steps.old + self.old.pieces + 1 }
    {
        settle(&mut self.parts, steps)?;
        answers_of_both(alloc, first, &self.parts, plan, steps)
    }
}
