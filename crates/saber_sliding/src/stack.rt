// Entries whose parts have one group, side by side.
ghost use Rattle.std.specs.Prelude.{◌≡◌, ◌<◌, ◌≤◌, ◌+◌, ◌∷◌, [], ◌++◌, drop, length, true, false, OnOk, OnErr, Some};
ghost use Rattle.std.specs.List.{AllByRecursion};
ghost use Rattle.saber_partial.specs.Ones.{IsOne};
ghost use Rattle.saber_partial.specs.Piles.{CanPile};
ghost use Rattle.saber_partial.specs.Tallies.{CanMerge};
ghost use Rattle.saber_sliding.specs.Entries.{dropped_entries, first_number, joined_entries, last_number, suffixes, whole, CanFollow, Chained};
ghost use Rattle.saber_sliding.specs.Stacks.{gone_by, entry_at, parts_of, sums};

use saber_partial::{Ones, RowPart, Steps};
use saber_plan::NoMemory;
use std::alloc::Global;
use std::marker::Model;
use std::sync::ledger::Ledger;

/// Entries in order: their numbers in one list, and their parts, of one group each, in another.
/// Contracts see the entries.
#[derive(Drop)]
pub(crate) struct Stack {
    numbers: Vec<u64>,
    parts: Ones,
}

impl Model for Stack {
    ghost use Rattle.std.specs.Prelude.{◌≡◌, length};
    ghost use Rattle.saber_sliding.specs.Entries.{coded_entries, Entries};
    ghost use Rattle.saber_sliding.specs.Stacks.{side_by_side};

    ghost Value = { Entries };

    ghost coded = { coded_entries };

    ghost view = { λ s. side_by_side s.numbers.items s.parts };

    ghost invariant = { λ s. length s.numbers.items ≡ length s.parts };
}

// Each part is merged with all behind it, from the last to the first: one step for each at most.
#[inline(never)]
fn sum_up<L: Ledger>(parts: &mut Ones, steps: &mut Steps<L>)
    requires { CanPile parts.old }
    ensures all { parts.new ≡ sums parts.old }
    ensures steps { steps.new ≤ steps.old + length parts.old }
{
    let mut i = parts.len();
    while i > 1 {
        i -= 1;
        parts.join_next(i - 1, steps);
    }
}

// How many numbers, from the first on, are at most i.
fn gone_by(numbers: &[u64], i: u64) -> usize
    ensures count { result ≡ gone_by i numbers.now }
{
    for gone in 0..numbers.len() {
        if numbers[gone] > i {
            return gone;
        }
    }
    numbers.len()
}

// Without the first numbers. The memory stays.
fn drop_first(numbers: &mut Vec<u64>, gone: usize)
    requires { gone ≤ length numbers.old.items }
    ensures { numbers.new.items ≡ drop gone numbers.old.items }
{
    let _gone = numbers.drain(..gone);
}

impl Stack {
    /// No entry. Takes no memory.
    pub(crate) fn empty(alloc: Global) -> Stack
        ensures { result ≡ [] }
    {
        Stack {
            numbers: Vec::new(alloc),
            parts: Ones::empty(alloc),
        }
    }

    /// How many entries there are.
    #[inline(always)]
    pub(crate) fn len(&self) -> usize
        ensures { result ≡ length self.now }
    {
        let _parts = &self.parts;
        self.numbers.len()
    }

    /// Whether there is none. Those that are have one group, without a key.
    #[inline(always)]
    pub(crate) fn is_empty(&self) -> bool
        ensures none { result ≡ true → self.now ≡ [] }
        ensures some { result ≡ false → IsOne (whole (suffixes self.now)) }
    {
        self.parts.are_ones();
        self.numbers.is_empty()
    }

    /// The number of the first entry.
    #[inline(always)]
    pub(crate) fn first_number(&self) -> Option<u64>
        ensures { result ≡ first_number self.now }
    {
        match self.numbers.first() {
            Some(number) => Some(*number),
            None => None,
        }
    }

    /// The number of entry `i`, from 0 on.
    #[inline(always)]
    pub(crate) fn number(&self, i: usize) -> u64
        requires { i < length self.now }
        ensures { result ≡ (entry_at self.now i).0 }
    {
        self.numbers[i]
    }

    /// The part of entry `i`.
    #[inline(always)]
    pub(crate) fn part(&self, i: usize) -> RowPart<'_>
        requires { i < length self.now }
        ensures is { result ≡ (entry_at self.now i).1 }
        ensures one { IsOne result }
    {
        self.parts.part(i)
    }

    /// One entry more. Where memory is wanting, nothing changes.
    #[inline(always)]
    pub(crate) fn push(&mut self, number: u64, part: &RowPart) -> Result<(), NoMemory>
        requires one { IsOne part.now }
        requires alike { AllByRecursion (λ p. CanMerge p part.now) (parts_of self.old) }
        ensures ok { OnOk result (self.new ≡ self.old ++ (number, part.now) ∷ []) }
        ensures err { OnErr result (self.new ≡ self.old) }
    {
        let count = self.numbers.len();
        self.numbers.push(number)?;
        match self.parts.push(part) {
            Ok(()) => Ok(()),
            Err(lacks) => {
                self.numbers.truncate(count);
                Err(lacks)
            }
        }
    }

    /// Takes what is known of later rows into the last entry: one step.
    #[inline(always)]
    pub(crate) fn join_last<L: Ledger>(&mut self, part: &RowPart, steps: &mut Steps<L>)
        requires some { 1 ≤ length self.old }
        requires one { IsOne part.now }
        requires can { CanFollow part.now (suffixes self.old) }
        ensures joined { self.new ≡ joined_entries part.now self.old }
        ensures steps { steps.new ≡ steps.old + 1 }
    {
        let last = self.numbers.len() - 1;
        self.parts.join(last, part, steps);
    }

    /// Entries with their own parts become ones with the merge from theirs on, one step for each at
    /// most.
    pub(crate) fn sum_up<L: Ledger>(&mut self, steps: &mut Steps<L>)
        requires { Chained self.old }
        ensures all { self.new ≡ suffixes self.old }
        ensures steps { steps.new ≤ steps.old + length self.old }
    {
        let _numbers = &self.numbers;
        sum_up(&mut self.parts, steps);
    }

    /// Whether the last entry has this number.
    #[inline(always)]
    pub(crate) fn ends_with(&self, number: u64) -> bool
        ensures { result ≡ true → last_number self.now ≡ Some number }
    {
        let _parts = &self.parts;
        match self.numbers.last() {
            Some(last) => *last == number,
            None => false,
        }
    }

    /// How many entries, from the first on, window i doesn't have.
    pub(crate) fn count_gone(&self, i: u64) -> usize
        ensures gone { drop result self.now ≡ dropped_entries i self.now }
        ensures within { result ≤ length self.now }
    {
        let _parts = &self.parts;
        gone_by(&self.numbers, i)
    }

    /// Lets the first entries go. The memory stays.
    pub(crate) fn drop_front(&mut self, gone: usize)
        requires { gone ≤ length self.old }
        ensures { self.new ≡ drop gone self.old }
    {
        drop_first(&mut self.numbers, gone);
        self.parts.drop_front(gone);
    }

    /// Lets all go. The memory stays.
    pub(crate) fn clear(&mut self)
        ensures { self.new ≡ [] }
    {
        self.numbers.clear();
        self.parts.clear();
    }
}
