// The slices of some rows, which are given away one after another.
ghost use Rattle.std.specs.Prelude.{◌≡◌, ◌≤◌, ◌+◌, List, [], ◌∷◌, drop, length, take, IfNone, IfOk, IfSome, OnOk};
ghost use Rattle.std.specs.List.{AllByRecursion};
ghost use Rattle.saber_partial.specs.Ones.{IsOne};
ghost use Rattle.saber_plan.specs.Parts.{no_part, Part};
ghost use Rattle.saber_group.specs.declared.slices.Slice.{Slice};
ghost use Rattle.saber_group.specs.declared.slice_list.Span.{Span};
ghost use Rattle.saber_group.specs.SliceLists.{first_of, part_in, spans_left, CanEnter, EnteredFirst, EnteredFirstFrom, IsWithin};

use crate::letting::let_groups_go;
use crate::slices::Slice;
use saber_partial::{Ones, RowPart, Steps};
use saber_plan::NoMemory;
use saber_sliding::{Front, Open};
use std::alloc::Global;
use std::collections::VecDeque;
use std::marker::Model;
use std::sync::ledger::Ledger;

/// A slice whose part, if a row of it passes, stands among those of others.
#[derive(Clone, Copy)]
pub(crate) struct Span {
    pub(crate) first: u64,
    pub(crate) past: u64,
    pub(crate) end: usize,
    pub(crate) part: Option<usize>,
}

/// Slices of the two forms of parts: each with a part of its own, or with one that stands in a list
/// of all. Of the second form those below `next` are given away.
#[derive(Drop)]
pub(crate) enum Listed {
    Groups(VecDeque<Slice>),
    Ones {
        spans: Vec<Span>,
        next: usize,
        parts: Ones,
    },
}

/// Slices in order, each with its part. Contracts see them as a list.
#[derive(Drop)]
pub(crate) struct Slices {
    pub(crate) listed: Listed,
}

impl Model for Slices {
    ghost use Rattle.std.specs.Prelude.{List};
    ghost use Rattle.saber_group.specs.declared.slices.Slice.{Slice};
    ghost use Rattle.saber_group.specs.SliceLists.{coded_slices, listed_slices};

    ghost Value = { List Slice };

    ghost coded = { coded_slices };

    ghost view = { λ s. listed_slices s.listed };
}

// Puts copies of the first slices into an empty list.
fn copy_each(
    alloc: Global,
    slices: &VecDeque<Slice>,
    count: usize,
    copies: &mut VecDeque<Slice>,
) -> Result<(), NoMemory>
    requires none { copies.old.items ≡ [] }
    requires there { count ≤ length slices.now.items }
    ensures { OnOk result (copies.new.items ≡ take count slices.now.items) }
{
    copies.try_reserve_exact(count)?;
    for i in 0..count {
        copies.push_back(slices[i].copy(alloc)?)?;
    }
    Ok(())
}

// The first slices, with memory of their own.
fn copy_groups(alloc: Global, slices: &VecDeque<Slice>, count: usize) -> Result<Slices, NoMemory>
    requires { count ≤ length slices.now.items }
    ensures { IfOk result (λ s. s ≡ take count slices.now.items) }
{
    let mut copies = VecDeque::new(alloc);
    match copy_each(alloc, slices, count, &mut copies) {
        Ok(()) => Ok(Slices {
            listed: Listed::Groups(copies),
        }),
        Err(want) => {
            let_groups_go(copies);
            Err(want)
        }
    }
}

// So many parts at the front of as many have the one at this place, if there is one.
fn needed(place: Option<usize>, parts: usize) -> usize
    ensures within { result ≤ parts }
    ensures is { IsWithin result parts place }
{
    match place {
        Some(i) => {
            if i < parts {
                return i + 1;
            }
            0
        }
        None => 0,
    }
}

// So many have all that these slices have of them.
fn all_needed(spans: &[Span], parts: usize) -> usize
    ensures within { result ≤ parts }
    ensures all { AllByRecursion (λ (s : Span). IsWithin result parts s.part) spans.now }
{
    let mut count = 0;
    for span in spans {
        count = needed(span.part, parts).max(count);
    }
    count
}

// Those that are not given away.
#[inline(always)]
fn rest_of(spans: &[Span], next: usize) -> &[Span]
    ensures { result.now ≡ drop next spans.now }
{
    &spans[next.min(spans.len())..]
}

// The first window of slice `i`, from 0 on, if there is one.
#[tactic(auto, using(crate::proofs::SlicesGiven::first_at, crate::proofs::SlicesGiven::first_past))]
#[inline(always)]
fn first_of_group(slices: &VecDeque<Slice>, i: usize) -> Option<u64>
    ensures { result ≡ first_of slices.now.items i }
{
    if i < slices.len() {
        return Some(slices[i].first);
    }
    None
}

// The same where parts stand in a list, whichever these are.
#[tactic(auto, using(crate::proofs::SlicesGiven::span_past))]
#[inline(always)]
fn first_of_span(spans: &[Span], i: usize) -> Option<u64>
    ensures { (ps : List Part) → result ≡ first_of (spans_left ps spans.now) i }
{
    if i < spans.len() {
        return Some(spans[i].first);
    }
    None
}

// The first of these slices that isn't given away. It is given away now.
#[inline(always)]
fn take_span(spans: &[Span], next: &mut usize) -> Option<Span>
    ensures none { IfNone result (drop next.old spans.now ≡ []) }
    ensures gone { IfNone result (drop next.new spans.now ≡ []) }
    ensures some { IfSome result (λ s. drop next.old spans.now ≡ s ∷ drop next.new spans.now) }
{
    if *next < spans.len() {
        let span = spans[*next];
        *next += 1;
        return Some(span);
    }
    None
}

// The part at this place of a list, if there is one.
#[inline(always)]
fn part_at(parts: &Ones, place: Option<usize>) -> Option<RowPart<'_>>
    ensures none { IfNone result (part_in parts.now place ≡ no_part) }
    ensures is { IfSome result (λ r. r ≡ part_in parts.now place) }
    ensures one { IfSome result (λ r. IsOne r) }
{
    match place {
        Some(i) => {
            if i < parts.len() {
                return Some(parts.part(i));
            }
            None
        }
        None => None,
    }
}

// Gives the first slice away, to windows that are open.
#[inline(always)]
fn enter_group<L: Ledger>(
    alloc: Global,
    slices: &mut VecDeque<Slice>,
    open: &mut Open,
    steps: &mut Steps<L>,
) -> Result<(), NoMemory>
    requires { CanEnter slices.old.items open.old.slices.entries }
    ensures rest { OnOk result (slices.new.items ≡ drop 1 slices.old.items) }
    ensures entered { OnOk result (EnteredFirst slices.old.items open.old.slices.entries open.new.slices.entries) }
    ensures next { OnOk result (open.new.next ≡ open.old.next) }
    ensures steps { OnOk result (steps.new + open.new.slices.owed ≤ steps.old + open.old.slices.owed + 2) }
{
    match slices.pop_front() {
        Some(slice) => open.take_in(alloc, slice.past, slice.part, steps),
        None => Ok(()),
    }
}

// The same where the parts stand in a list.
#[inline(always)]
fn enter_span<L: Ledger>(
    alloc: Global,
    spans: &[Span],
    next: &mut usize,
    parts: &Ones,
    open: &mut Open,
    steps: &mut Steps<L>,
) -> Result<(), NoMemory>
    requires { CanEnter (spans_left parts.now (drop next.old spans.now)) open.old.slices.entries }
    ensures rest { OnOk result (spans_left parts.now (drop next.new spans.now) ≡ drop 1 (spans_left parts.now (drop next.old spans.now))) }
    ensures entered { OnOk result (EnteredFirst (spans_left parts.now (drop next.old spans.now)) open.old.slices.entries open.new.slices.entries) }
    ensures next { OnOk result (open.new.next ≡ open.old.next) }
    ensures steps { OnOk result (steps.new + open.new.slices.owed ≤ steps.old + open.old.slices.owed + 2) }
{
    match take_span(spans, next) {
        Some(span) => match part_at(parts, span.part) {
            Some(part) => open.take_one(alloc, span.past, &part, steps),
            None => Ok(()),
        },
        None => Ok(()),
    }
}

// Gives the first slice away, to a front, unless no window from `low` on has it.
#[inline(always)]
fn wait_group(
    alloc: Global,
    low: u64,
    slices: &mut VecDeque<Slice>,
    front: &mut Front,
) -> Result<(), NoMemory>
    requires { CanEnter slices.old.items front.old }
    ensures rest { OnOk result (slices.new.items ≡ drop 1 slices.old.items) }
    ensures entered { OnOk result (EnteredFirstFrom low slices.old.items front.old front.new) }
{
    match slices.pop_front() {
        Some(slice) => {
            if slice.past <= low {
                slice.let_go();
                return Ok(());
            }
            front.push(alloc, slice.past, slice.part)
        }
        None => Ok(()),
    }
}

// The same where the parts stand in a list.
#[inline(always)]
fn wait_span(
    low: u64,
    spans: &[Span],
    next: &mut usize,
    parts: &Ones,
    front: &mut Front,
) -> Result<(), NoMemory>
    requires { CanEnter (spans_left parts.now (drop next.old spans.now)) front.old }
    ensures rest { OnOk result (spans_left parts.now (drop next.new spans.now) ≡ drop 1 (spans_left parts.now (drop next.old spans.now))) }
    ensures entered { OnOk result (EnteredFirstFrom low (spans_left parts.now (drop next.old spans.now)) front.old front.new) }
{
    match take_span(spans, next) {
        Some(span) => {
            if span.past <= low {
                return Ok(());
            }
            match part_at(parts, span.part) {
                Some(part) => front.push_one(span.past, &part),
                None => Ok(()),
            }
        }
        None => Ok(()),
    }
}

// Slices with memory of their own, of those that a list of parts has.
fn copy_spans(alloc: Global, spans: &[Span], parts: &Ones) -> Result<Slices, NoMemory>
    ensures { IfOk result (λ s. s ≡ spans_left parts.now spans.now) }
{
    let mut copies = Vec::new(alloc);
    copies.extend_from_slice(spans)?;
    let parts = parts.copy_front(alloc, all_needed(spans, parts.len()))?;
    Ok(Slices {
        listed: Listed::Ones {
            spans: copies,
            next: 0,
            parts,
        },
    })
}

impl Slices {
    /// How many slices there are.
    #[inline]
    pub(crate) fn len(&self) -> usize
        ensures { result ≡ length self.now }
    {
        match &self.listed {
            Listed::Groups(slices) => slices.len(),
            Listed::Ones { spans, next, .. } => rest_of(spans, *next).len(),
        }
    }

    /// The first window of slice `i`, from 0 on, if there is one.
    #[inline(always)]
    pub(crate) fn first(&self, i: usize) -> Option<u64>
        ensures { result ≡ first_of self.now i }
    {
        match &self.listed {
            Listed::Groups(slices) => first_of_group(slices, i),
            Listed::Ones { spans, next, .. } => first_of_span(rest_of(spans, *next), i),
        }
    }

    /// The first slices, with memory of their own.
    pub(crate) fn copy_front(&self, alloc: Global, count: usize) -> Result<Slices, NoMemory>
        requires { count ≤ length self.now }
        ensures { IfOk result (λ s. s ≡ take count self.now) }
    {
        match &self.listed {
            Listed::Groups(slices) => copy_groups(alloc, slices, count),
            Listed::Ones { spans, next, parts } => {
                copy_spans(alloc, &rest_of(spans, *next)[..count], parts)
            }
        }
    }

    /// The first slice's part comes into the windows from `open.next` up to the first that doesn't
    /// have the slice, and the slice goes: two steps, now or later.
    #[inline(always)]
    pub(crate) fn enter_first<L: Ledger>(
        &mut self,
        alloc: Global,
        open: &mut Open,
        steps: &mut Steps<L>,
    ) -> Result<(), NoMemory>
        requires { CanEnter self.old open.old.slices.entries }
        ensures rest { OnOk result (self.new ≡ drop 1 self.old) }
        ensures entered { OnOk result (EnteredFirst self.old open.old.slices.entries open.new.slices.entries) }
        ensures next { OnOk result (open.new.next ≡ open.old.next) }
        ensures steps { OnOk result (steps.new + open.new.slices.owed ≤ steps.old + open.old.slices.owed + 2) }
    {
        match &mut self.listed {
            Listed::Groups(slices) => enter_group(alloc, slices, open, steps),
            Listed::Ones { spans, next, parts } => {
                enter_span(alloc, spans, next, parts, open, steps)
            }
        }
    }

    /// The same into a front, unless no window from `low` on has the slice.
    #[inline(always)]
    pub(crate) fn wait_first(
        &mut self,
        alloc: Global,
        low: u64,
        front: &mut Front,
    ) -> Result<(), NoMemory>
        requires { CanEnter self.old front.old }
        ensures rest { OnOk result (self.new ≡ drop 1 self.old) }
        ensures entered { OnOk result (EnteredFirstFrom low self.old front.old front.new) }
    {
        match &mut self.listed {
            Listed::Groups(slices) => wait_group(alloc, low, slices, front),
            Listed::Ones { spans, next, parts } => wait_span(low, spans, next, parts, front),
        }
    }

    /// Lets the slices go.
    pub(crate) fn let_go(self) {}
}
