// Groups of rows: from key lists to what is known of their rows.
ghost use Rattle.std.specs.Prelude.{◌≡◌, [], ◌∷◌, true, false, None, Some, IfOk, IfSome, OnOk, OnErr, length, ◌+◌, ◌≤◌};
ghost use Rattle.std.specs.List.{AllByRecursion};
ghost use Rattle.saber_plan.specs.Trees.{tree_of};
ghost use Rattle.saber_plan.specs.Parts.{no_part, numbers, merge};
ghost use Rattle.saber_plan.specs.Tasks.{full};
ghost use Rattle.saber_partial.specs.Gathering.{CanCount};
ghost use Rattle.saber_partial.specs.Ones.{AreKeyless, IsOne};
ghost use Rattle.saber_partial.specs.Tallies.{CanMerge, FitsAt, with_row};

use crate::aggregates::Aggregates;
use crate::layout::Layout;
use crate::merges::take_in;
use crate::places::place;
use crate::row_parts::RowPart;
use crate::steps::Steps;
use crate::table::Table;
use saber_flat::RowRef;
use saber_plan::NoMemory;
use std::alloc::Global;
use std::marker::Model;
use std::sync::ledger::Ledger;

/// The partial answer of a group query over some rows of one window (SABER 2016: what a task gives
/// for a window that does not lie whole in it). From key lists, in their order, to how many rows
/// have the key, and to the plan's aggregates over them. A group has 1 to 2^40 rows, each of which
/// adds at most 2^86 to a sum, so that 128 bits hold each sum (this project's rule). The groups lie
/// in one list of numbers, by key, so that parts of the same keys merge in one walk over both.
/// Contracts see it as a part, a finite map.
#[derive(Drop)]
pub struct Partial {
    pub(crate) groups: Table,
}

impl Model for Partial {
    ghost use Rattle.saber_plan.specs.Parts.{Part};
    ghost use Rattle.saber_plan.specs.Codes.{coded_part};
    ghost use Rattle.saber_partial.specs.Sorted.{part_of, Rises};

    ghost Value = { Part };

    ghost coded = { coded_part };

    ghost view = { λ p. part_of p.groups.entries };

    ghost invariant = { λ p. Rises p.groups.entries };
}

impl Partial {
    /// No groups. Takes no memory.
    pub fn empty(alloc: Global) -> Partial
        ensures { result ≡ no_part }
    {
        Partial {
            groups: Table::new(alloc, Layout::of_none()),
        }
    }

    /// How many groups there are.
    pub(crate) fn len(&self) -> usize {
        self.groups.len()
    }

    /// Whether there is no group, so that there is nothing to keep.
    pub fn is_empty(&self) -> bool
        ensures none { result ≡ true → self.now ≡ no_part }
        ensures some { result ≡ false → full self.now ≡ Some self.now }
    {
        self.groups.len() == 0
    }

    /// The first group by itself, if there is one.
    #[inline]
    pub fn first(&self) -> Option<RowPart<'_>>
        ensures none { result ≡ None → self.now ≡ no_part }
        ensures one { IfSome result (λ r. AreKeyless self.now → (r ≡ self.now) × IsOne r) }
    {
        if self.groups.len() == 0 {
            return None;
        }
        Some(RowPart {
            layout: self.groups.layout(),
            row: self.groups.row(0),
        })
    }

    // Puts in the group of a first row.
    fn add_first(
        &mut self,
        alloc: Global,
        key: &[i128],
        aggregates: &Aggregates,
        row: &RowRef,
    ) -> Result<(), NoMemory>
        requires keys { length key.now ≡ length (tree_of aggregates.now).keys }
        requires fit { AllByRecursion (CanCount row.now.values) (tree_of aggregates.now).aggregates }
        requires none { self.old ≡ no_part }
        ensures ok { OnOk result (self.new ≡ with_row self.old key.now (numbers (tree_of aggregates.now).aggregates (row.now.values ∷ []))) }
        ensures err { OnErr result (self.new ≡ self.old) }
    {
        let mut groups = Table::new(alloc, aggregates.layout());
        groups.insert_first(0, key, aggregates, row)?;
        self.groups = groups;
        Ok(())
    }

    /// Adds what is known of one row to the group of its key.
    pub(crate) fn add(
        &mut self,
        alloc: Global,
        key: &[i128],
        aggregates: &Aggregates,
        row: &RowRef,
    ) -> Result<(), NoMemory>
        requires keys { length key.now ≡ length (tree_of aggregates.now).keys }
        requires fit { AllByRecursion (CanCount row.now.values) (tree_of aggregates.now).aggregates }
        requires room { FitsAt self.old key.now (numbers (tree_of aggregates.now).aggregates (row.now.values ∷ [])) }
        ensures ok { OnOk result (self.new ≡ with_row self.old key.now (numbers (tree_of aggregates.now).aggregates (row.now.values ∷ []))) }
        ensures err { OnErr result (self.new ≡ self.old) }
    {
        if self.is_empty() {
            return self.add_first(alloc, key, aggregates, row);
        }
        self.groups.has_one_layout();
        match place(&self.groups, key) {
            Ok(i) => {
                self.groups.add_row(i, aggregates, row);
                Ok(())
            }
            Err(i) => self.groups.insert_first(i, key, aggregates, row),
        }
    }

    /// A copy with memory of its own, so that what is lent can be the first part of a window. The
    /// list is copied as it is, by its own allocator, which is the same. It fails only for want of
    /// memory.
    pub fn copy(&self, _alloc: Global) -> Result<Partial, NoMemory>
        ensures { IfOk result (λ p. p ≡ self.now) }
    {
        let groups = self.groups.copy()?;
        Ok(Partial { groups })
    }

    // One for its memory, whatever it has.
    pub(crate) fn of_spare(alloc: Global, spare: &mut Option<Partial>) -> Partial {
        match spare.take() {
            Some(part) => part,
            None => Partial::empty(alloc),
        }
    }

    /// A copy in the memory of one that is of no use any more, if there is one.
    pub(crate) fn copy_in(
        &self,
        alloc: Global,
        spare: &mut Option<Partial>,
    ) -> Result<Partial, NoMemory>
        ensures { IfOk result (λ p. p ≡ self.now) }
    {
        let mut copy = Partial::of_spare(alloc, spare);
        copy.groups.set_to(&self.groups)?;
        Ok(copy)
    }

    /// Takes in what is known of later rows of the same window and plan, group by group, so that
    /// tasks can be cut anywhere (SABER 2016, assembly): one step. After want of memory it is only
    /// safe: some groups are taken in and others not. `small_merge` of `proofs/Counted.antt` meets
    /// what it requires.
    pub fn merge<L: Ledger>(&mut self, other: Partial, steps: &mut Steps<L>) -> Result<(), NoMemory>
        requires { CanMerge self.old other }
        ensures ok { OnOk result (self.new ≡ merge self.old other) }
        ensures steps { steps.new ≡ steps.old + 1 }
    {
        steps.tick();
        if self.is_empty() {
            *self = other;
            return Ok(());
        }
        let alloc = self.groups.allocator();
        self.take_all(alloc, &other)
    }

    // Takes in what is known of later rows where there is a group. It counts no step.
    #[inline]
    fn take_all(&mut self, alloc: Global, other: &Partial) -> Result<(), NoMemory>
        requires some { full self.old ≡ Some self.old }
        requires can { CanMerge self.old other.now }
        ensures { OnOk result (self.new ≡ merge self.old other.now) }
    {
        if other.is_empty() {
            return Ok(());
        }
        self.groups.has_one_layout();
        other.groups.has_one_layout();
        take_in(alloc, &mut self.groups, &other.groups)
    }

    /// Takes in what is known of later rows of the same plan, which is lent and stays as it is: one
    /// part can go into many windows. One step. After want of memory it is only safe, as with
    /// `merge`.
    pub fn merge_from<L: Ledger>(
        &mut self,
        alloc: Global,
        other: &Partial,
        steps: &mut Steps<L>,
    ) -> Result<(), NoMemory>
        requires { CanMerge self.old other.now }
        ensures ok { OnOk result (self.new ≡ merge self.old other.now) }
        ensures steps { steps.new ≡ steps.old + 1 }
    {
        steps.tick();
        if self.is_empty() {
            *self = other.copy(alloc)?;
            return Ok(());
        }
        self.take_all(alloc, other)
    }
}
