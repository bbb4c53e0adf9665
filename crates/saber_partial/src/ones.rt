// Parts of one group each, without a key, in one list.
ghost use Rattle.std.specs.Prelude.{◌≡◌, ◌<◌, ◌≤◌, ◌+◌, ◌-◌, ◌++◌, ◌∷◌, [], drop, get_or, length, take, IfOk, OnOk, OnErr};
ghost use Rattle.std.specs.List.{AllByRecursion};
ghost use Rattle.std.proofs.Math.ListN.{set};
ghost use Rattle.saber_plan.specs.declared.rows.Side.TheVariants.{Left};
ghost use Rattle.saber_plan.specs.declared.plans.Shape.TheVariants.{Group};
ghost use Rattle.saber_plan.specs.Trees.{tree_of};
ghost use Rattle.saber_plan.specs.Rows.{RowFits};
ghost use Rattle.saber_plan.specs.Checked.{columns_on};
ghost use Rattle.saber_plan.specs.Parts.{group_part, merge, no_part};
ghost use Rattle.saber_partial.specs.Ones.{joined_last, last_part, AreOf, IsOne};
ghost use Rattle.saber_partial.specs.Tallies.{CanMerge};

use crate::aggregates::Aggregates;
use crate::layout::Layout;
use crate::row_parts::RowPart;
use crate::steps::Steps;
use crate::table::Table;
use saber_flat::RowRef;
use saber_plan::NoMemory;
use std::alloc::Global;
use std::marker::Model;
use std::sync::ledger::Ledger;

/// Parts of one group each, under the empty key, as those parts are that have a row where the plan
/// has no GROUP BY. All lie in one list of numbers, a row a part, so that none takes memory of its
/// own. Contracts see the parts.
#[derive(Drop)]
pub struct Ones {
    groups: Table,
}

impl Model for Ones {
    ghost use Rattle.std.specs.Prelude.{◌≡◌, List, map};
    ghost use Rattle.std.specs.Coded.{coded_list};
    ghost use Rattle.saber_plan.specs.Parts.{Part};
    ghost use Rattle.saber_plan.specs.Codes.{coded_part};
    ghost use Rattle.saber_partial.specs.Sorted.{alone};

    ghost Value = { List Part };

    ghost coded = { coded_list coded_part };

    ghost view = { λ v. map alone v.groups.entries };

    ghost invariant = { λ v. v.groups.layout.keys ≡ 0 };
}

impl Ones {
    /// No part. Takes no memory.
    pub fn empty(alloc: Global) -> Ones
        ensures { result ≡ [] }
    {
        Ones {
            groups: Table::new(alloc, Layout::of_none()),
        }
    }

    /// Whose memory it takes.
    pub fn allocator(&self) -> Global {
        self.groups.allocator()
    }

    /// How many parts there are.
    #[inline(always)]
    pub fn len(&self) -> usize
        ensures { result ≡ length self.now }
    {
        self.groups.len()
    }

    /// Each of them has one group, under the empty key.
    pub fn are_ones(&self)
        ensures { AllByRecursion IsOne self.now }
    {
        self.groups.has_one_layout();
    }

    /// Part `i`, from 0 on.
    #[inline(always)]
    pub fn part(&self, i: usize) -> RowPart<'_>
        requires { i < length self.now }
        ensures is { result ≡ get_or self.now i no_part }
        ensures one { IsOne result }
    {
        RowPart {
            layout: self.groups.layout(),
            row: self.groups.row(i),
        }
    }

    /// One part more. Where memory is wanting, nothing changes.
    #[inline]
    pub fn push(&mut self, part: &RowPart) -> Result<(), NoMemory>
        requires one { IsOne part.now }
        requires alike { AllByRecursion (λ p. CanMerge p part.now) self.old }
        ensures ok { OnOk result (self.new ≡ self.old ++ part.now ∷ []) }
        ensures err { OnErr result (self.new ≡ self.old) }
    {
        self.groups.has_one_layout();
        self.groups.be_like(part.layout);
        self.groups.push(part.row)
    }

    /// One part more, that of a row, whether or not the row passes WHERE. Where memory is wanting,
    /// nothing changes.
    #[inline]
    pub(crate) fn push_row(&mut self, aggregates: &Aggregates, row: &RowRef) -> Result<(), NoMemory>
        requires group { (tree_of aggregates.now).shape ≡ Group }
        requires keyless { (tree_of aggregates.now).keys ≡ [] }
        requires row { RowFits Left (columns_on (tree_of aggregates.now).streams Left) row.now }
        requires others { AreOf (tree_of aggregates.now) self.old }
        ensures ok { OnOk result (self.new ≡ self.old ++ group_part (tree_of aggregates.now) (row.now.values ∷ []) ∷ []) }
        ensures err { OnErr result (self.new ≡ self.old) }
    {
        let _keys = aggregates.keys();
        self.groups.has_one_layout();
        self.groups.suit(aggregates);
        self.groups.push_first(&[], aggregates, row)
    }

    /// One row more in the last part, whether or not the row passes WHERE.
    #[inline(always)]
    pub(crate) fn add_row(&mut self, aggregates: &Aggregates, row: &RowRef)
        requires group { (tree_of aggregates.now).shape ≡ Group }
        requires keyless { (tree_of aggregates.now).keys ≡ [] }
        requires row { RowFits Left (columns_on (tree_of aggregates.now).streams Left) row.now }
        requires some { 1 ≤ length self.old }
        requires room { CanMerge (last_part self.old) (group_part (tree_of aggregates.now) (row.now.values ∷ [])) }
        ensures { self.new ≡ joined_last (group_part (tree_of aggregates.now) (row.now.values ∷ [])) self.old }
    {
        let _keys = aggregates.keys();
        self.groups.has_one_layout();
        let last = self.groups.len() - 1;
        self.groups.add_row(last, aggregates, row);
    }

    /// Takes what is known of later rows into part `i`: one step.
    #[inline]
    pub fn join<L: Ledger>(&mut self, i: usize, part: &RowPart, steps: &mut Steps<L>)
        requires there { i < length self.old }
        requires one { IsOne part.now }
        requires can { CanMerge (get_or self.old i no_part) part.now }
        ensures joined { self.new ≡ set self.old i (merge (get_or self.old i no_part) part.now) }
        ensures steps { steps.new ≡ steps.old + 1 }
    {
        steps.tick();
        self.groups.has_one_layout();
        self.groups.join(i, part.row);
    }

    /// Takes what is known of later rows by the next part into part `i`: one step.
    #[inline(always)]
    pub fn join_next<L: Ledger>(&mut self, i: usize, steps: &mut Steps<L>)
        requires there { i + 1 < length self.old }
        requires can { CanMerge (get_or self.old i no_part) (get_or self.old (i + 1) no_part) }
        ensures joined { self.new ≡ set self.old i (merge (get_or self.old i no_part) (get_or self.old (i + 1) no_part)) }
        ensures steps { steps.new ≡ steps.old + 1 }
    {
        steps.tick();
        self.groups.has_one_layout();
        self.groups.join_next(i);
    }

    /// Lets the first parts go. The memory stays.
    pub fn drop_front(&mut self, count: usize)
        requires { count ≤ length self.old }
        ensures { self.new ≡ drop count self.old }
    {
        self.groups.drop_front(count);
    }

    /// Lets all parts go. The memory stays.
    #[inline]
    pub fn clear(&mut self)
        ensures { self.new ≡ [] }
    {
        let layout = *self.groups.layout();
        self.groups.clear(layout);
    }

    /// The first parts, in memory of their own.
    pub fn copy_front(&self, alloc: Global, count: usize) -> Result<Ones, NoMemory>
        requires { count ≤ length self.now }
        ensures { IfOk result (λ v. v ≡ take count self.now) }
    {
        let groups = self.groups.copy_front(alloc, count)?;
        Ok(Ones { groups })
    }
}
