// Parts of one group each, without a key, in the making.
ghost use Rattle.std.specs.Prelude.{◌≡◌, ◌∷◌, [], length, None, OnOk, OnErr};
ghost use Rattle.saber_plan.specs.declared.rows.Side.TheVariants.{Left};
ghost use Rattle.saber_plan.specs.declared.plans.Shape.TheVariants.{Group};
ghost use Rattle.saber_plan.specs.Trees.{tree_of};
ghost use Rattle.saber_plan.specs.Rows.{RowFits};
ghost use Rattle.saber_plan.specs.Checked.{columns_on};
ghost use Rattle.saber_plan.specs.Parts.{group_part, merge, no_part};
ghost use Rattle.saber_partial.specs.Ones.{AreOf, IsAt};
ghost use Rattle.saber_partial.specs.Tallies.{CanMerge};

use crate::aggregates::Aggregates;
use crate::ones::Ones;
use saber_flat::RowRef;
use saber_plan::NoMemory;
use std::alloc::Global;
use std::marker::Model;

/// Parts one after another, and behind them the one that rows come to now, if it has a row.
/// Contracts see those that are done, and the last.
#[derive(Drop)]
pub struct OneGathering {
    parts: Ones,
    // whether the last of them may have more rows
    begun: bool,
}

impl Model for OneGathering {
    ghost use Rattle.std.specs.Prelude.{◌≡◌, ◌≤◌, length, true};
    ghost use Rattle.saber_partial.specs.Ones.{coded_making, making_of, Making};

    ghost Value = { Making };

    ghost coded = { coded_making };

    ghost view = { λ g. making_of g.begun g.parts };

    ghost invariant = { λ g. g.begun ≡ true → 1 ≤ length g.parts };
}

impl OneGathering {
    /// No part, and no row. Takes no memory.
    pub fn empty(alloc: Global) -> OneGathering
        ensures done { result.done ≡ [] }
        ensures last { result.last ≡ no_part }
    {
        OneGathering {
            parts: Ones::empty(alloc),
            begun: false,
        }
    }

    /// One row more to the last part, whether or not the row passes WHERE. Where memory is wanting,
    /// nothing changes.
    #[inline(always)]
    pub fn add_row(&mut self, aggregates: &Aggregates, row: &RowRef) -> Result<(), NoMemory>
        requires group { (tree_of aggregates.now).shape ≡ Group }
        requires keyless { (tree_of aggregates.now).keys ≡ [] }
        requires row { RowFits Left (columns_on (tree_of aggregates.now).streams Left) row.now }
        requires others { AreOf (tree_of aggregates.now) self.old.done }
        requires room { CanMerge self.old.last (group_part (tree_of aggregates.now) (row.now.values ∷ [])) }
        ensures done { self.new.done ≡ self.old.done }
        ensures last { OnOk result (self.new.last ≡ merge self.old.last (group_part (tree_of aggregates.now) (row.now.values ∷ []))) }
        ensures err { OnErr result (self.new.last ≡ self.old.last) }
    {
        if self.begun {
            self.parts.add_row(aggregates, row);
            return Ok(());
        }
        self.parts.push_row(aggregates, row)?;
        self.begun = true;
        Ok(())
    }

    /// The last part is done, if it has a row. Tells where it stands.
    #[inline(always)]
    pub fn end(&mut self) -> Option<usize>
        ensures part { IsAt self.old result self.new.done }
        ensures last { self.new.last ≡ no_part }
    {
        if !self.begun {
            return None;
        }
        self.begun = false;
        Some(self.parts.len() - 1)
    }

    /// The parts, given away.
    pub fn into_parts(self) -> Ones
        requires { self.last ≡ no_part }
        ensures { result ≡ self.done }
    {
        self.parts.are_ones();
        self.parts
    }
}
