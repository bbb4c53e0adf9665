// A part whose every use is a step.
ghost use Rattle.std.specs.Prelude.{◌≡◌, ◌+◌, [], ◌∷◌, IfOk, OnOk};
ghost use Rattle.saber_plan.specs.declared.rows.Side.TheVariants.{Left};
ghost use Rattle.saber_plan.specs.declared.plans.Shape.TheVariants.{Group};
ghost use Rattle.saber_plan.specs.Trees.{tree_of};
ghost use Rattle.saber_plan.specs.Rows.{RowFits};
ghost use Rattle.saber_plan.specs.Checked.{columns_on};
ghost use Rattle.saber_plan.specs.Parts.{no_part, group_part, merge};
ghost use Rattle.saber_partial.specs.Tallies.{CanMerge};

use saber_flat::RowRef;
use saber_partial::{Partial, Steps};
use saber_plan::{NoMemory, Plan};
use std::alloc::Global;
use std::marker::Model;
use std::sync::ledger::Ledger;

/// The part of a pane. Nothing but a counted step adds a row to it, or merges it into another.
#[derive(Drop)]
pub(crate) struct PanePart {
    part: Partial,
}

impl Model for PanePart {
    ghost use Rattle.saber_plan.specs.Codes.{coded_part};
    ghost use Rattle.saber_plan.specs.Parts.{Part};

    ghost Value = { Part };

    ghost coded = { coded_part };

    ghost view = { λ c. c.part };
}

impl PanePart {
    /// No groups. Takes no memory.
    pub(crate) fn empty(alloc: Global) -> PanePart
        ensures { result ≡ no_part }
    {
        PanePart {
            part: Partial::empty(alloc),
        }
    }

    /// The part of a first row: one step.
    pub(crate) fn of_row<L: Ledger>(
        alloc: Global,
        plan: &Plan,
        row: &RowRef,
        steps: &mut Steps<L>,
    ) -> Result<PanePart, NoMemory>
        requires group { (tree_of plan.now).shape ≡ Group }
        requires row { RowFits Left (columns_on (tree_of plan.now).streams Left) row.now }
        requires room { CanMerge no_part (group_part (tree_of plan.now) (row.now.values ∷ [])) }
        ensures ok { IfOk result (λ p. p ≡ merge no_part (group_part (tree_of plan.now) (row.now.values ∷ []))) }
        ensures steps { steps.new ≡ steps.old + 1 }
    {
        let mut part = PanePart::empty(alloc);
        part.add_row(alloc, plan, row, steps)?;
        Ok(part)
    }

    /// Adds a row: one step.
    pub(crate) fn add_row<L: Ledger>(
        &mut self,
        alloc: Global,
        plan: &Plan,
        row: &RowRef,
        steps: &mut Steps<L>,
    ) -> Result<(), NoMemory>
        requires group { (tree_of plan.now).shape ≡ Group }
        requires row { RowFits Left (columns_on (tree_of plan.now).streams Left) row.now }
        requires room { CanMerge self.old (group_part (tree_of plan.now) (row.now.values ∷ [])) }
        ensures ok { OnOk result (self.new ≡ merge self.old (group_part (tree_of plan.now) (row.now.values ∷ []))) }
        ensures steps { steps.new ≡ steps.old + 1 }
    {
        self.part.add_row(alloc, plan, row, steps)
    }

    /// Merges in the part of later rows: one step.
    pub(crate) fn take_in<L: Ledger>(
        &mut self,
        other: PanePart,
        steps: &mut Steps<L>,
    ) -> Result<(), NoMemory>
        requires { CanMerge self.old other }
        ensures ok { OnOk result (self.new ≡ merge self.old other) }
        ensures steps { steps.new ≡ steps.old + 1 }
    {
        self.part.merge(other.part, steps)
    }

    /// Merges it into a part: one step.
    pub(crate) fn merge_into<L: Ledger>(
        &self,
        alloc: Global,
        out: &mut Partial,
        steps: &mut Steps<L>,
    ) -> Result<(), NoMemory>
        requires { CanMerge out.old self.now }
        ensures ok { OnOk result (out.new ≡ merge out.old self.now) }
        ensures steps { steps.new ≡ steps.old + 1 }
    {
        out.merge_from(alloc, &self.part, steps)
    }
}
