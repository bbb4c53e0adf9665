// What a plan asks of each row, worked out once.
ghost use Rattle.std.specs.Prelude.{◌≡◌, length};
ghost use Rattle.saber_plan.specs.declared.plans.Shape.TheVariants.{Group};
ghost use Rattle.saber_plan.specs.Trees.{tree_of};
ghost use Rattle.saber_plan.specs.Checked.{IsChecked};
ghost use Rattle.saber_partial.specs.Flat.{IsLayout, Suits};
ghost use Rattle.saber_partial.specs.Sources.{AreSources};

use crate::layout::Layout;
use crate::sources::{Source, sources_of};
use saber_plan::{Aggregate, Plan};
use std::marker::Model;

/// What a checked group query asks of each row, made once a plan: how the numbers of a group lie,
/// and where the values come from. Contracts see it as the plan.
#[derive(Drop)]
pub struct Aggregates<'a> {
    plan: &'a Plan,
    layout: Layout,
    sources: [Source; 32],
}

impl<'a> Model for Aggregates<'a> {
    ghost use Rattle.saber_plan.specs.declared.plans.Plan.{Plan};
    ghost use Rattle.saber_plan.specs.Trees.{tree_of};
    ghost use Rattle.saber_plan.specs.contracts.plans.Plan as e;
    ghost use Rattle.saber_partial.specs.Sources.{AreFor};

    ghost Value = { Plan };

    ghost coded = { e.the_row.coded };

    ghost view = { λ a. a.plan.now };

    ghost invariant = { λ a. AreFor (tree_of a.plan.now) a.layout a.sources };
}

impl<'a> Aggregates<'a> {
    /// What this plan asks. Takes no memory.
    pub fn of_plan(plan: &'a Plan) -> Aggregates<'a>
        requires group { (tree_of plan.now).shape ≡ Group }
        ensures { result ≡ plan.now }
    {
        let aggregates = plan.aggregates();
        Aggregates {
            plan,
            layout: Layout::of_aggregates(plan.keys().len(), aggregates),
            sources: sources_of(aggregates),
        }
    }

    /// The columns of the key.
    #[inline]
    pub(crate) fn keys(&self) -> &[u32]
        ensures is { result.now ≡ (tree_of self.now).keys }
        ensures checked { IsChecked (tree_of self.now) }
    {
        self.plan.keys()
    }

    /// The aggregates.
    #[inline]
    pub(crate) fn list(&self) -> &[Aggregate]
        ensures { result.now ≡ (tree_of self.now).aggregates }
    {
        self.plan.aggregates()
    }

    /// How the numbers of a group lie.
    #[inline]
    pub(crate) fn layout(&self) -> Layout
        ensures suits { Suits result (length (tree_of self.now).keys) (tree_of self.now).aggregates }
        ensures layout { IsLayout result }
    {
        let _plan = &self.plan;
        self.layout
    }

    /// Where the values come from, before others of no meaning.
    #[inline]
    pub(crate) fn sources(&self) -> &[Source]
        ensures { AreSources (tree_of self.now).aggregates result.now }
    {
        let _plan = &self.plan;
        &self.sources
    }
}
