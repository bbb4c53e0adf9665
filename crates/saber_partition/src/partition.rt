// A group query with PARTITION BY and its windows.
ghost use Rattle.std.specs.Prelude.{◌≡◌, ◌≤◌, length};
ghost use Rattle.saber_plan.specs.Trees.{tree_of};

use saber_partial::Aggregates;
use saber_plan::Plan;
use saber_window::Windows;
use std::marker::Model;

/// The operator of a checked query with PARTITION BY, over its plan. Contracts see it as the plan.
#[derive(Drop)]
pub struct Partition<'a> {
    pub(crate) plan: &'a Plan,
    pub(crate) windows: Windows,
    pub(crate) aggregates: Aggregates<'a>,
}

impl<'a> Model for Partition<'a> {
    ghost use Rattle.std.specs.Prelude.{◌≡◌, ◌≤◌, length};
    ghost use Rattle.saber_plan.specs.declared.plans.Plan.{Plan};
    ghost use Rattle.saber_plan.specs.declared.plans.Shape.TheVariants as shapes;
    ghost use Rattle.saber_plan.specs.Trees.{tree_of};
    ghost use Rattle.saber_plan.specs.Checked.{IsChecked};
    ghost use Rattle.saber_plan.specs.Answers.{frame};
    ghost use Rattle.saber_plan.specs.contracts.plans.Plan as e;

    ghost Value = { Plan };

    ghost coded = { e.the_row.coded };

    ghost view = { λ p. p.plan.now };

    ghost invariant = { λ p. IsChecked (tree_of p.plan.now) × ((tree_of p.plan.now).shape ≡ shapes.Group) × (p.windows ≡ frame (tree_of p.plan.now)) × (p.aggregates ≡ p.plan.now) × (1 ≤ length (tree_of p.plan.now).partition) };
}

impl<'a> Partition<'a> {
    ghost use Rattle.saber_plan.specs.declared.plans.Shape.TheVariants as shapes;

    /// The operator of this plan. Takes no memory.
    pub fn new(plan: &'a Plan) -> Partition<'a>
        requires group { (tree_of plan.now).shape ≡ shapes.Group }
        requires lists { 1 ≤ length (tree_of plan.now).partition }
        ensures { result ≡ plan.now }
    {
        Partition {
            plan,
            windows: Windows::of_plan(plan),
            aggregates: Aggregates::of_plan(plan),
        }
    }
}
