// A group query and its windows.
ghost use Rattle.std.specs.Prelude.{◌≡◌, ◌≤◌, ◌^◌, [], true};
ghost use Rattle.saber_plan.specs.declared.plans.Shape.TheVariants as shapes;
ghost use Rattle.saber_plan.specs.Trees.{tree_of};
ghost use Rattle.saber_plan.specs.Windows.{closed_count, begun_count};
ghost use Rattle.saber_plan.specs.Answers.{frame};
ghost use Rattle.saber_plan.specs.Needs.{first_window, past_window};

use saber_flat::RowRef;
use saber_partial::Aggregates;
use saber_plan::{Mark, Plan};
use saber_window::Windows;
use std::marker::Model;

/// A checked group query and its windows, over its plan: what its operators have in common,
/// whatever word stands before the query. Contracts see it as the plan.
#[derive(Drop)]
pub(crate) struct Group<'a> {
    pub(crate) plan: &'a Plan,
    pub(crate) windows: Windows,
    pub(crate) aggregates: Aggregates<'a>,
}

impl<'a> Model for Group<'a> {
    ghost use Rattle.std.specs.Prelude.{◌≡◌};
    ghost use Rattle.saber_plan.specs.declared.plans.Shape.TheVariants as shapes;
    ghost use Rattle.saber_plan.specs.declared.plans.Plan.{Plan};
    ghost use Rattle.saber_plan.specs.Trees.{tree_of};
    ghost use Rattle.saber_plan.specs.Checked.{IsChecked};
    ghost use Rattle.saber_plan.specs.Answers.{frame};
    ghost use Rattle.saber_plan.specs.contracts.plans.Plan as e;

    ghost Value = { Plan };

    ghost coded = { e.the_row.coded };

    ghost view = { λ g. g.plan.now };

    ghost invariant = { λ g. IsChecked (tree_of g.plan.now) × ((tree_of g.plan.now).shape ≡ shapes.Group) × (g.windows ≡ frame (tree_of g.plan.now)) × (g.aggregates ≡ g.plan.now) };
}

impl<'a> Group<'a> {
    /// That of this plan. Takes no memory.
    pub(crate) fn new(plan: &'a Plan) -> Group<'a>
        requires group { (tree_of plan.now).shape ≡ shapes.Group }
        ensures { result ≡ plan.now }
    {
        Group {
            plan,
            windows: Windows::of_plan(plan),
            aggregates: Aggregates::of_plan(plan),
        }
    }

    /// Whether all rows lie in one group, under the empty key.
    #[inline]
    pub(crate) fn has_no_key(&self) -> bool
        ensures { result ≡ true → (tree_of self.now).keys ≡ [] }
    {
        self.plan.keys().is_empty()
    }

    /// The row lies in the windows from the one up to the other, and in no other.
    pub(crate) fn row_windows(&self, row: &RowRef, before: &Mark) -> (u64, u64)
        requires left { before.now.left ≤ 2 ^ 40 }
        requires right { before.now.right ≤ 2 ^ 40 }
        ensures first { result.0 ≡ first_window (frame (tree_of self.now)) (record { row = row.now; before = before.now }) }
        ensures past { result.1 ≡ past_window (frame (tree_of self.now)) (record { row = row.now; before = before.now }) }
    {
        let _plan = &self.plan;
        self.windows.row_windows(row, before)
    }

    /// How many windows are closed by the rows that a mark tells of.
    pub(crate) fn closed_below(&self, mark: &Mark) -> u64
        ensures { result ≡ closed_count (frame (tree_of self.now)) mark.now }
    {
        let _plan = &self.plan;
        self.windows.closed_below(mark)
    }

    /// How many windows are begun by them.
    pub(crate) fn begun_below(&self, mark: &Mark) -> u64
        ensures { result ≡ begun_count (frame (tree_of self.now)) mark.now }
    {
        let _plan = &self.plan;
        self.windows.begun_below(mark)
    }
}
