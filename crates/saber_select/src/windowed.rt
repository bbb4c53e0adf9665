// A selection with a window, over its plan.
ghost use Rattle.std.specs.Prelude.{◌≡◌, ◌≤◌, ◌^◌, [], OnOk};
ghost use Rattle.std.specs.List.{AllByRecursion};
ghost use Rattle.saber_plan.specs.declared.plans.Shape.TheVariants as shapes;
ghost use Rattle.saber_plan.specs.Trees.{tree_of};
ghost use Rattle.saber_plan.specs.Values as v;
ghost use Rattle.saber_plan.specs.Checked.{ExprFits, IsChecked};
ghost use Rattle.saber_plan.specs.Windows as w;
ghost use Rattle.saber_plan.specs.Answers.{frame, items_over};
ghost use Rattle.saber_plan.specs.GivenRows.{IsRowOf};
ghost use Rattle.saber_eval.specs.Widths.{widths};
ghost use Rattle.saber_window.specs.Kinds.{AreBounds};
ghost use Rattle.saber_select.specs.Words.{HasWord};

use saber_eval::{passes, value};
use saber_flat::RowRef;
use saber_plan::{Expr, Mark, NoMemory, Plan};
use saber_window::{Bounds, Lately, Windows, step_mark};
use std::marker::Model;

/// A checked selection with a stream word, over its plan: what each of its operators makes of rows.
/// Contracts see it as the plan.
#[derive(Drop)]
pub(crate) struct WindowedSelect<'a> {
    pub(crate) plan: &'a Plan,
    windows: Windows,
}

impl<'a> Model for WindowedSelect<'a> {
    ghost use Rattle.std.specs.Prelude.{◌≡◌};
    ghost use Rattle.saber_plan.specs.declared.plans.Shape.TheVariants as shapes;
    ghost use Rattle.saber_plan.specs.declared.plans.Plan.{Plan};
    ghost use Rattle.saber_plan.specs.Trees.{tree_of};
    ghost use Rattle.saber_plan.specs.Checked.{IsChecked};
    ghost use Rattle.saber_plan.specs.Answers.{frame};
    ghost use Rattle.saber_plan.specs.contracts.plans.Plan as e;
    ghost use Rattle.saber_select.specs.Words.{HasWord};

    ghost Value = { Plan };

    ghost coded = { e.the_row.coded };

    ghost view = { λ s. s.plan.now };

    ghost invariant = { λ s. IsChecked (tree_of s.plan.now) × ((tree_of s.plan.now).shape ≡ shapes.Select) × (s.windows ≡ frame (tree_of s.plan.now)) × HasWord (tree_of s.plan.now) };
}

// The values of items over a row, in place of those that `values` has.
fn put_values(values: &mut Vec<i128>, items: &[Expr], row: &RowRef) -> Result<(), NoMemory>
    requires { AllByRecursion (ExprFits (widths row.now.values [])) items.now }
    ensures { OnOk result (values.new.items ≡ items_over items.now row.now.values []) }
{
    values.clear();
    for item in items {
        values.push(value(item, row))?;
    }
    Ok(())
}

impl<'a> WindowedSelect<'a> {
    /// The selection of this plan. Takes no memory.
    pub(crate) fn new(plan: &'a Plan) -> WindowedSelect<'a>
        requires select { (tree_of plan.now).shape ≡ shapes.Select }
        requires word { HasWord (tree_of plan.now) }
        ensures is { result ≡ plan.now }
        ensures checked { IsChecked (tree_of plan.now) }
    {
        WindowedSelect {
            plan,
            windows: Windows::of_plan(plan),
        }
    }

    /// Whether a row passes WHERE.
    #[tactic(auto, using(saber_eval::proofs::FittingLaws::selection_fits))]
    #[inline(always)]
    pub(crate) fn passes(&self, row: &RowRef) -> bool
        requires { IsRowOf (tree_of self.now) row.now }
        ensures { result ≡ v.passes (tree_of self.now).predicate row.now.values [] }
    {
        passes(self.plan, row)
    }

    /// Works out the values of the items over a row, in place of those that `values` has.
    #[tactic(auto, using(crate::proofs::Fitting::items_fit))]
    pub(crate) fn work_out(&self, row: &RowRef, values: &mut Vec<i128>) -> Result<(), NoMemory>
        requires { IsRowOf (tree_of self.now) row.now }
        ensures { OnOk result (values.new.items ≡ items_over (tree_of self.now).items row.now.values []) }
    {
        put_values(values, self.plan.items(), row)
    }

    /// Its windows, to be asked for rows that come one after another.
    pub(crate) fn lately(&self) -> Lately
        ensures { result ≡ frame (tree_of self.now) }
    {
        Lately::of_plan(self.plan)
    }

    /// How many windows are closed by the rows that a mark tells of.
    pub(crate) fn closed_below(&self, mark: &Mark) -> u64
        ensures { result ≡ w.closed_count (frame (tree_of self.now)) mark.now }
    {
        let _plan = &self.plan;
        self.windows.closed_below(mark)
    }

    /// What windows are to a task of the rows after mark a, up to mark b.
    pub(crate) fn bounds(&self, a: &Mark, b: &Mark) -> Bounds
        ensures { AreBounds (frame (tree_of self.now)) a.now b.now result }
    {
        let _plan = &self.plan;
        self.windows.bounds(a, b)
    }

    /// The mark after one more row.
    #[tactic(auto, using(saber_window::proofs::Stamps::stamps_fit))]
    pub(crate) fn step(&self, before: &Mark, row: &RowRef) -> Mark
        requires row { IsRowOf (tree_of self.now) row.now }
        requires left { before.now.left ≤ 2 ^ 40 }
        requires right { before.now.right ≤ 2 ^ 40 }
        ensures { result ≡ w.step_mark before.now row.now }
    {
        step_mark(before, row)
    }
}
