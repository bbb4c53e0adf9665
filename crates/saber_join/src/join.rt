// A join and its windows.
ghost use Rattle.std.specs.Prelude.{◌≡◌, ◌≤◌, ◌^◌, nat_lt, true, IfOk};
ghost use Rattle.std.specs.List.{AllByRecursion};
ghost use Rattle.saber_plan.specs.declared.rows.Side.TheVariants as sides;
ghost use Rattle.saber_plan.specs.declared.plans.Shape.TheVariants as shapes;
ghost use Rattle.saber_plan.specs.Trees.{tree_of};
ghost use Rattle.saber_plan.specs.Values as v;
ghost use Rattle.saber_plan.specs.Checked.{ExprFits};
ghost use Rattle.saber_plan.specs.Windows as w;
ghost use Rattle.saber_plan.specs.Answers.{frame, items_over};
ghost use Rattle.saber_plan.specs.Needs.{first_window, past_window};
ghost use Rattle.saber_plan.specs.GivenRows.{IsRowOf};
ghost use Rattle.saber_eval.specs.Widths.{widths};
ghost use Rattle.saber_window.specs.Kinds.{AreBounds};
ghost use Rattle.saber_window.specs.Timed.{IsTimed};
ghost use Rattle.saber_join.specs.Rows.{IsOn};
ghost use Rattle.saber_join.specs.Ties.{CanTie, key_in};

use crate::ties::{Tie, tie_in};
use saber_eval::{passes2, value2};
use saber_flat::RowRef;
use saber_plan::{Expr, Mark, NoMemory, Plan, Side, Stream};
use saber_window::{Bounds, Lately, Windows, step_mark};
use std::alloc::Global;
use std::marker::Model;

/// A checked join of two streams, over its plan, whatever its windows print. Contracts see it as
/// the plan.
#[derive(Drop)]
pub(crate) struct Join<'a> {
    pub(crate) plan: &'a Plan,
    windows: Windows,
}

impl<'a> Model for Join<'a> {
    ghost use Rattle.std.specs.Prelude.{◌≡◌};
    ghost use Rattle.saber_plan.specs.declared.plans.Shape.TheVariants as shapes;
    ghost use Rattle.saber_plan.specs.declared.plans.Plan.{Plan};
    ghost use Rattle.saber_plan.specs.Trees.{tree_of};
    ghost use Rattle.saber_plan.specs.Checked.{IsChecked};
    ghost use Rattle.saber_plan.specs.Answers.{frame};
    ghost use Rattle.saber_plan.specs.contracts.plans.Plan as e;

    ghost Value = { Plan };

    ghost coded = { e.the_row.coded };

    ghost view = { λ g. g.plan.now };

    ghost invariant = { λ g. IsChecked (tree_of g.plan.now) × ((tree_of g.plan.now).shape ≡ shapes.Join) × (g.windows ≡ frame (tree_of g.plan.now)) };
}

// The values of items over a pair.
fn item_values(
    alloc: Global,
    items: &[Expr],
    left: &RowRef,
    right: &RowRef,
) -> Result<Vec<i128>, NoMemory>
    requires { AllByRecursion (ExprFits (widths left.now.values right.now.values)) items.now }
    ensures { IfOk result (λ vs. vs.items ≡ items_over items.now left.now.values right.now.values) }
{
    let mut values = Vec::with_capacity(alloc, items.len())?;
    for item in items {
        values.push(value2(item, left, right))?;
    }
    Ok(values)
}

impl<'a> Join<'a> {
    /// The join of this plan. Takes no memory.
    pub(crate) fn new(plan: &'a Plan) -> Join<'a>
        requires join { (tree_of plan.now).shape ≡ shapes.Join }
        ensures { result ≡ plan.now }
    {
        Join {
            plan,
            windows: Windows::of_plan(plan),
        }
    }

    /// Whether its windows go by time.
    pub(crate) fn goes_by_time(&self) -> bool
        ensures { result ≡ true → IsTimed (frame (tree_of self.now)) }
    {
        let _plan = &self.plan;
        self.windows.go_by_time()
    }

    /// Whether a pair of rows passes WHERE.
    #[tactic(auto, using(crate::proofs::Sides::plan_fits))]
    #[inline(always)]
    pub(crate) fn passes(&self, left: &RowRef, right: &RowRef) -> bool
        requires left { IsOn (tree_of self.now) sides.Left left.now }
        requires right { IsOn (tree_of self.now) sides.Right right.now }
        ensures { result ≡ v.passes (tree_of self.now).predicate left.now.values right.now.values }
    {
        passes2(self.plan, left, right)
    }

    /// What WHERE ties of a pair's rows, if it ties anything.
    pub(crate) fn tie(&self) -> Option<Tie<'_>>
        ensures { CanTie (tree_of self.now).predicate result }
    {
        match self.plan.predicate() {
            Some(predicate) => tie_in(predicate),
            None => None,
        }
    }

    /// The key of a row: rows of two sides with different keys make no pair that passes.
    #[inline(always)]
    pub(crate) fn key(&self, tie: &Option<Tie>, row: &RowRef) -> i64
        requires tie { CanTie (tree_of self.now).predicate tie.now }
        requires row { IsRowOf (tree_of self.now) row.now }
        ensures { result ≡ key_in tie.now row.now }
    {
        let _plan = &self.plan;
        match tie {
            Some(tie) => match row.side() {
                Side::Left => tie.left.key(row),
                Side::Right => tie.right.key(row),
            },
            None => 0,
        }
    }

    /// The values of the items over a pair of rows.
    #[tactic(auto, using(crate::proofs::Sides::items_fit))]
    pub(crate) fn values(
        &self,
        alloc: Global,
        left: &RowRef,
        right: &RowRef,
    ) -> Result<Vec<i128>, NoMemory>
        requires left { IsOn (tree_of self.now) sides.Left left.now }
        requires right { IsOn (tree_of self.now) sides.Right right.now }
        ensures { IfOk result (λ vs. vs.items ≡ items_over (tree_of self.now).items left.now.values right.now.values) }
    {
        item_values(alloc, self.plan.items(), left, right)
    }

    /// The streams that it joins.
    pub(crate) fn streams(&self) -> &[Stream]
        ensures { result.now ≡ (tree_of self.now).streams }
    {
        self.plan.streams()
    }

    /// Its windows, to be asked for rows that come one after another.
    pub(crate) fn lately(&self) -> Lately
        ensures { result ≡ frame (tree_of self.now) }
    {
        Lately::of_plan(self.plan)
    }

    /// The row lies in the windows from the one up to the other, and in no other.
    #[inline(always)]
    pub(crate) fn row_windows(&self, lately: &mut Lately, row: &RowRef, before: &Mark) -> (u64, u64)
        requires lately { lately.old ≡ frame (tree_of self.now) }
        requires left { before.now.left ≤ 2 ^ 40 }
        requires right { before.now.right ≤ 2 ^ 40 }
        ensures lately { lately.new ≡ frame (tree_of self.now) }
        ensures first { result.0 ≡ first_window (frame (tree_of self.now)) (record { row = row.now; before = before.now }) }
        ensures past { result.1 ≡ past_window (frame (tree_of self.now)) (record { row = row.now; before = before.now }) }
    {
        lately.row_windows(row, before)
    }

    /// Whether the last window that has the row, if any has it, is this one or a later one.
    #[inline]
    pub(crate) fn reaches(&self, window: u64, row: &RowRef, before: &Mark) -> bool
        requires left { before.now.left ≤ 2 ^ 40 }
        requires right { before.now.right ≤ 2 ^ 40 }
        ensures { result ≡ nat_lt window (past_window (frame (tree_of self.now)) (record { row = row.now; before = before.now })) }
    {
        let _plan = &self.plan;
        window < self.windows.past_window(row, before)
    }

    /// How many windows are closed by the rows that a mark tells of.
    pub(crate) fn closed_below(&self, mark: &Mark) -> u64
        ensures { result ≡ w.closed_count (frame (tree_of self.now)) mark.now }
    {
        let _plan = &self.plan;
        self.windows.closed_below(mark)
    }

    /// What windows are to a task of the rows after mark a, up to mark b.
    pub(crate) fn bounds(&self, a: &Mark, b: &Mark) -> Bounds
        ensures { AreBounds (frame (tree_of self.now)) a.now b.now result }
    {
        let _plan = &self.plan;
        self.windows.bounds(a, b)
    }

    /// The mark after one more row.
    #[tactic(auto, using(saber_window::proofs::Stamps::stamps_fit))]
    pub(crate) fn step(&self, before: &Mark, row: &RowRef) -> Mark
        requires row { IsRowOf (tree_of self.now) row.now }
        requires left { before.now.left ≤ 2 ^ 40 }
        requires right { before.now.right ≤ 2 ^ 40 }
        ensures { result ≡ w.step_mark before.now row.now }
    {
        step_mark(before, row)
    }
}
