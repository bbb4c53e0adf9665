// How a plan's points are cut into panes.
ghost use Rattle.std.specs.Prelude.{◌≡◌, ◌≤◌, ◌^◌, ◌<◌, ◌+◌};
ghost use Rattle.saber_plan.specs.declared.plans.Shape.TheVariants.{Group};
ghost use Rattle.saber_plan.specs.Trees.{tree_of};
ghost use Rattle.saber_plan.specs.Answers.{frame};
ghost use Rattle.saber_plan.specs.Checked.{IsChecked, WindowFits};
ghost use Rattle.saber_plan.specs.GivenRows.{IsRowOf};
ghost use Rattle.saber_plan.specs.Windows as w;
ghost use Rattle.saber_plan.specs.Windows.{one};
ghost use Rattle.saber_panes.specs.Panes.{divisor, first_pane, is_counted, pane_count, pane_of};

use saber_eval::passes;
use saber_flat::RowRef;
use saber_plan::{Mark, Plan, Window};
use saber_window::{Windows, point, step_mark};
use std::marker::Model;

// The greatest common divisor, by Euclid's steps.
fn divisor(a: u64, b: u64) -> u64
    ensures { result ≡ divisor a b }
{
    let mut x = a;
    let mut y = b;
    while y != 0 {
        let rest = x % y;
        x = y;
        y = rest;
    }
    x
}

/// The window of a group query's stream.
#[tactic(auto, using(saber_laws::proofs::CheckedLaws::groups_have_one_window))]
pub(crate) fn window_of(plan: &Plan) -> Window
    requires group { (tree_of plan.now).shape ≡ Group }
    ensures frame { frame (tree_of plan.now) ≡ one result.measure result.slide result.size }
    ensures fits { WindowFits result }
{
    if let [stream, ..] = plan.streams() {
        if let Some(window) = stream.window {
            return window;
        }
    }
    unreachable!()
}

/// How many points a pane has: the greatest common divisor of the window's size and slide.
pub(crate) fn width_of(window: &Window) -> u64
    requires { WindowFits window.now }
    ensures width { result ≡ divisor window.now.size window.now.slide }
    ensures some { 1 ≤ result }
{
    divisor(window.size, window.slide)
}

/// A group query's windows and how its points are cut into panes, worked out once a call. Contracts
/// see it as the plan.
#[derive(Drop)]
pub(crate) struct Cuts<'a> {
    plan: &'a Plan,
    windows: Windows,
    window: Window,
    width: u64,
}

impl<'a> Model for Cuts<'a> {
    ghost use Rattle.std.specs.Prelude.{◌≡◌, ◌≤◌};
    ghost use Rattle.saber_plan.specs.declared.plans.Shape.TheVariants as shapes;
    ghost use Rattle.saber_plan.specs.declared.plans.Plan.{Plan};
    ghost use Rattle.saber_plan.specs.Trees.{tree_of};
    ghost use Rattle.saber_plan.specs.Checked.{IsChecked, WindowFits};
    ghost use Rattle.saber_plan.specs.Windows.{one};
    ghost use Rattle.saber_plan.specs.Answers.{frame};
    ghost use Rattle.saber_plan.specs.contracts.plans.Plan as e;
    ghost use Rattle.saber_panes.specs.Panes.{divisor, Cut};

    ghost Value = { Plan };

    ghost coded = { e.the_row.coded };

    ghost view = { λ c. c.plan.now };

    ghost invariant = { λ c. Cut (tree_of c.plan.now) c.windows c.window c.width };
}

impl<'a> Cuts<'a> {
    /// How this plan's rows are cut.
    pub(crate) fn new(plan: &'a Plan) -> Cuts<'a>
        requires group { (tree_of plan.now).shape ≡ Group }
        ensures { result ≡ plan.now }
    {
        let window = window_of(plan);
        Cuts {
            plan,
            windows: Windows::of_plan(plan),
            window,
            width: width_of(&window),
        }
    }

    /// The pane of a row.
    pub(crate) fn pane_of(&self, row: &RowRef, before: &Mark) -> u64
        requires { IsRowOf (tree_of self.now) row.now }
        ensures { result ≡ pane_of (frame (tree_of self.now)) (record { row = row.now; before = before.now }) }
    {
        let _plan = &self.plan;
        point(self.window.measure, row, before) / self.width
    }

    /// The first pane of a window, and the one behind its last.
    pub(crate) fn panes_of(&self, i: u64) -> (u64, u64)
        requires { first_pane (frame (tree_of self.now)) i + pane_count (frame (tree_of self.now)) < 2 ^ 64 }
        ensures first { result.0 ≡ first_pane (frame (tree_of self.now)) i }
        ensures past { result.1 ≡ first_pane (frame (tree_of self.now)) i + pane_count (frame (tree_of self.now)) }
    {
        let _plan = &self.plan;
        let first = i * (self.window.slide / self.width);
        (first, first + self.window.size / self.width)
    }

    /// Whether a row lies in a window and passes WHERE.
    #[tactic(auto, using(saber_eval::proofs::FittingLaws::group_fits))]
    pub(crate) fn is_counted(&self, row: &RowRef, before: &Mark) -> bool
        requires row { IsRowOf (tree_of self.now) row.now }
        requires left { before.now.left ≤ 2 ^ 40 }
        requires right { before.now.right ≤ 2 ^ 40 }
        ensures is { result ≡ is_counted (tree_of self.now) (record { row = row.now; before = before.now }) }
        ensures checked { IsChecked (tree_of self.now) }
    {
        let _plan = &self.plan;
        let (first, past) = self.windows.row_windows(row, before);
        first < past && passes(self.plan, row)
    }

    /// The mark after one more row.
    #[tactic(auto, using(saber_window::proofs::Stamps::stamps_fit))]
    pub(crate) fn step(&self, before: &Mark, row: &RowRef) -> Mark
        requires row { IsRowOf (tree_of self.now) row.now }
        requires left { before.now.left ≤ 2 ^ 40 }
        requires right { before.now.right ≤ 2 ^ 40 }
        ensures { result ≡ w.step_mark before.now row.now }
    {
        step_mark(before, row)
    }
}
