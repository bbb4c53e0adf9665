// The windows of rows that come one after another.
ghost use Rattle.std.specs.Prelude.{◌≡◌, ◌^◌, ◌<◌, ◌≤◌};
ghost use Rattle.saber_plan.specs.Windows.{count_to, Fits};
ghost use Rattle.saber_plan.specs.Trees.{tree_of};
ghost use Rattle.saber_plan.specs.Answers.{frame};
ghost use Rattle.saber_plan.specs.Checked.{IsChecked};
ghost use Rattle.saber_plan.specs.Needs.{first_window, past_window};
ghost use Rattle.saber_window.specs.Stretches.{IsStretch};

use crate::counts::count_to;
use crate::marks::point;
use crate::steps::next_other;
use crate::windowed::{Windowed, windowed_of};
use saber_flat::RowRef;
use saber_plan::{Mark, Plan, Side};
use std::marker::Model;

/// Points, from one up to another, that lie in the same windows of a slide and a size: those from
/// `first` up to `past`.
#[derive(Clone, Copy)]
pub(crate) struct Stretch {
    from: u64,
    until: u64,
    first: u64,
    past: u64,
}

// No point.
fn no_stretch() -> Stretch
    ensures none { result.from ≡ 0 }
    ensures empty { result.until ≡ 0 }
{
    Stretch {
        from: 0,
        until: 0,
        first: 0,
        past: 0,
    }
}

// The one that begins at this point.
fn stretch_from(slide: u64, size: u64, point: u64) -> Stretch
    requires slide { 1 ≤ slide }
    requires small { point < 2 ^ 63 }
    ensures stretch { IsStretch slide size result }
{
    Stretch {
        from: point,
        until: next_other(slide, size, point),
        first: count_to(slide, size, point),
        past: count_to(slide, 0, point),
    }
}

// The first window that has a point, and the one after the last.
fn counts_at(slide: u64, size: u64, point: u64) -> (u64, u64)
    requires slide { 1 ≤ slide }
    requires small { point ≤ 2 ^ 63 }
    ensures first { result.0 ≡ count_to slide size point }
    ensures past { result.1 ≡ count_to slide 0 point }
{
    (count_to(slide, size, point), count_to(slide, 0, point))
}

// The windows of a point that does not lie in the stretch, which is then the one from there on.
#[inline(never)]
fn windows_anew(slide: u64, size: u64, point: u64, stretch: &mut Stretch) -> (u64, u64)
    requires slide { 1 ≤ slide }
    requires small { point ≤ 2 ^ 63 }
    requires stretch { IsStretch slide size stretch.old }
    ensures stretch { IsStretch slide size stretch.new }
    ensures first { result.0 ≡ count_to slide size point }
    ensures past { result.1 ≡ count_to slide 0 point }
{
    if point < 1 << 63 {
        *stretch = stretch_from(slide, size, point);
    }
    counts_at(slide, size, point)
}

// The windows of a point.
#[inline(always)]
fn windows_at(slide: u64, size: u64, point: u64, stretch: &mut Stretch) -> (u64, u64)
    requires slide { 1 ≤ slide }
    requires small { point ≤ 2 ^ 63 }
    requires stretch { IsStretch slide size stretch.old }
    ensures stretch { IsStretch slide size stretch.new }
    ensures first { result.0 ≡ count_to slide size point }
    ensures past { result.1 ≡ count_to slide 0 point }
{
    if stretch.from <= point && point < stretch.until {
        return (stretch.first, stretch.past);
    }
    windows_anew(slide, size, point, stretch)
}

/// The windows of a plan, with those of the row of each side that was asked for last: rows that
/// come one after another mostly lie in the same ones, and then cost no division. Contracts see it
/// as the plan's frame.
#[derive(Drop)]
pub struct Lately {
    windowed: Windowed,
    left: Stretch,
    right: Stretch,
}

impl Model for Lately {
    ghost use Rattle.saber_plan.specs.Windows.{Frame, Fits};
    ghost use Rattle.saber_window.specs.Frames.{frame_with};
    ghost use Rattle.saber_window.specs.Stretches.{AreStretches};

    ghost Value = { Frame };

    ghost view = { λ l. frame_with l.windowed };

    ghost invariant = { λ l. Fits (frame_with l.windowed) × AreStretches (frame_with l.windowed) l.left l.right };
}

impl Lately {
    /// The windows of a plan, none of which was asked for yet.
    #[tactic(auto, using(saber_laws::proofs::CheckedLaws::checked_fit))]
    pub fn of_plan(p: &Plan) -> Lately
        ensures frame { result ≡ frame (tree_of p.now) }
        ensures checked { IsChecked (tree_of p.now) }
    {
        Lately {
            windowed: windowed_of(p.streams()),
            left: no_stretch(),
            right: no_stretch(),
        }
    }

    /// The windows of a row, as `row_windows` of `Windows`.
    #[inline(always)]
    pub fn row_windows(&mut self, r: &RowRef, before: &Mark) -> (u64, u64)
        requires left { before.now.left < 2 ^ 63 }
        requires right { before.now.right < 2 ^ 63 }
        ensures same { self.new ≡ self.old }
        ensures first { result.0 ≡ first_window self.old (record { row = r.now; before = before.now }) }
        ensures past { result.1 ≡ past_window self.old (record { row = r.now; before = before.now }) }
    {
        match self.windowed {
            Windowed::Both {
                measure,
                slide,
                left,
                right,
            } => {
                let point = point(measure, r, before);
                match r.side() {
                    Side::Left => windows_at(slide, left, point, &mut self.left),
                    Side::Right => windows_at(slide, right, point, &mut self.right),
                }
            }
            Windowed::One {
                measure,
                slide,
                size,
            } => match r.side() {
                Side::Left => counts_at(slide, size, point(measure, r, before)),
                Side::Right => (0, 0),
            },
            Windowed::Neither => (0, 0),
        }
    }
}
