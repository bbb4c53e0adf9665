// The windows of a plan, taken out of it once.
ghost use Rattle.std.specs.Prelude.{◌≡◌, ℕ, ◌^◌, ◌<◌, ◌≤◌, ◌||◌, true, not, nat_lt, is_none, length, drop};
ghost use Rattle.std.specs.List.{AllByRecursion};
ghost use Rattle.saber_plan.specs.Trees.{tree_of};
ghost use Rattle.saber_plan.specs.Answers.{frame};
ghost use Rattle.saber_plan.specs.Checked.{IsChecked};
ghost use Rattle.saber_plan.specs.Windows.{Fits, Ordered, begun, begun_count, closed, closed_count, has, kind_of, past_count};
ghost use Rattle.saber_plan.specs.Needs.{first_window, last_window, past_window};
ghost use Rattle.saber_window.specs.Kinds.{AreBounds};
ghost use Rattle.saber_window.specs.Timed.{IsTimed};
ghost use Rattle.saber_window.specs.Together.{IsLeft, LieTogether};

use crate::bounds::Bounds;
use crate::counts::{count_reached, count_to};
use crate::marks::point;
use crate::points::{ends_by, spans};
use crate::slices::{rows_end, times_end};
use crate::windowed::{Windowed, windowed_of};
use saber_flat::{RowRef, Rows};
use saber_plan::{Kind, Mark, Measure, Plan, Side};
use std::marker::Model;

/// The windows of a checked plan: one slide, and the size of each stream's windows. It is made once
/// for a task, so that a row costs no walk through the plan. Contracts see it as the plan's frame.
#[derive(Clone, Copy)]
pub struct Windows {
    windowed: Windowed,
}

impl Model for Windows {
    ghost use Rattle.saber_plan.specs.Windows.{Frame, Fits};

    ghost Value = { Frame };

    ghost use Rattle.saber_window.specs.Frames.{frame_with, windowed_by};

    ghost view = { λ w. frame_with w.windowed };

    ghost invariant = { λ w. Fits (frame_with w.windowed) };

    ghost inverse = { λ f. record { windowed = windowed_by f } };
}

impl Windows {
    /// The windows of a plan.
    #[tactic(auto, using(saber_laws::proofs::CheckedLaws::checked_fit))]
    pub fn of_plan(p: &Plan) -> Windows
        ensures frame { result ≡ frame (tree_of p.now) }
        ensures fits { Fits result }
        ensures checked { IsChecked (tree_of p.now) }
    {
        Windows {
            windowed: windowed_of(p.streams()),
        }
    }

    /// Whether they are those of a join by time: which of them a row lies in is then told by its
    /// timestamp and its side, so that of rows in order the last one tells of all.
    pub fn go_by_time(&self) -> bool
        ensures { result ≡ true → IsTimed self.now }
    {
        match self.windowed {
            Windowed::Both { measure, .. } => measure == Measure::Range,
            Windowed::One { .. } => false,
            Windowed::Neither => false,
        }
    }

    // How many windows have all their rows behind the mark.
    fn past_below(&self, m: &Mark) -> u64
        ensures { result ≡ past_count self.now m.now }
    {
        match self.windowed {
            Windowed::Neither => 0,
            Windowed::One {
                measure: Measure::Rows,
                slide,
                size,
            } => count_to(slide, size, m.left),
            Windowed::One {
                measure: Measure::Range,
                slide,
                size,
            } => count_reached(slide, size, m.last),
            Windowed::Both {
                measure: Measure::Rows,
                slide,
                left,
                right,
            } => count_to(slide, left, m.left).min(count_to(slide, right, m.right)),
            Windowed::Both {
                measure: Measure::Range,
                slide,
                left,
                right,
            } => count_reached(slide, left.max(right), m.last),
        }
    }

    // How many are closed: where the input ended, those that are begun.
    fn count_closed(&self, m: &Mark) -> u64
        ensures { result ≡ closed_count self.now m.now }
    {
        if m.ended {
            self.begun_below(m)
        } else {
            self.past_below(m)
        }
    }

    /// How many windows are closed behind this mark, as the function of this name.
    #[tactic(auto, using(saber_laws::proofs::WindowLaws::closed_are_counted, saber_laws::proofs::WindowLaws::closed_within_begun))]
    pub fn closed_below(&self, m: &Mark) -> u64
        ensures count { result ≡ closed_count self.now m.now }
        ensures closed { (i : ℕ) → nat_lt i result ≡ closed self.now i m.now }
        ensures begun { result ≤ begun_count self.now m.now }
    {
        let _windowed = &self.windowed;
        self.count_closed(m)
    }

    /// How many windows are begun by them, as the function of this name.
    #[tactic(auto, using(crate::proofs::Counted::begun_by))]
    pub fn begun_below(&self, m: &Mark) -> u64
        ensures count { result ≡ begun_count self.now m.now }
        ensures begun { (i : ℕ) → nat_lt i result ≡ begun self.now i m.now }
    {
        match self.windowed {
            Windowed::Neither => 0,
            Windowed::One {
                measure: Measure::Rows,
                slide,
                size: _,
            } => count_to(slide, 1, m.left),
            Windowed::Both {
                measure: Measure::Rows,
                slide,
                left: _,
                right: _,
            } => count_to(slide, 1, m.left).max(count_to(slide, 1, m.right)),
            Windowed::One {
                measure: Measure::Range,
                slide,
                size: _,
            } => count_reached(slide, 0, m.last),
            Windowed::Both {
                measure: Measure::Range,
                slide,
                left: _,
                right: _,
            } => count_reached(slide, 0, m.last),
        }
    }

    /// What windows are to a task of the rows after mark a, up to mark b: of each that isn't closed
    /// at a and is begun at b, what part lies in the task.
    pub fn bounds(&self, a: &Mark, b: &Mark) -> Bounds
        ensures { AreBounds self.now a.now b.now result }
    {
        let _windowed = &self.windowed;
        Bounds {
            begun_before: self.begun_below(a),
            closed_after: self.closed_below(b),
        }
    }

    /// What part of window i lies in a task's rows, as the function of this name.
    pub fn kind_of(&self, i: u64, a: &Mark, b: &Mark) -> Option<Kind>
        ensures kind { result ≡ kind_of self.now i a.now b.now }
        ensures none { is_none result ≡ (closed self.now i a.now || not (begun self.now i b.now)) }
    {
        if i < self.closed_below(a) || i >= self.begun_below(b) {
            return None;
        }
        Some(self.bounds(a, b).kind(i))
    }

    /// The first window that has a row, where the mark tells of the rows before it. It has the row
    /// only if it is below the one of `past_window`. It is 0 for a row of a stream that has no
    /// windows.
    #[inline]
    pub fn first_window(&self, r: &RowRef, before: &Mark) -> u64
        ensures { result ≡ first_window self.now (record { row = r.now; before = before.now }) }
    {
        match self.windowed {
            Windowed::Neither => 0,
            Windowed::One {
                measure,
                slide,
                size,
            } => match r.side() {
                Side::Left => count_to(slide, size, point(measure, r, before)),
                Side::Right => 0,
            },
            Windowed::Both {
                measure,
                slide,
                left,
                right,
            } => match r.side() {
                Side::Left => count_to(slide, left, point(measure, r, before)),
                Side::Right => count_to(slide, right, point(measure, r, before)),
            },
        }
    }

    /// The window after the last one that has the row: how many windows begin at most there. Counts
    /// below 2^63 leave room for it.
    #[inline]
    pub fn past_window(&self, r: &RowRef, before: &Mark) -> u64
        requires left { before.now.left < 2 ^ 63 }
        requires right { before.now.right < 2 ^ 63 }
        ensures { result ≡ past_window self.now (record { row = r.now; before = before.now }) }
    {
        match self.windowed {
            Windowed::Neither => 0,
            Windowed::One {
                measure,
                slide,
                size: _,
            } => match r.side() {
                Side::Left => count_to(slide, 0, point(measure, r, before)),
                Side::Right => 0,
            },
            Windowed::Both {
                measure,
                slide,
                left: _,
                right: _,
            } => count_to(slide, 0, point(measure, r, before)),
        }
    }

    /// Window i has the row.
    #[inline]
    pub fn has(&self, i: u64, r: &RowRef, before: &Mark) -> bool
        ensures { result ≡ has self.now i (record { row = r.now; before = before.now }) }
    {
        match self.windowed {
            Windowed::Neither => false,
            Windowed::One {
                measure,
                slide,
                size,
            } => r.side() == Side::Left && spans(slide, size, i, point(measure, r, before)),
            Windowed::Both {
                measure,
                slide,
                left,
                right,
            } => match r.side() {
                Side::Left => spans(slide, left, i, point(measure, r, before)),
                Side::Right => spans(slide, right, i, point(measure, r, before)),
            },
        }
    }

    /// Both of these: the row lies in the windows from the one up to the other, and in no other.
    #[inline]
    pub fn row_windows(&self, r: &RowRef, before: &Mark) -> (u64, u64)
        requires left { before.now.left < 2 ^ 63 }
        requires right { before.now.right < 2 ^ 63 }
        ensures first { result.0 ≡ first_window self.now (record { row = r.now; before = before.now }) }
        ensures past { result.1 ≡ past_window self.now (record { row = r.now; before = before.now }) }
    {
        (self.first_window(r, before), self.past_window(r, before))
    }

    /// Where some rows end that lie in the same windows, from row `from` on. They are as many as
    /// there are, if there is one stream. No row of them needs a division to tell its windows.
    pub fn slice_end(&self, rows: &Rows, from: usize, before: &Mark) -> usize
        requires there { from < length rows.now }
        requires small { before.now.left < 2 ^ 63 }
        requires left { AllByRecursion IsLeft (drop from rows.now) }
        requires order { Ordered before.now (drop from rows.now) }
        ensures more { from < result }
        ensures within { result ≤ length rows.now }
        ensures together { LieTogether self.now before.now rows.now from result }
    {
        let _all = rows.len();
        match self.windowed {
            Windowed::One {
                measure: Measure::Rows,
                slide,
                size,
            } => rows_end(slide, size, rows, from, before),
            Windowed::One {
                measure: Measure::Range,
                slide,
                size,
            } => times_end(slide, size, rows, from, before),
            Windowed::Neither => from + 1,
            Windowed::Both { .. } => from + 1,
        }
    }

    /// The last window that has the row, if any has it.
    #[inline]
    pub fn last_window(&self, r: &RowRef, before: &Mark) -> Option<u64>
        requires left { before.now.left < 2 ^ 63 }
        requires right { before.now.right < 2 ^ 63 }
        ensures { result ≡ last_window self.now (record { row = r.now; before = before.now }) }
    {
        let (first, past) = self.row_windows(r, before);
        if first < past { Some(past - 1) } else { None }
    }

    /// Window i ends at the row or before it: neither the row nor a later one of its stream is in
    /// it, where timestamps do not fall (`past_have_none`).
    #[inline]
    pub fn is_past(&self, i: u64, r: &RowRef, before: &Mark) -> bool
        ensures { result ≡ nat_lt i (first_window self.now (record { row = r.now; before = before.now })) }
    {
        match self.windowed {
            Windowed::Neither => false,
            Windowed::One {
                measure,
                slide,
                size,
            } => r.side() == Side::Left && ends_by(slide, size, i, point(measure, r, before)),
            Windowed::Both {
                measure,
                slide,
                left,
                right,
            } => match r.side() {
                Side::Left => ends_by(slide, left, i, point(measure, r, before)),
                Side::Right => ends_by(slide, right, i, point(measure, r, before)),
            },
        }
    }
}
