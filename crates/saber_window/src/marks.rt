// Rows: their timestamps, and the mark after one more.
ghost use Rattle.std.specs.Prelude.{◌≡◌, ◌+◌, ◌-◌, ◌^◌, ◌<◌, ◌≤◌, length, take, drop};
ghost use Rattle.std.specs.List.{AllByRecursion};
ghost use Rattle.saber_plan.specs.Rows.{stamp};
ghost use Rattle.saber_plan.specs.Windows.{by_side, mark_after, step_mark, end_mark};
ghost use Rattle.saber_window.specs.Points.{point};
ghost use Rattle.saber_window.specs.Together.{IsLeft};

use saber_flat::{RowRef, Rows};
use saber_plan::{Mark, Measure, Side};

/// The timestamp, a row's first number; 0 where it has none.
#[inline]
pub(crate) fn stamp(r: &RowRef) -> u64
    ensures stamp { result ≡ stamp r.now.values }
    ensures small { result ≤ 2 ^ 63 }
{
    match r.values().first() {
        Some(time) => time.unsigned_abs(),
        None => 0,
    }
}

/// How many rows of the row's own side come before it.
#[inline]
pub(crate) fn own(r: &RowRef, before: &Mark) -> u64
    ensures { result ≡ by_side r.now.side before.now.left before.now.right }
{
    match r.side() {
        Side::Left => before.left,
        Side::Right => before.right,
    }
}

/// Where a row lies among what sizes and slides count: its position, or its timestamp.
#[inline]
pub fn point(measure: Measure, r: &RowRef, before: &Mark) -> u64
    ensures point { result ≡ point measure (record { row = r.now; before = before.now }) }
    ensures small { before.now.left < 2 ^ 63 → before.now.right < 2 ^ 63 → result ≤ 2 ^ 63 }
{
    match measure {
        Measure::Rows => own(r, before),
        Measure::Range => stamp(r),
    }
}

/// The mark after one more row: one row more on its side, and its timestamp as the last. A row that
/// fits its stream has one that is low enough (`stamps_fit`).
#[inline]
pub fn step_mark(m: &Mark, r: &RowRef) -> Mark
    requires left { m.now.left < 2 ^ 63 }
    requires right { m.now.right < 2 ^ 63 }
    requires time { stamp r.now.values < 2 ^ 63 }
    ensures { result ≡ step_mark m.now r.now }
{
    let last = Some(stamp(r) as i64);
    match r.side() {
        Side::Left => Mark {
            left: m.left + 1,
            right: m.right,
            last,
            ended: m.ended,
        },
        Side::Right => Mark {
            left: m.left,
            right: m.right + 1,
            last,
            ended: m.ended,
        },
    }
}

/// The mark after some rows of the left stream, from one up to another: the steps over all of them
/// at once.
#[inline]
pub fn mark_behind(m: &Mark, rows: &Rows, from: usize, end: usize) -> Mark
    requires more { from < end }
    requires within { end ≤ length rows.now }
    requires small { m.now.left + (end - from) < 2 ^ 63 }
    requires left { AllByRecursion IsLeft (drop from rows.now) }
    ensures { result ≡ mark_after m.now (take (end - from) (drop from rows.now)) }
{
    let time = stamp(&rows.row(end - 1));
    Mark {
        left: m.left + (end - from) as u64,
        right: m.right,
        last: Some(time as i64),
        ended: m.ended,
    }
}

/// The mark with the input's end behind it, if it comes here: there the begun windows are closed.
#[inline]
pub fn end_mark(ended: bool, m: &Mark) -> Mark
    ensures { result ≡ end_mark ended m.now }
{
    Mark {
        left: m.left,
        right: m.right,
        last: m.last,
        ended: ended || m.ended,
    }
}
