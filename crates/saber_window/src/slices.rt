// Rows, one after another, that lie in the same windows of one stream.
ghost use Rattle.std.specs.Prelude.{◌≡◌, ◌+◌, ◌^◌, ◌<◌, ◌≤◌, length, drop, true};
ghost use Rattle.std.specs.List.{AllByRecursion};
ghost use Rattle.saber_plan.specs.declared.windows.Measure.TheVariants as measures;
ghost use Rattle.saber_plan.specs.Windows.{one, Ordered};
ghost use Rattle.saber_window.specs.Together.{IsBelow, IsLeft, LieTogether};

use crate::marks::stamp;
use crate::steps::next_other;
use saber_flat::Rows;
use saber_plan::Mark;

/// Where those from row `from` on end, if windows count rows.
#[inline]
pub(crate) fn rows_end(slide: u64, size: u64, rows: &Rows, from: usize, before: &Mark) -> usize
    requires slide { 1 ≤ slide }
    requires there { from < length rows.now }
    requires small { before.now.left < 2 ^ 63 }
    requires left { AllByRecursion IsLeft (drop from rows.now) }
    ensures more { from < result }
    ensures within { result ≤ length rows.now }
    ensures together { LieTogether (one measures.Rows slide size) before.now rows.now from result }
{
    let more = next_other(slide, size, before.left) - before.left;
    let all = rows.len() - from;
    from + more.min(all as u64) as usize
}

// The row so far ahead is there, and its timestamp lies below the point.
#[inline]
fn is_below(until: u64, rows: &Rows, last: usize, ahead: usize) -> bool
    requires { last ≤ length rows.now }
    ensures { result ≡ true → IsBelow until rows.now (last + ahead) }
{
    ahead < rows.len() - last && stamp(&rows.row(last + ahead)) < until
}

// A row behind such a one, or that row. It looks twice as far ahead each time, until that is too
// far, and then half as far.
fn last_below(until: u64, rows: &Rows, from: usize) -> usize
    requires { IsBelow until rows.now from }
    ensures from { from ≤ result }
    ensures below { IsBelow until rows.now result }
{
    let _all = rows.len();
    let mut last = from;
    let mut ahead = 1;
    while is_below(until, rows, last, ahead) {
        last += ahead;
        ahead *= 2;
    }
    while ahead > 1 {
        ahead /= 2;
        if is_below(until, rows, last, ahead) {
            last += ahead;
        }
    }
    last
}

/// Where they end, if windows have a time.
#[inline]
pub(crate) fn times_end(slide: u64, size: u64, rows: &Rows, from: usize, before: &Mark) -> usize
    requires slide { 1 ≤ slide }
    requires there { from < length rows.now }
    requires left { AllByRecursion IsLeft (drop from rows.now) }
    requires order { Ordered before.now (drop from rows.now) }
    ensures more { from < result }
    ensures within { result ≤ length rows.now }
    ensures together { LieTogether (one measures.Range slide size) before.now rows.now from result }
{
    let _all = rows.len();
    let time = stamp(&rows.row(from));
    last_below(next_other(slide, size, time), rows, from) + 1
}
