// The greatest last window of a block's rows.
ghost use Rattle.std.specs.Prelude.{◌≡◌, ◌^◌, ◌<◌, ◌+◌, length, Some, IfSome};
ghost use Rattle.std.specs.List.{AllByRecursion};
ghost use Rattle.saber_plan.specs.Rows.{stamp};
ghost use Rattle.saber_plan.specs.Windows.{Ordered, placed_after};
ghost use Rattle.saber_plan.specs.Needs.{later_of, last_of};

use saber_flat::Rows;
use saber_plan::Mark;
use saber_window::{Windows, step_mark};

// The greater of two last windows.
fn later(a: Option<u64>, b: Option<u64>) -> Option<u64>
    ensures { result ≡ later_of a b }
{
    match a {
        None => b,
        Some(x) => match b {
            None => a,
            Some(y) => Some(x.max(y)),
        },
    }
}

// The greatest last window of some rows, each asked for its own.
fn last_of_each(windows: &Windows, before: &Mark, rows: &Rows) -> Option<u64>
    requires left { before.now.left + length rows.now < 2 ^ 63 }
    requires right { before.now.right + length rows.now < 2 ^ 63 }
    requires times { AllByRecursion (λ r. stamp r.values < 2 ^ 63) rows.now }
    ensures { result ≡ last_of windows.now (placed_after before.now rows.now) }
{
    let mut mark = *before;
    let mut last = None;
    for i in 0..rows.len() {
        let row = rows.row(i);
        last = later(last, windows.last_window(&row, &mark));
        mark = step_mark(&mark, &row);
    }
    last
}

// The same by the last of them, if that lies in a window by time: no row before it lies in a later
// one.
fn last_by_time(windows: &Windows, before: &Mark, rows: &Rows) -> Option<u64>
    requires left { before.now.left < 2 ^ 63 }
    requires right { before.now.right < 2 ^ 63 }
    requires order { Ordered before.now rows.now }
    ensures { IfSome result (λ last. last_of windows.now (placed_after before.now rows.now) ≡ Some last) }
{
    let count = rows.len();
    if count == 0 || !windows.go_by_time() {
        return None;
    }
    windows.last_window(&rows.row(count - 1), before)
}

/// The greatest last window of some rows. Where windows go by time, the last row mostly tells it.
pub(crate) fn last_of(windows: &Windows, before: &Mark, rows: &Rows) -> Option<u64>
    requires left { before.now.left + length rows.now < 2 ^ 63 }
    requires right { before.now.right + length rows.now < 2 ^ 63 }
    requires times { AllByRecursion (λ r. stamp r.values < 2 ^ 63) rows.now }
    requires order { Ordered before.now rows.now }
    ensures { result ≡ last_of windows.now (placed_after before.now rows.now) }
{
    match last_by_time(windows, before, rows) {
        Some(last) => Some(last),
        None => last_of_each(windows, before, rows),
    }
}
