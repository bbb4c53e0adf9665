// Windows against tasks of so many rows.
ghost use Rattle.std.specs.Prelude.{◌≡◌};
ghost use Rattle.saber_window.specs.Tasks.{may_lie_in_two};

use saber_plan::{Measure, Window};

/// Whether windows overlap, and many lie whole in two tasks of so many rows, one behind the other,
/// and not in one. Of a window by time no number of rows tells that, and it is taken for granted.
pub fn may_lie_in_two(window: &Window, task: u32) -> bool
    ensures { result ≡ may_lie_in_two window.now task }
{
    let rows = u64::from(task);
    let fits = match window.measure {
        Measure::Rows => window.size.saturating_sub(window.slide) <= rows && rows / 2 < window.size,
        Measure::Range => true,
    };
    window.slide < window.size && fits
}
