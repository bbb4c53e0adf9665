// How many windows some rows of one stream close and begin.
ghost use Rattle.std.specs.Prelude.{◌≡◌, ◌≤◌, ◌^◌, ◌+◌};
ghost use Rattle.saber_plan.specs.Windows.{begun_count, closed_count};
ghost use Rattle.saber_partition.specs.Pieces.{mark_with};

use saber_plan::Mark;
use saber_window::Windows;

/// How many windows are closed and begun behind a row that stands at this place among the rows with
/// its key list.
pub(crate) fn numbers_behind(windows: &Windows, place: u64) -> (u64, u64)
    requires { place ≤ 2 ^ 40 }
    ensures low { result.0 ≡ closed_count windows.now (mark_with (place + 1)) }
    ensures past { result.1 ≡ begun_count windows.now (mark_with (place + 1)) }
{
    let after = Mark {
        left: place + 1,
        right: 0,
        last: None,
        ended: false,
    };
    (windows.closed_below(&after), windows.begun_below(&after))
}
