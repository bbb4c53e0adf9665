//! The arithmetic of windows: which have a point or a row, and how many are begun and closed.
//! Panes, the operators of groups, joins and windowed selections, and dispatch ask it for all that
//! they do with windows.
//!
//! - Parts: `counts` and `points` (windows up to a point, and of one), `marks` (points of rows, and
//!   marks behind them), `plans` (straight from a plan), `windowed` and `plan_windows` (`Windows`,
//!   made once a task), `bounds` (what a window is to a task), `steps` and `slices` (where rows of
//!   the same windows end), `lately` (windows kept till a row leaves them), `frees` (how far back a
//!   task looks), `tasks` (windows in two tasks).
//! - Calls: `Windows::of_plan` takes a checked plan; of it `closed_below` and `begun_below` take a
//!   mark and count windows, `row_windows` takes a row and the mark before it and gives the first
//!   window that has it and the one behind the last, `slice_end` tells where a slice ends.
//! - Proved: each gives its definition's value: windows of a point, a row and a mark, what a window
//!   is to a task (`kind_of`), marks (`step_mark`, `mark_behind`), the free pointer by the last
//!   windows of blocks (`free_of`). The rows up to `slice_end` lie in the same windows. Nothing
//!   takes memory or refuses.
//! - Not claimed: that `slice_end` goes as far as it might. Two calls alone have loops: `free_of`
//!   over blocks, `slice_end` over times, few of which it looks at.
//! - Limits: fewer than `2^63` rows a side; block numbers below `2^42` for `free_of`.
#![tactic(auto)]

mod bounds;
mod counts;
mod frees;
mod lately;
mod marks;
mod plan_windows;
mod plans;
mod points;
mod slices;
mod steps;
mod tasks;
mod windowed;

pub use bounds::Bounds;
pub use frees::free_of;
pub use lately::Lately;
pub use marks::{end_mark, mark_behind, point, step_mark};
pub use plan_windows::Windows;
pub use plans::{begun_below, closed_below, kind_of};
pub use points::windows_of;
pub use tasks::may_lie_in_two;
