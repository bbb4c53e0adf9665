//! Partial answers by pane, from which windows are merged; no operator is over it.
//! It shows how many steps windows take that share their rows, and only tests use it. Slices, which
//! groups are made of, need no common divisor of size and slide.
//!
//! - Parts: `cuts` (points cut into panes), `pane_part` (a part whose every use is a step),
//!   `panes`, `pane_laws` (a law, which nobody calls).
//! - Calls: `Panes::fold` takes a task's rows with the mark before them, `window` merges the panes
//!   of a window into a part, `take_in` takes in the panes of later rows, `drop_below` lets old
//!   ones go.
//! - Proved: they are seen as a map from panes to parts (`specs/Panes.antt`), and a window's panes
//!   merge to its part (`windows_are_panes`). `fold` takes at most one step for each row that lies
//!   in a window and passes WHERE, however many windows have it, `window` at most one for each of
//!   its panes, `take_in` at most one for each pane that comes.
//! - Limits: group queries, and at most `2^40` rows.
#![tactic(auto)]

mod cuts;
mod pane_laws;
mod pane_part;
mod panes;

pub use pane_laws::windows_are_panes;
pub use panes::Panes;
