//! What windows gain or lose against the window before them (CQL 2006: ISTREAM and DSTREAM), for
//! every operator: a walk over closed windows in order, each with its answers, from those of the
//! last closed window on. Groups walk over their queue of slices, joins and selections over the
//! parts of closed windows (`saber_parts`).
//!
//! - Parts: `answers` (`Answers`, of one window), `counts` and `cancel` (the lines of two windows
//!   cancel one by one: those of one are counted in a map, those of the other take from it),
//!   `rising` (the same in one walk over both, where the lines of both rise), `walk` (`Walk`),
//!   `output` (`Output`: what is printed of closed windows, lines or changes).
//! - Calls: `Walk::pass` takes the answers of a window, `Walk::reach` passes windows without any;
//!   both append what the windows passed gain, or lose (`Change`). `Output::skip` passes windows
//!   without any under either output.
//! - Proved: for any answers by window, the text grows by the lines of the bag differences of the
//!   definition (`saber_plan/specs/Answers.antt`), and the walk keeps the answers of the window
//!   before its next one (`specs/Walks.antt`). After want of memory some of the text may be there.
//! - Not claimed: what a window costs. It is about its answers and those of the window before,
//!   times the logarithm of their number where the lines of one don't rise; a gap of windows
//!   without answers costs one step.
//! - Limits: none but memory.
#![tactic(auto)]

mod answers;
mod cancel;
mod counts;
mod output;
mod rising;
mod walk;

pub use answers::Answers;
pub use cancel::Change;
pub use output::Output;
pub use walk::Walk;
