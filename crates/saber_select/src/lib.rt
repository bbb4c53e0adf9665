//! The operators of selections: without a window, and with one. A task looks at its own rows alone.
//! The engine runs them.
//!
//! Without a window (SABER 2016: a stateless operator) each row that passes WHERE is a line (CQL
//! 2006: a selection, and a projection to the items), so a task's text is whole, and nothing is kept
//! from task to task.
//!
//! With a window (CQL 2006) they stand under a stream word: RSTREAM prints for each window its rows
//! that pass WHERE, each as the values of the items; ISTREAM and DSTREAM print those that the window
//! has gained, or lost, against the window before it. A task puts each row that passes into every
//! window that it lies in and that isn't closed before the task (SABER 2016: the fragment function).
//! A window without rows costs nothing, and neither does a gap in time.
//!
//! - Parts without a window: `select` (`Select`, over its plan, and the rows of a task), `lines` (a
//!   row's line), `operator` (the trait's calls, and `NoStore`).
//! - Parts with one: `picked` (`Picked`, the rows of one window), `picked_lines` and `answers` (what
//!   is printed of them), `windowed` (the selection, over its plan), `windows` (the windows of a
//!   task, by number), `pieces` (what they give), `assembles` (their merge from task to task),
//!   `windowed_operator` (`WindowedOperator`).
//! - Calls: `Select::new` takes a checked plan without a stream word, `WindowedOperator::new` one with
//!   RSTREAM, `WindowedOperator::changing` one and which change its word asks for; the rest is by the
//!   trait of `saber_fragment`.
//! - Proved of `Select`: `start` gives exactly the text of the task's own rows (`specs/Texts.antt`),
//!   `look_back` and `finish` leave it, and `take_in` appends it.
//! - Proved of `WindowedOperator`: `start` gives exactly the shares of the definition, or what is
//!   handed on, from the task's own rows, and `take_in` appends what these add to the text. The store
//!   is that of `saber_parts`, the differences those of `saber_changes`.
//! - Not claimed: what a row costs. Under a stream word the values of its items are worked out once
//!   and copied to each window that it lies in, without an allocation of their own.
#![tactic(auto)]

mod answers;
mod assembles;
mod lines;
mod operator;
mod picked;
mod picked_lines;
mod pieces;
mod select;
mod windowed;
mod windowed_operator;
mod windows;

pub use operator::NoStore;
pub use picked::Picked;
pub use select::Select;
pub use windowed_operator::WindowedOperator;
