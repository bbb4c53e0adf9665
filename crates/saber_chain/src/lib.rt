//! Two queries in a chain: the lines of the first are the rows of the second, while both run.
//! The number of a window is the time of such a row. The command `chain` of the top call runs it.
//!
//! - Parts: `plans` (those of both queries), `chained` (how a chain ends), `gate` (tasks of both
//!   told apart), `first` (it writes into the pipe), `second` (it reads from it), `settle` (what
//!   both come to), `runs` (the call).
//! - Call: `chain` takes two checked plans, the inputs of the first, a sink and sizes, and gives
//!   inputs and sink back with how both ended.
//! - Proved (`specs/Chains.antt`): what goes out is what the second query gives over the lines that
//!   the first gave, and the text of both where each has read to the end or to a line refused. The
//!   first never fails to write. The second reads to the end only where the first one's text is
//!   whole, is cut off only where that is, and is never too wide. There was one write for each of
//!   the second one's tasks that has text, and one more where it failed. Faults are real, and none
//!   is passed over. Where the first one's thread was joined, nothing is left to send (`dismiss`);
//!   else the second one's relay is handed what is left.
//! - Not claimed: that both run at once. Where no thread can be had, the caller runs both; that
//!   with one they do run at once a test with a gate sees.
//! - Limits: the second plan has one stream, and the input's end closes no window. At most `2^40`
//!   lines go between, by a pipe of 64 items.
#![tactic(auto)]

mod chained;
mod first;
mod gate;
mod plans;
mod runs;
mod second;
mod settle;

pub use chained::Chained;
pub use plans::Plans;
pub use runs::chain;
pub use saber_engine::{Inputs, RunEnd, Stopped};
