//! Files of cases: what is asked of the top call over files in memory, and what has to come of it.
//! The program `saber_cases` tries them. docs/CASES.md has the format.
//!
//! - Parts: `refusals` (why a file is refused), `fields`, `names`, `texts`, `readings` (what its
//!   lines say), `sizes`, `gates` and `wanted` (of a case), `runs` (one run), `trials` (the call).
//! - Call: `try_cases` takes a file's name and text and a report, to which it adds a line for each
//!   case that fails, and gives how many cases there were, how many runs, and how many cases
//!   failed.
//! - Proved: that it is safe. No contract says what it finds; tests give it cases that hold, that
//!   fail and that are refused.
//! - Limits: a part of a text is repeated two million times at most. docs/CASES.md has the sizes
//!   that a case is tried with.
#![tactic(auto)]

mod fields;
mod gates;
mod names;
mod readings;
mod refusals;
mod runs;
mod sizes;
mod texts;
mod trials;
mod wanted;

pub use refusals::{Cause, Refused};
pub use trials::{Counts, try_cases};
