//! Plain types of rows, windows and plans, and the definitions of what a query answers.
//! Which rows a file has and a window, what is printed for it, and how the answer is put together
//! from the parts of tasks: every other crate's contract cites these. Nearly all crates use it.
//!
//! - Parts: `rows` (a row, and why a line is none), `ends` (the end of a run), `windows` (measure,
//!   window, mark, kind), `expressions`, `predicates`, `plans` (a checked query), `sizes` (of a
//!   run), `stages` (how a result stage stands), `letting` (plans are let go by calls).
//! - Definitions, the files of `specs/` in this order: `Trees` (plans as contracts see them),
//!   `Rows`, `Inputs` (lines of files, their rows, the merge of two), `Sizes` and `Files` (limits
//!   of a run and of its files), `Windows`, `Overlap`, `Values`, `Bounds` (how great values get),
//!   `Answers`, `Parts` (with `Merges`), `Shares`, `Tasks`, `Needs`, `Runs` (what goes out of a
//!   run, by its end), `Texts`, `Outputs` and `Stages` (what a stage has of a run). `Checked` is
//!   what every plan keeps, `GivenRows` the rows that it can be given. `Pairing` and `Codes` say
//!   the same of pairs and of parts as code works with them; `Views` is a plan's fields as its
//!   tree, `TestCodes` the code of predicates; the lemmas of
//!   `specs/Facts/` serve proofs, and no contract rests on them.
//! - Calls: `Plan::new` takes all parts of a plan, which have to be checked (`IsChecked`), and each
//!   of a plan's calls tells that it is; `overlap` takes a size and a slide.
//! - Proved: plans, expressions and predicates give back what they were built from; `overlap` is
//!   how many windows have a point, at most. In `proofs/` the `Worked*` are small cases worked out
//!   by hand, with which the checker finds the definitions to agree.
//! - Not claimed: that the definitions say what was meant. Who doubts it reads them; tests and
//!   cases hold them against docs/RULES.md.
//! - Limits: `Checked` and `Sizes` have them, and `Rows` how many rows of a file may wait
//!   (`most_held`).
#![tactic(auto)]

use std::alloc::AllocError;

mod ends;
mod expressions;
mod letting;
mod plans;
mod predicates;
mod rows;
mod sizes;
mod stages;
mod windows;

pub use ends::RunEnd;
pub use expressions::{Expr, Factor, Factors, Product};
pub use plans::{Aggregate, Fold, Plan, Shape, Word};
pub use predicates::{Cmp, Conj, Pred, Unit};
pub use rows::{Row, RowCause, Side, Values};
pub use sizes::Sizes;
pub use stages::StageState;
pub use windows::{Kind, Mark, Measure, Stream, Window, overlap};

/// Want of memory, the one refusal that no input causes.
pub type NoMemory = AllocError;
