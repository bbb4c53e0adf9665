//! The operator of group queries (SABER 2016: the fragment function of an aggregation by groups).
//! It goes over a task once, by slices: rows one after another that lie in the same windows. A
//! slice is worked out once, and goes into each window that has it, so a window without a row that
//! passes costs nothing, and neither does a gap in time. Windows print their answers, as without a
//! stream word and under RSTREAM, or under ISTREAM and DSTREAM what they gain or lose against the
//! window before. The engine runs it; docs/TASKS.md follows it.
//!
//! - Parts: `group` (`Group`, over its plan), `batch` and `rows` (a task's rows), `slices`,
//!   `slice_list` (`Slices`: those of some rows, each with a part of its own, or, without GROUP BY,
//!   with one in a list of all), `complete` (windows that a task answers itself), `slice_pieces`,
//!   `slice_stores`, `operator` (`GroupOperator`, and the trait's calls); `letting` (values let go
//!   by calls). The queue of slices, and the loop over its closed windows, are those of
//!   `saber_sliding`.
//! - Calls: `GroupOperator::new` takes a checked plan whose windows print their answers,
//!   `GroupOperator::changing` one whose windows print what changes, with the change; the rest is
//!   by the trait of `saber_fragment`.
//! - Proved: a piece has exactly the slices of the task's rows, or the text of the windows that it
//!   answers, what is open behind, and the slices of the windows below (`IsOf`,
//!   `specs/SlicePieces.antt`). The store's slices, merged by window, are the open parts, and under
//!   a word that compares windows it has the answers of the last closed one
//!   (`specs/SliceStores.antt`). Merges are counted: a slice that is taken in costs two and a
//!   window that is answered one, in the store as in a task that answers windows itself, to which
//!   each row before its own costs one more at most (`TaskSteps`, `PieceSteps`). Beside what it
//!   answers a task gives at most half of its slices.
//! - Not claimed: that a task answers the windows that it could (under ISTREAM and DSTREAM it
//!   answers none: the store prints them all), and that a call merges nothing beside the steps that
//!   it is given.
//! - Limits: plans without PARTITION BY; `2^40` rows.
#![tactic(auto)]

mod batch;
mod complete;
mod group;
mod letting;
mod operator;
mod rows;
mod slice_list;
mod slice_pieces;
mod slice_stores;
mod slices;

pub use operator::GroupOperator;
