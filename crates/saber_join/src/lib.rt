//! The operator of joins of two streams (SABER 2016: the fragment function of a windowed join).
//! Window i pairs the rows of window i of the left stream with those of window i of the right one
//! (CQL 2006), and each pair that passes WHERE is an answer. Each row of a task meets the other
//! side's rows so far of the windows that it lies in: those with its key, where WHERE demands that
//! two expressions are equal. A window without rows costs nothing, and neither does a gap in time.
//! The engine runs it.
//!
//! - Parts: `join` (`Join`, over its plan), `ties` (the equality of WHERE that gives keys), `draft`
//!   and `back` (rows looked back on), `seen`, `shelf` and `held_rows` (rows by buckets of their
//!   keys), `windows` (the pairs of a task), `pairs`, `lines` and `answers` (a window's part, its
//!   text and its answers), `pieces` (what a task gives of them), `assembles` (their merge),
//!   `operator` (the trait's calls).
//! - Calls: `JoinOperator::new` takes a checked plan whose windows print their answers as they are,
//!   without a stream word or with RSTREAM; `JoinOperator::changing` takes one with ISTREAM or
//!   DSTREAM, and the change that it asks for. The rest is by the trait of `saber_fragment`.
//! - Proved: `finish` gives exactly the shares of the definition, or what is handed on, from the
//!   rows looked back on and the task's own. The store is that of `saber_parts`: lines of whole
//!   parts, or a walk over the answers of closed windows.
//! - Not claimed: how many rows a row is compared with: chosen keys may all lie in one bucket. What
//!   is looked back on is copied anew for each task.
//! - Limits: keys have 64 bits; wider ones all count as 0, and WHERE is asked of every pair all the
//!   same.
#![tactic(auto)]

mod answers;
mod assembles;
mod back;
mod draft;
mod held_rows;
mod join;
mod lines;
mod operator;
mod pairs;
mod pieces;
mod seen;
mod shelf;
mod ties;
mod windows;

pub use draft::JoinDraft;
pub use operator::JoinOperator;
pub use pairs::Pairs;
