//! The operator of group queries with PARTITION BY (CQL 2006): windows of each key.
//! The rows of a key are a stream by themselves, which has windows of its own. Rows of one slice,
//! which lie in the same windows, share an entry of their key's queue. The engine runs it;
//! docs/TASKS.md follows it.
//!
//! - Parts, from below: `numbers` (windows by a row's place), `keyed` (one key: a queue of parts),
//!   `partition` (`Partition`, over its plan), `pieces` (what a task makes of its rows), `lists`
//!   (all keys, row by row, and the end), `operator` (the trait's calls), `letting` (values let go
//!   by calls).
//! - Call: `Partition::new` takes a checked plan with PARTITION BY; the rest is by the trait of
//!   `saber_fragment`.
//! - Proved: a piece has the key, the place and the part of each of the task's rows, in order
//!   (`specs/Pieces.antt`). For every key the store's queue has the open parts of that key's own
//!   rows (`Keeps`, `TakenAll`). A row prints the window that it closes, if it closes one; the end
//!   prints what is begun, key by key. A row costs two merges, and one more where it closes a
//!   window, however many windows have it.
//! - Not claimed: time and memory. The parts of a task's rows lie in one list. The stage finds what
//!   it keeps of a row's key by the key's number (`Numbered` of `saber_places`). Once a key's
//!   windows are open, its rows take no memory of their own, but for groups that are new among
//!   many. At the end all is put in the order of the keys.
//! - Limits: one to eight columns of PARTITION BY; no stream word. What is kept of a key stays to
//!   the end of the input.
#![tactic(auto)]

mod keyed;
mod letting;
mod lists;
mod numbers;
mod operator;
mod partition;
mod pieces;

pub use partition::Partition;
