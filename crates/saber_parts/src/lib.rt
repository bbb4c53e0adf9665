//! Parts by window, for operators each of whose windows has a part of its own, and their stores.
//! Joins and selections with a window use it. Groups keep slices in place of parts by window.
//!
//! - Parts: `assembles` (the trait: how two parts merge, and how a whole one is printed),
//!   `gathered` and `pieces` (what a task's windows give, by kind), `store` (lines of closed
//!   windows), `changes` (what they gain or lose, with the walk of `saber_changes`), `part_store`
//!   (`PartStore`, over both: what its `Output` says).
//! - Calls: `piece_of_windows` makes a task's piece of the parts of its windows, and
//!   `handed_of_windows` what it hands on under ISTREAM and DSTREAM. `PartStore::take_in` takes an
//!   operator that `Assembles`, the next task's piece, and the text to which it appends;
//!   `drop_closed` lets the parts of closed windows go.
//! - Proved: the text grows by what the piece adds, and the parts that it leaves open are kept, as
//!   the trait of `saber_fragment` asks (`specs/Taking.antt`). After want of memory some of the
//!   text may be there, behind what was in it, and the store is only safe to let go. All that is
//!   asked of parts is that two that merge are of rows that follow one another (`AreNeighbors` of
//!   `saber_plan/specs/GivenRows.antt`).
//! - Limits: none but memory. A closed window's part stays until it is dropped.
#![tactic(auto)]

mod assembles;
mod changes;
mod gathered;
mod part_store;
mod pieces;
mod store;

pub use assembles::Assembles;
pub use part_store::PartStore;
pub use pieces::{handed_of_windows, piece_of_windows};
