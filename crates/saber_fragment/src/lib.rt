//! What a task is and what an operator makes of it: blocks, pieces and the trait `Operator`.
//! Every kind of query implements the trait (SABER 2016: its fragment and its assembly function).
//! The operators, dispatch, assembly, workers and engine are stated by it.
//!
//! - Parts: `blocks` (`Block`: a task's rows, the mark before them, rows before its own), `pieces`
//!   (the parts of windows by kind, and text), `operator`, `one_of` and `either` (`OneOf` of two
//!   operators is an operator), `look_back` (a law, which nobody calls: `drafts_look_back`; proofs
//!   above import its lemma from `proofs/LookingBack.antt`).
//! - Calls: `start` takes a task's own block and gives a draft, `look_back` takes each block before
//!   it that the task looks back on, `finish` gives the piece; `take_in` takes the next task's
//!   piece into the store and appends to the text, `drop_closed` lets the parts of closed windows
//!   go.
//! - Proved of each operator, in its own crate: `finish` gives the piece of the arrivals that the
//!   task's rows are (`is_of`), from its own block and those looked back on; `take_in` appends what
//!   these arrivals add to the text, and leaves in the store what is to be kept behind them, once
//!   `drop_closed` has dropped the rest; `has_taken` goes on with the store. What was in the text
//!   stays in front, also after want of memory. `specs/Drafts.antt` and `specs/Stores.antt` have
//!   what is asked of callers.
//! - The law, for tasks of at least one row and rows that the plan can be given: a draft can be
//!   started with the task's own block, can look back on the blocks from the first that the task
//!   needs on, one after another, and then has the task's arrivals (`specs/LookBack.antt`).
//! - Proved of `OneOf`, for any two operators: all that the trait asks. By it all operators that the
//!   engine runs are of one type, and several stand in one list. What it is of and what a store
//!   holds are those of whichever it is (`specs/Cases.antt`). `take_in` drops the closed parts at
//!   once, so that its `drop_closed` has nothing to do.
//! - Not claimed: what a draft, a piece or a store keeps, and what work costs; anything of a draft,
//!   a piece or a store of `OneOf` that is of the other kind (no call takes one).
//! - Limits: a draft keeps no block, and copies what it needs of it. More than two kinds are `OneOf`
//!   of `OneOf`.
#![tactic(auto)]

mod blocks;
mod either;
mod look_back;
mod one_of;
mod operator;
mod pieces;

pub use blocks::{Block, Earlier};
pub use look_back::drafts_look_back;
pub use one_of::OneOf;
pub use operator::Operator;
pub use pieces::{Parts, Piece, Text};
