//! What a thread does at the ring: with a task, block by block, and, with the turn, with pieces.
//! All of it is generic in the work that the ring carries. The crew runs it, for the engine.
//!
//! - Parts: `labor` (the trait: how pieces are made and absorbed), `bench` (what the workers of a
//!   run share), `hand` (what a worker has from one turn of work to the next), `blocks` (a task's
//!   piece), `drive` (the stage's turn), `turns` (one turn of work), `worker` (turns until a stop),
//!   `last` (the last seat), `queries` (operators of queries as `Labor`, with the result stage),
//!   `free` (a law).
//! - Calls: `Bench::turn_of_work` takes a seat and a `Hand`, and makes one try at all that may be
//!   to do; `work` repeats it until a stop is set; `work_alone` does what is left.
//! - Proved: the seat comes back without the turn, and with the hand's job alone, from `work` and
//!   `work_alone` with none. Of what it did (`specs/Grows.antt`) each claim has its deposit, but
//!   for a job still in hand, and each take its give, but for one that stopped the stage. After
//!   `work_alone` all tasks are given, or the stage is stopped. Where a turn claimed nothing, or
//!   its job waits, the last refused step says why. `free_turns_are_at_rest` is the theorem's first
//!   half: what the sink has, what is kept, and whose rows and pieces are whole, whenever the turn
//!   is free.
//! - Not claimed: that `work` works: one that does nothing keeps its contract, and so does a task
//!   that is given up for want of memory.
//! - Limits: those of the ring. `work` may wait for a block that another seat reads.
#![tactic(auto)]

mod bench;
mod blocks;
mod drive;
mod free;
mod hand;
mod labor;
mod last;
mod queries;
mod turns;
mod worker;

pub use bench::Bench;
pub use free::free_turns_are_at_rest;
pub use hand::Hand;
pub use labor::Labor;
pub use turns::Turned;
