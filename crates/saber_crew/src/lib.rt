//! Threads round a ring: the first seat fills it with the tasks of a supply, the others work.
//! The stage that comes out has their pieces, in the order of tasks, for every number of threads.
//! The engine runs it.
//!
//! - Parts: `supply` (the trait: where tasks come from), `leader` (the first seat, and what it has
//!   in hand), `dispatch` (how it fills the ring), `spare` (the seat of another thread), `crew`
//!   (threads, and their seats taken in again), `runs` (a whole run).
//! - Call: `run` takes what a run has from outside (`means`), a `Labor`, a supply, a stage and
//!   sizes, and gives the stage back, with how many tasks were filled, why no more, and how many
//!   threads were asked for.
//! - Proved, for any work and any supply (`RunsTo`, `specs/Runs.antt`): the stage has the first of
//!   the tasks given behind it, all of them where it runs and the supply was over. `Ring::finish`
//!   wants every seat back, so all threads have ended then. As many threads are asked for as
//!   `sizes` has. Where memory lacks for the ring, all is as it was.
//! - Not claimed: that threads are made, or help. Where one can't be, the caller does its share. A
//!   full ring is back-pressure: the first seat works meanwhile, and so it does where the supply is
//!   dry.
//! - Limits: rings of 1 to 1,024 cells, `2^42` tasks. It waits for its threads and its supply.
#![tactic(auto)]

mod crew;
mod dispatch;
mod leader;
mod means;
mod runs;
mod spare;
mod supply;

pub use dispatch::{Dispatched, Over};
pub use means::Means;
pub use runs::run;
pub use supply::{Supplied, Supply};
