//! The slot core: a machine of tasks and a turn, with no thread and no atomic.
//! Tasks are filled, claimed by seats and handed in by them; whoever holds the turn takes what was
//! handed in, in the order of tasks, and gives each task's slot back. The ring shows this machine;
//! assembly, ring, workers and crew use its trait `Work`, and the law of order its events.
//!
//! - Parts: `events` (`Event`, and `TaskPhase` from fill to take), `machine` (`Core`), `runs`
//!   (whole lists of events), `work` (`Work`: what rows, pieces and stages are to their owner).
//! - Calls: `Core::new` takes the numbers of slots and seats, `Core::step` an event; one that
//!   doesn't apply changes nothing. docs/RING.md has the table of events. Only tests make a `Core`.
//! - Proved: `step` is `next` of `specs/Machine.antt`, and its invariant (`specs/Sound.antt`) holds
//!   at every state that events lead to. For all lists of events (`laws_of_runs`) each task is
//!   claimed, handed in and taken at most once, those given are 0, 1, 2, .. in this order, and a
//!   turn that is released with a task taken and not given leaves the stage stopped for good.
//! - Not claimed: that an event ever comes.
//! - Limits: 1 to 1,024 slots, `2^42` tasks.
#![tactic(auto)]

mod events;
mod machine;
mod runs;
mod work;

pub use events::{Event, TaskPhase};
pub use machine::Core;
pub use runs::{laws_of_runs, run};
pub use work::Work;
