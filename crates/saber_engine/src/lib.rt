//! A run of a plan over its inputs: cuts rows into tasks, has pieces made, assembles them in order.
//! The chain and the top call run queries by it.
//!
//! - Parts: `ends` (how a run ends), `ring_size`, `spare` (memory stays with the process), `ways`
//!   (how a plan answers), `kinds` (the operator of a plan, of one type for all), `blocks`, `plans`
//!   and `run_engine` (a plan over sources), `fed_blocks`, `fed_plans` and `fed_engine` (the same
//!   over a feed); `jobs`, `dealt`, `last_task`, `shared_run` and `run_engines` (several plans over
//!   one input).
//! - Calls: `engine` takes a checked plan, sources, a sink, sizes and a gate, and gives the sink
//!   back with how the run ended and how many tasks are assembled; `engine_pouring` takes a sink
//!   that may hold bytes back, `engine_fed` a feed in place of sources; `engines` takes several
//!   plans of one stream, each with its sink, and reads their one input once.
//! - Proved (`specs/Runs.antt` has each fact, `specs/Gives.antt` what they say): over files that
//!   tell their bytes the sink holds the text of the first tasks' rows: of all where all was read or
//!   a line refused, of those before the first task that is too wide; after a failed read at least
//!   of every whole task; after a failed write a front of the next task's text too. There was one
//!   write for each of these tasks that has text, and one more where it failed. Every fault is real,
//!   and none is passed over. Over a feed the same holds for every file that goes on from what was
//!   taken (`specs/FedRuns.antt`). Of several plans each has all that a run of it alone has.
//! - Not claimed: time, progress of threads, or a cause for want of memory. Over one stream the
//!   ring may have fewer cells than `--ring` says (`ring_size.rt`); no public contract speaks of
//!   it.
//! - Limits: those of `Sizes`. A run waits for its threads.
#![tactic(auto)]

mod blocks;
mod dealt;
mod ends;
mod fed_blocks;
mod fed_engine;
mod fed_plans;
mod jobs;
mod kinds;
mod last_task;
mod plans;
mod ring_size;
mod run_engine;
mod run_engines;
mod shared_run;
mod spare;
mod ways;

pub use ends::{Ran, Stopped};
pub use fed_engine::engine_fed;
pub use jobs::Job;
pub use run_engine::{engine, engine_pouring};
pub use run_engines::engines;
pub use saber_crew::Means;
pub use saber_dispatch::Inputs;
pub use saber_plan::RunEnd;
