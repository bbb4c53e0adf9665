//! The result stage (SABER 2016): takes pieces in, in the order of tasks, and writes the text.
//! What is open is kept in the operator's store. It also says, by the input filled so far, what
//! blocks, pieces and stages are (`SaberWork`). Dispatch, workers and engine use it.
//!
//! - Parts: `stage` (`Stage`: the sink, the store, how many tasks are behind it), `work` (the work
//!   that threads do for a query, as the trait of `saber_core` wants it), `gives` (a law, which no
//!   crate calls).
//! - Calls: `Stage::new` takes an operator and a sink; `absorb` takes the next task's piece, or the
//!   mark of want of memory; `pour` has the sink let go of what it holds back; `into_sink` gives it
//!   back.
//! - Proved: a stage after k tasks (`After` of `saber_plan`) that absorbs the piece of task k is
//!   one after k + 1, or is stopped at k with its cause. While it runs, the text of the first k
//!   tasks' rows is written and what they leave open is kept; where a write failed, a front of the
//!   next task's text is out too; where memory lacked, or the mark came, no more is. What it
//!   keeps is one record (`Keeps`), which `specs/Works.antt` makes a part of the ring's rule;
//!   docs/RUN.md ties it to the headline.
//! - Proved of the sink: a task's text goes out in one write, and a task without text makes none. So
//!   behind k tasks its count of writes rose by one for each of them that has text, and once more
//!   where a write failed. Behind `pour` it holds nothing back, or its other end had no room.
//! - The law (`gives_make_text`, `specs/Gives.antt`) ties the core, which knows no windows, to the
//!   definitions: for any number of slots and seats and every list of events, the pieces of the
//!   tasks given, taken in in the order of the gives, make the text of those tasks' rows, and leave
//!   what is to be kept behind them. Of every plan it says so by what each task's arrivals add to
//!   the text, as `absorb` does; of plans whose windows print their answers as they are, or rows
//!   theirs, also by the parts in the pieces.
//! - Not claimed: that a stage goes on: want of memory may stop it at any task.
//! - Limits: fewer than `2^62` tasks.
#![tactic(auto)]

mod gives;
mod stage;
mod work;

pub use gives::gives_make_text;
pub use stage::{Absorbed, Stage};
pub use work::{RunData, SaberWork};
