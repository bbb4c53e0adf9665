//! Several works on one ring: a list of works of one kind is a work that one crew does.
//! Each has its own rows of a task, its own piece and its own stage, and one that stops lets the
//! others go on. `engines` of `saber_engine` runs several queries over one input by it.
//!
//! - Parts: `shareable` (`Shareable`: a work no task of which needs rows but its own, as those of
//!   queries of one stream), `work` (`Many`: the list as a work), `member` (`Member`: a stage, and
//!   whether it goes on), `labor` (`Each`: a list of those who do the works), `alone` (one task of
//!   one of them), `laws`, `free` (a law on queries).
//! - Calls: `run` of `saber_crew`, with `Each` for the labor, a stage of members and a supply of
//!   `Many`, which deals each work its rows. `do_task` does one more task of one work behind a run,
//!   on the caller's thread. `each_runs` and `free_shared_turns_are_at_rest` are laws and do
//!   nothing.
//! - Proved: `Many` is a work and `Each` does it. For any supply of it, what a run leaves is, for
//!   each of the works, what a run of that work alone leaves (`EachRuns`, `specs/Laws.antt`), over
//!   its own base data and by its own stage, whatever stopped the others. A member that stopped is
//!   passed over from then on; the list of stages stops where the last one has. Where the works
//!   are queries, each has what the theorem's first half says, whenever the turn is free
//!   (`free_shared_turns_are_at_rest`). A task of a work has the mark only where its labor says
//!   that memory lacked, or the work's flag was set (`make_one`).
//! - Not claimed: that no piece is made for a stage that stopped. A flag of each work tells workers
//!   that it has; pieces that are under way are made, and its rows are dealt until all have
//!   stopped. Where memory lacks for a list of pieces, others than the one that wanted it may have
//!   the mark.
//! - Limits: one work at least. Any number of them.
#![tactic(auto)]

mod alone;
mod free;
mod labor;
mod laws;
mod member;
mod shareable;
mod work;

pub use alone::do_task;
pub use free::free_shared_turns_are_at_rest;
pub use labor::Each;
pub use laws::each_runs;
pub use member::Member;
pub use shareable::Shareable;
pub use work::Many;
