//! The top call `top`: `saber` of `saber_cli`, and the command `many` of several queries over one
//! input. The program is `main` over it. `specs/Says.antt` holds the theorem, one field a fact, in
//! one record, so that who hands it on hands on all; docs/RULES.md ("What is promised of a call")
//! has it in words.
//!
//! - Parts, from the top: `call`, `ended` (what a call comes to), `many` (the command), `plans`
//!   (the plans of all queries, and whether they can share an input), `left` (they are run over the
//!   left file), `outs` (the files that the answers go to), `parts` (what came of each), `tells`
//!   (the status and the notes).
//! - Call: `top` takes `Means` (the runtime, memory and a gate), words, files, files that are
//!   created, a sink and a sink for notes, and gives `Top`.
//! - Proved: of other words than `many` all that `saber` says. Of `many`: why no query was run, the
//!   first of all that is at fault; or of each query all that a run of it alone says, over its own
//!   file, whatever became of the others; which files were asked for, given back and created, that
//!   each fault is real, and which status and notes come. Of `specs/` open `Commands`, `Queries`,
//!   `Alone`, `ManyLeaves` and `Made` first.
//! - Not claimed: a cause for want of memory, which one query's work may bring to another; progress
//!   of threads; what files hold that don't tell; anything of one real file under two names.
//! - Limits: eight queries, each by at most eight threads.
#![tactic(auto)]

mod call;
pub mod ended;
mod left;
mod many;
mod outs;
mod parts;
mod plans;
mod tells;

pub use call::top;
pub use ended::TopEnd;
pub use parts::{Part, PartList};
pub use saber_engine::Means;
