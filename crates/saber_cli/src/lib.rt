//! The call `saber`, from words and files to bytes, a status and a note. The program is over it by
//! way of `top` of `saber_top`, which has one command more. `specs/Says.antt` holds the theorem, one
//! field a fact; docs/RULES.md ("What is promised of a call") has it in words, docs/RUN.md what it
//! rests on.
//!
//! - Parts, from the top: `top`, `words` (words to command), `commands` (a run, a check), `queries`
//!   and `texts` (the query file), `shows` (the text of a checked query), `plans`, `runs`
//!   (a run over the row files), `chains`, `query_plans` (the plans of a chain, and whether they
//!   chain), `chain_answer` (the chain over sources), `demo`, `puts` (a text goes out), `row_files`
//!   (they are opened and given back), `answer` (the engine over them).
//! - Calls: `saber` takes words, files, a sink and a sink for notes, and gives `Ended`;
//!   `refuse_words` ends a call whose words the system can't hand over. Parts of it that a call
//!   with several queries has too: `query_plan`, `open_row`, `close_rows`, `outcome_of`, and the
//!   lemma `runs_tell` (`proofs/AloneLemmas.antt`): what its run of one query gives is what the
//!   command `run` gives.
//! - Proved: what goes out, and by how many writes, which files are asked for and given back, which
//!   status and note comes, and that each has its cause. Of `specs/` open `Says` first, then
//!   `Outcomes`, `Due`, `Answered`, `Chained`, `Leaves`, `Leaving` and `Writes`.
//! - Not claimed: a cause for want of memory, progress of threads, and what files and sinks hold
//!   that don't tell. What contracts leave open is tested by cases (docs/CASES.md).
//! - Limits: a query file is read up to 65,537 bytes; options have the ranges of `saber_words`.
#![tactic(auto)]

mod answer;
mod chain_answer;
mod chains;
mod commands;
mod demo;
mod plans;
mod puts;
mod queries;
mod query_plans;
mod row_files;
mod runs;
mod shows;
mod texts;
mod top;
mod words;

pub use answer::outcome_of;
pub use query_plans::query_plan;
pub use row_files::{close_rows, open_row};
pub use saber_notes::{InputFile, Noted, Outcome};
pub use saber_words::WordsFault;
pub use top::{Ended, Refused, refuse_words, saber};
