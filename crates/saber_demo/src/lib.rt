//! Generated rows, the query that is run over them, and the summary of its text.
//! The command `demo` of the top call runs it; docs/RULES.md has the generator.
//!
//! - Parts: `lines` (a row's line), `source` (the rows, made as they are read), `query` (its plan),
//!   `text_sink` (keeps the text), `summaries` (four lines on a text).
//! - Calls: `Generated::new` takes a seed and a number of rows, and is a source; `demo_plan` gives
//!   the plan; `TextSink` is a sink; `summary` takes the number of rows and a text.
//! - Proved: `Generated` has the generated file left (`specs/Generator.antt`, `specs/Rows.antt`),
//!   and no read fails; the summary is exact. Lemmas: that file is read as the generated rows
//!   (`generated_is_read` of `proofs/ReadLaws.antt`); the query's text has the plan that is built,
//!   which is checked (`demo_query_has_plan`, `demo_is_checked` of `proofs/DemoQuery.antt`).
//! - Limits: seeds below `2^31`, at most `2^20` rows. The sink keeps the whole text (16 MB at
//!   most).
#![tactic(auto)]

mod lines;
mod query;
mod source;
mod summaries;
mod text_sink;

pub use query::demo_plan;
pub use source::Generated;
pub use summaries::summary;
pub use text_sink::TextSink;
