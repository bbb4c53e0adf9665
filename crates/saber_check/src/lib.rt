//! The checks of a query that a text means, and its plan.
//! A query is refused by the first thing that is wrong with it, at the byte where that stands; the
//! plan of one that passes is sound. The demo and the top call use it.
//!
//! - Parts: `names`, `shape` and `bounds` (tests), `fault` and `walk` (the first fault so far),
//!   `conditions`, `clauses` and `whole` (a walk over all words), `expressions`, `predicates`,
//!   `outputs` (what groups gather, and what is printed) and `plans` (the plan of a faultless
//!   query), `query` and `text` (the calls), `laws`.
//! - Calls: `check` takes a parsed `Query`, `plan_of` a text; both give a `Plan`, or the first
//!   fault.
//! - Proved: they give the query's own plan (`specs/Plans.antt`) exactly where it has no fault,
//!   else the fault that stands first, of those at one word the first of `Cause`
//!   (`specs/Faults.antt` lists all), or want of memory. The plan is checked (`IsChecked` of
//!   `saber_plan`), which is what crates above rest on. Laws: a text has one plan or one first
//!   fault, and not both. Lemmas of `proofs/FrontLaws.antt`: the plan of a text is checked, and its
//!   first 65,537 bytes tell which it has.
//! - Limits: docs/LANGUAGE.md has those of queries.
#![tactic(auto)]

mod bounds;
mod clauses;
mod conditions;
mod expressions;
mod fault;
mod laws;
mod names;
mod outputs;
mod plans;
mod predicates;
mod query;
mod shape;
mod text;
mod walk;
mod whole;

pub use fault::Fault;
pub use laws::{
    a_fault_excludes_a_plan, a_text_has_a_plan_or_a_fault, a_text_has_one_fault,
    a_text_has_one_plan,
};
pub use query::check;
pub use text::plan_of;
