//! Queries as texts, the way back from the trees of `saber_query`.
//! The command `check` of the top call prints them.
//!
//! - Parts: `spell` (one token more), `expression`, `predicate`, `declaration`, `select`, `query`.
//! - Call: `show` takes a `Query` and gives the bytes of its text, without an LF, or want of
//!   memory.
//! - Proved: the text is the words of the tree in order, each token spelled, with one space
//!   between: keywords in capitals, numbers without leading zeros. It has exactly these tokens
//!   again, and no two trees have the same (`words_have_one_tree` of `saber_query`).
//! - Limits: the spaces may make it longer than the text of a query may be; `parse` refuses it
//!   then.
#![tactic(auto)]

mod declaration;
mod expression;
mod predicate;
mod query;
mod select;
mod spell;

pub use query::show;
