//! The query language: texts as trees, exactly, and the first fault of a text that is no query.
//! The check, the way back to a text, the demo, the notes and the top call use its trees and
//! causes.
//!
//! - Parts: `token` and `lexer` (the tokens of a text), `tree`, `stop` and `cursor` (tokens that
//!   are left), `expression`, `predicate`, `declaration`, `clauses` and `select` (trees from
//!   tokens), `query` (a tree with the bytes of its words), `text` (the call, and the grammar),
//!   `fault` (all causes, those of the checks too, in their order), `letting` (trees are let go by
//!   calls), `laws`.
//! - Call: `parse` takes a text and gives a `Query`, or a `QueryFault`: a cause and its byte, or
//!   want of memory.
//! - Proved: it gives the tree that the text means (`specs/Means.antt`), else the text's first
//!   fault at its byte: a length above the limit, else the first bad token, else the first token
//!   that no query can have there. Laws: tokens are those of longest match; words are read back,
//!   and have one tree; each text means a query or has a fault.
//! - Limits: 65,536 bytes, numbers of at most `2^63`, 64 NOT or `(` open at once. docs/LANGUAGE.md
//!   shows the language by examples.
#![tactic(auto)]

mod clauses;
mod cursor;
mod declaration;
mod expression;
mod fault;
mod laws;
mod letting;
mod lexer;
mod predicate;
mod query;
mod select;
mod stop;
mod text;
mod token;
mod tree;

pub use fault::{Cause, QueryFault};
pub use laws::{
    a_text_means_a_query_or_has_a_fault, spelled_tokens_are_read_back, tokens_are_of_longest_match,
    tokens_are_real, words_have_one_tree,
};
pub use query::Query;
pub use text::parse;
pub use token::{Keyword, Name, Placed, Sign, Token};
pub use tree::{
    Adding, Cmp, Column, Columns, Conj, Decl, Decls, Expr, Factor, Factors, Item, Items, Keys,
    Measure, Names, Pred, Prod, Select, Source, StreamWord, Term, Terms, Unit, Window,
};
