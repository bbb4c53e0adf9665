//! Laws over the definitions of `saber_plan`: lemmas that proofs above import, and no code calls.
//! Most crates use it.
//!
//! - Parts: each file of `specs/` states the laws of one topic, and a lemma of the law's name in
//!   `proofs/` proves it (`shares_rise : SharesRise`, in `SharesLaws`). `Plans` (what a plan has),
//!   `Inputs`, `Fronts` (rows of files, their merge, what was read so far), `Parts`, `Pairs` (parts
//!   and their merge), `Shares`, `Pieces` (what tasks give, and the text of that), `Needs` (how far
//!   tasks look back), `Ends` (the input's end), `Lists` (substreams of key lists), `Words` (answers
//!   of which a stream word prints what changes). Other lemmas say theirs in their own type, such
//!   as those of counts of windows in `WindowLaws`. Every module of `proofs/` is `pub mod`.
//! - Calls: the laws that the rules promise are also contracts of public calls, which take and give
//!   nothing and which nobody calls: the laws of the merge of parts and of their lines (`parts`),
//!   the rows of a file and the merge of two (`inputs`), what a row and what the input's end close
//!   (`lists`, `ends`), the rows that a task needs (`needs`), and the text that the pieces of tasks
//!   make (`pieces`).
//! - Proved: parts merge in any grouping, with a unit; the lines of a window's whole part are its
//!   answer, which stays; the rows of a file are its accepted ones in order of time, and merged rows
//!   are in order of time and each side's first ones; a row closes one window by rows at most, and
//!   the end all that are begun; the rows that a task needs are enough for its piece; the pieces
//!   make the text for every task size, however a query answers, by what each adds to the text, and
//!   by their parts where windows print their answers as they are, or rows theirs; and all that
//!   lemmas say beside.
//! - There is no wrong body to refuse: a law that is false has no proof.
#![tactic(auto)]

mod ends;
mod inputs;
mod lists;
mod needs;
mod parts;
mod pieces;

pub use ends::ends_close_all;
pub use inputs::{file_rows_fit, files_are_sorted, merges_are_ordered, merges_begin, merges_end};
pub use lists::rows_close_one;
pub use needs::needs_make_pieces;
pub use parts::{
    closed_lines_stay, merge_has_unit, merge_is_associative, part_has_lines, parts_join,
};
pub use pieces::{pieces_make_text, tasks_make_text};
