//! Partial answers of groups: from key lists to counts, sums, least, greatest and first values.
//! The groups of a part are one list of numbers, by key. Panes, the two-stacks queue, and the
//! operators of groups, with PARTITION BY and without, use it.
//!
//! - Parts, from below: `layout`, `sources`, `aggregates` (what a plan asks of each row), `folds`,
//!   `joined_values`, `first_row`, `later_row` and `tally` (numbers of one group), `table`,
//!   `places` and `merges` (groups in one list), `groups` and `rows` (`Partial`), `row_parts`
//!   (`RowParts`: parts of one row each, in one list), `row_merges` (one of them taken in),
//!   `row_lines` (its line and its answers), `ones` and `one_gathering` (parts of one group each,
//!   without a key, in one list), `young`, `piles` and `gathering` (rows gathered, few groups at a
//!   time), `headings`, `printed`, `lines` and `joined_lines` (the text), `answers` and
//!   `joined_answers` (the same as values), `steps` (merges and added rows, counted). Lemmas by
//!   which callers meet what is required stand in `proofs/Counted.antt` and `proofs/OneParts.antt`.
//! - Calls: `Partial::add_row` takes a row, `merge` and `merge_from` the part of later rows, given
//!   or lent, `lines` prints a window's part, `answers` gives a part's answers as values;
//!   `RowParts::push` appends a row's part, `part` lends it, and `Partial::merge_row`,
//!   `Partial::of_row_in` and `Pile::take_row` take it, the first and the last without memory where
//!   its key is there; `Gathering::add_row` and `take_part`; `Pile::take_from`, `lines` and
//!   `answers`, and `lines_behind` and `answers_behind` of a part before them; `Ones::push`, `join`
//!   and `join_next`, `RowPart::lines` and `answers`, alone and `with` a later one, and
//!   `OneGathering::add_row` and `end`.
//! - Proved: each is the step of the definitions (`saber_plan/specs/Parts.antt`). A `Gathering` is
//!   seen as the part of its rows; a `Pile` as the part of all that it took in, and in how many
//!   pieces that lies: steps and pieces together grow by one a part. Each of `add_row`, `merge`,
//!   `merge_from` and `merge_row` is one step of the `Steps` given, and no other call adds to a
//!   `Partial` that is there; each of `Ones::join` and `join_next` is one. After want of memory
//!   `lines` and `Partial::add_row` leave all as it was; merges and gatherings are only safe to let
//!   go.
//! - Not claimed: how many steps a `Gathering` takes, which groups a row is compared with, how often
//!   a group is moved, and what takes memory: that a pile's memory, and a part's that went, are used
//!   again.
//! - Limits: a group has at most `2^40` rows, each of which adds at most `2^86` to a sum.
#![tactic(auto)]

mod aggregates;
mod answers;
mod first_row;
mod folds;
mod gathering;
mod groups;
mod headings;
mod joined_answers;
mod joined_lines;
mod joined_values;
mod later_row;
mod layout;
mod lines;
mod merges;
mod one_gathering;
mod ones;
mod piles;
mod places;
mod printed;
mod row_lines;
mod row_merges;
mod row_parts;
mod rows;
mod sources;
mod steps;
mod table;
mod tally;
mod young;

pub use aggregates::Aggregates;
pub use gathering::Gathering;
pub use groups::Partial;
pub use one_gathering::OneGathering;
pub use ones::Ones;
pub use piles::Pile;
pub use row_parts::{RowPart, RowParts};
pub use steps::Steps;
