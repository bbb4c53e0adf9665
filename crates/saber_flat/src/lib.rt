//! Rows in flat lists: the numbers of all in one, and where each row stands in another.
//! So a row takes no memory of its own, and is lent, not copied. Operators, windows, evaluation,
//! the reader, dispatch and assembly use it.
//!
//! - Parts: `row_ref` (one row, lent), `rows` (rows that stay), `builder` (rows in the making).
//! - Calls: `Rows::row` lends the row at a place, `push` copies one behind the others;
//!   `RowBuilder::put` takes a number, `close` makes those so far a row, `finish` gives the `Rows`.
//! - Proved: `Rows` is seen as the list of the rows, a lent `RowRef` as the row, a `RowBuilder` as
//!   the rows that are closed and the numbers of the one that isn't; each call is the step on those
//!   (`specs/Places.antt`). After want of memory `Rows::push`, `put` and `close` leave what there
//!   was.
//! - Not claimed: what `Rows::extend` and `RowBuilder::push` leave after want of memory, and that
//!   `with_capacity` makes room.
//! - Limits: none but memory. Rows may have different numbers of columns, as those of two streams
//!   do.
#![tactic(auto)]

mod builder;
mod row_ref;
mod rows;

pub use builder::RowBuilder;
pub use row_ref::RowRef;
pub use rows::Rows;
