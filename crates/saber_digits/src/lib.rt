//! Numbers in decimal, and lines of answers put together of them.
//! Partial answers, joins, selections and the demo print with it.
//!
//! - Parts: `numbers` (a number behind a text), `lines` (a line in an array, which is written out
//!   where it is nearly full, so that the list grows once in some lines).
//! - Calls: `write_line` appends an answer of a window to a list of bytes, as a line;
//!   `write_number`, `write_count` (of a number without sign) and `write_cell` (with a comma before
//!   it) append one number. `start_line`, `put_number`, `put_cell`, `end_line` and `flush` take an
//!   array and the place where the line so far ends in it; all but the last tell where it ends
//!   then.
//! - Proved: exactly the digits come, and for `write_line` the `line` of the definition
//!   (`saber_plan/specs/Answers.antt`). The list, and behind it what stands before the place in the
//!   array (`drafted_text`, `specs/Cells.antt`), grows by the comma and number, by the line's
//!   start, or by the LF. After want of memory the list still begins with what it had.
//! - Not claimed: how often the list grows, and what stands in the array behind the place.
//! - Limits: an array of 128 bytes, in which a line begins with at most 24; 128 bits a number.
#![tactic(auto)]

mod lines;
mod numbers;

pub use lines::{end_line, flush, put_cell, put_number, start_line, write_line};
pub use numbers::{write_cell, write_count, write_number};
