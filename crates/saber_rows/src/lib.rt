//! The rows of a file in order of time, from a source or a feed, and the merge of two files.
//! They are the same for every cutting of the reads. Dispatch uses it.
//!
//! - Parts: `buffer`, `line_feeds` (bytes that are held), `numbers`, `fields`, `judge` (one line by
//!   itself), `quick_rows` (usual rows in one pass), `waiting` (rows that wait for earlier ones),
//!   `ends`, `lines` (the reader), `fast_path` (its usual rows, in one pass), `fed_buffer`,
//!   `fed_lines` (the same over a feed), `heads`, `merges`.
//! - Calls: `Lines::next` takes a source, `next_fed` a feed, `Merge::next` two sources; each gives
//!   a row, the end, or a `RowEnd`. `take_quick` appends rows that are held whole to a
//!   `RowBuilder`.
//! - Proved: `next` gives the first row of the rest, or the rest's refusal; `next_fed` the same, or
//!   nothing as yet, exactly where what waits decides nothing; `Merge::next` the row of lesser
//!   time, the left one on a tie. An end, once given, is given for ever. A fault of reading is
//!   real, and none is passed over. A source is read only while what is held decides no answer: of
//!   what a call took, all but a last read of at most 4,096 bytes decided none. `take_quick` says of
//!   each row what `next` does. To open first: `specs/Reader.antt` (what is left to give),
//!   `specs/Calls.antt` (what a call does). Lemmas on several calls, one after another, are stated
//!   in `specs/Laws.antt`.
//! - Not claimed: how many rows `take_quick` takes. Taking none keeps its contract; tests see that
//!   it takes some. Nor that a read is offered no less than 4,096 bytes, which a case shows.
//! - Limits: 1 to 32 columns, 1 to `2^40` lines of at most 4,096 bytes, 1,048,576 rows that wait.
//!   Up to eight columns and without slack no row wants memory.
#![tactic(auto)]

mod buffer;
mod ends;
mod fast_path;
mod fed_buffer;
mod fed_lines;
mod fields;
mod heads;
mod judge;
mod line_feeds;
mod lines;
mod merges;
mod numbers;
mod quick_rows;
mod waiting;

pub use ends::{FedRow, RowEnd};
pub use lines::Lines;
pub use merges::Merge;
