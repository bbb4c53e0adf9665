//! How a call of the program can end, the status of each end, and the lines that tell it.
//! The top calls end by it.
//!
//! - Parts: `outcome` (all ends, and their status), `line` (a text in an array), `note` (the line
//!   of each end), `early` (the ends of `many` before any of its queries is run), `report` (the
//!   lines of several queries).
//! - Calls: `Outcome::status` gives the status; `write_note` takes the sink of notes and an
//!   outcome, writes its line in one write, and tells what became of it (`Noted`). Of `many`
//!   `Early::status` and `write_early` do the same; `Report::add` takes the line of a query, and
//!   `Report::write` writes the lines of all in one write.
//! - Proved: status and line are exactly those of `specs/Notes.antt`, of `many` those of
//!   `specs/ManyNotes.antt`. The text goes out whole, or a front of it where the sink failed, whose
//!   count of faults then rose, or nothing where it lacked memory; a call that is done has no line.
//!   docs/RULES.md has the table.
//! - Limits: a line has at most 128 bytes, those of a report 136 each and 1,088 together; neither
//!   takes memory.
#![tactic(auto)]

mod early;
mod line;
mod note;
mod outcome;
mod report;

pub use early::Early;
pub use note::{Noted, write_note};
pub use outcome::{InputFile, Outcome};
pub use report::{Report, write_early};
