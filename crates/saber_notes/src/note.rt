// Notes: one line for each end but the good one.
ghost use Rattle.std.specs.Prelude.{◌≡◌, ◌≢◌, ◌≤◌, ◌+◌, ◌++◌, length, decimal, Err};
ghost use Rattle.saber_notes.specs.Notes.{query_text, line_text, side_text, file_text, note_text, note_of, status_of};
ghost use Rattle.saber_notes.specs.Lines.{bytes_of};
ghost use Rattle.saber_notes.specs.Told.{TellsNotes};
ghost use Rattle.saber_notes.specs.declared.note.Noted.{Noted};
ghost use Rattle.saber_plan.specs.Outputs.{Rose, appended_text, raised_count, AppendsPrefix};

use crate::line::Line;
use crate::outcome::{InputFile, Outcome};
use saber_io::{Sink, WriteFault};
use saber_plan::{RowCause, Side};
use saber_query::Cause;

/// What became of the note line.
#[derive(Clone, Copy, Debug, PartialEq, Eq)]
pub enum Noted {
    /// There was nothing to tell.
    Nothing,
    /// It went out whole.
    Whole,
    /// The sink of notes failed, and some prefix of it went out.
    Failed,
    /// The sink of notes lacked memory, and nothing went out.
    NoMemory,
}

fn query_text(cause: Cause) -> &'static str
    ensures text { result.now ≡ query_text cause }
    ensures short { length result.now ≤ 19 }
{
    match cause {
        Cause::TooLong => "too long",
        Cause::BadByte => "bad byte",
        Cause::NumberRange => "number range",
        Cause::Syntax => "syntax",
        Cause::Depth => "depth",
        Cause::DuplicateName => "duplicate name",
        Cause::UnknownStream => "unknown stream",
        Cause::UnknownColumn => "unknown column",
        Cause::Ambiguous => "ambiguous",
        Cause::TooMany => "too many",
        Cause::WindowRange => "window range",
        Cause::Overlap => "overlap",
        Cause::Shape => "shape",
        Cause::NotGrouped => "not grouped",
        Cause::ExprTooWide => "expression too wide",
        Cause::SumTooWide => "sum too wide",
    }
}

fn side_text(side: Side) -> &'static str
    ensures text { result.now ≡ side_text side }
    ensures short { length result.now ≤ 5 }
{
    match side {
        Side::Left => "left",
        Side::Right => "right",
    }
}

fn file_text(file: InputFile) -> &'static str
    ensures text { result.now ≡ file_text file }
    ensures short { length result.now ≤ 12 }
{
    match file {
        InputFile::Query => "query",
        InputFile::Left => "left",
        InputFile::Right => "right",
        InputFile::SecondQuery => "second query",
    }
}

fn add_line_text(line: &mut Line, cause: RowCause)
    requires { length (bytes_of line.old) ≤ 64 }
    ensures bytes { bytes_of line.new ≡ bytes_of line.old ++ line_text cause }
    ensures short { length (bytes_of line.new) ≤ length (bytes_of line.old) + 40 }
{
    match cause {
        RowCause::TooManyLines => line.add("too many lines"),
        RowCause::TooLong => line.add("too long"),
        RowCause::FieldCount => line.add("field count"),
        RowCause::BadNumber { field } => {
            line.add("bad number in field ");
            line.add_number(u64::from(field));
        }
        RowCause::Range { field } => {
            line.add("range in field ");
            line.add_number(u64::from(field));
        }
        RowCause::TimeOrder => line.add("time order"),
        RowCause::TooManyHeld => line.add("too many held"),
    }
}

fn add_file_fault(line: &mut Line, file: InputFile, fault: &str)
    requires room { length (bytes_of line.old) ≤ 64 }
    requires fault { length fault.now ≤ 16 }
    ensures bytes { bytes_of line.new ≡ bytes_of line.old ++ (file_text file ++ fault.now) }
    ensures short { length (bytes_of line.new) ≤ length (bytes_of line.old) + 28 }
{
    line.add(file_text(file));
    line.add(fault);
}

fn add_file_count(line: &mut Line, streams: u64, files: u64)
    requires { length (bytes_of line.old) ≤ 8 }
    ensures bytes { bytes_of line.new ≡ bytes_of line.old ++ note_text (Outcome.FileCount streams files) }
    ensures short { length (bytes_of line.new) ≤ 100 }
{
    line.add("streams ");
    line.add_number(streams);
    line.add(", files ");
    line.add_number(files);
}

fn add_query_fault(line: &mut Line, byte: u64, cause: Cause)
    requires { length (bytes_of line.old) ≤ 8 }
    ensures bytes { bytes_of line.new ≡ bytes_of line.old ++ note_text (Outcome.QueryFault byte cause) }
    ensures short { length (bytes_of line.new) ≤ 100 }
{
    line.add("query byte ");
    line.add_number(byte);
    line.add(": ");
    line.add(query_text(cause));
}

fn add_second_fault(line: &mut Line, byte: u64, cause: Cause)
    requires { length (bytes_of line.old) ≤ 8 }
    ensures bytes { bytes_of line.new ≡ bytes_of line.old ++ note_text (Outcome.SecondQueryFault byte cause) }
    ensures short { length (bytes_of line.new) ≤ 100 }
{
    line.add("second query byte ");
    line.add_number(byte);
    line.add(": ");
    line.add(query_text(cause));
}

fn add_chain_refused(line: &mut Line, number: u64, cause: RowCause)
    requires { length (bytes_of line.old) ≤ 8 }
    ensures bytes { bytes_of line.new ≡ bytes_of line.old ++ note_text (Outcome.ChainLineRefused number cause) }
    ensures short { length (bytes_of line.new) ≤ 100 }
{
    line.add("chain line ");
    line.add_number(number);
    line.add(": ");
    add_line_text(line, cause);
}

fn add_line_refused(line: &mut Line, side: Side, number: u64, cause: RowCause)
    requires { length (bytes_of line.old) ≤ 8 }
    ensures bytes { bytes_of line.new ≡ bytes_of line.old ++ note_text (Outcome.LineRefused side number cause) }
    ensures short { length (bytes_of line.new) ≤ 100 }
{
    line.add(side_text(side));
    line.add(" line ");
    line.add_number(number);
    line.add(": ");
    add_line_text(line, cause);
}

// A number behind a text.
fn add_count(line: &mut Line, text: &str, number: u64)
    requires room { length (bytes_of line.old) ≤ 80 }
    requires text { length text.now ≤ 18 }
    ensures bytes { bytes_of line.new ≡ bytes_of line.old ++ (text.now ++ decimal number) }
    ensures short { length (bytes_of line.new) ≤ length (bytes_of line.old) + length text.now + 20 }
{
    line.add(text);
    line.add_number(number);
}

fn add_too_wide(line: &mut Line, task: u64, need: u64, ring: u64)
    requires { length (bytes_of line.old) ≤ 8 }
    ensures bytes { bytes_of line.new ≡ bytes_of line.old ++ note_text (Outcome.TooWide task need ring) }
    ensures short { length (bytes_of line.new) ≤ 100 }
{
    add_count(line, "task ", task);
    add_count(line, " needs ", need);
    add_count(line, " blocks, ring has ", ring);
}

fn add_outcome(line: &mut Line, outcome: Outcome)
    requires { length (bytes_of line.old) ≤ 8 }
    ensures bytes { bytes_of line.new ≡ bytes_of line.old ++ note_text outcome }
    ensures short { length (bytes_of line.new) ≤ 100 }
{
    match outcome {
        Outcome::Done => {}
        Outcome::Usage => {
            line.add("usage: saber run QUERY LEFT [RIGHT] | check QUERY | demo SEED ROWS")
        }
        Outcome::FileCount { streams, files } => add_file_count(line, streams, files),
        Outcome::QueryFault { byte, cause } => add_query_fault(line, byte, cause),
        Outcome::SecondQueryFault { byte, cause } => add_second_fault(line, byte, cause),
        Outcome::Unchainable(file) => add_file_fault(line, file, " byte 0: shape"),
        Outcome::LineRefused {
            side,
            line: number,
            cause,
        } => add_line_refused(line, side, number, cause),
        Outcome::ChainLineRefused {
            line: number,
            cause,
        } => add_chain_refused(line, number, cause),
        Outcome::OpenFault(file) => add_file_fault(line, file, ": open fault"),
        Outcome::ReadFault(file) => add_file_fault(line, file, ": read fault"),
        Outcome::WriteFault => line.add("write fault"),
        Outcome::TooWide { task, need, ring } => add_too_wide(line, task, need, ring),
        Outcome::NoMemory => line.add("out of memory"),
    }
}

/// What a note says of an end, in a line of its own that begins with it.
pub(crate) fn tail_line(outcome: Outcome) -> Line
    ensures text { bytes_of result ≡ note_text outcome }
    ensures short { length (bytes_of result) ≤ 100 }
{
    let mut line = Line::new();
    add_outcome(&mut line, outcome);
    line
}

/// Writes a note in one write.
pub(crate) fn put_note<N: Sink>(notes: &mut N, text: &[u8]) -> Noted
    ensures something { result ≢ Noted.Nothing }
    ensures whole { result ≡ Noted.Whole → N.written notes.new ≡ appended_text (N.written notes.old) text.now }
    ensures failed { result ≡ Noted.Failed → AppendsPrefix (N.written notes.old) (N.written notes.new) text.now }
    ensures memory { result ≡ Noted.NoMemory → N.written notes.new ≡ N.written notes.old }
    ensures cause { result ≡ Noted.Failed → Rose (N.faults notes.old) (N.faults notes.new) }
    ensures good { result ≢ Noted.Failed → N.faults notes.new ≡ N.faults notes.old }
    ensures one { result ≢ Noted.NoMemory → N.writes notes.new ≡ raised_count (N.writes notes.old) }
    ensures none { result ≡ Noted.NoMemory → N.writes notes.new ≡ N.writes notes.old }
{
    match notes.write_all(text) {
        Ok(()) => Noted::Whole,
        Err(WriteFault::Failed) => Noted::Failed,
        Err(WriteFault::NoMemory) => Noted::NoMemory,
    }
}

fn note_line(outcome: Outcome) -> Line
    ensures { bytes_of result ≡ note_of outcome }
{
    let mut line = Line::new();
    line.add("saber: ");
    add_outcome(&mut line, outcome);
    line.add("\n");
    line
}

/// Writes the note of an end in one write, from a buffer of a fixed size. A call that is done has
/// none.
pub fn write_note<N: Sink>(notes: &mut N, outcome: Outcome) -> Noted
    ensures { TellsNotes N.written N.faults N.writes notes.old notes.new (status_of outcome) result (note_of outcome) }
{
    if outcome == Outcome::Done {
        return Noted::Nothing;
    }
    let line = note_line(outcome);
    put_note(notes, line.as_bytes())
}
