// The notes of `many`: lines of several queries, that go out in one write.
ghost use Rattle.saber_notes.specs.ManyNotes.{early_note, early_status};
ghost use Rattle.saber_notes.specs.Told.{TellsNotes};

use crate::early::Early;
use crate::note::{Noted, put_note, tail_line};
use crate::outcome::{InputFile, Outcome};
use arrayvec::ArrayString;
use itoa::Buffer;
use saber_io::Sink;
use saber_query::Cause;

/// Lines of notes, of up to eight queries, that go out in one write. Its bytes lie in the value, so
/// it takes no memory.
#[derive(Drop)]
pub struct Report {
    text: ArrayString<1088>,
}

impl Report {
    ghost use Rattle.std.specs.Prelude.{◌≡◌, ◌≤◌, ◌+◌, ◌++◌, ℕ, [], codes, decimal, length};
    ghost use Rattle.saber_notes.specs.ManyNotes.{query_line, line_on, early_note};
    ghost use Rattle.saber_notes.specs.Notes.{note_of};
    ghost use Rattle.saber_notes.specs.Reports.{notes_in};
    ghost use Rattle.saber_notes.specs.Told.{HasNotes, TellsNotes};

    /// No line yet.
    pub fn new() -> Report
        ensures { notes_in result ≡ [] }
    {
        Report {
            text: ArrayString::new(),
        }
    }

    // What a line on a query begins with.
    fn begin(&mut self, query: u64)
        requires { length (notes_in self.old) ≤ 1048 }
        ensures bytes { notes_in self.new ≡ notes_in self.old ++ (codes "saber: " ++ codes "query " ++ decimal query ++ codes ": ") }
        ensures short { length (notes_in self.new) ≤ length (notes_in self.old) + 35 }
    {
        let mut digits = Buffer::new();
        self.text.push_str("saber: ");
        self.text.push_str("query ");
        self.text.push_str(digits.format(query));
        self.text.push_str(": ");
    }

    // What a line tells, and its end.
    fn tell(&mut self, told: &str)
        requires room { length (notes_in self.old) ≤ 987 }
        requires short { length told.now ≤ 100 }
        ensures bytes { notes_in self.new ≡ notes_in self.old ++ (told.now ++ codes "\n") }
        ensures len { length (notes_in self.new) ≡ length (notes_in self.old) + length told.now + 1 }
    {
        self.text.push_str(told);
        self.text.push_str("\n");
    }

    /// The line of the query of this number, whose run ended so, behind what is there. A query that
    /// is done has none.
    pub fn add(&mut self, query: u64, outcome: Outcome)
        requires { length (notes_in self.old) ≤ 952 }
        ensures line { notes_in self.new ≡ notes_in self.old ++ query_line query outcome }
        ensures short { length (notes_in self.new) ≤ length (notes_in self.old) + 136 }
    {
        if outcome == Outcome::Done {
            return;
        }
        let tail = tail_line(outcome);
        self.begin(query);
        self.tell(tail.as_str());
    }

    // A note of one line, of no query.
    fn add_note(&mut self, outcome: Outcome)
        requires { length (notes_in self.old) ≤ 952 }
        ensures { notes_in self.new ≡ notes_in self.old ++ note_of outcome }
    {
        let tail = tail_line(outcome);
        self.text.push_str("saber: ");
        self.tell(tail.as_str());
    }

    // The line of a query whose file can't be created.
    fn add_create_fault(&mut self, query: u64)
        requires { length (notes_in self.old) ≤ 952 }
        ensures { notes_in self.new ≡ notes_in self.old ++ line_on query (codes "create fault") }
    {
        self.begin(query);
        self.tell("create fault");
    }

    // The note of an end before any query is run.
    fn add_early(&mut self, early: Early)
        requires { length (notes_in self.old) ≤ 952 }
        ensures { notes_in self.new ≡ notes_in self.old ++ early_note early }
    {
        match early {
            Early::Usage => self.add_note(Outcome::Usage),
            Early::QueryUnopened { query } => {
                self.add(query, Outcome::OpenFault(InputFile::Query));
            }
            Early::QueryUnread { query } => {
                self.add(query, Outcome::ReadFault(InputFile::Query));
            }
            Early::QueryFault { query, byte, cause } => {
                self.add(query, Outcome::QueryFault { byte, cause });
            }
            Early::Unshareable { query } => self.add(
                query,
                Outcome::QueryFault {
                    byte: 0,
                    cause: Cause::Shape,
                },
            ),
            Early::LeftUnopened => self.add_note(Outcome::OpenFault(InputFile::Left)),
            Early::CreateFault { query } => self.add_create_fault(query),
            Early::NoMemory => self.add_note(Outcome::NoMemory),
        }
    }

    /// Writes the lines, in one write. Where there are none, nothing is written.
    pub fn write<N: Sink>(&self, notes: &mut N) -> Noted
        ensures { (status : ℕ) → HasNotes status (notes_in self.now)
            → TellsNotes N.written N.faults N.writes notes.old notes.new status result (notes_in self.now) }
    {
        if self.text.is_empty() {
            return Noted::Nothing;
        }
        put_note(notes, self.text.as_str().as_bytes())
    }
}

/// Writes the note of a call with several queries that ends before any is run, in one write, from a
/// buffer of a fixed size.
pub fn write_early<N: Sink>(notes: &mut N, early: Early) -> Noted
    ensures { TellsNotes N.written N.faults N.writes notes.old notes.new (early_status early) result (early_note early) }
{
    let mut report = Report::new();
    report.add_early(early);
    report.write(notes)
}
