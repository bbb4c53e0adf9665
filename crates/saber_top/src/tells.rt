// The status and the notes of several queries.
ghost use Rattle.std.specs.Prelude.{◌≡◌, ◌≤◌, ◌<◌, ◌+◌, ◌*◌, ◌^◌, ◌++◌, length};
ghost use Rattle.saber_notes.specs.ManyNotes.{lines_from};
ghost use Rattle.saber_notes.specs.Reports.{notes_in};
ghost use Rattle.saber_top.specs.Shared.{outcomes_of, parts_in};
ghost use Rattle.saber_notes.specs.Told.{TellsNotes};
ghost use Rattle.saber_top.specs.Comes.{IsOfMany};
ghost use Rattle.saber_top.specs.Ends.{top_notes, top_status};

use crate::ended::TopEnd;
use crate::parts::{Part, PartList, first_status};
use saber_io::Sink;
use saber_notes::{Noted, Report, write_early};

// The lines of these queries, the first of which has this number, behind what is there.
fn add_each<T>(report: &mut Report, number: u64, parts: &[Part<T>])
    requires room { length (notes_in report.old) + 136 * length parts.now ≤ 1088 }
    requires few { number + length parts.now < 2 ^ 64 }
    ensures { notes_in report.new ≡ notes_in report.old ++ lines_from number (outcomes_of parts.now) }
{
    let Some((part, others)) = parts.split_first() else {
        return;
    };
    report.add(number, part.outcome);
    add_each(report, number + 1, others);
}

/// The status of a call that ended so.
pub(crate) fn whole_status<T>(end: TopEnd, parts: &PartList<T>) -> u8
    ensures { result ≡ top_status end (outcomes_of (parts_in parts.now)) }
{
    match end {
        TopEnd::One(outcome) => outcome.status(),
        TopEnd::Before(early) => early.status(),
        TopEnd::Each => first_status(parts.as_slice()),
    }
}

/// Writes the notes of a call with several queries that ended so, in one write.
pub(crate) fn tell<N: Sink, T>(notes: &mut N, end: TopEnd, parts: &PartList<T>) -> Noted
    requires kinds { IsOfMany end }
    requires few { length (parts_in parts.now) ≤ 8 }
    ensures { TellsNotes N.written N.faults N.writes notes.old notes.new (top_status end (outcomes_of (parts_in parts.now))) result (top_notes end (outcomes_of (parts_in parts.now))) }
{
    match end {
        TopEnd::One(_) => unreachable!(),
        TopEnd::Before(early) => write_early(notes, early),
        TopEnd::Each => {
            let mut report = Report::new();
            add_each(&mut report, 1, parts.as_slice());
            report.write(notes)
        }
    }
}
