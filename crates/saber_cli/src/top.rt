// The top call.
ghost use Rattle.std.specs.Prelude.{◌≡◌, map};
ghost use Rattle.saber_notes.specs.Notes.{status_of, note_of};
ghost use Rattle.saber_notes.specs.Told.{TellsNotes};
ghost use Rattle.saber_cli.specs.Unread.{unread};
ghost use Rattle.saber_cli.specs.Says.{SaysSaber};

use crate::answer::Ran;
use crate::words::{run_words, unread};
use saber_io::{Files, Gate, Sink};
use saber_notes::{Noted, Outcome, write_note};
use saber_words::WordsFault;
use std::alloc::Global;
use std::sync::Wait;
use std::thread::Threads;

/// How a call ended.
#[derive(Drop)]
pub struct Ended<K> {
    /// The status that the process ends with.
    pub status: u8,
    /// The sink that was handed in, with what was written to it.
    pub sink: K,
    /// How many tasks are assembled; 0 where nothing was run, and where `demo` lacks memory.
    pub tasks: u64,
    /// What became of the note.
    pub noted: Noted,
    /// How the call ended, of which the status and the note tell.
    pub outcome: Outcome,
}

/// Does what the words ask for, over these files: the answer goes to the sink, and a note on every
/// end but the good one to the notes. The first word is the program's name. The runtime starts the
/// threads that the words ask for, and the call waits for them.
///
/// What is said of contents holds where the files, the sink and the notes tell theirs, as those in
/// memory do.
pub fn saber<F: Files, K: Sink + Send + Drop, N: Sink, G: Gate + Sync, R: Threads + Wait + Sync>(
    rt: &R,
    alloc: Global,
    words: &[&str],
    files: &mut F,
    sink: K,
    notes: &mut N,
    gate: &G,
) -> Ended<K>
where
    F::Src: Send + Drop,

    // Each fact is a field of `SaysSaber` (specs/Says.antt), or of `TellsNotes` there, and has the
    // name by which docs/RULES.md cites it.
    ensures { SaysSaber F.told F.faults K.written K.faults K.writes N.written N.faults N.writes (map (λ word. word.now) words.now) files.old files.new sink notes.old notes.new result }
{
    let Ran {
        outcome,
        sink,
        tasks,
    } = run_words(rt, alloc, words, files, sink, gate);
    let noted = write_note(notes, outcome);
    Ended {
        status: outcome.status(),
        sink,
        tasks,
        noted,
        outcome,
    }
}

/// How a call ended whose words were not handed over.
#[derive(Drop)]
pub struct Refused {
    /// The status that the process ends with.
    pub status: u8,
    /// What became of the note.
    pub noted: Noted,
}

/// Ends a call whose words the system can't hand over: memory lacks for them, or one of them is no
/// text, and so no word of a command. Nothing is opened, and nothing goes out but the note.
pub fn refuse_words<N: Sink>(fault: WordsFault, notes: &mut N) -> Refused
    ensures status { result.status ≡ status_of (unread fault) }
    ensures notes { TellsNotes N.written N.faults N.writes notes.old notes.new result.status result.noted (note_of (unread fault)) }
{
    let outcome = unread(fault);
    let noted = write_note(notes, outcome);
    Refused {
        status: outcome.status(),
        noted,
    }
}
