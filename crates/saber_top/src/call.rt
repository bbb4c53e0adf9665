// The top call.
ghost use Rattle.std.specs.Prelude.{◌≡◌, ℕ, map};
ghost use Rattle.saber_notes.specs.declared.outcome.Outcome.{Outcome};
ghost use Rattle.saber_top.specs.declared.ended.TopEnd.{TopEnd};
ghost use Rattle.saber_top.specs.Commands.{is_many};
ghost use Rattle.saber_top.specs.Shared.{outcomes_of, parts_in};
ghost use Rattle.saber_top.specs.Ends.{top_notes, top_status};
ghost use Rattle.saber_notes.specs.Told.{TellsNotes};
ghost use Rattle.saber_top.specs.Comes.{IsTrueOf};
ghost use Rattle.saber_top.specs.Others.{IsSaber};
ghost use Rattle.saber_top.specs.Says.{SaysTop};

use crate::ended;
use crate::ended::TopEnd;
use crate::many::{Came, many_words};
use crate::parts::PartList;
use crate::tells::{tell, whole_status};
use saber_cli::{Ended, saber};
use saber_engine::Means;
use saber_io::{Files, Gate, Outs, Sink};
use std::sync::Wait;
use std::thread::Threads;

// Whether the second word is `many`.
fn is_many(words: &[&str]) -> bool
    ensures { result ≡ is_many (map (λ word. word.now) words.now) }
{
    let Some((_, rest)) = words.split_first() else {
        return false;
    };
    let Some((second, _)) = rest.split_first() else {
        return false;
    };
    *second == "many"
}

// The words of one command: as `saber` has it.
fn one_command<
    F: Files,
    K: Sink + Send + Drop,
    N: Sink,
    G: Gate + Sync,
    R: Threads + Wait + Sync,
    T,
>(
    means: &Means<'_, G, R>,
    words: &[&str],
    files: &mut F,
    sink: K,
    notes: &mut N,
) -> ended::Top<K, T>
where
    F::Src: Send + Drop,
    ensures is { IsSaber F.told F.faults K.written K.faults K.writes N.written N.faults N.writes (map (λ word. word.now) words.now) files.old files.new sink notes.old notes.new result }
    ensures holds { (failed : T → ℕ) → IsTrueOf F.faults failed files.old files.new result.end (parts_in result.parts) }
    ensures one { (o : Outcome) × (result.end ≡ TopEnd.One o) }
    ensures status { result.status ≡ top_status result.end (outcomes_of (parts_in result.parts)) }
    ensures notes { TellsNotes N.written N.faults N.writes notes.old notes.new result.status result.noted (top_notes result.end (outcomes_of (parts_in result.parts))) }
{
    let Ended {
        status,
        sink,
        tasks,
        noted,
        outcome,
    } = saber(means.rt, means.alloc, words, files, sink, notes, means.gate);
    ended::Top {
        status,
        sink,
        tasks,
        noted,
        end: TopEnd::One(outcome),
        parts: PartList::none(means.alloc),
    }
}

/// Does what the words ask for. Where the second word isn't `many` it is `saber` of `saber_cli`.
/// `many LEFT QUERY..` answers up to eight queries, each of one stream, all of as many columns,
/// over one file that is read once; the answer of each goes to a file of its own, which has the
/// query's name with `.out` behind it. Each query is answered as a run of it alone would, whatever
/// becomes of the others.
///
/// What is said of contents holds where the files, the sinks and the notes tell theirs, as those in
/// memory do.
pub fn top<
    F: Files,
    U: Outs,
    K: Sink + Send + Drop,
    N: Sink,
    G: Gate + Sync,
    R: Threads + Wait + Sync,
>(
    means: &Means<'_, G, R>,
    words: &[&str],
    files: &mut F,
    outs: &mut U,
    sink: K,
    notes: &mut N,
) -> ended::Top<K, U::Out>
where
    F::Src: Send + Drop,

    // Each fact is a field of `SaysTop` (specs/Says.antt), or of a record there, and has the name by
    // which docs/RULES.md cites it.
    ensures { SaysTop F.told F.faults K.written K.faults K.writes N.written N.faults N.writes U.asked U.faults U.Out.written U.Out.faults U.Out.writes (map (λ word. word.now) words.now)
        files.old files.new outs.old outs.new sink notes.old notes.new result }
{
    if !is_many(words) {
        return one_command(means, words, files, sink, notes);
    }
    let Came { end, parts } = many_words(means, words, files, outs);
    let noted = tell(notes, end, &parts);
    ended::Top {
        status: whole_status(end, &parts),
        sink,
        tasks: 0,
        noted,
        end,
        parts,
    }
}
