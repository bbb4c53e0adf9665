// One run of a case.
use crate::fields::{Fields, Key};
use crate::gates::{CaseGate, gate_of};
use crate::names::Names;
use crate::readings::{creates, files_of, opens, part_writes, writes};
use crate::refusals::Refused;
use crate::wanted::{Seen, SeenPart};
use saber_io::{Files, MemFiles, MemOuts, MemSink, Outs, Sink};
use saber_notes::Noted;
use saber_top::{Means, PartList, ended, top};
use std::alloc::{AllocError, Global};
use std::sync::Wait;
use std::thread::Threads;

// What came of a call.
#[derive(Drop)]
struct Came<K, T> {
    status: u8,
    sink: K,
    tasks: u64,
    noted: Noted,
    parts: PartList<T>,
}

// The call alone, over any files and sinks: what it promises is long, and no case needs it, so it
// is carried no further.
fn top_call<F: Files, U: Outs, K: Sink + Send + Drop, N: Sink, R: Threads + Wait + Sync>(
    rt: &R,
    alloc: Global,
    words: &[&str],
    files: &mut F,
    outs: &mut U,
    sink: K,
    notes: &mut N,
    gate: &CaseGate,
) -> Came<K, U::Out>
where
    F::Src: Send + Drop,
{
    let ended::Top {
        status,
        sink,
        tasks,
        noted,
        end: _,
        parts,
    } = top(&Means { rt, alloc, gate }, words, files, outs, sink, notes);
    Came {
        status,
        sink,
        tasks,
        noted,
        parts,
    }
}

/// The call with these words, over the case's files and sinks and at its gate. Reads give at most
/// `cut` bytes where that isn't 0.
pub(crate) fn run_once<R: Threads + Wait + Sync>(
    rt: &R,
    alloc: Global,
    names: &Names,
    fields: &Fields<'_>,
    words: &[&str],
    cut: u64,
) -> Result<Seen, Refused> {
    let gate = gate_of(alloc, fields)?;
    let seen = run_at(rt, alloc, names, fields, words, cut, &gate);
    gate.let_go();
    seen
}

// The same at this gate.
fn run_at<R: Threads + Wait + Sync>(
    rt: &R,
    alloc: Global,
    names: &Names,
    fields: &Fields<'_>,
    words: &[&str],
    cut: u64,
    gate: &CaseGate,
) -> Result<Seen, Refused> {
    let writes_of_out = writes(alloc, fields, Key::Write)?;
    let writes_of_note = writes(alloc, fields, Key::NoteWrite)?;
    let failing_opens = opens(alloc, fields)?;
    let failing_creates = creates(alloc, fields)?;
    let writes_of_parts = part_writes(alloc, fields)?;
    let listed = files_of(alloc, names, fields, cut)?;
    let outside = Outside {
        files: MemFiles::new(alloc, listed, failing_opens),
        outs: MemOuts::new(alloc, failing_creates, writes_of_parts),
        sink: MemSink::new(alloc, writes_of_out),
        notes: MemSink::new(alloc, writes_of_note),
    };
    Ok(run_over(rt, alloc, words, outside, gate)?)
}

// What a run is over.
#[derive(Drop)]
struct Outside {
    files: MemFiles,
    outs: MemOuts,
    sink: MemSink,
    notes: MemSink,
}

// The call over them, which has one end: what goes with them stands in it once.
fn run_over<R: Threads + Wait + Sync>(
    rt: &R,
    alloc: Global,
    words: &[&str],
    outside: Outside,
    gate: &CaseGate,
) -> Result<Seen, AllocError> {
    let Outside {
        mut files,
        mut outs,
        sink,
        mut notes,
    } = outside;
    let came = top_call(
        rt, alloc, words, &mut files, &mut outs, sink, &mut notes, gate,
    );
    seen(alloc, &came, &notes, gate.is_late())
}

fn seen(
    alloc: Global,
    came: &Came<MemSink, MemSink>,
    notes: &MemSink,
    is_late: bool,
) -> Result<Seen, AllocError> {
    let mut parts = Vec::new(alloc);
    for part in came.parts.as_slice() {
        parts.push(SeenPart {
            status: part.status,
            out: part.out.bytes().to_vec(alloc)?,
            tasks: part.tasks,
        })?;
    }
    Ok(Seen {
        status: came.status,
        out: came.sink.bytes().to_vec(alloc)?,
        note: notes.bytes().to_vec(alloc)?,
        noted: came.noted,
        tasks: came.tasks,
        is_late,
        parts,
    })
}
