//! The program `saber`: the top call over real files, standard output and standard error.
//! All else is in `saber_top`; here are the words of the process, and the adapters of `saber_io`.
//!
//! - Call: `main` takes the runtime, and gives the status that `top` tells. Words that the system
//!   can't hand over end it by `refuse_words`.
//! - Proved: that it is safe; that the words go on as they are, in their order (`texts_of`); and
//!   that of what comes of them all holds that `top` says (`SaysTop`, its whole contract), or the
//!   status and the note tell why the system couldn't hand the words over (`called`). That `main`,
//!   which takes no clause, hands on the process's words, standard output, standard error and that
//!   status is to be read.
//! - Tested: `args`, `data`, `stdout` and `status` are one stored run, which the gate makes with
//!   two compilers: it ends with a refused line, so the status isn't 0 and a note on standard
//!   output would show.
#![tactic(auto)]

ghost use Rattle.std.specs.Prelude.{◌≡◌, IfOk, IfErr, map, string_bytes};
ghost use Rattle.saber_words.specs.declared.commands.WordsFault.{WordsFault};
ghost use Rattle.saber.specs.Endings.{IsOfTop, Refuses};

use saber_cli::{WordsFault, refuse_words};
use saber_io::{Files, HostFiles, HostOuts, OpenGate, Outs, Sink, StdSink};
use saber_top::{Means, ended, top};
use std::alloc::{AllocError, Global};
use std::io::ErrorKind;
use std::process::ExitCode;
use std::sync::Wait;
use std::thread::Threads;
use std::{env, io};

// The words of the command line. One that is no text makes them no command.
fn words(rt: &HostRuntime, alloc: Global) -> Result<Vec<String>, WordsFault> {
    let mut texts = Vec::new(alloc);
    for text in env::args(rt).map_err(fault)? {
        if let Err(lacks) = texts.push(text) {
            return Err(AllocError::from(lacks).into());
        }
    }
    Ok(texts)
}

fn fault(error: io::Error) -> WordsFault {
    match error.kind() {
        ErrorKind::OutOfMemory => WordsFault::NoMemory,
        _ => WordsFault::Usage,
    }
}

// The same words, lent.
fn texts_of<'a>(alloc: Global, texts: &'a [String]) -> Result<Vec<&'a str>, WordsFault>
    ensures words { IfOk result (λ words. map (λ word. word.now) words.items ≡ map string_bytes texts.now) }
    ensures lacks { IfErr result (λ fault. fault ≡ WordsFault.NoMemory) }
{
    let mut words = Vec::new(alloc);
    for text in texts {
        if let Err(lacks) = words.push(text.as_str()) {
            return Err(AllocError::from(lacks).into());
        }
    }
    Ok(words)
}

// Ends a call whose words can't be handed over, and gives the status.
fn refused<N: Sink>(fault: WordsFault, notes: &mut N) -> u8
    ensures { Refuses N.written N.faults N.writes fault result notes.old notes.new }
{
    refuse_words(fault, notes).status
}

// Does what the words ask for, and gives the status.
fn run<F: Files, U: Outs, K: Sink + Send + Drop, N: Sink, R: Threads + Wait + Sync>(
    rt: &R,
    alloc: Global,
    texts: &[String],
    files: &mut F,
    outs: &mut U,
    sink: K,
    notes: &mut N,
) -> u8
where
    F::Src: Send + Drop,
    ensures { IsOfTop F.told F.faults K.written K.faults K.writes N.written N.faults N.writes U.asked U.faults U.Out.written U.Out.faults U.Out.writes (map string_bytes texts.now) files.old files.new outs.old outs.new sink notes.old notes.new result }
{
    match texts_of(alloc, texts) {
        Ok(words) => {
            let means = Means {
                rt,
                alloc,
                gate: &OpenGate,
            };
            let ended::Top { status, .. } = top(&means, &words, files, outs, sink, notes);
            status
        }
        Err(fault) => refused(fault, notes),
    }
}

// The same, with words that may not have been handed over.
fn called<F: Files, U: Outs, K: Sink + Send + Drop, N: Sink, R: Threads + Wait + Sync>(
    rt: &R,
    alloc: Global,
    handed: Result<Vec<String>, WordsFault>,
    files: &mut F,
    outs: &mut U,
    sink: K,
    notes: &mut N,
) -> u8
where
    F::Src: Send + Drop,
    ensures top { IfOk handed (λ texts. IsOfTop F.told F.faults K.written K.faults K.writes N.written N.faults N.writes U.asked U.faults U.Out.written U.Out.faults U.Out.writes (map string_bytes texts.items) files.old files.new outs.old outs.new sink notes.old notes.new result) }
    ensures refused { IfErr handed (λ fault. Refuses N.written N.faults N.writes fault result notes.old notes.new) }
    ensures unread { IfErr handed (λ fault. (files.new ≡ files.old) × (outs.new ≡ outs.old)) }
{
    match handed {
        Ok(texts) => run(rt, alloc, &texts, files, outs, sink, notes),
        Err(fault) => refused(fault, notes),
    }
}

fn main(rt: HostRuntime) -> ExitCode {
    let alloc = rt.alloc();
    let mut files = HostFiles::new(rt);
    let mut outs = HostOuts::new(rt);
    let sink = StdSink::new(rt.stdout());
    let mut notes = StdSink::new(rt.stderr());
    let handed = words(&rt, alloc);
    ExitCode::from(called(&rt, alloc, handed, &mut files, &mut outs, sink, &mut notes))
}
