// The command `demo`: a run over generated rows, and the summary of its answer.
ghost use Rattle.std.specs.Prelude.{◌≡◌, ◌≢◌, ◌↔◌, IsTrue};
ghost use Rattle.saber_plan.specs.Outputs.{raised_by, raised_count, Rose};
ghost use Rattle.saber_words.specs.declared.commands.Command.{Command};
ghost use Rattle.saber_words.specs.Commands.{asked_command, IsSized};
ghost use Rattle.saber_words.specs.Demo.{asked_demo};
ghost use Rattle.saber_plan.specs.declared.ends.RunEnd.{RunEnd};
ghost use Rattle.saber_notes.specs.declared.outcome.Outcome.{Outcome};
ghost use Rattle.saber_cli.specs.Tells.{IsAnswer, IsWholeOrLacks, TellsRun};
ghost use Rattle.saber_cli.specs.Writes.{text_writes};

use crate::answer::Ran;
use crate::puts::put;
use saber_demo::{Generated, TextSink, demo_plan, summary};
use saber_engine::{Inputs, Ran as Engine, RunEnd, engine};
use saber_io::{Gate, Sink};
use saber_notes::Outcome;
use saber_words::Demo;
use std::alloc::Global;
use std::sync::Wait;
use std::thread::Threads;

// The query's answer, as far as the run came, and how many tasks are assembled.
#[derive(Drop)]
struct Answer {
    text: TextSink,
    tasks: u64,
    whole: bool,
}

// Whether the run came to its end. Of generated rows none is refused, none can't be read, and no
// task is too wide; and no write into memory fails.
fn is_whole(end: RunEnd) -> bool
    requires { IsWholeOrLacks end }
    ensures { IsTrue result ↔ (end ≡ RunEnd.AllRead) }
{
    match end {
        RunEnd::AllRead => true,
        RunEnd::NoMemory => false,
        RunEnd::Bad { .. } => unreachable!(),
        RunEnd::ReadFault { .. } => unreachable!(),
        RunEnd::TooWide { .. } => unreachable!(),
        RunEnd::WriteFault => unreachable!(),
    }
}

// Runs the query over the generated rows.
#[tactic(auto, using(saber_demo::proofs::DemoQuery::demo_is_checked))]
fn run_generated<G: Gate + Sync, R: Threads + Wait + Sync>(
    rt: &R,
    alloc: Global,
    command: &Demo,
    gate: &G,
) -> Answer
    requires { IsSized (asked_command (Command.Demo command.now)) }
    ensures answer { IsTrue result.whole → IsAnswer (asked_demo command.now) result.text.written result.tasks }
{
    let text = TextSink::new(alloc);
    let Ok(plan) = demo_plan(alloc) else {
        return Answer {
            text,
            tasks: 0,
            whole: false,
        };
    };
    let rows = Generated::new(u64::from(command.seed), u64::from(command.rows));
    let mut inputs = Inputs::One(rows);
    let Engine {
        end,
        sink,
        tasks,
        ..
    } = engine(rt, alloc, &plan, &mut inputs, text, &command.sizes, gate);
    Answer {
        text: sink,
        tasks,
        whole: is_whole(end),
    }
}

// Ends for want of memory: nothing goes out, so no task counts.
fn lacking<K>(sink: K) -> Ran<K>
    ensures { result ≡ record { outcome = Outcome.NoMemory; sink = sink; tasks = 0 } }
{
    Ran {
        outcome: Outcome::NoMemory,
        sink,
        tasks: 0,
    }
}

// Writes the summary of an answer that is whole.
#[tactic(auto, using(crate::proofs::DemoLemmas::lacked_told))]
fn tell<K: Sink>(alloc: Global, command: &Demo, answer: Answer, sink: K) -> Ran<K>
    requires answer { IsTrue answer.whole → IsAnswer (asked_demo command.now) answer.text.written answer.tasks }
    ensures told { TellsRun (asked_demo command.now) result.outcome result.tasks (K.written sink) (K.written result.sink) }
    ensures write { result.outcome ≡ Outcome.WriteFault → Rose (K.faults sink) (K.faults result.sink) }
    ensures write_good { result.outcome ≢ Outcome.WriteFault → K.faults result.sink ≡ K.faults sink }
    ensures one { result.outcome ≡ Outcome.Done → K.writes result.sink ≡ raised_count (K.writes sink) }
    ensures one_cut { result.outcome ≡ Outcome.WriteFault → K.writes result.sink ≡ raised_count (K.writes sink) }
    ensures writes { K.writes result.sink ≡ raised_by (K.writes sink) (text_writes result.outcome) }
{
    let Answer {
        text: answered,
        tasks,
        whole,
    } = answer;
    if !whole {
        return lacking(sink);
    }
    match summary(alloc, u64::from(command.rows), answered.text()) {
        Ok(out) => put(&out, sink, tasks),
        Err(_) => lacking(sink),
    }
}

/// `demo`: answers the demo's query over generated rows, and writes the summary of the answer.
pub(crate) fn demo_command<K: Sink, G: Gate + Sync, R: Threads + Wait + Sync>(
    rt: &R,
    alloc: Global,
    command: &Demo,
    sink: K,
    gate: &G,
) -> Ran<K>
    requires { IsSized (asked_command (Command.Demo command.now)) }
    ensures told { TellsRun (asked_demo command.now) result.outcome result.tasks (K.written sink) (K.written result.sink) }
    ensures write { result.outcome ≡ Outcome.WriteFault → Rose (K.faults sink) (K.faults result.sink) }
    ensures write_good { result.outcome ≢ Outcome.WriteFault → K.faults result.sink ≡ K.faults sink }
    ensures one { result.outcome ≡ Outcome.Done → K.writes result.sink ≡ raised_count (K.writes sink) }
    ensures one_cut { result.outcome ≡ Outcome.WriteFault → K.writes result.sink ≡ raised_count (K.writes sink) }
    ensures writes { K.writes result.sink ≡ raised_by (K.writes sink) (text_writes result.outcome) }
{
    let answer = run_generated(rt, alloc, command, gate);
    tell(alloc, command, answer, sink)
}
