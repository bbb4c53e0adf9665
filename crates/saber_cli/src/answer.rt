// A run over sources that are open.
ghost use Rattle.std.specs.Prelude.{◌≡◌, ◌≢◌, ℕ, List, IfSome, length};
ghost use Rattle.saber_plan.specs.Outputs.{Rose, appended_text};
ghost use Rattle.saber_plan.specs.Trees.{tree_of};
ghost use Rattle.saber_plan.specs.Checked.{IsChecked};
ghost use Rattle.saber_plan.specs.Sizes.{SizesFit};
ghost use Rattle.saber_engine.specs.Sources.{each_input, told_by, NoneFell, GaveAll};
ghost use Rattle.saber_notes.specs.declared.outcome.Outcome.{Outcome};
ghost use Rattle.saber_cli.specs.Outcomes.{IsClean, IsOfRun};
ghost use Rattle.saber_cli.specs.Uses.{IsOpened};
ghost use Rattle.saber_cli.specs.Endings.{ReadFaultsRose, ended_as, file_on};
ghost use Rattle.saber_cli.specs.Answered.{AnsweredOver};
ghost use Rattle.saber_cli.specs.Taken.{CutLeavesWhole};
ghost use Rattle.saber_cli.specs.Writes.{WritesOver};

use saber_engine::{Inputs, Means, Ran as Engine, RunEnd, engine};
use saber_io::{Gate, Sink, Source};
use saber_notes::{InputFile, Outcome};
use saber_plan::{Plan, Side, Sizes};
use std::sync::Wait;
use std::thread::Threads;

/// How a run ended, with its sink and the number of tasks that are assembled.
pub(crate) struct Ran<K> {
    pub(crate) outcome: Outcome,
    pub(crate) sink: K,
    pub(crate) tasks: u64,
}

// The row file of a side.
fn file_of(side: Side) -> InputFile
    ensures { result ≡ file_on side }
{
    match side {
        Side::Left => InputFile::Left,
        Side::Right => InputFile::Right,
    }
}

/// How the call ends behind a run on a ring of so many cells.
pub fn outcome_of(end: RunEnd, ring: u32) -> Outcome
    ensures { result ≡ ended_as ring end }
{
    match end {
        RunEnd::AllRead => Outcome::Done,
        RunEnd::Bad { side, line, cause } => Outcome::LineRefused { side, line, cause },
        RunEnd::ReadFault { side } => Outcome::ReadFault(file_of(side)),
        RunEnd::TooWide { task, need } => Outcome::TooWide {
            task,
            need,
            ring: ring as u64,
        },
        RunEnd::WriteFault => Outcome::WriteFault,
        RunEnd::NoMemory => Outcome::NoMemory,
    }
}

/// Runs the plan over the sources, as many as its streams.
pub(crate) fn answer<S: Source, K: Sink + Send, G: Gate + Sync, R: Threads + Wait + Sync>(
    means: &Means<'_, G, R>,
    plan: &Plan,
    inputs: &mut Inputs<S>,
    sink: K,
    sizes: &Sizes,
) -> Ran<K>
    requires checked { IsChecked (tree_of plan.now) }
    requires inputs { length (each_input S.left inputs.old) ≡ length (tree_of plan.now).streams }
    requires sizes { SizesFit sizes.now }
    ensures written { (out : List ℕ) × (K.written result.sink ≡ appended_text (K.written sink) out)
        × IfSome (told_by S.left inputs.old) (λ all. AnsweredOver (tree_of plan.now) sizes.now all result.outcome result.tasks out) }
    ensures writes { IfSome (told_by S.left inputs.old) (λ all. WritesOver (tree_of plan.now) sizes.now all result.outcome result.tasks (K.writes sink) (K.writes result.sink)) }
    ensures kinds { IsOfRun result.outcome }
    ensures opened { IsOpened result.outcome }
    ensures taken { CutLeavesWhole (tree_of plan.now) sizes.now result.outcome result.tasks (each_input S.left inputs.old) (each_input S.left inputs.new) }
    ensures takes { (taken : List (List ℕ)) × GaveAll (each_input S.left inputs.old) taken (each_input S.left inputs.new) }
    ensures read { ReadFaultsRose result.outcome (each_input S.faults inputs.old) (each_input S.faults inputs.new) }
    ensures reads { NoneFell (each_input S.faults inputs.old) (each_input S.faults inputs.new) }
    ensures read_good { IsClean result.outcome → each_input S.faults inputs.new ≡ each_input S.faults inputs.old }
    ensures write { result.outcome ≡ Outcome.WriteFault → Rose (K.faults sink) (K.faults result.sink) }
    ensures write_good { result.outcome ≢ Outcome.WriteFault → K.faults result.sink ≡ K.faults sink }
{
    let Engine {
        end,
        sink,
        tasks,
        ..
    } = engine(means.rt, means.alloc, plan, inputs, sink, sizes, means.gate);
    Ran {
        outcome: outcome_of(end, sizes.ring),
        sink,
        tasks,
    }
}
