// A chain over sources that are open.
ghost use Rattle.std.specs.Prelude.{◌≡◌, ◌≢◌, ℕ, List, length, false};
ghost use Rattle.saber_plan.specs.Outputs.{Rose};
ghost use Rattle.saber_plan.specs.Trees.{tree_of};
ghost use Rattle.saber_plan.specs.Checked.{IsChecked};
ghost use Rattle.saber_plan.specs.Sizes.{SizesFit};
ghost use Rattle.saber_plan.specs.declared.ends.RunEnd.{RunEnd};
ghost use Rattle.saber_engine.specs.Gives.{LeavesWhole};
ghost use Rattle.saber_engine.specs.Sources.{each_input, told_by, GaveAll};
ghost use Rattle.saber_chain.specs.Stops.{stopped_of};
ghost use Rattle.saber_notes.specs.declared.outcome.Outcome.{Outcome};
ghost use Rattle.saber_chain.specs.Sinks.{seen_of};
ghost use Rattle.saber_cli.specs.Outcomes.{IsClean, IsOfChain};
ghost use Rattle.saber_cli.specs.Uses.{IsOpened};
ghost use Rattle.saber_cli.specs.Endings.{ReadFaultsRose, chained_as, unless_cut};
ghost use Rattle.saber_cli.specs.Chaining.{RunsChainSo};

use crate::answer::outcome_of;
use saber_chain::{Chained, Inputs, Plans, RunEnd, Stopped, chain};
use saber_engine::Means;
use saber_io::{Gate, Sink, Source};
use saber_notes::Outcome;
use saber_plan::Sizes;
use std::sync::Wait;
use std::thread::Threads;

/// How a chain ended, with its sources, its sink and the number of tasks of the second query that
/// are assembled.
pub(crate) struct RanBoth<S, K> {
    pub(crate) outcome: Outcome,
    /// Whether the second query's stage stopped, as its run tells it: by this goes the outcome.
    pub(crate) stopped: Option<Stopped>,
    pub(crate) inputs: Inputs<S>,
    pub(crate) sink: K,
    pub(crate) tasks: u64,
}

// How the call ends behind a first query that ended so: with this outcome, where its text is whole,
// and else as the query did.
fn unless_cut(first: RunEnd, outcome: Outcome, ring: u32) -> Outcome
    ensures { result ≡ unless_cut ring first outcome }
{
    match first {
        RunEnd::AllRead => outcome,
        RunEnd::Bad { .. } => outcome,
        _ => outcome_of(first, ring),
    }
}

// How the call ends where memory lacked for the second query, whose stage was stopped by that, or
// its rows ended so.
fn lacked_as(first: RunEnd, stopped: bool, ring: u32) -> Outcome
    ensures { result ≡ chained_as ring first RunEnd.NoMemory stopped }
{
    if stopped {
        Outcome::NoMemory
    } else {
        unless_cut(first, Outcome::NoMemory, ring)
    }
}

// Whether the second query's stage was stopped.
fn stopped_of(told: &Option<Stopped>) -> bool
    ensures { result ≡ stopped_of told.now }
{
    match told {
        None => false,
        Some(stopped) => stopped.told(),
    }
}

// How the call ends behind both runs, each on a ring of so many cells, the second one with its
// stage stopped or not.
fn chained_as(first: RunEnd, second: RunEnd, stopped: bool, ring: u32) -> Outcome
    ensures { result ≡ chained_as ring first second stopped }
{
    match second {
        RunEnd::WriteFault => Outcome::WriteFault,
        RunEnd::NoMemory => lacked_as(first, stopped, ring),
        RunEnd::Bad { line, cause, .. } => {
            unless_cut(first, Outcome::ChainLineRefused { line, cause }, ring)
        }
        RunEnd::AllRead => outcome_of(first, ring),
        RunEnd::ReadFault { .. } => outcome_of(first, ring),
        RunEnd::TooWide { .. } => outcome_of(first, ring),
    }
}

/// Runs both plans, the first one over the sources, as many as its streams.
pub(crate) fn answer_chain<
    S: Source + Send + Drop,
    K: Sink + Send + Drop,
    G: Gate + Sync,
    R: Threads + Wait + Sync,
>(
    means: &Means<'_, G, R>,
    plans: &Plans,
    inputs: Inputs<S>,
    sink: K,
    sizes: &Sizes,
) -> RanBoth<S, K>
    requires first { IsChecked (tree_of plans.now.first) }
    requires inputs { length (each_input S.left inputs) ≡ length (tree_of plans.now.first).streams }
    requires second { IsChecked (tree_of plans.now.second) }
    requires one { length (tree_of plans.now.second).streams ≡ 1 }
    requires sizes { SizesFit sizes.now }
    requires open_end { sizes.now.flush ≡ false }

    // The outcome goes by how each ended, and by whether the stage was stopped, as the second run
    // tells it.
    ensures runs { RunsChainSo (tree_of plans.now.first) (tree_of plans.now.second) sizes.now
        (LeavesWhole (tree_of plans.now.first) sizes.now (each_input S.left inputs) (each_input S.left result.inputs)) (told_by S.left inputs) (seen_of K.written K.writes sink) (seen_of K.written K.writes result.sink) result.outcome result.tasks
        result.stopped }
    ensures kinds { IsOfChain result.outcome }
    ensures opened { IsOpened result.outcome }
    ensures takes { (taken : List (List ℕ)) × GaveAll (each_input S.left inputs) taken (each_input S.left result.inputs) }
    ensures read { ReadFaultsRose result.outcome (each_input S.faults inputs) (each_input S.faults result.inputs) }
    ensures read_good { IsClean result.outcome → each_input S.faults result.inputs ≡ each_input S.faults inputs }
    ensures write { result.outcome ≡ Outcome.WriteFault → Rose (K.faults sink) (K.faults result.sink) }
    ensures write_good { result.outcome ≢ Outcome.WriteFault → K.faults result.sink ≡ K.faults sink }
{
    let Chained {
        first: first_end,
        second: second_end,
        second_stopped,
        inputs,
        sink,
        first_tasks: _,
        tasks,
    } = chain(
        means.rt,
        means.alloc,
        plans,
        inputs,
        sink,
        sizes,
        means.gate,
    );
    let stopped = stopped_of(&second_stopped);
    RanBoth {
        outcome: chained_as(first_end, second_end, stopped, sizes.ring),
        stopped: second_stopped,
        inputs,
        sink,
        tasks,
    }
}
