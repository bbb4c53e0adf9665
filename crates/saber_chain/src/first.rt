// The first query of a chain, which writes into the pipe.
ghost use Rattle.std.specs.Prelude.{◌≡◌, [], length};
ghost use Rattle.saber_pipe.specs.Sinks.{written};
ghost use Rattle.saber_pipe.specs.Receipts.{written_by, mark_by};
ghost use Rattle.saber_plan.specs.Trees.{tree_of};
ghost use Rattle.saber_plan.specs.Checked.{IsChecked};
ghost use Rattle.saber_plan.specs.Sizes.{SizesFit};
ghost use Rattle.saber_engine.specs.Sources.{each_input};
ghost use Rattle.saber_chain.specs.Marks.{mark_after};
ghost use Rattle.saber_chain.specs.Firsts.{RanFirstTo};

use crate::gate::FirstGate;
use crate::settle::FirstEnd;
use saber_engine::{Inputs, Ran, RunEnd, engine_pouring};
use saber_io::{EndMark, Gate, Source};
use saber_pipe::{Backlog, PipeName, PipeSink, Receipt};
use saber_plan::{Plan, Sizes};
use std::alloc::Global;
use std::snapshot::Snapshot;
use std::sync::Wait;
use std::thread::{Promise, Threads};

/// What comes back of the first query's run: its inputs, how it ended, and what the pipe has to
/// know.
#[derive(Drop)]
pub(crate) struct FirstRan<'a, S, P: PipeName> {
    pub(crate) ended: FirstEnd<S>,
    pub(crate) receipt: Receipt<P>,
    pub(crate) backlog: Backlog<'a, P>,
}

// How a text ends whose run ended so.
fn mark_after(end: RunEnd) -> EndMark
    ensures { result ≡ mark_after end }
{
    match end {
        RunEnd::AllRead | RunEnd::Bad { .. } => EndMark::End,
        _ => EndMark::Cut,
    }
}

/// What the first query runs over, and where its text goes.
#[derive(Drop)]
pub(crate) struct FirstJob<'a, S, P: PipeName, G, R: Wait> {
    pub(crate) rt: &'a R,
    pub(crate) alloc: Global,
    pub(crate) plan: &'a Plan,
    pub(crate) inputs: Inputs<S>,
    pub(crate) sink: PipeSink<'a, R, P>,
    pub(crate) sizes: &'a Sizes,
    pub(crate) gate: FirstGate<'a, G>,
}

/// Runs the first query into the pipe, and ends its text.
pub(crate) fn run_first<
    'a,
    S: Source,
    P: PipeName + Send,
    G: Gate + Sync,
    R: Threads + Wait + Sync,
>(job: FirstJob<'a, S, P, G, R>) -> FirstRan<'a, S, P>
    requires checked { IsChecked (tree_of job.plan.now) }
    requires inputs { length (each_input S.left job.inputs) ≡ length (tree_of job.plan.now).streams }
    requires sizes { SizesFit job.sizes.now }
    requires fresh { written job.sink ≡ [] }
    ensures { RanFirstTo S.left S.faults (tree_of job.entry.plan.now) job.entry.sizes.now job.entry.inputs
        result.ended (written_by result.receipt) (mark_by result.receipt) }
{
    let FirstJob {
        rt,
        alloc,
        plan,
        mut inputs,
        sink,
        sizes,
        gate,
    } = job;
    let ran = engine_pouring(rt, alloc, plan, &mut inputs, sink, sizes, &gate);
    let Ran {
        end,
        sink,
        tasks,
        ..
    } = ran;
    let (receipt, backlog) = sink.finish(mark_after(end));
    FirstRan {
        ended: FirstEnd { inputs, end, tasks },
        receipt,
        backlog,
    }
}

/// What the run of the first query promises to who joins its thread.
#[derive(Drop)]
pub(crate) struct FirstPromise<S> {
    pub(crate) plan: Snapshot<Plan>,
    pub(crate) sizes: Snapshot<Sizes>,
    pub(crate) inputs: Snapshot<Inputs<S>>,
}

impl<'a, S: Source, P: PipeName> Promise<FirstRan<'a, S, P>> for FirstPromise<S> {
    ghost kept_by = { λ p r. RanFirstTo S.left S.faults (tree_of p.plan.value) p.sizes.value p.inputs.value r.ended (written_by r.receipt) (mark_by r.receipt) };
}
