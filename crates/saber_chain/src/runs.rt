// Both queries of a chain at once.
ghost use Rattle.std.specs.Prelude.{◌≡◌, ◌≢◌, ◌≤◌, ℕ, List, [], length, false};
ghost use Rattle.saber_plan.specs.Outputs.{Rose};
ghost use Rattle.saber_pipe.specs.Pipes.{id_of, IsNew};
ghost use Rattle.saber_pipe.specs.PipeFeeds.{taken, waiting};
ghost use Rattle.saber_pipe.specs.Sinks.{written};
ghost use Rattle.saber_pipe.specs.Receipts.{written_by, mark_by};
ghost use Rattle.saber_plan.specs.declared.rows.Side.{Side};
ghost use Rattle.saber_plan.specs.Trees.{tree_of};
ghost use Rattle.saber_plan.specs.Checked.{IsChecked};
ghost use Rattle.saber_plan.specs.Sizes.{SizesFit};
ghost use Rattle.saber_plan.specs.declared.ends.RunEnd.{RunEnd};
ghost use Rattle.saber_engine.specs.Sources.{each_input, told_by, RoseAt, NoneFell, GaveAll};
ghost use Rattle.saber_plan.specs.Runs.{IsClean};
ghost use Rattle.saber_engine.specs.Gives.{LeavesWhole};
ghost use Rattle.saber_chain.specs.Marks.{IsWhole, IsShort};
ghost use Rattle.saber_chain.specs.Sinks.{seen_of};
ghost use Rattle.saber_chain.specs.Stops.{SecondStops};
ghost use Rattle.saber_chain.specs.Firsts.{RanFirstTo};
ghost use Rattle.saber_chain.specs.Chains.{Chains, RunsBoth};

use crate::Chained;
use crate::first::{FirstJob, FirstPromise, FirstRan, run_first};
use crate::gate::FirstGate;
use crate::plans::Plans;
use crate::second::run_second;
use crate::settle::settle;
use saber_engine::{Inputs, Means, RunEnd};
use saber_io::{Gate, Sink, Source};
use saber_pipe::{Pipe, PipeName};
use saber_plan::Sizes;
use std::alloc::Global;
use std::marker::Brand;
use std::snapshot::Snapshot;
use std::sync::Wait;
use std::sync::atomic::{AtomicBool, Ordering};
use std::thread;
use std::thread::Threads;

// Runs both queries over a new pipe, which P names. `alone` is not set: the caller reads what the
// thread writes.
fn run_both<
    'a,
    S: Source + Send + Drop,
    K: Sink + Send + Drop,
    G: Gate + Sync,
    P: PipeName + Send,
    R: Threads + Wait + Sync,
>(
    means: &'a Means<'a, G, R>,
    plans: &'a Plans,
    inputs: Inputs<S>,
    sink: K,
    sizes: &'a Sizes,
    pipe: &'a mut Pipe,
    alone: &'a AtomicBool,
) -> Chained<S, K>
    requires first { IsChecked (tree_of plans.now.first) }
    requires inputs { length (each_input S.left inputs) ≡ length (tree_of plans.now.first).streams }
    requires second { IsChecked (tree_of plans.now.second) }
    requires one { length (tree_of plans.now.second).streams ≡ 1 }
    requires sizes { SizesFit sizes.now }
    requires new { IsNew pipe.old }
    requires named { P.id ≡ id_of pipe.old }
    ensures { RunsBoth S.left S.faults K.written K.faults K.writes (tree_of plans.now.first) (tree_of plans.now.second) sizes.now inputs sink result }
{
    let (pipe_sink, feed) = pipe.ends::<R, P>(means.rt, alone);
    let job = FirstJob {
        rt: means.rt,
        alloc: means.alloc,
        plan: &plans.first,
        inputs,
        sink: pipe_sink,
        sizes,
        gate: FirstGate(means.gate),
    };
    let second = &plans.second;
    thread::scope(
        thread::scope_env(),
        means.rt,
        move |scope| -> Chained<S, K>
            requires first { IsChecked (tree_of job.plan.now) }
            requires inputs { length (each_input S.left job.inputs) ≡ length (tree_of job.plan.now).streams }
            requires fresh { written job.sink ≡ [] }
            requires second { IsChecked (tree_of second.now) }
            requires one { length (tree_of second.now).streams ≡ 1 }
            requires sizes { SizesFit sizes.now }
            requires same { job.sizes.now ≡ sizes.now }
            requires new { waiting feed ≡ taken feed }
            ensures { RunsBoth S.left S.faults K.written K.faults K.writes (tree_of job.entry.plan.now) (tree_of second.entry.now) sizes.entry.now
                job.entry.inputs sink result }
        {
            let promise = FirstPromise {
                plan: Snapshot::of(job.plan),
                sizes: Snapshot::of(job.sizes),
                inputs: Snapshot::of(&job.inputs),
            };
            let first = scope.spawn_with(
                promise,
                move || -> FirstRan<'_, S, P>
                    requires checked { IsChecked (tree_of job.plan.now) }
                    requires inputs { length (each_input S.left job.inputs) ≡ length (tree_of job.plan.now).streams }
                    requires sizes { SizesFit job.sizes.now }
                    requires fresh { written job.sink ≡ [] }
                    ensures { RanFirstTo S.left S.faults (tree_of job.entry.plan.now) job.entry.sizes.now job.entry.inputs
                        result.ended (written_by result.receipt) (mark_by result.receipt) }
                { run_first(job) },
            );
            match first {
                Ok(child) => {
                    let mut ran = run_second(means, second, feed, None, sink, sizes);
                    let FirstRan {
                        ended,
                        receipt,
                        backlog,
                    } = child.join(means.rt);
                    ran.relay.dismiss(backlog);
                    settle(ended, receipt, ran)
                }
                Err(refused) => {
                    alone.store(true, Ordering::SeqCst);
                    let FirstRan {
                        ended,
                        receipt,
                        backlog,
                    } = (refused.value)();
                    let ran = run_second(means, second, feed, Some(backlog), sink, sizes);
                    settle(ended, receipt, ran)
                }
            }
        },
    )
}

/// Runs two checked plans in a chain: the lines of the first are the rows of the second, the number
/// of the window being the timestamp. The first runs in a thread of its own where one can be had,
/// and what it writes goes through a pipe of 64 pieces. Tasks, ring and threads are those of each
/// query; the limit of lines and the slack are the first one's. The first query's tasks pass the
/// gate counted from 2^43 on.
pub fn chain<
    S: Source + Send + Drop,
    K: Sink + Send + Drop,
    G: Gate + Sync,
    R: Threads + Wait + Sync,
>(
    rt: &R,
    alloc: Global,
    plans: &Plans,
    inputs: Inputs<S>,
    sink: K,
    sizes: &Sizes,
    gate: &G,
) -> Chained<S, K>
    requires first { IsChecked (tree_of plans.now.first) }
    requires inputs { length (each_input S.left inputs) ≡ length (tree_of plans.now.first).streams }
    requires second { IsChecked (tree_of plans.now.second) }
    requires one { length (tree_of plans.now.second).streams ≡ 1 }
    requires sizes { SizesFit sizes.now }
    requires open_end { sizes.now.flush ≡ false }

    // What goes out is the second query's text over the lines of the first, by one write for each of
    // its tasks that has text.
    ensures gives { Chains (tree_of plans.now.first) (tree_of plans.now.second) sizes.now (told_by S.left inputs) (seen_of K.written K.writes sink) (seen_of K.written K.writes result.sink) result }

    // The first query's end is as of a run of its own, but that it never fails to write.
    ensures whole { LeavesWhole (tree_of plans.now.first) sizes.now (each_input S.left inputs) (each_input S.left result.inputs) result.first result.first_tasks }
    ensures takes { (taken : List (List ℕ)) × GaveAll (each_input S.left inputs) taken (each_input S.left result.inputs) }
    ensures read { (side : Side) → result.first ≡ RunEnd.ReadFault side → RoseAt side (each_input S.faults inputs) (each_input S.faults result.inputs) }
    ensures read_good { IsClean result.first → each_input S.faults result.inputs ≡ each_input S.faults inputs }
    ensures reads { NoneFell (each_input S.faults inputs) (each_input S.faults result.inputs) }
    ensures never { result.first ≢ RunEnd.WriteFault }

    // The second query reads to the end only where the first one's text is whole, and is cut off
    // only where that is.
    ensures all { result.second ≡ RunEnd.AllRead → IsWhole result.first }
    ensures cut { (side : Side) → result.second ≡ RunEnd.ReadFault side → IsShort result.first }
    ensures narrow { (task need : ℕ) → result.second ≢ RunEnd.TooWide task need }

    // The second query's stage was stopped where a write failed, maybe where memory lacked, and at
    // no other end. It has no stage only where both lacked memory.
    ensures stopped { SecondStops result.first result.second result.second_stopped }

    // A fault of writing is real, none is passed over, and the count doesn't fall.
    ensures write { result.second ≡ RunEnd.WriteFault → Rose (K.faults sink) (K.faults result.sink) }
    ensures write_good { result.second ≢ RunEnd.WriteFault → K.faults result.sink ≡ K.faults sink }
    ensures writes { K.faults sink ≤ K.faults result.sink }
{
    match Pipe::new(alloc) {
        Ok(mut pipe) => {
            let alone = AtomicBool::new(false);
            let means = Means { rt, alloc, gate };
            run_both::<S, K, G, Brand, R>(&means, plans, inputs, sink, sizes, &mut pipe, &alone)
        }
        Err(_) => Chained {
            first: RunEnd::NoMemory,
            second: RunEnd::NoMemory,
            second_stopped: None,
            inputs,
            sink,
            first_tasks: 0,
            tasks: 0,
        },
    }
}
