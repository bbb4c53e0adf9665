// Several checked plans over one input.
ghost use Rattle.std.specs.Prelude.{◌≡◌, ◌≢◌, ◌≤◌, ◌*◌, ℕ, [], length, IfOk, IfErr};
ghost use Rattle.std.specs.List.{AllByRecursion, AllZip};
ghost use Rattle.saber_plan.specs.declared.rows.Side.TheVariants as sides;
ghost use Rattle.saber_plan.specs.Checked.{IsChecked, columns_on};
ghost use Rattle.saber_plan.specs.Sizes.{SizesFit};
ghost use Rattle.saber_engine.specs.Runs.{RunsPlan};
ghost use Rattle.saber_engine.specs.Sources.{each_input};
ghost use Rattle.saber_engine.specs.Jobs.{tree_in, sink_in};

use crate::ends::Ran;
use crate::jobs::{Job, counts_for};
use crate::kinds::{AnyOperator, operators_for};
use crate::shared_run::run_each;
use crate::spare::keep_freed;
use saber_crew::Means;
use saber_dispatch::Inputs;
use saber_io::{Gate, Pour, Source};
use saber_many::Each;
use saber_plan::{NoMemory, Sizes};
use std::alloc::Global;
use std::collections::VecDeque;
use std::marker::Brand;
use std::sync::Wait;
use std::sync::atomic::AtomicBool;
use std::thread::Threads;

// That none of so many queries has stopped.
fn none_stopped(alloc: Global, count: usize) -> Result<Vec<AtomicBool>, NoMemory> {
    let mut stopped = Vec::new(alloc);
    for _ in 0..count {
        stopped.push(AtomicBool::new(false))?;
    }
    Ok(stopped)
}

/// Runs checked plans of one stream, of as many columns, over one input that is read once, each
/// into its own sink. A task is a task of all, and each has `sizes.threads` threads. One whose sink
/// fails, or for which memory lacks, stops alone. With `sizes.flush` the end of the input is a task
/// of those that have windows.
pub fn engines<'p, S: Source, K: Pour + Send, G: Gate + Sync, R: Threads + Wait + Sync>(
    rt: &R,
    alloc: Global,
    jobs: Vec<Job<'p, K>>,
    inputs: &mut Inputs<S>,
    sizes: &Sizes,
    gate: &G,
) -> Result<VecDeque<Ran<K>>, Vec<Job<'p, K>>>
    requires some { jobs.items ≢ [] }
    requires checked { AllByRecursion (λ job. IsChecked (tree_in job)) jobs.items }
    requires one { AllByRecursion (λ job. length (tree_in job).streams ≡ 1) jobs.items }
    requires alike { (columns : ℕ) × AllByRecursion (λ job. columns_on (tree_in job).streams sides.Left ≡ columns) jobs.items }
    requires inputs { length (each_input S.left inputs.old) ≡ 1 }
    requires sizes { SizesFit sizes.now }
    requires threads { length jobs.items * sizes.now.threads ≤ 64 }

    // Of each query: all that is said of a run of it alone over the same input, into its own sink.
    ensures each { IfOk result (λ rans. AllZip (λ job ran. RunsPlan S.left S.faults K.written K.faults K.writes (tree_in job) sizes.now inputs.old inputs.new (sink_in job) ran) jobs.entry.items rans.items) }

    // Before a row is read, memory may lack for all of them.
    ensures refused { IfErr result (λ back. (back ≡ jobs.entry) × (inputs.new ≡ inputs.old)) }
{
    keep_freed(alloc);
    let Ok(told) = counts_for(alloc, &jobs, sizes) else {
        return Err(jobs);
    };
    let counts = Vec::from(told);
    let Ok(stopped) = none_stopped(alloc, jobs.len()) else {
        return Err(jobs);
    };
    let Ok(operators) = operators_for(alloc, &jobs) else {
        return Err(jobs);
    };
    let each = Each {
        list: Vec::from(operators),
        stopped,
    };
    let means = Means { rt, alloc, gate };
    let result = run_each::<S, AnyOperator<'p>, K, G, Brand, R>(
        &means, &each, &counts, jobs, inputs, sizes,
    );
    let Each {
        list: _list,
        stopped: _stopped,
    } = each;
    result
}
