// The engine: a plan over its inputs.
ghost use Rattle.std.specs.Prelude.{◌≡◌, length};
ghost use Rattle.saber_plan.specs.Trees.{tree_of};
ghost use Rattle.saber_plan.specs.Sizes.{SizesFit};
ghost use Rattle.saber_engine.specs.Sources.{each_input};
ghost use Rattle.saber_engine.specs.Runs.{RunsPlan};

use crate::ends::Ran;
use crate::kinds::{AnyOperator, operator_of};
use crate::plans::run_plan;
use crate::spare::keep_freed;
use saber_crew::Means;
use saber_dispatch::Inputs;
use saber_io::{Gate, Plain, Pour, Sink, Source};
use saber_plan::{Plan, Sizes};
use std::alloc::Global;
use std::marker::Brand;
use std::sync::Wait;
use std::thread::Threads;

/// Runs a plan over its inputs: cuts the rows into tasks of `sizes.task` rows, has the
/// piece of each made by this thread and `sizes.threads` others round a ring of at most
/// `sizes.ring` cells, and assembles the pieces in order; the text of each task goes out in one
/// write. The sink may hold back what was written: it is told to let that go as each task is
/// assembled. Each fact is a field of `RunsPlan` (specs/Runs.antt), by which documents cite it.
pub fn engine_pouring<S: Source, K: Pour + Send, G: Gate + Sync, R: Threads + Wait + Sync>(
    rt: &R,
    alloc: Global,
    plan: &Plan,
    inputs: &mut Inputs<S>,
    sink: K,
    sizes: &Sizes,
    gate: &G,
) -> Ran<K>
    requires inputs { length (each_input S.left inputs.old) ≡ length (tree_of plan.now).streams }
    requires sizes { SizesFit sizes.now }
    ensures { RunsPlan S.left S.faults K.written K.faults K.writes (tree_of plan.now) sizes.now inputs.old inputs.new sink result }
{
    keep_freed(alloc);
    let operator = operator_of(plan);
    let means = Means { rt, alloc, gate };
    run_plan::<S, AnyOperator<'_>, K, G, Brand, R>(&means, &operator, plan, inputs, sink, sizes)
}

/// The same into a sink that holds nothing back.
pub fn engine<S: Source, K: Sink + Send, G: Gate + Sync, R: Threads + Wait + Sync>(
    rt: &R,
    alloc: Global,
    plan: &Plan,
    inputs: &mut Inputs<S>,
    sink: K,
    sizes: &Sizes,
    gate: &G,
) -> Ran<K>
    requires inputs { length (each_input S.left inputs.old) ≡ length (tree_of plan.now).streams }
    requires sizes { SizesFit sizes.now }
    ensures { RunsPlan S.left S.faults K.written K.faults K.writes (tree_of plan.now) sizes.now inputs.old inputs.new sink result }
{
    let ran = engine_pouring(rt, alloc, plan, inputs, Plain { sink }, sizes, gate);
    let Ran {
        end,
        sink: Plain { sink },
        tasks,
        stopped,
    } = ran;
    Ran {
        end,
        sink,
        tasks,
        stopped,
    }
}
