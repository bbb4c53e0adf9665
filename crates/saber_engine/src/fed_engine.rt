// The engine over a feed: a plan of one stream.
ghost use Rattle.std.specs.Prelude.{◌≡◌, length};
ghost use Rattle.saber_plan.specs.Trees.{tree_of};
ghost use Rattle.saber_plan.specs.Sizes.{SizesFit};
ghost use Rattle.saber_engine.specs.Runs.{RunsFed};

use crate::ends::Ran;
use crate::fed_plans::run_fed;
use crate::kinds::{AnyOperator, operator_of};
use crate::spare::keep_freed;
use saber_crew::Means;
use saber_io::{Feed, Gate, Plain, Sink};
use saber_plan::{Plan, Sizes};
use std::alloc::Global;
use std::marker::Brand;
use std::sync::Wait;
use std::thread::Threads;

/// Runs a plan of one stream over a feed, of which nothing was given yet. Where the feed
/// has nothing as yet, this thread works with the others, and pauses where there is no work. Each
/// fact is a field of `RunsFed` (specs/Runs.antt), by which documents cite it.
pub fn engine_fed<F: Feed, K: Sink + Send, G: Gate + Sync, R: Threads + Wait + Sync>(
    rt: &R,
    alloc: Global,
    plan: &Plan,
    feed: &mut F,
    sink: K,
    sizes: &Sizes,
    gate: &G,
) -> Ran<K>
    requires one { length (tree_of plan.now).streams ≡ 1 }
    requires sizes { SizesFit sizes.now }
    requires fresh { F.waiting feed.old ≡ F.taken feed.old }
    ensures { RunsFed F.taken F.mark F.faults K.written K.faults K.writes (tree_of plan.now) sizes.now feed.old feed.new sink result }
{
    keep_freed(alloc);
    let operator = operator_of(plan);
    let means = Means { rt, alloc, gate };
    let ran = run_fed::<F, AnyOperator<'_>, Plain<K>, G, Brand, R>(
        &means,
        &operator,
        plan,
        feed,
        Plain { sink },
        sizes,
    );
    let Ran {
        end,
        sink: Plain { sink },
        tasks,
        stopped,
    } = ran;
    Ran {
        end,
        sink,
        tasks,
        stopped,
    }
}
