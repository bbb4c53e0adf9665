// A run of several operators over one input.
ghost use Rattle.std.specs.Prelude.{◌≡◌, ◌≢◌, ◌≤◌, ◌<◌, ◌*◌, ℕ, [], length, None, IfOk, IfErr};
ghost use Rattle.std.specs.List.{AllByRecursion, AllZip};
ghost use Rattle.std.specs.VecDeque.{deque_len, deque_capacity};
ghost use Rattle.saber_plan.specs.Sizes.{SizesFit};
ghost use Rattle.saber_dispatch.specs.Cutting.{CutsNothing, end_counts, end_of};
ghost use Rattle.saber_dispatch.specs.Ending.{without_end};
ghost use Rattle.saber_engine.specs.Jobs.{tree_in, sink_in, MayShare, KeepsNone};
ghost use Rattle.saber_engine.specs.Runs.{RunsPlan};
ghost use Rattle.saber_engine.specs.Sources.{each_input};

use crate::blocks::Begins;
use crate::dealt::Dealt;
use crate::ends::Ran;
use crate::jobs::{Job, begin_all, end_all, rooms};
use crate::last_task::{last_block, take_last};
use crate::ring_size::near_size;
use saber_assembly::{SaberWork, Stage};
use saber_crew::{Means, Over, run};
use saber_dispatch::Inputs;
use saber_fragment::Operator;
use saber_io::{Gate, Pour, Source};
use saber_many::{Each, Many, Member};
use saber_plan::Sizes;
use std::collections::VecDeque;
use std::marker::Brand;
use std::sync::Wait;
use std::thread::Threads;

// The sizes of the run of so many queries: each has its threads.
fn sizes_for(sizes: &Sizes, count: usize) -> Sizes
    requires sizes { SizesFit sizes.now }
    requires threads { count * sizes.now.threads ≤ 64 }
    ensures task { result.task ≡ sizes.now.task }
    ensures ring { (0 < result.ring) × (result.ring ≤ 1024) }
    ensures threads { result.threads ≡ count * sizes.now.threads }
{
    let threads = (count * sizes.threads as usize) as u32;
    Sizes {
        ring: near_size(sizes, threads),
        threads,
        ..*sizes
    }
}

// What queries have before they begin: room for their stages, and for how they end, and their
// blocks.
struct Begun<S, J, T, K> {
    members: VecDeque<Member<Stage<T, K>>>,
    rans: VecDeque<Ran<K>>,
    dealt: Dealt<S, J>,
}

// Runs them over blocks that are dealt to each, of which none was given.
fn run_dealt<
    S: Source,
    O: Operator + Send + Sync,
    K: Pour + Send,
    G: Gate + Sync,
    J: Begins,
    R: Threads + Wait + Sync,
>(
    means: &Means<'_, G, R>,
    operators: &Each<O>,
    counts: &[bool],
    jobs: Vec<Job<'_, K>>,
    begun: Begun<S, J, O::Store, K>,
    inputs: &mut Inputs<S>,
    sizes: &Sizes,
) -> VecDeque<Ran<K>>
where
    O::Draft: Send,
    O::Piece: Send,
    O::Store: Send,
    requires some { jobs.items ≢ [] }
    requires plans { AllZip (λ op job. O.plan op ≡ tree_in job) operators.now.list.items jobs.items }
    requires counts { AllZip (λ job e. e ≡ end_counts (tree_in job) sizes.now) jobs.items counts.now }
    requires share { (columns : ℕ) × AllByRecursion (λ job. MayShare columns (tree_in job)) jobs.items }
    requires inputs { length (each_input S.left inputs.old) ≡ 1 }
    requires sizes { SizesFit sizes.now }
    requires threads { length jobs.items * sizes.now.threads ≤ 64 }
    requires begins { (J.sizes ≡ without_end sizes.now) × (J.lefts ≡ each_input S.left inputs.old) × (J.faults ≡ each_input S.faults inputs.old) }
    requires cuts { AllByRecursion (λ job. CutsNothing (tree_in job) (without_end sizes.now) begun.dealt.cutter) jobs.items }
    requires goes { end_of begun.dealt.cutter ≡ None }
    requires keepers { AllZip (λ job k. KeepsNone (tree_in job) k) jobs.items begun.dealt.keepers.items }
    requires goes_on { begun.dealt.end ≡ None }
    requires none { (begun.members.items ≡ []) × (deque_len begun.members ≡ 0) × (begun.rans.items ≡ []) × (deque_len begun.rans ≡ 0) }
    requires room { (length jobs.items ≤ deque_capacity begun.members) × (length jobs.items ≤ deque_capacity begun.rans) }
    ensures { AllZip (λ job ran. RunsPlan S.left S.faults K.written K.faults K.writes (tree_in job) sizes.now inputs.old inputs.new (sink_in job) ran) jobs.entry.items result.items }
{
    let threads = sizes_for(sizes, jobs.as_slice().len());
    let alloc = means.alloc;
    let Begun {
        members,
        rans,
        mut dealt,
    } = begun;
    let members = begin_all(alloc, operators, jobs, members);
    let ran = run::<Many<SaberWork<O, K>>, Each<O>, G, Dealt<S, J>, Brand, R>(
        means, operators, &mut dealt, inputs, members, &threads,
    );
    match ran {
        Ok((members, fed)) => {
            let last = last_block(&dealt.cutter, fed.over);
            let members = take_last::<O, K>(alloc, operators, counts, members, &last);
            let over = dealt.let_go();
            end_all(members, fed.over, over, rans)
        }
        Err(members) => {
            let _over = dealt.let_go();
            end_all(members, Over::NoMemory, None, rans)
        }
    }
}

/// Runs the operators of checked plans of one stream over one input that is read once, each into
/// its own sink; `counts` tells of which the end of the input is a task. `J` names what there was
/// when it began. Where memory lacks for what they have before they begin, the queries come back.
pub(crate) fn run_each<
    'p,
    S: Source,
    O: Operator + Send + Sync,
    K: Pour + Send,
    G: Gate + Sync,
    J: Begins,
    R: Threads + Wait + Sync,
>(
    means: &Means<'_, G, R>,
    operators: &Each<O>,
    counts: &[bool],
    jobs: Vec<Job<'p, K>>,
    inputs: &mut Inputs<S>,
    sizes: &Sizes,
) -> Result<VecDeque<Ran<K>>, Vec<Job<'p, K>>>
where
    O::Draft: Send,
    O::Piece: Send,
    O::Store: Send,
    requires some { jobs.items ≢ [] }
    requires plans { AllZip (λ op job. O.plan op ≡ tree_in job) operators.now.list.items jobs.items }
    requires counts { AllZip (λ job e. e ≡ end_counts (tree_in job) sizes.now) jobs.items counts.now }
    requires share { (columns : ℕ) × AllByRecursion (λ job. MayShare columns (tree_in job)) jobs.items }
    requires inputs { length (each_input S.left inputs.old) ≡ 1 }
    requires sizes { SizesFit sizes.now }
    requires threads { length jobs.items * sizes.now.threads ≤ 64 }
    requires begins { (J.sizes ≡ without_end sizes.now) × (J.lefts ≡ each_input S.left inputs.old) × (J.faults ≡ each_input S.faults inputs.old) }
    ensures each { IfOk result (λ rans. AllZip (λ job ran. RunsPlan S.left S.faults K.written K.faults K.writes (tree_in job) sizes.now inputs.old inputs.new (sink_in job) ran) jobs.entry.items rans.items) }
    ensures refused { IfErr result (λ back. (back ≡ jobs.entry) × (inputs.new ≡ inputs.old)) }
{
    let alloc = means.alloc;
    let Ok((members, rans)) = rooms(alloc, &jobs) else {
        return Err(jobs);
    };
    match Dealt::<S, J>::new(alloc, &jobs, sizes) {
        Ok(dealt) => {
            let begun = Begun {
                members,
                rans,
                dealt,
            };
            Ok(run_dealt(means, operators, counts, jobs, begun, inputs, sizes))
        }
        Err(_) => {
            members.destroy_empty();
            rans.destroy_empty();
            Err(jobs)
        }
    }
}
