// Several queries of one input, each with its sink.
ghost use Rattle.std.specs.Prelude.{◌≡◌, ◌≤◌, [], length, IfOk};
ghost use Rattle.std.specs.List.{AllByRecursion, AllZip};
ghost use Rattle.std.specs.VecDeque.{deque_len, deque_capacity};
ghost use Rattle.saber_plan.specs.Checked.{IsChecked};
ghost use Rattle.saber_dispatch.specs.Cutting.{end_counts};
ghost use Rattle.saber_many.specs.Laws.{AllThree};
ghost use Rattle.saber_engine.specs.Jobs.{tree_in, sink_in, KeepsNone, Stands, EndsAs};

use crate::ends::{Ran, ended};
use saber_assembly::Stage;
use saber_crew::Over;
use saber_dispatch::{End, Keeper, end_counts};
use saber_fragment::Operator;
use saber_io::Sink;
use saber_many::{Each, Member};
use saber_plan::{NoMemory, Plan, Sizes};
use std::alloc::Global;
use std::collections::VecDeque;

/// A query of several over one input: its checked plan, and where its answer goes.
#[derive(Drop)]
pub struct Job<'p, K> {
    pub plan: &'p Plan,
    pub sink: K,
}

/// A keeper for each query, in their order.
pub(crate) fn keepers_for<K>(
    alloc: Global,
    jobs: &[Job<'_, K>],
    sizes: &Sizes,
) -> Result<VecDeque<Keeper>, NoMemory>
    requires checked { AllByRecursion (λ job. IsChecked (tree_in job)) jobs.now }
    ensures none { IfOk result (λ keepers. AllZip (λ job k. KeepsNone (tree_in job) k) jobs.now keepers.items) }
{
    let Some((job, others)) = jobs.split_first() else {
        return Ok(VecDeque::new(alloc));
    };
    let keeper = Keeper::new(alloc, job.plan, sizes)?;
    let mut keepers = keepers_for(alloc, others, sizes)?;
    keepers.push_front(keeper)?;
    Ok(keepers)
}

/// Whether the end of the input is a task of each query, in their order.
pub(crate) fn counts_for<K>(
    alloc: Global,
    jobs: &[Job<'_, K>],
    sizes: &Sizes,
) -> Result<VecDeque<bool>, NoMemory>
    requires checked { AllByRecursion (λ job. IsChecked (tree_in job)) jobs.now }
    ensures tell { IfOk result (λ counts. AllZip (λ job e. e ≡ end_counts (tree_in job) sizes.now) jobs.now counts.items) }
{
    let Some((job, others)) = jobs.split_first() else {
        return Ok(VecDeque::new(alloc));
    };
    let mine = end_counts(job.plan, sizes);
    let mut counts = counts_for(alloc, others, sizes)?;
    counts.push_front(mine)?;
    Ok(counts)
}

// Two queues with room for as many as there are queries.
pub(crate) fn rooms<K, A, B>(
    alloc: Global,
    jobs: &[Job<'_, K>],
) -> Result<(VecDeque<A>, VecDeque<B>), NoMemory>
    ensures none { IfOk result (λ r. (r.0.items ≡ []) × (deque_len r.0 ≡ 0) × (r.1.items ≡ []) × (deque_len r.1 ≡ 0)) }
    ensures room { IfOk result (λ r. (length jobs.now ≤ deque_capacity r.0) × (length jobs.now ≤ deque_capacity r.1)) }
{
    let first = VecDeque::with_capacity(alloc, jobs.len())?;
    match VecDeque::with_capacity(alloc, jobs.len()) {
        Ok(second) => Ok((first, second)),
        Err(lacks) => {
            first.destroy_empty();
            Err(lacks)
        }
    }
}

// A member for each query, in their order, that goes on and has its sink. There is room for all.
fn begin_each<O: Operator, K: Sink>(
    alloc: Global,
    operators: &[O],
    jobs: &mut VecDeque<Job<'_, K>>,
    members: &mut VecDeque<Member<Stage<O::Store, K>>>,
)
    requires many { length jobs.old.items ≡ length operators.now }
    requires none { (members.old.items ≡ []) × (deque_len members.old ≡ 0) }
    requires room { length operators.now ≤ deque_capacity members.old }
    ensures stand { AllThree (λ op job m. Stands O.plan O.contents O.has_taken K.written K.faults K.writes op (sink_in job) m) operators.now jobs.old.items members.new.items }
    ensures taken { deque_len jobs.new ≡ 0 }
    ensures len { deque_len members.new ≡ length operators.now }
    ensures room { deque_capacity members.new ≡ deque_capacity members.old }
{
    let Some(job) = jobs.pop_front() else {
        return;
    };
    let Some((operator, others)) = operators.split_first() else {
        unreachable!()
    };
    let Job { plan: _plan, sink } = job;
    begin_each(alloc, others, jobs, members);
    members.push_front_reserved(Member {
        stage: Stage::new(alloc, operator, sink),
        goes: true,
    });
}

/// The members of all, in an empty queue that has room.
pub(crate) fn begin_all<O: Operator, K: Sink>(
    alloc: Global,
    operators: &Each<O>,
    jobs: Vec<Job<'_, K>>,
    members: VecDeque<Member<Stage<O::Store, K>>>,
) -> Vec<Member<Stage<O::Store, K>>>
    requires many { length jobs.items ≡ length operators.now.list.items }
    requires none { (members.items ≡ []) × (deque_len members ≡ 0) }
    requires room { length operators.now.list.items ≤ deque_capacity members }
    ensures stand { AllThree (λ op job m. Stands O.plan O.contents O.has_taken K.written K.faults K.writes op (sink_in job) m) operators.now.list.items jobs.entry.items result.items }
{
    let mut jobs = VecDeque::from_vec(jobs);
    let mut members = members;
    begin_each(alloc, &operators.list, &mut jobs, &mut members);
    jobs.destroy_empty();
    Vec::from(members)
}

// How the run of each ended, in their order. There is room for all.
fn end_each<S: Drop, K: Sink>(
    members: &mut VecDeque<Member<Stage<S, K>>>,
    over: Over,
    end: Option<End>,
    rans: &mut VecDeque<Ran<K>>,
)
    requires none { (rans.old.items ≡ []) × (deque_len rans.old ≡ 0) }
    requires room { length members.old.items ≤ deque_capacity rans.old }
    ensures ends { AllZip (EndsAs over end) members.old.items rans.new.items }
    ensures taken { deque_len members.new ≡ 0 }
    ensures len { deque_len rans.new ≡ length members.old.items }
    ensures room { deque_capacity rans.new ≡ deque_capacity rans.old }
{
    let Some(member) = members.pop_front() else {
        return;
    };
    let Member { stage, goes: _goes } = member;
    end_each(members, over, end, rans);
    rans.push_front_reserved(ended(stage, over, end));
}

/// How the runs of all ended, in an empty queue that has room.
pub(crate) fn end_all<S: Drop, K: Sink>(
    members: Vec<Member<Stage<S, K>>>,
    over: Over,
    end: Option<End>,
    rans: VecDeque<Ran<K>>,
) -> VecDeque<Ran<K>>
    requires none { (rans.items ≡ []) × (deque_len rans ≡ 0) }
    requires room { length members.items ≤ deque_capacity rans }
    ensures ends { AllZip (EndsAs over end) members.items result.items }
{
    let mut members = VecDeque::from_vec(members);
    let mut rans = rans;
    end_each(&mut members, over, end, &mut rans);
    members.destroy_empty();
    rans
}
