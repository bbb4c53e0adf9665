// The end of the input as the last task of several queries, of those for which it is one.
ghost use Rattle.std.specs.Prelude.{◌≡◌, length};
ghost use Rattle.std.specs.List.{AllZip};
ghost use Rattle.saber_plan.specs.declared.sizes.Sizes.{Sizes};
ghost use Rattle.saber_engine.specs.LastTasks.{ComesLast, CanTake, Takes, Tells, CanTakeEach, TakesEach};

use saber_assembly::{SaberWork, Stage};
use saber_crew::Over;
use saber_dispatch::Cutter;
use saber_fragment::{Block, Operator};
use saber_io::Pour;
use saber_many::{Each, Member, do_task};
use saber_plan::StageState;
use std::alloc::Global;

/// The block of the end, where all blocks were given and it is due.
pub(crate) fn last_block(cutter: &Cutter, over: Over) -> Option<Block>
    ensures { ComesLast cutter.now over result }
{
    match over {
        Over::AllGiven => cutter.end_block(),
        Over::Stopped => None,
        Over::NoMemory => None,
    }
}

// The end, taken in by one whose stage goes on, if it is a task of it.
fn take_one<O: Operator, K: Pour>(
    alloc: Global,
    operator: &O,
    counts: bool,
    member: &mut Member<Stage<O::Store, K>>,
    block: &Option<Block>,
)
    requires can { CanTake O.plan O.contents O.has_taken K.written K.faults K.writes counts operator.now block.now member.old.stage }
    ensures takes { Takes O.plan O.contents O.has_taken K.written K.faults K.writes counts operator.now block.now member.old.stage member.new.stage }
{
    let Some(block) = block else {
        return;
    };
    if !counts {
        return;
    }
    match member.stage.state() {
        StageState::Running => {
            let _goes = do_task::<SaberWork<O, K>, O>(operator, alloc, &mut member.stage, block);
        }
        StageState::SinkFailed => {}
        StageState::NoMemory => {}
    }
}

// The same of all, in their order.
fn take_each<O: Operator, K: Pour>(
    alloc: Global,
    operators: &[O],
    counts: &[bool],
    members: &mut [Member<Stage<O::Store, K>>],
    block: &Option<Block>,
)
    requires many { length members.old ≡ length operators.now }
    requires can { (s : Sizes) × AllZip (Tells O.plan s) operators.now counts.now × CanTakeEach O.plan O.contents O.has_taken K.written K.faults K.writes s block.now operators.now members.old }
    ensures takes { (s : Sizes) → AllZip (Tells O.plan s) operators.now counts.now → TakesEach O.plan O.contents O.has_taken K.written K.faults K.writes s block.now operators.now members.old members.new }
    ensures many { length members.new ≡ length members.old }
{
    let Some((operator, others)) = operators.split_first() else {
        return;
    };
    let Some((mine, rest)) = counts.split_first() else {
        return;
    };
    let Some((member, more)) = members.split_first_mut() else {
        return;
    };
    take_one::<O, K>(alloc, operator, *mine, member, block);
    take_each::<O, K>(alloc, others, rest, more, block);
}

/// The members of all, behind the end of the input where it comes.
pub(crate) fn take_last<O: Operator, K: Pour>(
    alloc: Global,
    operators: &Each<O>,
    counts: &[bool],
    members: Vec<Member<Stage<O::Store, K>>>,
    block: &Option<Block>,
) -> Vec<Member<Stage<O::Store, K>>>
    requires many { length members.items ≡ length operators.now.list.items }
    requires can { (s : Sizes) × AllZip (Tells O.plan s) operators.now.list.items counts.now × CanTakeEach O.plan O.contents O.has_taken K.written K.faults K.writes s block.now operators.now.list.items members.items }
    ensures takes { (s : Sizes) → AllZip (Tells O.plan s) operators.now.list.items counts.now → TakesEach O.plan O.contents O.has_taken K.written K.faults K.writes s block.now operators.now.list.items members.items result.items }
{
    let mut members = members;
    take_each::<O, K>(alloc, &operators.list, counts, &mut members, block);
    members
}
