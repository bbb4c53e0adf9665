// A run of one operator over a feed.
ghost use Rattle.std.specs.Prelude.{◌≡◌, length};
ghost use Rattle.saber_plan.specs.Trees.{tree_of};
ghost use Rattle.saber_plan.specs.Sizes.{SizesFit};
ghost use Rattle.saber_engine.specs.Runs.{RunsFed};

use crate::ends::{Ran, ended};
use crate::fed_blocks::{BeginsFed, FedBlocks};
use crate::ring_size::ring_size;
use saber_assembly::{SaberWork, Stage};
use saber_crew::{Means, Over, run};
use saber_fragment::Operator;
use saber_io::{Feed, Gate, Pour};
use saber_plan::{Plan, Sizes};
use std::marker::Brand;
use std::sync::Wait;
use std::thread::Threads;

/// Runs the operator of a plan of one stream over a feed. `J` names what there was when it
/// began.
pub(crate) fn run_fed<
    F: Feed,
    O: Operator + Send + Sync,
    K: Pour + Send,
    G: Gate + Sync,
    J: BeginsFed,
    R: Threads + Wait + Sync,
>(
    means: &Means<'_, G, R>,
    operator: &O,
    plan: &Plan,
    feed: &mut F,
    sink: K,
    sizes: &Sizes,
) -> Ran<K>
where
    O::Draft: Send,
    O::Piece: Send,
    O::Store: Send,
    requires plan { O.plan operator.now ≡ tree_of plan.now }
    requires one { length (tree_of plan.now).streams ≡ 1 }
    requires sizes { SizesFit sizes.now }
    requires fresh { F.waiting feed.old ≡ F.taken feed.old }
    requires begins { (J.sizes ≡ sizes.now) × (J.faults ≡ F.faults feed.old) }
    ensures { RunsFed F.taken F.mark F.faults K.written K.faults K.writes (tree_of plan.now) sizes.now feed.old feed.new sink result }
{
    let ring = ring_size(plan, sizes);
    let alloc = means.alloc;
    let stage = Stage::new(alloc, operator, sink);
    let Ok(begun) = FedBlocks::<F, J>::new(alloc, plan, sizes) else {
        return ended(stage, Over::NoMemory, None);
    };
    let mut blocks = begun;
    let ran = run::<SaberWork<O, K>, O, G, FedBlocks<F, J>, Brand, R>(
        means,
        operator,
        &mut blocks,
        feed,
        stage,
        &Sizes { ring, ..*sizes },
    );
    let end = blocks.let_go();
    match ran {
        Ok((stage, fed)) => ended(stage, fed.over, end),
        Err(stage) => ended(stage, Over::NoMemory, None),
    }
}
