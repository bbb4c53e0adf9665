// A run of one operator.
ghost use Rattle.std.specs.Prelude.{◌≡◌, length};
ghost use Rattle.saber_plan.specs.Trees.{tree_of};
ghost use Rattle.saber_plan.specs.Sizes.{SizesFit};
ghost use Rattle.saber_engine.specs.Sources.{each_input};
ghost use Rattle.saber_engine.specs.Runs.{RunsPlan};

use crate::blocks::{Begins, Blocks};
use crate::ends::{Ran, ended};
use crate::ring_size::ring_size;
use saber_assembly::{SaberWork, Stage};
use saber_crew::{Means, Over, run};
use saber_dispatch::Inputs;
use saber_fragment::Operator;
use saber_io::{Gate, Pour, Source};
use saber_plan::{Plan, Sizes};
use std::marker::Brand;
use std::sync::Wait;
use std::thread::Threads;

/// Runs the operator of a plan over the plan's inputs. `J` names what there was when it
/// began.
pub(crate) fn run_plan<
    S: Source,
    O: Operator + Send + Sync,
    K: Pour + Send,
    G: Gate + Sync,
    J: Begins,
    R: Threads + Wait + Sync,
>(
    means: &Means<'_, G, R>,
    operator: &O,
    plan: &Plan,
    inputs: &mut Inputs<S>,
    sink: K,
    sizes: &Sizes,
) -> Ran<K>
where
    O::Draft: Send,
    O::Piece: Send,
    O::Store: Send,
    requires plan { O.plan operator.now ≡ tree_of plan.now }
    requires inputs { length (each_input S.left inputs.old) ≡ length (tree_of plan.now).streams }
    requires sizes { SizesFit sizes.now }
    requires begins { (J.sizes ≡ sizes.now) × (J.lefts ≡ each_input S.left inputs.old) × (J.faults ≡ each_input S.faults inputs.old) }
    ensures { RunsPlan S.left S.faults K.written K.faults K.writes (tree_of plan.now) sizes.now inputs.old inputs.new sink result }
{
    let ring = ring_size(plan, sizes);
    let alloc = means.alloc;
    let stage = Stage::new(alloc, operator, sink);
    let Ok(begun) = Blocks::<S, J>::new(alloc, plan, sizes) else {
        return ended(stage, Over::NoMemory, None);
    };
    let mut blocks = begun;
    let ran = run::<SaberWork<O, K>, O, G, Blocks<S, J>, Brand, R>(
        means,
        operator,
        &mut blocks,
        inputs,
        stage,
        &Sizes { ring, ..*sizes },
    );
    let end = blocks.let_go();
    match ran {
        Ok((stage, fed)) => ended(stage, fed.over, end),
        Err(stage) => ended(stage, Over::NoMemory, None),
    }
}
