// What both runs of a chain come to.
ghost use Rattle.std.specs.Prelude.{◌≡◌, Some};
ghost use Rattle.saber_pipe.specs.Relays.{taken_by, mark_in};
ghost use Rattle.saber_pipe.specs.Receipts.{written_by, mark_by, Settled};
ghost use Rattle.saber_chain.specs.Marks.{mark_after};

use crate::Chained;
use crate::second::SecondRan;
use saber_engine::{Inputs, RunEnd};
use saber_pipe::{PipeName, Receipt};
use std::sync::Wait;

// How the first query's run ended, with its inputs.
#[derive(Drop)]
pub(crate) struct FirstEnd<S> {
    pub(crate) inputs: Inputs<S>,
    pub(crate) end: RunEnd,
    pub(crate) tasks: u64,
}

/// The chain that both runs make. The second query has read a front of what the first one wrote,
/// and all of it where it took the mark.
pub(crate) fn settle<S, K, P: PipeName, R: Wait>(
    first: FirstEnd<S>,
    receipt: Receipt<P>,
    second: SecondRan<'_, K, R, P>,
) -> Chained<S, K>
    requires mark { mark_by receipt ≡ Some (mark_after first.end) }
    ensures ends { (result.first ≡ first.end) × (result.second ≡ second.entry.ran.end) }
    ensures stopped { result.second_stopped ≡ Some second.entry.ran.stopped }
    ensures tasks { (result.first_tasks ≡ first.tasks) × (result.tasks ≡ second.entry.ran.tasks) }
    ensures given_back { (result.inputs ≡ first.inputs) × (result.sink ≡ second.entry.ran.sink) }
    ensures settled { Settled (written_by receipt) (Some (mark_after result.first)) (taken_by second.entry.relay) (mark_in second.entry.relay) }
{
    let SecondRan { ran, relay } = second;
    relay.settle(receipt);
    Chained {
        first: first.end,
        second: ran.end,
        second_stopped: Some(ran.stopped),
        inputs: first.inputs,
        sink: ran.sink,
        first_tasks: first.tasks,
        tasks: ran.tasks,
    }
}
