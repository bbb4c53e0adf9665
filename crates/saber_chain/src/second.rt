// The second query of a chain, which reads from the pipe.
ghost use Rattle.std.specs.Prelude.{◌≡◌, ◌≢◌, ◌≤◌, None, length};
ghost use Rattle.saber_plan.specs.Outputs.{Rose};
ghost use Rattle.saber_pipe.specs.PipeFeeds.{taken, waiting};
ghost use Rattle.saber_pipe.specs.Relays.{taken_by, mark_in};
ghost use Rattle.saber_plan.specs.Trees.{tree_of};
ghost use Rattle.saber_plan.specs.Checked.{IsChecked};
ghost use Rattle.saber_plan.specs.Sizes.{SizesFit};
ghost use Rattle.saber_plan.specs.declared.ends.RunEnd.{RunEnd};
ghost use Rattle.saber_engine.specs.Endings.{MayStop};
ghost use Rattle.saber_chain.specs.Seconds.{second_sizes, RunsSecondTo};

use saber_engine::{Means, Ran, engine_fed};
use saber_io::{Gate, Sink};
use saber_pipe::{Backlog, PipeFeed, PipeName, Relay};
use saber_plan::{Plan, Sizes};
use std::sync::Wait;
use std::thread::Threads;

// As many lines as a file may have at most.
const MOST_LINES: u64 = 1 << 40;

// The second query takes all lines of the first, none of them late.
fn second_sizes(sizes: &Sizes) -> Sizes
    ensures { result ≡ second_sizes sizes.now }
{
    Sizes {
        max_lines: MOST_LINES,
        slack: 0,
        flush: false,
        ..*sizes
    }
}

/// What comes back of the second query's run: how it ended, and the end of the pipe that it read
/// from.
#[derive(Drop)]
pub(crate) struct SecondRan<'a, K, R: Wait, P: PipeName> {
    pub(crate) ran: Ran<K>,
    pub(crate) relay: Relay<'a, R, P>,
}

/// Runs the second query over what comes through the pipe, and over what the first one left behind,
/// if it has ended. Behind the end of its run it takes what still comes, up to the mark, so that
/// the first query doesn't wait for room.
pub(crate) fn run_second<'a, K: Sink + Send, G: Gate + Sync, P: PipeName, R: Threads + Wait + Sync>(
    means: &Means<'_, G, R>,
    plan: &Plan,
    feed: PipeFeed<'a, R, P>,
    backlog: Option<Backlog<'a, P>>,
    sink: K,
    sizes: &Sizes,
) -> SecondRan<'a, K, R, P>
    requires checked { IsChecked (tree_of plan.now) }
    requires one { length (tree_of plan.now).streams ≡ 1 }
    requires sizes { SizesFit sizes.now }
    requires fresh { waiting feed ≡ taken feed }
    ensures runs { RunsSecondTo K.written K.writes (tree_of plan.now) sizes.now (taken_by result.relay) (mark_in result.relay) sink result.ran }
    ensures write { result.ran.end ≡ RunEnd.WriteFault → Rose (K.faults sink) (K.faults result.ran.sink) }
    ensures write_good { result.ran.end ≢ RunEnd.WriteFault → K.faults result.ran.sink ≡ K.faults sink }
    ensures writes { K.faults sink ≤ K.faults result.ran.sink }
    ensures stopped { MayStop result.ran.end result.ran.stopped }

    // It took what came up to the mark, so that the first query waits for no room.
    ensures over { mark_in result.relay ≢ None }
{
    let mut relay = Relay::new(feed, backlog);
    let ran = engine_fed(
        means.rt,
        means.alloc,
        plan,
        &mut relay,
        sink,
        &second_sizes(sizes),
        means.gate,
    );
    relay.drain();
    SecondRan { ran, relay }
}
