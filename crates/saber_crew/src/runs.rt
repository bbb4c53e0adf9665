//! A whole run.
ghost use Rattle.std.specs.Prelude.{◌≡◌, ◌<◌, ◌≤◌, IfErr, IfOk};
ghost use Rattle.saber_crew.specs.Runs.{BeginsRun, RunsOver};

use crate::crew::crew;
use crate::dispatch::Dispatched;
use crate::leader::Leader;
use crate::means::Means;
use crate::supply::Supply;
use saber_core::Work;
use saber_io::Gate;
use saber_plan::Sizes;
use saber_ring::{FixedData, Ring, Seat};
use saber_workers::{Bench, Labor};
use std::sync::Wait;
use std::sync::atomic::AtomicBool;
use std::thread::Threads;

/// Does the tasks of this supply by so many threads beside the caller's, and gives the stage back.
/// Where memory lacks for the ring, all is as it was.
pub fn run<
    W: Work + Send + Sync,
    L: Labor<W> + Sync,
    G: Gate + Sync,
    P: Supply<W>,
    J: FixedData<W::Data>,
    R: Threads + Wait + Sync,
>(
    means: &Means<'_, G, R>,
    op: &L,
    supply: &mut P,
    from: &mut P::From,
    stage: W::Stage,
    sizes: &Sizes,
) -> Result<(W::Stage, Dispatched), W::Stage>
where
    W::Rows: Drop + Send,
    W::Piece: Drop + Send,
    W::Stage: Send,
    L::Draft: Send,
    requires begins { BeginsRun W.is_told W.is_stage (L.suits op.now) (P.has_given supply.old from.old) stage J.told }
    requires size { (0 < sizes.now.ring) × (sizes.now.ring ≤ 1024) }
    ensures ended { IfOk result (λ r. RunsOver W.is_told W.upto W.is_stage (P.has_given supply.new from.new) (P.is_over supply.new) J.told r.0 r.1) }
    ensures helpers { IfOk result (λ r. r.1.helpers ≡ sizes.now.threads) }
    ensures refused { IfErr result (λ back. (back ≡ stage) × (supply.new ≡ supply.old) × (from.new ≡ from.old)) }
{
    let (ring, seat) = match Ring::<W>::new::<J>(means.alloc, sizes.ring, stage) {
        Ok(made) => made,
        Err((_, stage)) => return Err(stage),
    };
    let stop = AtomicBool::new(false);
    let bench = Bench {
        rt: means.rt,
        alloc: means.alloc,
        ring: &ring,
        op,
        gate: means.gate,
        stop: &stop,
    };
    let mut leader = Leader::new(&bench, seat);
    let dispatched = crew::<W, L, G, P, Seat<W>, R>(
        &bench,
        &mut leader,
        sizes.threads,
        supply,
        from,
        sizes.threads == 0,
        0,
    );
    let mut seat = leader.into_seat();
    bench.work_alone(&mut seat, dispatched.tasks);
    let Bench {
        rt: _,
        alloc: _,
        ring: _,
        op: _,
        gate: _,
        stop: _,
    } = bench;
    Ok((ring.finish(seat), dispatched))
}
