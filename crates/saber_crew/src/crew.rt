//! Threads round the first seat.
ghost use Rattle.std.specs.Prelude.{◌≡◌, ◌+◌, ◌^◌, ◌<◌, Option};
ghost use Rattle.std.specs.Thread.{IsSync};
ghost use Rattle.saber_ring.specs.Words.{table_of};
ghost use Rattle.saber_workers.specs.Seats.{OfBase};
ghost use Rattle.saber_crew.specs.Spares.{CanHelp};
ghost use Rattle.saber_crew.specs.Dispatches.{BeginsDispatch, EndsDispatch};
ghost use Rattle.saber_crew.specs.Leaders.{SameRing};

use crate::dispatch::Dispatched;
use crate::leader::Leader;
use crate::spare::Spare;
use crate::supply::Supply;
use saber_core::Work;
use saber_io::Gate;
use saber_workers::{Bench, Labor};
use std::sync::Wait;
use std::sync::atomic::Ordering;
use std::thread::{Threads, join_mut};

// The caller's own part: fills the ring, sets `stop`, and hands in what it still has in hand.
fn lead<W: Work, L: Labor<W>, G: Gate, P: Supply<W>, R: Wait>(
    leader: &mut Leader<'_, W, L, G, R>,
    supply: &mut P,
    from: &mut P::From,
    is_alone: bool,
    helpers: u32,
) -> Dispatched
where
    W::Rows: Drop,
    requires begins { BeginsDispatch W.is_told W.upto (P.has_given supply.old from.old) leader.old.seat.lead }
    ensures same { SameRing leader.old leader.new }
    ensures ends { EndsDispatch W.is_told W.upto (P.has_given supply.new from.new) (P.is_over supply.new) leader.old.seat leader.new.seat helpers result }
{
    let dispatched = leader.dispatch(supply, from, is_alone, helpers);
    leader.bench().stop.store(true, Ordering::SeqCst);
    leader.hand_in();
    dispatched
}

/// Starts so many threads beside those that were asked for, fills the ring, sets `stop`, and takes
/// the threads' seats in. Where a thread can't be made, its part comes last, and ends at once.
pub(crate) fn crew<
    W: Work + Send + Sync,
    L: Labor<W> + Sync,
    G: Gate + Sync,
    P: Supply<W>,
    T: Spare<W>,
    R: Threads + Wait + Sync,
>(
    bench: &Bench<'_, W, L, G, R>,
    leader: &mut Leader<'_, W, L, G, R>,
    threads: u32,
    supply: &mut P,
    from: &mut P::From,
    is_alone: bool,
    asked: u32,
) -> Dispatched
where
    W::Rows: Drop + Send,
    W::Piece: Send,
    W::Stage: Send,
    L::Draft: Send,
    requires table { leader.old.table ≡ table_of bench.now.ring.now }
    requires suits { OfBase (L.suits bench.now.op.now) leader.old.seat.base }
    requires begins { BeginsDispatch W.is_told W.upto (P.has_given supply.old from.old) leader.old.seat.lead }
    requires helpers { asked + threads < 2 ^ 32 }
    ensures same { SameRing leader.old leader.new }
    ensures ends { EndsDispatch W.is_told W.upto (P.has_given supply.new from.new) (P.is_over supply.new) leader.old.seat leader.new.seat (asked + threads) result }
{
    if threads == 0 {
        return lead(leader, supply, from, is_alone, asked);
    }
    let less = threads - 1;
    let more = asked + 1;
    let mut theirs: T = leader.part();
    let (_, dispatched) = join_mut(
        bench.rt,
        &mut || -> ()
            requires sync { IsSync R.row }
            requires spare { CanHelp (T.is_spare theirs (table_of bench.now.ring.now)) (L.suits bench.now.op.now) }
            ensures spare { (base : Option W.Data) → T.is_spare theirs.entry (table_of bench.entry.now.ring.now) base
                → T.is_spare theirs.exit (table_of bench.entry.now.ring.now) base }
        { theirs.help(bench) },
        &mut || -> Dispatched
            requires sync { IsSync R.row }
            requires table { leader.now.table ≡ table_of bench.now.ring.now }
            requires suits { OfBase (L.suits bench.now.op.now) leader.now.seat.base }
            requires begins { BeginsDispatch W.is_told W.upto (P.has_given supply.now from.now) leader.now.seat.lead }
            requires helpers { more + less < 2 ^ 32 }
            ensures same { SameRing leader.entry.now leader.exit.now }
            ensures ends { EndsDispatch W.is_told W.upto (P.has_given supply.exit.now from.exit.now) (P.is_over supply.exit.now)
                leader.entry.now.seat leader.exit.now.seat (more + less) result }
        { crew::<W, L, G, P, T, R>(bench, leader, less, supply, from, is_alone, more) },
    );
    leader.rejoin(theirs);
    dispatched
}
