//! The first seat, and what it has in hand.
ghost use Rattle.std.specs.Prelude.{◌≡◌, ◌<◌, ◌+◌, true, None, Option, IfSome, IsSome};
ghost use Rattle.saber_ring.specs.Seats.{parting};
ghost use Rattle.saber_ring.specs.Words.{view, table, cells};
ghost use Rattle.saber_workers.specs.Seats.{IsIdle, IsFree, OfBase, WorksOn};
ghost use Rattle.saber_crew.specs.Dispatches.{Puts};
ghost use Rattle.saber_crew.specs.Leaders.{seen_at, SameRing, GoesOn, FillsOn, CanFill};
ghost use Rattle.saber_crew.specs.Spares.{Rejoins};

use crate::spare::Spare;
use saber_core::Work;
use saber_io::Gate;
use saber_ring::{Fill, Frees, Seat};
use saber_workers::{Bench, Hand, Labor, Turned};
use std::marker::Model;
use std::mem;
use std::sync::Wait;
use std::sync::atomic::Ordering;

/// The caller's thread at the ring: what the run shares, the first seat, and what it has in hand
/// from one turn of work to the next. Between its calls the seat has no turn and no block, over
/// fixed data that suit, and no job but the one in hand.
pub(crate) struct Leader<'a, W: Work, L: Labor<W>, G: Gate, R: Wait> {
    bench: &'a Bench<'a, W, L, G, R>,
    seat: Seat<W>,
    hand: Hand<W, L::Draft>,
}

impl<'a, W: Work, L: Labor<W>, G: Gate, R: Wait> Model for Leader<'a, W, L, G, R> {
    ghost use Rattle.saber_crew.specs.Leaders.{AtRing, IsAtWork, seen_at};

    ghost Value = { AtRing W.Data };

    ghost view = { λ l. seen_at l.bench.now.ring.now l.seat };

    ghost invariant = { λ l. IsAtWork W.upto W.first (L.suits l.bench.now.op.now) (L.has_blocks l.bench.now.op.now) l.bench.now.ring.now l.seat l.hand };
}

impl<'a, W: Work, L: Labor<W>, G: Gate, R: Wait> Leader<'a, W, L, G, R> {
    /// At a bench with the first seat of its ring, and with nothing in hand.
    pub(crate) fn new(bench: &'a Bench<'a, W, L, G, R>, seat: Seat<W>) -> Leader<'a, W, L, G, R>
        requires idle { IsIdle bench.now.ring.now seat }
        requires suits { OfBase (L.suits bench.now.op.now) (view seat).base }
        ensures { result ≡ seen_at bench.now.ring.now seat }
    {
        let hand = Hand::new(0);
        Leader { bench, seat, hand }
    }

    /// What the run shares.
    pub(crate) fn bench(&self) -> &'a Bench<'a, W, L, G, R>
        ensures { self.now.size ≡ cells result.now.ring.now }
    {
        self.bench
    }

    /// One turn of work. Where it leaves the stage stopped, all are told to stop.
    pub(crate) fn turn(&mut self) -> Turned
        ensures goes { GoesOn self.old self.new }
        ensures stops { result.stopped ≡ true → self.new.seat.stopped ≡ true }
    {
        let turned = self.bench.turn_of_work(&mut self.seat, &mut self.hand);
        if turned.stopped {
            self.bench.stop.store(true, Ordering::SeqCst);
        }
        turned
    }

    /// Fills task t if the ring has room and no stop is set; else the rows come back.
    pub(crate) fn offer(&mut self, t: u64, rows: W::Rows, frees: &Frees) -> Option<W::Rows>
    where
        W::Rows: Drop,
        requires { CanFill W.is_told W.filled W.upto W.first W.is_rows t rows frees.now self.old.seat }
        ensures fills { FillsOn self.old self.new }
        ensures put { result ≡ None → Puts W.filled rows true self.old.seat.lead self.new.seat.lead }
        ensures room { result ≡ None → t < self.new.seat.seen + self.new.size }
        ensures back { IfSome result (λ back. (back ≡ rows) × (self.new.seat.lead ≡ self.old.seat.lead)) }
    {
        if self.bench.stop.load(Ordering::SeqCst) {
            return Some(rows);
        }
        match self.seat.fill(self.bench.ring, t, rows, frees) {
            Fill::Put => None,
            Fill::Full {
                place: _,
                word: _,
                rows,
            } => Some(rows),
        }
    }

    /// Gives out a seat, for another thread.
    pub(crate) fn part<T: Spare<W>>(&mut self) -> T
        requires lead { IsSome self.old.seat.lead }
        ensures same { SameRing self.old self.new }
        ensures told { self.new.seat ≡ parting self.old.seat }
        ensures spare { T.is_spare result self.old.table self.old.seat.base }
    {
        T::part(&mut self.seat, self.bench.ring)
    }

    /// Takes it in again.
    pub(crate) fn rejoin<T: Spare<W>>(&mut self, theirs: T)
        requires lead { IsSome self.old.seat.lead }
        requires spare { (base : Option W.Data) × T.is_spare theirs self.old.table base }
        ensures same { SameRing self.old self.new }
        ensures told { Rejoins self.old.seat self.new.seat }
    {
        theirs.rejoin(&mut self.seat, self.bench.ring);
    }

    /// Hands in what is in hand, which others may wait for.
    pub(crate) fn hand_in(&mut self)
        ensures goes { GoesOn self.old self.new }
    {
        let hand = mem::replace(&mut self.hand, Hand::new(0));
        self.bench.finish_hand(&mut self.seat, hand);
    }

    /// The seat, once nothing is in hand.
    pub(crate) fn into_seat(self) -> Seat<W>
        ensures table { table result ≡ self.entry.table }
        ensures works { WorksOn self.entry.seat (view result) }
        ensures idle { IsFree (view result) × ((view result).job ≡ None) }
    {
        let Leader {
            bench,
            mut seat,
            hand,
        } = self;
        bench.finish_hand(&mut seat, hand);
        seat
    }
}
