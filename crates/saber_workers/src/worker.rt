//! What a thread does.
ghost use Rattle.std.specs.Prelude.{◌≡◌, true, false};
ghost use Rattle.saber_ring.specs.Words.{view};
ghost use Rattle.saber_workers.specs.Seats.{IsReady, IsIdle, OfBase, WorksOn};
ghost use Rattle.saber_workers.specs.Grows.{Grows};
ghost use Rattle.saber_workers.specs.Hands.{IsInHand, IsHandOf, is_empty};

use crate::bench::Bench;
use crate::hand::{Hand, InHand};
use crate::labor::Labor;
use crate::turns::Turned;
use saber_core::Work;
use saber_io::Gate;
use saber_pause::Pause;
use saber_ring::Seat;
use std::sync::Wait;
use std::sync::atomic::Ordering;

// Waits where the turn found nothing to do: no task to claim, none that it could pass over, or a
// block that another seat reads.
fn pause<R: Wait>(rt: &R, idle: &mut Pause, turned: &Turned, has_moved: bool) {
    if turned.claimed && turned.held.is_none() || has_moved {
        idle.reset();
    } else {
        idle.wait(rt);
    }
}

impl<W: Work, L: Labor<W>, G: Gate, R: Wait> Bench<'_, W, L, G, R> {
    // Turns of work until `stop` is set. Who finds the stage stopped sets it.
    fn work_until(&self, seat: &mut Seat<W>, hand: &mut Hand<W, L::Draft>)
        requires ready { IsReady self.now.ring.now seat.old }
        requires suits { OfBase (L.suits self.now.op.now) (view seat.old).base }
        requires hand { IsHandOf W.upto W.first (L.suits self.now.op.now) (L.has_blocks self.now.op.now) (view seat.old).job hand.old }
        ensures ready { IsReady self.now.ring.now seat.new }
        ensures hand { IsHandOf W.upto W.first (L.suits self.now.op.now) (L.has_blocks self.now.op.now) (view seat.new).job hand.new }
        ensures goes { WorksOn (view seat.old) (view seat.new) }
        ensures grows { Grows (view seat.old) (view seat.new) (view seat.new).stopped }
    {
        let mut idle = Pause::new();
        for _ in self.rt.forever() {
            if self.stop.load(Ordering::SeqCst) {
                return;
            }
            let cursor = hand.cursor;
            let turned = self.turn_of_work(seat, hand);
            if turned.stopped {
                self.stop.store(true, Ordering::SeqCst);
                return;
            }
            pause(self.rt, &mut idle, &turned, cursor < hand.cursor);
        }
        unreachable!()
    }

    fn read_all(&self, seat: &mut Seat<W>, hand: &mut Hand<W, L::Draft>)
        requires ready { IsReady self.now.ring.now seat.old }
        requires hand { IsInHand W.upto W.first (L.suits self.now.op.now) (L.has_blocks self.now.op.now) hand.old.held (view seat.old).job }
        ensures idle { IsIdle self.now.ring.now seat.new }
        ensures empty { is_empty hand.new.held ≡ true }
        ensures goes { WorksOn (view seat.old) (view seat.new) }
        ensures grows { Grows (view seat.old) (view seat.new) false }
        ensures saw { (view seat.new).stopped ≡ (view seat.old).stopped }
    {
        let mut idle = Pause::new();
        for _ in self.rt.forever() {
            if self.read_in(seat, hand).is_none() {
                return;
            }
            idle.wait(self.rt);
        }
        unreachable!()
    }

    /// Waits until the job in hand has read its blocks, and hands its piece in.
    pub fn finish_hand(&self, seat: &mut Seat<W>, hand: Hand<W, L::Draft>)
        requires ready { IsReady self.now.ring.now seat.old }
        requires hand { IsInHand W.upto W.first (L.suits self.now.op.now) (L.has_blocks self.now.op.now) hand.held (view seat.old).job }
        ensures idle { IsIdle self.now.ring.now seat.new }
        ensures goes { WorksOn (view seat.old) (view seat.new) }
        ensures grows { Grows (view seat.old) (view seat.new) false }
        ensures saw { (view seat.new).stopped ≡ (view seat.old).stopped }
    {
        let mut hand = hand;
        self.read_all(seat, &mut hand);
        let Hand { cursor: _, held } = hand;
        let InHand::Empty = held else { unreachable!() };
    }

    /// Turns of work by a seat until `stop` is set, and then what is left of the job in hand. Who
    /// finds the stage stopped sets it.
    pub fn work_lent(&self, seat: &mut Seat<W>)
        requires idle { IsIdle self.now.ring.now seat.old }
        requires suits { OfBase (L.suits self.now.op.now) (view seat.old).base }
        ensures idle { IsIdle self.now.ring.now seat.new }
        ensures goes { WorksOn (view seat.old) (view seat.new) }
        ensures grows { Grows (view seat.old) (view seat.new) (view seat.new).stopped }
    {
        let mut hand = Hand::new(0);
        self.work_until(seat, &mut hand);
        self.finish_hand(seat, hand);
    }

    /// The same by a seat that is handed over and comes back.
    pub fn work(&self, seat: Seat<W>) -> Seat<W>
        requires idle { IsIdle self.now.ring.now seat }
        requires suits { OfBase (L.suits self.now.op.now) (view seat).base }
        ensures idle { IsIdle self.now.ring.now result }
        ensures goes { WorksOn (view seat) (view result) }
        ensures grows { Grows (view seat) (view result) (view result).stopped }
    {
        let mut seat = seat;
        self.work_lent(&mut seat);
        seat
    }
}
