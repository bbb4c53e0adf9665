//! One turn of work.
ghost use Rattle.std.specs.Prelude.{◌≡◌, ◌^◌, ◌≤◌, ◌+◌, true, false, None, IfSome};
ghost use Rattle.saber_ring.specs.Calls.{NotLast};
ghost use Rattle.saber_ring.specs.Words.{view, cells};
ghost use Rattle.saber_workers.specs.Seats.{IsReady, OfBase, WorksOn, next_cursor, IsRefused, HasNoNew, HasNext, HasNothing, EndsTurn};
ghost use Rattle.saber_workers.specs.Grows.{Grows};
ghost use Rattle.saber_workers.specs.Hands.{IsInHand, IsHandOf, is_empty};
ghost use Rattle.saber_workers.specs.Lasts.{IsClaimed};
ghost use Rattle.saber_workers.specs.Turns.{WhereBusy, WhereClaimed, WhereRefused};

use crate::bench::Bench;
use crate::blocks::Gone;
use crate::hand::{Hand, InHand};
use crate::labor::Labor;
use saber_core::Work;
use saber_io::Gate;
use saber_ring::{Claim, Seat, was_claimed};
use std::mem;
use std::sync::Wait;

/// What a turn of work did: whether it claimed a task, the block that it waits for since another
/// seat reads it, and whether it found or left the stage stopped.
#[derive(Clone, Copy)]
pub struct Turned {
    pub claimed: bool,
    pub held: Option<u64>,
    pub stopped: bool,
}

// What a turn did with its job.
pub(crate) struct Worked<W: Work, D> {
    pub(crate) held: InHand<W, D>,
    pub(crate) claimed: bool,
    pub(crate) waits: Option<u64>,
}

impl<W: Work, L: Labor<W>, G: Gate, R: Wait> Bench<'_, W, L, G, R> {
    // Claims the cursor's task, if it is there.
    fn claim_next(&self, seat: &mut Seat<W>, cursor: &mut u64) -> InHand<W, L::Draft>
        requires ready { IsReady self.now.ring.now seat.old }
        requires suits { OfBase (L.suits self.now.op.now) (view seat.old).base }
        requires none { (view seat.old).job ≡ None }
        requires below { cursor.old ≤ 2 ^ 42 }
        ensures ready { IsReady self.now.ring.now seat.new }
        ensures goes { WorksOn (view seat.old) (view seat.new) }
        ensures hand { IsInHand W.upto W.first (L.suits self.now.op.now) (L.has_blocks self.now.op.now) result (view seat.new).job }
        ensures below { cursor.new ≤ 2 ^ 42 }
        ensures grows { Grows (view seat.old) (view seat.new) false }
        ensures saw { (view seat.new).stopped ≡ (view seat.old).stopped }
        ensures last { IsClaimed cursor.old (view seat.old).lead (view seat.new).own }
        ensures got { is_empty result ≡ false → (cursor.new ≡ cursor.old + 1) × ((view seat.new).missed ≡ (view seat.old).missed) }
        ensures not { is_empty result ≡ true → IsRefused (cells self.now.ring.now) (view seat.old) (view seat.new) cursor.old }
        ensures next { is_empty result ≡ true → cursor.new ≡ next_cursor cursor.old (view seat.new).missed.word }
    {
        match seat.claim(self.ring, *cursor) {
            Claim::Got(job) => {
                self.gate.pass(job.task());
                *cursor += 1;
                InHand::Claimed(job)
            }
            Claim::Not { word } => {
                if was_claimed(*cursor, word) {
                    *cursor += 1;
                }
                InHand::Empty
            }
        }
    }

    // A job, where none was in hand, and then its blocks.
    pub(crate) fn work_on(
        &self,
        seat: &mut Seat<W>,
        cursor: &mut u64,
        held: InHand<W, L::Draft>,
    ) -> Worked<W, L::Draft>
        requires ready { IsReady self.now.ring.now seat.old }
        requires suits { OfBase (L.suits self.now.op.now) (view seat.old).base }
        requires hand { IsInHand W.upto W.first (L.suits self.now.op.now) (L.has_blocks self.now.op.now) held (view seat.old).job }
        requires below { cursor.old ≤ 2 ^ 42 }
        ensures ready { IsReady self.now.ring.now seat.new }
        ensures goes { WorksOn (view seat.old) (view seat.new) }
        ensures hand { IsInHand W.upto W.first (L.suits self.now.op.now) (L.has_blocks self.now.op.now) result.held (view seat.new).job }
        ensures below { cursor.new ≤ 2 ^ 42 }
        ensures grows { Grows (view seat.old) (view seat.new) false }
        ensures saw { (view seat.new).stopped ≡ (view seat.old).stopped }
        ensures busy { is_empty held ≡ false → HasNoNew (cells self.now.ring.now) (view seat.old) (view seat.new) cursor.old cursor.new result.claimed result.waits }
        ensures got { is_empty held ≡ true → result.claimed ≡ true → HasNext (cells self.now.ring.now) (view seat.old) (view seat.new) cursor.old cursor.new result.waits }
        ensures not { is_empty held ≡ true → result.claimed ≡ false → HasNothing (cells self.now.ring.now) (view seat.old) (view seat.new) cursor.old cursor.new result.waits }
        ensures last { is_empty held ≡ true → IsClaimed cursor.old (view seat.old).lead (view seat.new).own }
        ensures done { result.waits ≡ None → ((view seat.new).job ≡ None) × (is_empty result.held ≡ true) }
        ensures others { IfSome result.waits (λ u. NotLast (view seat.old).lead) }
    {
        match held {
            InHand::Empty => {
                let held = self.claim_next(seat, cursor);
                let claimed = held.is_some();
                let Gone { held, waits } = self.read_on(seat, held);
                Worked {
                    held,
                    claimed,
                    waits,
                }
            }
            held => {
                let Gone { held, waits } = self.read_on(seat, held);
                Worked {
                    held,
                    claimed: false,
                    waits,
                }
            }
        }
    }

    /// One turn: claims a task where no job is in hand, reads what the job needs, as far as no
    /// other seat reads it, hands the piece in once all is there, and makes one try to drive the
    /// stage.
    pub fn turn_of_work(&self, seat: &mut Seat<W>, hand: &mut Hand<W, L::Draft>) -> Turned
        requires ready { IsReady self.now.ring.now seat.old }
        requires suits { OfBase (L.suits self.now.op.now) (view seat.old).base }
        requires hand { IsHandOf W.upto W.first (L.suits self.now.op.now) (L.has_blocks self.now.op.now) (view seat.old).job hand.old }

        // The seat comes back without the turn, and with the hand's job alone.
        ensures ready { IsReady self.now.ring.now seat.new }
        ensures hand { IsHandOf W.upto W.first (L.suits self.now.op.now) (L.has_blocks self.now.op.now) (view seat.new).job hand.new }
        ensures goes { WorksOn (view seat.old) (view seat.new) }
        ensures grows { Grows (view seat.old) (view seat.new) result.stopped }

        // Why no task was claimed, or its job waits: by the last step that was refused.
        ensures busy { WhereBusy (cells self.now.ring.now) (view seat.old) (view seat.new) hand.old hand.new result }
        ensures got { WhereClaimed (cells self.now.ring.now) (view seat.old) (view seat.new) hand.old hand.new result }
        ensures not { WhereRefused (cells self.now.ring.now) (view seat.old) (view seat.new) hand.old hand.new result }
        ensures last { is_empty hand.old.held ≡ true → IsClaimed hand.old.cursor (view seat.old).lead (view seat.new).own }
        ensures done { result.held ≡ None → ((view seat.new).job ≡ None) × (is_empty hand.new.held ≡ true) }
        ensures others { IfSome result.held (λ u. NotLast (view seat.old).lead) }

        // Whether the stage is stopped: by the last steps.
        ensures ends { EndsTurn (cells self.now.ring.now) (view seat.new) result.stopped }
        ensures stops { result.stopped ≡ true → (view seat.new).stopped ≡ true }
    {
        let held = mem::replace(&mut hand.held, InHand::Empty);
        let mut cursor = hand.cursor;
        let Worked {
            held,
            claimed,
            waits,
        } = self.work_on(seat, &mut cursor, held);
        let stopped = self.drive(seat);
        hand.cursor = cursor;
        let left = mem::replace(&mut hand.held, held);
        let InHand::Empty = left else { unreachable!() };
        Turned {
            claimed,
            held: waits,
            stopped,
        }
    }
}
