//! What the holder of the turn does.
ghost use Rattle.std.specs.Prelude.{◌≡◌, ◌<◌, true, false};
ghost use Rattle.saber_ring.specs.declared.view.TurnState.TheVariants.{Open};
ghost use Rattle.saber_ring.specs.Words.{view, table, table_of, cells};
ghost use Rattle.saber_ring.specs.Plays.{is_stopped};
ghost use Rattle.saber_workers.specs.Seats.{IsReady, OfBase, HasTurn, WorksOn, SameWork, FoundNone, EndsTurn};
ghost use Rattle.saber_workers.specs.Grows.{Grows};
ghost use Rattle.saber_workers.specs.Lasts.{GaveAll, NotClaimed, LeavesNone};

use crate::bench::Bench;
use crate::labor::Labor;
use saber_core::Work;
use saber_io::Gate;
use saber_ring::{Seat, Take, Turn, Win};
use std::sync::Wait;

impl<W: Work, L: Labor<W>, G: Gate, R: Wait> Bench<'_, W, L, G, R> {
    // Takes the next piece, if it is there, and absorbs it. True where the stage went on.
    fn take_next(&self, seat: &mut Seat<W>, turn: &mut Turn<W>) -> bool
        requires own { table seat.old ≡ table_of self.now.ring.now }
        requires suits { OfBase (L.suits self.now.op.now) (view seat.old).base }
        requires turn { HasTurn W.is_stage turn.old.behind turn.old.state turn.old.stage (view seat.old).turn }
        requires open { turn.old.state ≡ Open }
        ensures own { table seat.new ≡ table_of self.now.ring.now }
        ensures turn { HasTurn W.is_stage turn.new.behind turn.new.state turn.new.stage (view seat.new).turn }
        ensures goes { WorksOn (view seat.old) (view seat.new) }
        ensures kept { SameWork (view seat.old) (view seat.new) }
        ensures grows { Grows (view seat.old) (view seat.new) (is_stopped turn.new.state) }
        ensures went { result ≡ true → (turn.new.state ≡ Open) × (turn.old.behind < turn.new.behind) }
        ensures given { GaveAll turn.old.behind (view seat.old).own → GaveAll turn.new.behind (view seat.new).own }
        ensures left { result ≡ false → turn.new.state ≡ Open → NotClaimed turn.new.behind (view seat.old) (view seat.new).own }
        ensures found { result ≡ false → turn.new.state ≡ Open → FoundNone (cells self.now.ring.now) turn.new.behind (view seat.new) }
    {
        match seat.take(self.ring, turn) {
            Take::NotYet { word: _ } => false,
            Take::Got(piece) => {
                let done = self.op.absorb(self.alloc, turn.stage(), piece);
                if done {
                    seat.give(self.ring, turn);
                }
                done
            }
        }
    }

    // Absorbs what is there, unless the stage is stopped.
    fn drain(&self, seat: &mut Seat<W>, turn: &mut Turn<W>)
        requires own { table seat.old ≡ table_of self.now.ring.now }
        requires suits { OfBase (L.suits self.now.op.now) (view seat.old).base }
        requires turn { HasTurn W.is_stage turn.old.behind turn.old.state turn.old.stage (view seat.old).turn }
        ensures own { table seat.new ≡ table_of self.now.ring.now }
        ensures turn { HasTurn W.is_stage turn.new.behind turn.new.state turn.new.stage (view seat.new).turn }
        ensures goes { WorksOn (view seat.old) (view seat.new) }
        ensures kept { SameWork (view seat.old) (view seat.new) }
        ensures grows { Grows (view seat.old) (view seat.new) (is_stopped turn.new.state) }
        ensures given { GaveAll turn.old.behind (view seat.old).own → GaveAll turn.new.behind (view seat.new).own }
        ensures left { turn.new.state ≡ Open → NotClaimed turn.new.behind (view seat.old) (view seat.new).own }
        ensures found { turn.new.state ≡ Open → FoundNone (cells self.now.ring.now) turn.new.behind (view seat.new) }
    {
        if turn.is_stopped() {
            return;
        }
        while self.take_next(seat, turn) {}
    }

    /// Wins the turn if it is free, absorbs what is there, and gives the turn back. True where the
    /// stage is stopped.
    pub(crate) fn drive(&self, seat: &mut Seat<W>) -> bool
        requires ready { IsReady self.now.ring.now seat.old }
        requires suits { OfBase (L.suits self.now.op.now) (view seat.old).base }
        ensures ready { IsReady self.now.ring.now seat.new }
        ensures goes { WorksOn (view seat.old) (view seat.new) }
        ensures grows { Grows (view seat.old) (view seat.new) result }
        ensures job { (view seat.new).job ≡ (view seat.old).job }
        ensures missed { (view seat.new).missed ≡ (view seat.old).missed }
        ensures left { result ≡ false → LeavesNone (view seat.old) (view seat.new).own }
        ensures stops { result ≡ true → (view seat.new).stopped ≡ true }
        ensures ends { EndsTurn (cells self.now.ring.now) (view seat.new) result }
    {
        let mut turn = match seat.win(self.ring) {
            Win::Held { word: _ } => return false,
            Win::Got(turn) => turn,
        };
        self.drain(seat, &mut turn);
        let stopped = turn.is_stopped();
        seat.release(self.ring, turn);
        stopped
    }
}
