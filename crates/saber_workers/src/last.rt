//! What the last seat does.
ghost use Rattle.std.specs.Prelude.{◌≡◌, ◌^◌, ◌<◌, ◌≤◌, ◌⊎◌, ℕ, true};
ghost use Rattle.saber_ring.specs.Closing.{IsLast};
ghost use Rattle.saber_ring.specs.Words.{view};
ghost use Rattle.saber_workers.specs.Seats.{IsIdle, OfBase, WorksOn};
ghost use Rattle.saber_workers.specs.Lasts.{GaveAll, IsClaimed, HasFilled};

use crate::bench::Bench;
use crate::hand::InHand;
use crate::labor::Labor;
use crate::turns::Worked;
use saber_core::Work;
use saber_io::Gate;
use saber_ring::Seat;
use std::sync::Wait;

impl<W: Work, L: Labor<W>, G: Gate, R: Wait> Bench<'_, W, L, G, R> {
    // One claim for each filled task. What is claimed has all its blocks at home, since no other
    // seat is out.
    fn claim_all(&self, seat: &mut Seat<W>, tasks: u64)
        requires idle { IsIdle self.now.ring.now seat.old }
        requires suits { OfBase (L.suits self.now.op.now) (view seat.old).base }
        requires last { IsLast (view seat.old).lead }
        requires few { tasks ≤ 2 ^ 42 }
        ensures idle { IsIdle self.now.ring.now seat.new }
        ensures goes { WorksOn (view seat.old) (view seat.new) }
        ensures claimed { (t : ℕ) → t < tasks → IsClaimed t (view seat.old).lead (view seat.new).own }
    {
        for t in 0..tasks {
            let mut cursor = t;
            let Worked {
                held,
                claimed: _,
                waits: _,
            } = self.work_on(seat, &mut cursor, InHand::Empty);
            let InHand::Empty = held else { unreachable!() };
        }
    }

    /// The last seat does what is left: one claim for each task, and one drive of the stage.
    pub fn work_alone(&self, seat: &mut Seat<W>, tasks: u64)
        requires idle { IsIdle self.now.ring.now seat.old }
        requires suits { OfBase (L.suits self.now.op.now) (view seat.old).base }
        requires last { IsLast (view seat.old).lead }
        requires few { tasks ≤ 2 ^ 42 }
        requires filled { HasFilled tasks (view seat.old).lead }
        ensures idle { IsIdle self.now.ring.now seat.new }
        ensures goes { WorksOn (view seat.old) (view seat.new) }
        ensures done { ((view seat.new).stopped ≡ true) ⊎ GaveAll tasks (view seat.new).own }
    {
        self.claim_all(seat, tasks);
        self.drive(seat);
    }
}
