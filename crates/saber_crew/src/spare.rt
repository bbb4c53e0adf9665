//! A seat as a thread has it.
ghost use Rattle.std.specs.Prelude.{◌≡◌, Option, IsSome};
ghost use Rattle.atomic_table.specs.Seated.{TableId};
ghost use Rattle.saber_ring.specs.Words.{view, table, table_of};
ghost use Rattle.saber_ring.specs.Seats.{parting};
ghost use Rattle.saber_crew.specs.Spares.{CanHelp, IsSpare, Rejoins, StaysSpare};

use saber_core::Work;
use saber_io::Gate;
use saber_ring::{Ring, Seat};
use saber_workers::{Bench, Labor};
use std::sync::Wait;

/// A seat as a thread has it: of a ring, over fixed data, without job, turn and block. One join of
/// two that lends two seats of one type is not understood by the borrow checker, so it is lent as
/// what this says.
pub(crate) trait Spare<W: Work>: Send {
    // Of this ring, with such fixed data.
    ghost is_spare: { Self → TableId → Option W.Data → Type 0 };

    /// A new one, beside the first seat.
    fn part(seat: &mut Seat<W>, ring: &Ring<W>) -> Self
        requires own { table seat.old ≡ table_of ring.now }
        requires lead { IsSome (view seat.old).lead }
        ensures same { table seat.new ≡ table seat.old }
        ensures told { view seat.new ≡ parting (view seat.old) }
        ensures spare { is_spare result (table_of ring.now) (view seat.old).base };

    /// Turns of work until `stop` is set.
    fn help<L: Labor<W>, G: Gate, R: Wait>(&mut self, bench: &Bench<'_, W, L, G, R>)
        requires { CanHelp (is_spare self.old (table_of bench.now.ring.now)) (L.suits bench.now.op.now) }
        ensures { (base : Option W.Data) → is_spare self.old (table_of bench.now.ring.now) base → is_spare self.new (table_of bench.now.ring.now) base };

    /// The first seat takes it in.
    fn rejoin(self, seat: &mut Seat<W>, ring: &Ring<W>)
        requires own { table seat.old ≡ table_of ring.now }
        requires lead { IsSome (view seat.old).lead }
        requires spare { (base : Option W.Data) × is_spare self (table_of ring.now) base }
        ensures same { table seat.new ≡ table seat.old }
        ensures told { Rejoins (view seat.old) (view seat.new) };
}

impl<W: Work + Send + Sync> Spare<W> for Seat<W>
where
    W::Rows: Send,
    W::Piece: Send,
    W::Stage: Send,
{
    ghost is_spare = { λ s t base. IsSpare (table s) (view s) t base };

    fn part(seat: &mut Seat<W>, ring: &Ring<W>) -> Seat<W>
        requires own { table seat.old ≡ table_of ring.now }
        requires lead { IsSome (view seat.old).lead }
        ensures same { table seat.new ≡ table seat.old }
        ensures told { view seat.new ≡ parting (view seat.old) }
        ensures spare { IsSpare (table result) (view result) (table_of ring.now) (view seat.old).base }
    {
        seat.split(ring)
    }

    fn help<L: Labor<W>, G: Gate, R: Wait>(&mut self, bench: &Bench<'_, W, L, G, R>)
        requires { CanHelp (IsSpare (table self.old) (view self.old) (table_of bench.now.ring.now)) (L.suits bench.now.op.now) }
        ensures { StaysSpare (table self.old) (view self.old) (table self.new) (view self.new) (table_of bench.now.ring.now) }
    {
        bench.work_lent(self);
    }

    fn rejoin(self, seat: &mut Seat<W>, ring: &Ring<W>)
        requires own { table seat.old ≡ table_of ring.now }
        requires lead { IsSome (view seat.old).lead }
        requires spare { (base : Option W.Data) × IsSpare (table self) (view self) (table_of ring.now) base }
        ensures same { table seat.new ≡ table seat.old }
        ensures told { Rejoins (view seat.old) (view seat.new) }
    {
        seat.join(ring, self);
    }
}
