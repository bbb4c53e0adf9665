//! How the first seat puts rows into a block, on plain seats.
ghost use Rattle.std.specs.Prelude.{◌^◌, ◌≡◌, ◌+◌, ◌*◌, ◌%◌, ◌<◌, ℕ, true, Some};
ghost use Rattle.saber_ring.specs.Shows.{live};
ghost use Rattle.saber_ring.specs.Plays.{IsSpare, word_before};
ghost use Rattle.saber_ring.specs.Filling.{MayFill, IsPut};

use crate::plays::{Begin, Storing};
use crate::ring::Ring;
use crate::seat::{COMING, HOME};
use crate::view::{SlotValue, View};
use atomic_table::Seat as TableSeat;
use saber_core::Work;

// Lets go of what lay in the slot of a block: nothing, or rows that no task needs any more.
fn let_go<R: Drop, P, S>(value: SlotValue<R, P, S>)
    requires { IsSpare value }
{
    match value {
        SlotValue::Empty => {}
        SlotValue::Rows(rows) => drop(rows),
        _ => unreachable!(),
    }
}

// What the word of the block of task t shows before its fill.
fn before(size: u64, t: u64) -> u64
    requires { t < 2 ^ 42 }
    ensures { result ≡ word_before size t }
{
    if t < size {
        4 * t
    } else {
        4 * (t - size) + HOME
    }
}

// Takes the block of the next task, and gives it back with the rows.
pub(crate) fn put_block<W: Work>(
    ring: &Ring<W>,
    place: &mut TableSeat<SlotValue<W::Rows, W::Piece, W::Stage>, View<W::Data>>,
    t: u64,
    rows: W::Rows,
)
where
    W::Rows: Drop,
    requires own { place.old.table_id ≡ ring.now.table.shared.table_id }
    requires next { MayFill W.is_told W.upto W.first W.filled W.is_rows ring.now.size t rows place.old.me.0.seen place.old.me.0.lead }
    requires alive { live place.old.me.0.base ≡ 1 }
    requires idle { place.old.me.0.turn ≡ None }
    requires below { t < 2 ^ 42 }
    ensures same { place.new.table_id ≡ place.old.table_id }
    ensures told { IsPut W.filled ring.now.size t rows place.old.me place.new.me }
{
    let words = &ring.table.shared;
    let i = (t % ring.size + 1 + ring.size) as usize;
    let old = before(ring.size, t);
    let found = words.compare_exchange::<Begin>(place, i, old, 4 * t + COMING);
    if found != old {
        unreachable!();
    }
    let left = words.exchange(place, i, SlotValue::Rows(rows));
    let_go(left);
    words.store::<Storing<W>>(place, i, 4 * t + HOME);
}
