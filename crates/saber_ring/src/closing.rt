//! How the slots of a ring are emptied in the end.
ghost use Rattle.std.specs.Prelude.{◌≡◌, ◌≤◌, ◌<◌, ℕ};
ghost use Rattle.std.specs.Mem.Slots.{slots_filled, slots_items, slots_len};
ghost use Rattle.saber_ring.specs.Closing.{NoStage, NoStages, IsEmptied};

use crate::view::SlotValue;
use atomic_table::Closed;
use std::alloc::Global;

// Lets go of what lies in a slot: rows, a piece that nobody took, or novalue.
fn discard<R: Drop, P: Drop, S>(value: SlotValue<R, P, S>)
    requires { NoStage value }
{
    match value {
        SlotValue::Empty => {}
        SlotValue::Rows(rows) => drop(rows),
        SlotValue::Piece(piece) => drop(piece),
        SlotValue::Stage(_stage) => unreachable!(),
    }
}

// Empties the slots of all cells and blocks, and gives the memory back.
pub(crate) fn sweep<R: Drop, P: Drop, S>(mut closed: Closed<SlotValue<R, P, S>, Global>)
    requires cells { NoStages (slots_items closed.slots) (slots_len closed.slots) }
    requires rest { IsEmptied 1 (slots_filled closed.slots) (slots_len closed.slots) }
{
    let mut i = 1;
    while i < closed.slot_count() {
        discard(closed.take(i));
        i += 1;
    }
    closed.free();
}
