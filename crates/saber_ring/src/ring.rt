//! The ring, from its making to its end.
ghost use Rattle.std.specs.Prelude.{◌≡◌, ◌+◌, ◌*◌, ◌<◌, ◌≤◌, false, None, IfErr, IfOk};
ghost use Rattle.saber_ring.specs.Opening.{Begins};
ghost use Rattle.saber_ring.specs.Shows.{first_view};

use crate::closing::sweep;
use crate::fixed::{FixedData, told_by};
use crate::opening::{first_parts, stage_back};
use crate::seat::Seat;
use crate::view::{RingKey, RingRule, SlotValue, View};
use atomic_table::{Refused, Table};
use saber_core::Work;
use std::alloc::{AllocError as NoMemory, Global};

/// The ring of slots by which threads hand rows, pieces and the stage to each other, each by single
/// atomic steps. Word 0 is the word of the turn; the words of the cells come next, then those of
/// the blocks. It is shared by reference; who steps does so with a [`Seat`] of this ring.
pub struct Ring<W: Work> {
    pub(crate) table: Table<
        SlotValue<W::Rows, W::Piece, W::Stage>,
        View<W::Data>,
        RingKey<W::Data>,
        RingRule<W>,
        Global,
    >,
    // The number of cells.
    pub(crate) size: u64,
    pub ghost sized: { (table.shared.table_id.words ≡ 2 * size + 1) × (table.shared.table_id.slots ≡ 2 * size + 1)
        × (table.shared.key.size ≡ size) × (0 < size) × (size ≤ 1024) },
}

impl<W: Work> Ring<W> {
    ghost use Rattle.saber_ring.specs.Closing.{IsLast, Finishes};

    /// A ring of so many cells over a running stage that has assembled nothing, and its first seat.
    /// The fixed data of the work are those that `J` names; from then on each view has them. This
    /// is the only call that takes memory; where there is none, the stage comes back.
    pub fn new<J: FixedData<W::Data>>(
        alloc: Global,
        size: u32,
        stage: W::Stage,
    ) -> Result<(Ring<W>, Seat<W>), (NoMemory, W::Stage)>
        requires size { (0 < size) × (size ≤ 1024) }
        requires begins { Begins W.is_told W.is_stage stage J.told }
        ensures own { IfOk result (λ r. r.1.place.table_id ≡ r.0.table.shared.table_id) }
        ensures view { IfOk result (λ r. r.1.place.me.0 ≡ first_view J.told) }
        ensures cells { IfOk result (λ r. r.0.size ≡ size) }
        ensures refused { IfErr result (λ e. e.1 ≡ stage) }
    {
        let size = size as u64;
        let Ok(told) = told_by::<W::Data, J>(alloc) else {
            return Err((NoMemory, stage));
        };
        let (words, slots) = match first_parts(alloc, size, stage) {
            Ok(parts) => parts,
            Err(stage) => return Err((NoMemory, stage)),
        };
        let key = RingKey { size, told };
        match Table::new(alloc, words.as_slice(), slots, &key) {
            Ok((table, place)) => Ok((Ring { table, size }, Seat { place, block: None })),
            Err(Refused { slots }) => Err((NoMemory, stage_back(slots))),
        }
    }

    /// The number of cells, and of blocks.
    pub fn cells(&self) -> u64
        ensures { result ≡ self.now.size }
    {
        self.size
    }

    /// Ends the ring with its last seat, which is the first one once it has taken in all others,
    /// and gives the stage that is at home. Rows that nobody claimed and pieces that nobody took
    /// are let go; there are such only where the stage stopped, or where the caller left them.
    pub fn finish(self, seat: Seat<W>) -> W::Stage
    where
        W::Rows: Drop,
        W::Piece: Drop,
        requires own { seat.place.table_id ≡ self.table.shared.table_id }
        requires last { IsLast seat.place.me.0.lead }
        requires idle { (seat.place.me.0.job ≡ None) × (seat.place.me.0.turn ≡ None) }
        ensures { Finishes W.upto W.is_stage seat.place.me.0 result seat.place.me.0.lead }
    {
        let Ring { table, size: _ } = self;
        let Seat { place, block: _ } = seat;
        let mut closed = table.close_with(place);
        let home = closed.take(0);
        let SlotValue::Stage(stage) = home else {
            unreachable!()
        };
        sweep(closed);
        stage
    }
}
