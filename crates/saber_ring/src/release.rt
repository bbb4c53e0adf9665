//! What is done with the stage and the turn's word, on plain seats.
ghost use Rattle.std.specs.Prelude.{◌^◌, ◌≡◌, ◌≢◌, ◌≤◌, ℕ, ◌∷◌};
ghost use Rattle.atomic_table.specs.Table.{rest};
ghost use Rattle.saber_ring.specs.declared.view.SlotValue.TheVariants.{Empty};
ghost use Rattle.saber_ring.specs.declared.view.TurnState.TheVariants.{TookPiece};
ghost use Rattle.saber_ring.specs.Plays.{state_shown, is_stopped};
ghost use Rattle.saber_ring.specs.Shows.{free, live, turn_word};
ghost use Rattle.saber_ring.specs.Releasing.{SetsDown, IsSetDown};

use crate::plays::Releasing;
use crate::ring::Ring;
use crate::view::{SlotValue, TurnState, View};
use atomic_table::Seat as TableSeat;
use saber_core::Work;

// Puts the stage into its slot and gives the turn up.
pub(crate) fn set_down<W: Work>(
    ring: &Ring<W>,
    place: &mut TableSeat<SlotValue<W::Rows, W::Piece, W::Stage>, View<W::Data>>,
    stage: W::Stage,
    k: u64,
    state: TurnState,
)
    requires own { place.old.table_id ≡ ring.now.table.shared.table_id }
    requires turn { SetsDown W.is_stage k state stage place.old.me.0.turn }
    requires emptied { state ≢ TookPiece }
    requires slot { place.old.me.1 ≡ (0, Empty) ∷ rest place.old.me.1 }
    requires alive { live place.old.me.0.base ≡ 1 }
    requires small { k ≤ 2 ^ 42 }
    ensures same { place.new.table_id ≡ place.old.table_id }
    ensures seen { place.old.me.0.seen ≤ k }
    ensures told { IsSetDown k state place.old.me place.new.me }
{
    let words = &ring.table.shared;
    let word = free_word(k, state);
    let left = words.exchange(place, 0, SlotValue::Stage(stage));
    let SlotValue::Empty = left else {
        unreachable!()
    };
    words.store::<Releasing>(place, 0, word);
}

pub(crate) const STOP: u64 = 1 << 62;

// The word of the free turn, with so many tasks behind the stage.
fn free_word(k: u64, state: TurnState) -> u64
    requires { k ≤ 2 ^ 42 }
    ensures { result ≡ turn_word k (free (is_stopped state)) }
{
    match state {
        TurnState::Open => 2 * k,
        _ => 2 * k + STOP,
    }
}

pub(crate) fn state_at(word: u64) -> TurnState
    ensures { result ≡ state_shown word }
{
    if word < STOP {
        TurnState::Open
    } else {
        TurnState::WonStopped
    }
}
