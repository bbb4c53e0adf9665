//! How the words of a ring are read. A word comes with a refusal, or from another thread.
ghost use Rattle.std.specs.Prelude.{◌≡◌, ◌≤◌, ◌^◌, ◌+◌, ◌*◌, ◌%◌, ◌==◌};
ghost use Rattle.saber_ring.specs.Plays.{turn_behind};
ghost use Rattle.saber_ring.specs.Readings.{block_phase_number, phase_number, was_claimed};

use crate::phases::{BlockPhase, Phase};
use crate::seat::READY;

/// The phase that the word of a cell shows, and the number of the task that the cell is for.
pub fn phase(word: u64) -> (Phase, u64)
    ensures { word ≡ 8 * result.1 + phase_number result.0 }
{
    let phase = match word % 8 {
        0 => Phase::Idle,
        1 => Phase::Filling,
        2 => Phase::Ready,
        3 => Phase::Held,
        4 => Phase::Done,
        5 => Phase::Taken,
        6 => Phase::Marked,
        _ => Phase::Gone,
    };
    (phase, word / 8)
}

/// The phase that the word of a block shows, and the number of the block.
pub fn block(word: u64) -> (BlockPhase, u64)
    ensures { word ≡ 4 * result.1 + block_phase_number result.0 }
{
    let phase = match word % 4 {
        0 => BlockPhase::Empty,
        1 => BlockPhase::Filling,
        2 => BlockPhase::Home,
        _ => BlockPhase::Reading,
    };
    (phase, word / 4)
}

/// How many tasks the word of the turn shows as assembled, and whether the turn is held.
pub fn turn_of(word: u64) -> (u64, bool)
    ensures tasks { result.0 ≡ turn_behind word }
    ensures held { result.1 ≡ (word % 2 == 1) }
{
    (word % (1 << 62) / 2, word % 2 == 1)
}

/// Whether the word that a claim of a task found, in place of the one that it waits for, says that
/// the task was claimed before: a seat has it, or had it.
pub fn was_claimed(t: u64, word: u64) -> bool
    requires { t ≤ 2 ^ 42 }
    ensures { result ≡ was_claimed t word }
{
    8 * t + READY < word
}
