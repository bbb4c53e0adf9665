//! The lock-free ring of cells and blocks by which threads hand rows, pieces and the stage on.
//! A step is one atomic operation on one word, with no lock and no second try. It is generic in the
//! work that it carries, and looks into none of it. Workers, crew and engine use it.
//!
//! - Parts: `words` and `phases` (what words show), `view` and `plays` (what a seat knows, what a
//!   step tells it), `ring`, `opening`, `closing`, `fixed`, `seat` (the calls), `answers`, `job`,
//!   `turn`, `blocks`, `release`, `frees` (first blocks that tasks need), `threads`, `laws`.
//! - Calls: `Ring::new` takes a size and a stage and gives the ring and its first seat. A `Seat`
//!   can `fill`, `claim`, `read`, `put_back`, `deposit`, `win`, `take`, `give`, `release`, `split`,
//!   `join`. `Ring::finish` gives the stage back.
//! - Proved: one rule (`specs/Shows.antt`) says what the words, the slots and the views of all
//!   seats are at every moment, and every step keeps it. Each step that is an event of the core
//!   takes the core to its next state, each other one leaves it. The blocks that tasks not yet
//!   assembled need are whole; a refusal has its reason; the last seat finishes alone. docs/RING.md
//!   has words, steps and rule, `specs/Calls.antt` what each call asks and tells.
//! - Not claimed: that a call wins while others are at work, that a seat comes back, or anything of
//!   time.
//! - Limits: 1 to 1,024 cells and as many blocks, `2^42` tasks. Of its calls `Ring::new` alone
//!   takes memory.
#![tactic(auto)]

mod answers;
mod blocks;
mod closing;
mod fixed;
mod frees;
mod job;
mod laws;
mod opening;
mod phases;
mod plays;
mod release;
mod ring;
mod seat;
mod threads;
mod turn;
mod view;
mod words;

pub use answers::{Claim, Fill, Place, Read, Take, Win};
pub use fixed::FixedData;
pub use frees::Frees;
pub use job::Job;
pub use laws::{
    a_begin_is_no_event, a_look_is_no_event, a_put_back_is_no_event, a_read_is_no_event,
    a_return_is_no_event, a_store_is_no_event, block_words_are, claim_is_its_event,
    deposit_is_its_event, fill_is_its_event, give_is_its_event, needs_are_whole,
    release_is_its_event, take_is_its_event, win_is_its_event,
};
pub use phases::{BlockPhase, Phase};
pub use ring::Ring;
pub use seat::Seat;
pub use turn::Turn;
pub use view::View;
pub use words::{block, phase, turn_of, was_claimed};
