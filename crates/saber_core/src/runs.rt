//! Whole lists of events.
ghost use Rattle.std.specs.Prelude.{◌≡◌, ℕ, ◌≤◌, ◌<◌, IfOk, List};
ghost use Rattle.saber_core.specs.declared.events.Event.{Event};
ghost use Rattle.saber_core.specs.Machine.{fresh};
ghost use Rattle.saber_core.specs.Sound.{IsSound};
ghost use Rattle.saber_core.specs.Runs.{state_after, IsOrderly, StopsForGood};

use crate::events::Event;
use crate::machine::Core;
use std::alloc::{AllocError as NoMemory, Global};

/// Lets all events happen to a new core, one after another.
pub fn run(alloc: Global, size: u32, seats: u32, events: &[Event]) -> Result<Core, NoMemory>
    requires { (0 < size) × (size ≤ 1024) }
    ensures state { IfOk result (λ core. core ≡ state_after (fresh size seats) events.now) }
    ensures sound { IfOk result (λ core. IsSound core) }
    ensures order { IsOrderly (fresh size seats) events.now }
{
    let mut core = Core::new(alloc, size, seats)?;
    for e in events {
        core.step(e);
    }
    Ok(core)
}

/// What holds of every list of events, for any number of slots and seats.
pub fn laws_of_runs()
    ensures sound { (size seats : ℕ) (events : List Event) → IsSound (state_after (fresh size seats) events) }
    ensures order { (size seats : ℕ) (events : List Event) → IsOrderly (fresh size seats) events }
    // Who releases the turn after a take that wasn't given leaves a stopped stage.
    ensures stop { (size seats seat : ℕ) (before later : List Event) → StopsForGood (state_after (fresh size seats) before) seat later }
{}
