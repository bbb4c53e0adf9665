//! The words and slots of a ring as it is made.
ghost use Rattle.std.specs.Prelude.{◌≡◌, ℕ, ◌+◌, ◌-◌, ◌<◌, ◌≤◌, length, MatchResult, IfSome};
ghost use Rattle.saber_ring.specs.Opening.{IsOpen, first_values, with_empties};

use crate::view::SlotValue;
use std::alloc::Global;

// The words of a ring in which novalue was filled.
fn first_words(alloc: Global, size: u64) -> Option<Vec<u64>>
    requires { size ≤ 1024 }
    ensures { IfSome result (λ v. IsOpen size v.items) }
{
    let cells = size as usize;
    let mut words = Vec::from_elem(alloc, 0u64, 2 * cells + 1).ok()?;
    for i in 0..cells {
        words[i + 1] = 8 * i as u64;
        words[i + 1 + cells] = 4 * i as u64;
    }
    Some(words)
}

// The stage, and room for a value of each cell and each block.
fn first_slots<R, P, S>(alloc: Global, size: u64, stage: S) -> Result<Vec<SlotValue<R, P, S>>, S>
    requires { size ≤ 1024 }
    ensures { MatchResult result (λ v. v.items ≡ first_values size stage) (λ s. s ≡ stage) }
{
    let values = 2 * size as usize;
    let Ok(mut slots) = Vec::with_capacity(alloc, values + 1) else {
        return Err(stage);
    };
    slots.push_reserved(SlotValue::Stage(stage));
    for _ in 0..values {
        slots.push_reserved(SlotValue::Empty);
    }
    Ok(slots)
}

// The words and the slots of a ring in which nothing was filled; the stage comes back where memory
// lacks.
pub(crate) fn first_parts<R, P, S>(
    alloc: Global,
    size: u64,
    stage: S,
) -> Result<(Vec<u64>, Vec<SlotValue<R, P, S>>), S>
    requires { size ≤ 1024 }
    ensures { MatchResult result (λ v. IsOpen size v.0.items × (v.1.items ≡ first_values size stage)) (λ s. s ≡ stage) }
{
    let Some(words) = first_words(alloc, size) else {
        return Err(stage);
    };
    match first_slots(alloc, size, stage) {
        Ok(slots) => Ok((words, slots)),
        Err(stage) => Err(stage),
    }
}

// Takes the stage out of the slots, and gives their memory back.
pub(crate) fn stage_back<R, P, S>(mut slots: Vec<SlotValue<R, P, S>>) -> S
    requires { (n : ℕ) × (stage : S) × (slots.items ≡ with_empties n stage) }
    ensures { slots.items ≡ with_empties (length slots.items - 1) result }
{
    while let Some(value) = slots.pop() {
        match value {
            SlotValue::Stage(stage) => {
                slots.destroy_empty();
                return stage;
            }
            SlotValue::Empty => {}
            _ => unreachable!(),
        }
    }
    unreachable!()
}
