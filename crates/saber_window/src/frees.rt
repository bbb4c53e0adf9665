// How far back a task looks, by the last windows of blocks.
ghost use Rattle.std.specs.Prelude.{◌≡◌, ◌<◌, ◌^◌};
ghost use Rattle.saber_plan.specs.Needs.{free_of, reaches};

use std::collections::VecDeque;

// Whether the last window of some rows isn't among the closed ones.
fn reaches(last: Option<u64>, closed: u64) -> bool
    ensures { result ≡ reaches last closed }
{
    match last {
        Some(window) => closed <= window,
        None => false,
    }
}

/// The first block from `first` on that has a row in a window that isn't closed, else the block
/// after them. Of each block the list has the greatest last window of its rows, and `closed`
/// windows are closed, those from 0 on. Over the blocks before a join's task that is the first
/// block that the task looks back on (SABER 2016), if no earlier one is (`lasts_tell_free`).
pub fn free_of(first: u64, lasts: &VecDeque<Option<u64>>, closed: u64) -> u64
    requires { first < 2 ^ 42 }
    ensures { result ≡ free_of first lasts.now.items closed }
{
    for i in 0..lasts.len() {
        if reaches(lasts[i], closed) {
            return first + i as u64;
        }
    }
    first + lasts.len() as u64
}
