// How many cells the ring of a run has.
ghost use Rattle.std.specs.Prelude.{◌≡◌, ◌≢◌, ◌≤◌, ◌^◌, length};
ghost use Rattle.saber_plan.specs.Trees.{tree_of};
ghost use Rattle.saber_plan.specs.Checked.{IsChecked};
ghost use Rattle.saber_plan.specs.Sizes.{SizesFit};

use saber_plan::{Plan, Sizes};

// So few tasks' rows stay near a processor: of the caller's thread alone, and so many more for each
// other thread.
const NEAR: u32 = 4;

const NEAR_A_THREAD: u32 = 2;

// As many as are asked for; over one stream a few for each of so many threads do.
pub(crate) fn near_size(sizes: &Sizes, threads: u32) -> u32
    requires sizes { SizesFit sizes.now }
    requires threads { threads ≤ 64 }
    ensures within { (1 ≤ result) × (result ≤ 2 ^ 10) }
{
    sizes.ring.min(NEAR + NEAR_A_THREAD * threads)
}

// As many as are asked for. Over one stream no task needs the rows of another, so a few cells for
// each thread do as well: there is always a task to do, and the rows of those that wait stay in the
// processors' nearer memory.
pub(crate) fn ring_size(plan: &Plan, sizes: &Sizes) -> u32
    requires { SizesFit sizes.now }
    ensures within { (1 ≤ result) × (result ≤ 2 ^ 10) }
    ensures checked { IsChecked (tree_of plan.now) }
    ensures all { length (tree_of plan.now).streams ≢ 1 → result ≡ sizes.now.ring }
{
    if plan.streams().len() == 1 {
        near_size(sizes, sizes.threads)
    } else {
        sizes.ring
    }
}
