// Memory that stays with the process.
use saber_plan::NoMemory;
use std::alloc::Global;

// Twice as many bytes may lie free at the end of the heap before the C library gives them back.
const SPARE: usize = 1 << 22;

/// Has the C library keep what a task lets go, for the next task to take. By itself it hands free
/// memory at the end of the heap back to the system, and each task takes it anew, page by page: a
/// fifth of a join's time. A large list that is let go raises the bound from which it does so, for
/// as long as the process runs (glibc: twice the size of the largest such list). Where there is no
/// memory for the list nothing is lost.
pub(crate) fn keep_freed(alloc: Global) {
    let spare: Result<Vec<u8>, NoMemory> = Vec::with_capacity(alloc, SPARE);
    drop(spare);
}
