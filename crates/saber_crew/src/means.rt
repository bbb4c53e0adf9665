// What a run has from outside.
use std::alloc::Global;

/// What a run has from outside: the runtime, by which it starts threads and lets them wait, memory,
/// and the gate that its tasks pass.
#[derive(Drop)]
pub struct Means<'a, G, R> {
    pub rt: &'a R,
    pub alloc: Global,
    pub gate: &'a G,
}
