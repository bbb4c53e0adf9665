//! What the workers of a run share.
use crate::labor::Labor;
use saber_core::Work;
use saber_io::Gate;
use saber_ring::Ring;
use std::alloc::Global;
use std::sync::Wait;
use std::sync::atomic::AtomicBool;

/// What each worker of a run works by: the runtime that lets it wait, memory, the ring that its
/// seat is of, what makes and absorbs pieces, the gate that tasks pass, and the flag that ends it.
pub struct Bench<'a, W: Work, L: Labor<W>, G: Gate, R: Wait> {
    pub rt: &'a R,
    pub alloc: Global,
    pub ring: &'a Ring<W>,
    pub op: &'a L,
    pub gate: &'a G,
    pub stop: &'a AtomicBool,
}
