// How a chain ends.
use saber_engine::{Inputs, RunEnd, Stopped};

/// A chain that ended: how each of its queries ended, and how many tasks of each are assembled;
/// with the inputs and the sink.
#[derive(Drop)]
pub struct Chained<S, K> {
    pub first: RunEnd,
    pub second: RunEnd,
    /// Whether the second query's stage stopped: then its end came before that of its rows. None
    /// where memory lacked before either was run.
    pub second_stopped: Option<Stopped>,
    pub inputs: Inputs<S>,
    pub sink: K,
    pub first_tasks: u64,
    pub tasks: u64,
}
