// The gate of the first query's tasks.
use saber_io::Gate;

// From where on the gate counts the tasks of the first query, so that it tells them from those of
// the second.
const FIRST: u64 = 1 << 43;

/// The gate of a chain, as the first query's tasks pass it.
#[derive(Clone, Copy)]
pub(crate) struct FirstGate<'a, G>(pub(crate) &'a G);

impl<'a, G: Gate> Gate for FirstGate<'a, G> {
    fn pass(&self, task: u64) {
        self.0.pass(task.saturating_add(FIRST));
    }

    fn done(&self, task: u64) {
        self.0.done(task.saturating_add(FIRST));
    }
}
