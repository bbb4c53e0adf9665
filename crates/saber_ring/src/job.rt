//! A task that a seat has claimed.
ghost use Rattle.std.specs.Prelude.{◌^◌, ◌≡◌, ◌<◌};

use saber_core::Work;
use std::marker::PhantomData;

/// A claimed task. Its rows, and those that it looks back on, are read from the ring. It ends by
/// `Seat::deposit` alone, so that none is lost silently.
pub struct Job<W: Work> {
    pub(crate) task: u64,
    pub(crate) work: PhantomData<W>,
    pub ghost small: { task < 2 ^ 42 },
}

impl<W: Work> Job<W> {
    /// The number of the task.
    pub fn task(&self) -> u64
        ensures same { result ≡ self.now.task }
        ensures small { result < 2 ^ 42 }
    {
        self.task
    }
}
