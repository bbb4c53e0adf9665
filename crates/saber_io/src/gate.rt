// Gates, at which a worker tells how far its task is.
ghost use Rattle.std.specs.Prelude.{ℕ, ◌<◌, ◌≤◌, IfSome, vec_len};

use std::sync::atomic::{AtomicBool, AtomicU64, Ordering};
use std::thread::yield_now;

/// Where a worker passes by with each task, so that a test can hold one worker back for another. It
/// promises nothing.
pub trait Gate {
    /// Whoever claimed the task calls this before its fragment.
    fn pass(&self, task: u64);

    /// Whoever claimed the task calls this after its deposit.
    fn done(&self, task: u64);
}

/// The gate that does nothing, which runs outside of tests use.
#[derive(Clone, Copy)]
pub struct OpenGate;

impl Gate for OpenGate {
    fn pass(&self, _task: u64) {}

    fn done(&self, _task: u64) {}
}

/// A gate that holds one task back until another one is done, for so many looks at most. A test
/// with it shows that both tasks are under way at once: on one thread the first would wait in vain.
#[derive(Drop)]
pub struct HoldGate {
    first: u64,
    second: u64,
    limit: u64,
    is_done: AtomicBool,
    was_late: AtomicBool,
}

impl HoldGate {
    /// Holds `first` back until `second` is done, for at most `limit` looks.
    pub fn new(first: u64, second: u64, limit: u64) -> HoldGate {
        HoldGate {
            first,
            second,
            limit,
            is_done: AtomicBool::new(false),
            was_late: AtomicBool::new(false),
        }
    }

    /// Whether the first task went on because it had looked so often, and not because the other was
    /// done.
    pub fn late(&self) -> bool {
        self.was_late.load(Ordering::SeqCst)
    }
}

impl Gate for HoldGate {
    fn pass(&self, task: u64) {
        if task != self.first {
            return;
        }
        for _ in 0..self.limit {
            if self.is_done.load(Ordering::SeqCst) {
                return;
            }
            yield_now();
        }
        self.was_late.store(true, Ordering::SeqCst);
    }

    fn done(&self, task: u64) {
        if task == self.second {
            self.is_done.store(true, Ordering::SeqCst);
        }
    }
}

/// A gate that lets tasks by in one order: each of them is held back until the one before it in the
/// order is done, for so many looks at most. Other tasks pass. A test with it shows what comes of
/// an order in which tasks are completed.
#[derive(Drop)]
pub struct OrderGate {
    order: Vec<u64>,
    limit: u64,
    // Bit j: the j-th task of the order is done.
    done: AtomicU64,
    was_late: AtomicBool,
    ghost few: { vec_len order ≤ 64 },
}

impl OrderGate {
    /// An order of at most 64 tasks, each of them once, and how often a task looks at most.
    pub fn new(order: Vec<u64>, limit: u64) -> OrderGate
        requires { vec_len order ≤ 64 }
    {
        OrderGate {
            order,
            limit,
            done: AtomicU64::new(0),
            was_late: AtomicBool::new(false),
        }
    }

    /// Whether some task went on because it had looked so often, and not because the one before was
    /// done.
    pub fn late(&self) -> bool {
        self.was_late.load(Ordering::SeqCst)
    }

    // Where the task stands in the order.
    fn place(&self, task: u64) -> Option<usize>
        ensures { IfSome result (λ j. j < 64) }
    {
        self.order.iter().position(|other| *other == task)
    }

    // Looks until the task at this place of the order is done.
    fn await_done(&self, place: usize)
        requires { place < 64 }
    {
        let bit = 1u64 << place;
        for _ in 0..self.limit {
            if self.done.load(Ordering::SeqCst) & bit != 0 {
                return;
            }
            yield_now();
        }
        self.was_late.store(true, Ordering::SeqCst);
    }
}

impl Gate for OrderGate {
    fn pass(&self, task: u64) {
        if let Some(place) = self.place(task)
            && 0 < place
        {
            self.await_done(place - 1);
        }
    }

    fn done(&self, task: u64) {
        if let Some(place) = self.place(task) {
            self.done.fetch_or(1u64 << place, Ordering::SeqCst);
        }
    }
}
