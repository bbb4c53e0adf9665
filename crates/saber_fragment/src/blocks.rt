// The rows of a task, as they are handed on.
use saber_flat::Rows;
use saber_plan::Mark;
use std::alloc::Global;

/// Rows that stand right before a task's own, with the mark before them: those of the task before
/// it, where they help, else none. They are a copy, so no other task's block has to be kept for
/// them.
#[derive(Drop)]
pub struct Earlier {
    /// What stands before these rows.
    pub before: Mark,
    /// The rows, up to the task's first.
    pub rows: Rows,
}

impl Earlier {
    ghost use Rattle.std.specs.Prelude.{◌≡◌, []};

    /// No rows, right before a task's own, where `before` stands. Takes no memory.
    pub fn none(alloc: Global, before: Mark) -> Earlier
        ensures before { result.before ≡ before }
        ensures rows { result.rows ≡ [] }
    {
        Earlier {
            before,
            rows: Rows::new(alloc),
        }
    }
}

/// The rows of one task (SABER 2016: a batch of a fixed number of rows, whatever the windows are;
/// the last one may be short), which that task and later ones read.
#[derive(Drop)]
pub struct Block {
    /// The task's number, from 0 on.
    pub number: u64,
    /// The first task whose rows the task needs: its own number, where the query joins no streams.
    pub first: u64,
    /// Rows before its own that the task may look at.
    pub earlier: Earlier,
    /// What stands before the rows.
    pub before: Mark,
    /// The task's own rows.
    pub rows: Rows,
    /// Where each of them stands among all rows with its key list, where the query has PARTITION
    /// BY, else nothing.
    pub places: Vec<u64>,
    /// Whether the input ends behind them: of the flush task alone, which has no rows.
    pub ended: bool,
}
