// A task's rows.
use saber_flat::Rows;
use saber_plan::Mark;

/// A task's rows, with the mark before them, and whether the input ends behind them.
#[derive(Clone, Copy)]
pub(crate) struct Batch<'a> {
    pub(crate) before: Mark,
    pub(crate) rows: &'a Rows,
    pub(crate) ended: bool,
}
