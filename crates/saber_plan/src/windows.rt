// Windows, and what is behind some rows.
ghost use Rattle.std.specs.Prelude.{◌≡◌, ◌≤◌};
ghost use Rattle.saber_plan.specs.Overlap.{overlap};

/// What sizes and slides count: rows of the stream, or its timestamps (SABER 2016).
#[derive(Clone, Copy, Debug, PartialEq, Eq)]
pub enum Measure {
    Rows,
    Range,
}

/// Window i has the points from i times the slide on, as many as the size. In a checked query both
/// are 1 to 2^40.
#[derive(Clone, Copy, Debug, PartialEq, Eq)]
pub struct Window {
    pub measure: Measure,
    pub size: u64,
    pub slide: u64,
}

/// A stream that a query names in FROM: how many columns it has, and its window.
#[derive(Clone, Copy, Debug, PartialEq, Eq)]
pub struct Stream {
    pub columns: u32,
    pub window: Option<Window>,
}

/// What is behind some rows: how many came on each side, the last timestamp, and whether the input
/// ended there, so that no row follows.
#[derive(Clone, Copy, Debug, PartialEq, Eq)]
pub struct Mark {
    pub left: u64,
    pub right: u64,
    pub last: Option<i64>,
    pub ended: bool,
}

/// What part of a window lies in a task (SABER 2016): its end alone is there, its middle, its
/// beginning, or all of it.
#[derive(Clone, Copy, Debug, PartialEq, Eq)]
pub enum Kind {
    Opening,
    Closing,
    Pending,
    Complete,
}

/// How many windows of this size and slide have a point, at most.
pub fn overlap(size: u64, slide: u64) -> u64
    requires { 1 ≤ slide }
    ensures { result ≡ overlap size slide }
{
    size.div_ceil(slide)
}
