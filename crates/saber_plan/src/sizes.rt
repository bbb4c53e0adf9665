// The sizes of a run.

/// How a run is cut into tasks, and what it may use. The limits are `SizesFit` of this crate's
/// specs (this project's own rule).
#[derive(Clone, Copy, Debug, PartialEq, Eq)]
pub struct Sizes {
    /// Rows of a task, 1 to 65,536.
    pub task: u32,
    /// Cells of the ring, 1 to 1,024: so many tasks at most are on their way at once.
    pub ring: u32,
    /// Threads that are started beside the caller's, 0 to 64.
    pub threads: u32,
    /// Lines that a file may have, 1 to 2^40. The next one is refused.
    pub max_lines: u64,
    /// By how much a timestamp may fall within a file, 0 to 2^40: its rows are put in order of
    /// time.
    pub slack: u64,
    /// Whether the end of the input closes every begun window.
    pub flush: bool,
}
