// How the result stage of a run stands.

/// Whether a stage goes on, or why it stopped.
#[derive(Clone, Copy, Debug, PartialEq, Eq)]
pub enum StageState {
    /// It takes pieces in.
    Running,
    /// Its sink failed; what the task in hand adds may be out in part.
    SinkFailed,
    /// Memory lacked, here or where a piece was made.
    NoMemory,
}
