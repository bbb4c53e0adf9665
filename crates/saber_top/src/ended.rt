//! What a call comes to.
use crate::parts::PartList;
use saber_notes::{Early, Noted, Outcome};

/// How a call ended.
#[derive(Clone, Copy)]
pub enum TopEnd {
    /// Of a command with one query, a chain, a demo, or words that are no command: so.
    One(Outcome),
    /// Of several queries: before any of them was run, so.
    Before(Early),
    /// Each of several queries was run. How, its part tells.
    Each,
}

/// What a call came to.
#[derive(Drop)]
pub struct Top<K, T> {
    /// The status that the process ends with.
    pub status: u8,
    /// The sink that was handed in, with what was written to it.
    pub sink: K,
    /// How many tasks are assembled; 0 where nothing was run, where `demo` lacks memory, and of
    /// several queries, whose parts tell theirs.
    pub tasks: u64,
    /// What became of the notes.
    pub noted: Noted,
    /// How the call ended, of which the status and the notes tell.
    pub end: TopEnd,
    /// Of several queries that were run: what came of each. Else nothing.
    pub parts: PartList<T>,
}
