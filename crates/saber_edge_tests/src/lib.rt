//! Tests of what no contract says and no file of cases can: the system outside, words that are no
//! text, a thread that is refused, the seats of a ring, panes and events, and the runner of cases.
//! They stand in a crate of their own, so that each of those is proved once. What is wanted was
//! worked out by hand; all other tests are data, of `saber_cases`.
//!
//! - Parts: `outside` (opens, creates and writes of the system), `pipes` (where the same thread
//!   writes and then reads), `rings` (seats stepped by hand), `events` (of a core), `panes` (with
//!   `plans` and `keyed`: the plan and the rows), `words`, `trials` (files of cases that fail or
//!   are refused); `texts` says how tables are written.
#![tactic(auto)]

#[cfg(test)]
mod events;
#[cfg(test)]
mod keyed;
#[cfg(test)]
mod outside;
#[cfg(test)]
mod panes;
#[cfg(test)]
mod pipes;
#[cfg(test)]
mod plans;
#[cfg(test)]
mod rings;
#[cfg(test)]
mod texts;
#[cfg(test)]
mod trials;
#[cfg(test)]
mod words;
