//! A pipe between two queries: what one writes is what the next one reads, by a bounded queue.
//! The chain uses it.
//!
//! - Parts: `rule` (what the queue's ends know), `items`, `names` (the pipe in the types of its
//!   ends), `pipe`, `outbox` and `sink` (the end written to), `feed` (the end read from), `left`
//!   and `backlog` (what a writer left), `receipt` (all that was written), `relay` (a reader that
//!   has the backlog too).
//! - Calls: `Pipe::ends` lends a sink and a feed; `PipeSink::finish` takes how the bytes end, and
//!   gives a receipt and what is still to be sent; `Relay::drain` takes all that comes; `dismiss`
//!   lets go of what a writer left, `settle` takes the receipt.
//! - Proved: what was sent is what was got, and then what the queue holds (`specs/Order.antt`);
//!   behind a mark nothing is sent. No write fails but for want of memory; each of the others is
//!   one piece more to send. `pour` keeps nothing, or 64 items at least were sent: with fewer the
//!   pipe wasn't full. `finish` leaves nothing, or its backlog says that `alone` was set, and
//!   `Backlog::send` says so only where it asked. `refill` is false only where all was taken that
//!   its end knew to have been sent: of a relay with a backlog, all that was sent. What was taken is
//!   a front of what was written, and all of it where a mark was taken, which is the one that was
//!   sent (`settle`, `specs/Receipts.antt`); then nothing is left to send (`dismiss`).
//! - Not claimed: that a reader reads, what `alone` holds, and that the pipe was full or empty at
//!   the moment of a call: such a list there always is, so no clause can say it. A full pipe is
//!   back-pressure: a writer waits for room, unless it is alone; then it never waits, and who reads
//!   later sends its backlog on.
//! - Limits: 64 items in the queue; what a sink that is alone keeps has no limit but memory.
#![tactic(auto)]

mod backlog;
mod feed;
mod items;
mod left;
mod names;
mod outbox;
mod pipe;
mod receipt;
mod relay;
mod rule;
mod sink;

pub use backlog::Backlog;
pub use feed::PipeFeed;
pub use items::Item;
pub use names::PipeName;
pub use pipe::Pipe;
pub use receipt::Receipt;
pub use relay::Relay;
pub use sink::PipeSink;
