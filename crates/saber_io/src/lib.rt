//! What the engine reads from and writes to: traits that count faults, and what implements them.
//! The reader, dispatch, assembly, threads, runs and the top call ask the outside through them
//! alone.
//!
//! - Parts: `outside` (the traits `Source`, `Sink` and `Files`), `outs` (`Outs`: files that are
//!   created to be written to), `feeds` (`Feed`: bytes that another end makes meanwhile), `pours`
//!   (`Pour`: a sink that may hold bytes back), `memory`, `files`, `mem_outs` and `mem_feed` (the
//!   same in memory, failing where they are told to), `gate` (where a test holds a task back),
//!   `host` (thin adapters; no other part calls the system).
//! - Calls: `Source::read` fills a buffer, `Sink::write_all` takes a piece, `Files::open_file` a
//!   name, and so does `Outs::create_file`; `Feed::refill` takes what came, `Feed::feed` gives of
//!   it; `Pour::pour` lets go of what is held back.
//! - Proved of what stands here, and asked of all else: a read gives a front of what is left; a
//!   write appends all, or a prefix with a fault, or nothing for want of memory, and then alone it
//!   isn't counted as a write; a file that is created is empty; a fault comes only with a count
//!   that rose, and what is good leaves it; a `Feed` gives what was taken of it in order, its end
//!   only behind that; what a `Pour` holds back counts as written, and behind `pour` it holds
//!   nothing back, or its other end had no room.
//! - Not claimed: what real files and terminals hold or take: `host` tells no content, and what the
//!   system does is trusted. Gates promise nothing; `MemFeed` gives in pieces as it likes.
//! - Limits: each count stands still at `2^64 - 1`. An interrupted read is a fault.
#![tactic(auto)]

mod feeds;
mod files;
mod gate;
mod host;
mod mem_feed;
mod mem_outs;
mod memory;
mod outs;
mod outside;
mod pours;

pub use feeds::{EndMark, Fed, Feed};
pub use files::{MemFile, MemFiles, MemOpened};
pub use gate::{Gate, HoldGate, OpenGate, OrderGate};
pub use host::{FileSink, FileSource, HostFiles, HostOuts, StdSink};
pub use mem_feed::MemFeed;
pub use mem_outs::{MemFail, MemOuts};
pub use memory::{MemSink, MemSource};
pub use outs::{CreateFault, Outs};
pub use outside::{Failed, Files, OpenFault, Sink, Source, WriteFault};
pub use pours::{Plain, Pour};
