// Sources and sinks in memory, which fail where they are told to.
ghost use Rattle.std.specs.Prelude.{◌≡◌, ◌≤◌, ◌+◌, ◌++◌, ◌<◌, ◌↔◌, [], All, Contains, IsTrue, IsErr, IsNone, IsSomeAnd, IfOk, OnOk, OnErr, drop, take, length};
ghost use Rattle.saber_plan.specs.Outputs.{raised_count};
ghost use Rattle.saber_io.specs.Memory.{within_cut, read_size, let_out, CutsShort};

use crate::{Failed, Sink, Source, WriteFault};
use std::alloc::Global;
use std::marker::Model;

/// A source whose read number j gives at most `cuts[j - 1]` bytes, and fails where j is one of
/// `fails`. Reads are numbered from 1.
#[derive(Drop)]
pub struct MemSource {
    bytes: Vec<u8>,
    at: usize,
    cuts: Vec<u64>,
    fails: Vec<u64>,
    reads: u64,
    faults: u64,
}

impl Model for MemSource {
    ghost use Rattle.std.specs.Prelude.{◌≤◌, All, drop, vec_len};
    ghost use Rattle.saber_io.specs.Memory.{SourceState};

    ghost Value = { SourceState };

    ghost view = { λ s. record {
      left = drop s.at s.bytes.items;
      cuts = s.cuts.items;
      fails = s.fails.items;
      reads = s.reads;
      faults = s.faults;
    } };

    ghost invariant = { λ s. (s.at ≤ vec_len s.bytes) × All (λ c. 1 ≤ c) s.cuts.items };
}

impl MemSource {
    /// A source of all these bytes, before its first read. Past the list of cuts a read gives all
    /// that fit.
    pub fn new(bytes: Vec<u8>, cuts: Vec<u64>, fails: Vec<u64>) -> MemSource
        requires { All (λ c. 1 ≤ c) cuts.items }
        ensures { result ≡ record {
          left = bytes.items;
          cuts = cuts.items;
          fails = fails.items;
          reads = 0;
          faults = 0;
        } }
    {
        MemSource {
            bytes,
            at: 0,
            cuts,
            fails,
            reads: 0,
            faults: 0,
        }
    }

    /// How often a read has failed.
    pub(crate) fn faults(&self) -> u64
        ensures { result ≡ self.now.faults }
    {
        self.faults
    }
}

impl Source for MemSource {
    ghost use Rattle.std.specs.Prelude.{Some};

    ghost left = { λ s. Some s.left };

    ghost faults = { λ s. s.faults };

    fn read(&mut self, buf: &mut [u8]) -> Result<usize, Failed>
        requires { 0 < length buf.old }
        ensures fails { IsErr result ↔ Contains self.old.fails (raised_count self.old.reads) }
        ensures size { IfOk result (λ n. n ≡ read_size self.old (length buf.old)) }
        ensures bytes { IfOk result (λ n. self.old.left ≡ take n buf.new ++ self.new.left) }
        ensures behind { IfOk result (λ n. drop n buf.new ≡ drop n buf.old) }
        ensures end { result ≡ Ok 0 → self.old.left ≡ [] }
        ensures ok { OnOk result (self.new ≡
            record self.old { left = self.new.left; reads = raised_count self.old.reads }) }
        ensures err { OnErr result (self.new ≡
            record self.old { reads = raised_count self.old.reads; faults = raised_count self.old.faults }) }
        ensures untouched { OnErr result (buf.new ≡ buf.old) }
        ensures count { self.old.faults ≤ self.new.faults }
    {
        self.reads = self.reads.saturating_add(1);
        if is_listed(&self.fails, self.reads) {
            self.faults = self.faults.saturating_add(1);
            return Err(Failed);
        }
        let most = (self.bytes.len() - self.at).min(buf.len());
        let size = cut_to(&self.cuts, self.reads, most);
        give(&self.bytes, self.at, size, buf);
        self.at += size;
        Ok(size)
    }
}

// Whether a number is among these.
pub(crate) fn is_listed(numbers: &[u64], number: u64) -> bool
    ensures { IsTrue result ↔ Contains numbers.now number }
{
    numbers.contains(&number)
}

// How many of so many bytes the read with this number gives.
fn cut_to(cuts: &[u64], number: u64, size: usize) -> usize
    requires number { 1 ≤ number }
    requires some_each { All (λ c. 1 ≤ c) cuts.now }
    ensures size { result ≡ within_cut cuts.now number size }
    ensures some { 1 ≤ size → 1 ≤ result }
{
    match cuts.get((number - 1) as usize) {
        Some(cut) if *cut < size as u64 => *cut as usize,
        _ => size,
    }
}

// Copies so many bytes from a place on into the front of the buffer.
#[tactic(auto, using(crate::proofs::Seams::part_and_rest))]
pub(crate) fn give(bytes: &[u8], at: usize, size: usize, buf: &mut [u8])
    requires fits { size ≤ length buf.old }
    requires there { at + size ≤ length bytes.now }
    ensures given { drop at bytes.now ≡ take size buf.new ++ drop (at + size) bytes.now }
    ensures behind { drop size buf.new ≡ drop size buf.old }
{
    buf[..size].copy_from_slice(&bytes[at..at + size]);
}

/// A sink whose write number j fails where `fails` has j, after so many bytes as stand beside it.
/// Writes are numbered from 1.
#[derive(Drop)]
pub struct MemSink {
    bytes: Vec<u8>,
    fails: Vec<(u64, u64)>,
    writes: u64,
    faults: u64,
}

impl Model for MemSink {
    ghost use Rattle.saber_io.specs.Memory.{SinkState};

    ghost Value = { SinkState };

    ghost view = { λ s. record {
      written = s.bytes.items;
      fails = s.fails.items;
      writes = s.writes;
      faults = s.faults;
    } };
}

impl MemSink {
    /// A sink with nothing written. An entry of `fails` is the number of a write and how many bytes
    /// still go out; the first entry for a number counts.
    pub fn new(alloc: Global, fails: Vec<(u64, u64)>) -> MemSink
        ensures { result ≡ record { written = []; fails = fails.items; writes = 0; faults = 0 } }
    {
        MemSink {
            bytes: Vec::new(alloc),
            fails,
            writes: 0,
            faults: 0,
        }
    }

    /// What is written.
    pub fn bytes(&self) -> &[u8]
        ensures { result.now ≡ self.now.written }
    {
        &self.bytes
    }
}

impl Sink for MemSink {
    ghost use Rattle.std.specs.Prelude.{Some};

    ghost written = { λ s. Some s.written };

    ghost faults = { λ s. s.faults };

    ghost writes = { λ s. s.writes };

    fn write_all(&mut self, piece: &[u8]) -> Result<(), WriteFault>
        ensures unlisted { OnOk result (IsNone (let_out self.old.fails (raised_count self.old.writes))) }
        ensures ok { OnOk result (self.new ≡ record self.old {
          written = self.old.written ++ piece.now;
          writes = raised_count self.old.writes;
        }) }
        ensures failed { result ≡ Err WriteFault.Failed → CutsShort self.old self.new piece.now }
        ensures memory { result ≡ Err WriteFault.NoMemory → self.new ≡ self.old }
        ensures count { self.old.faults ≤ self.new.faults }
    {
        let number = self.writes.saturating_add(1);
        match bytes_let_out(&self.fails, number) {
            None => {
                self.bytes.extend_from_slice(piece)?;
                self.writes = number;
                Ok(())
            }
            Some(out) => {
                self.bytes.extend_from_slice(front(piece, out))?;
                self.writes = number;
                self.faults = self.faults.saturating_add(1);
                Err(WriteFault::Failed)
            }
        }
    }
}

// How many bytes the write with this number still lets out, if it fails.
fn bytes_let_out(fails: &[(u64, u64)], number: u64) -> Option<u64>
    ensures { result ≡ let_out fails.now number }
{
    fails
        .iter()
        .find(|fail| fail.0 == number)
        .map(|fail| fail.1)
}

// So many bytes of the piece, or all that there are.
fn front(piece: &[u8], most: u64) -> &[u8]
    ensures { result.now ≡ take most piece.now }
{
    if most < piece.len() as u64 {
        &piece[..most as usize]
    } else {
        piece
    }
}
