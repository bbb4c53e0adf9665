// The bytes that a reader holds.
ghost use Rattle.std.specs.Prelude.{◌≡◌, ◌≤◌, ◌+◌, vec_len};

use saber_io::{Failed, Source};
use std::alloc::{AllocError, Global};

/// Bytes in a buffer that is never larger than it was made.
#[derive(Drop)]
pub(crate) struct Buffer {
    pub(crate) buf: Vec<u8>,
    pub(crate) at: usize,
    pub(crate) end: usize,
    ghost sized: { vec_len buf ≡ 16384 },
    ghost ordered: { at ≤ end },
    ghost inside: { end ≤ 16384 },
}

// Room for several pieces, so that few reads move bytes down.
const SIZE: usize = 16384;

// What each read is offered.
pub(crate) const PIECE: usize = 4096;

impl Buffer {
    ghost use Rattle.std.specs.Prelude.{◌≡◌, ◌≤◌, ◌+◌, [], length, drop, IfOk, OnOk, OnErr, Ok};
    ghost use Rattle.saber_io.specs.Outside.{EndsEmpty};
    ghost use Rattle.saber_plan.specs.Outputs.{Rose};
    ghost use Rattle.saber_rows.specs.Buffer.{bytes_of, Gains};

    /// A buffer with nothing in it.
    pub(crate) fn new(alloc: Global) -> Result<Buffer, AllocError>
        ensures { IfOk result (λ h. bytes_of h ≡ []) }
    {
        let buf = vec![in alloc; 0u8; SIZE]?;
        Ok(Buffer { buf, at: 0, end: 0 })
    }

    /// What is held.
    #[inline]
    pub(crate) fn bytes(&self) -> &[u8]
        ensures value { result.now ≡ bytes_of self.now }
        ensures len { length result.now ≤ 16384 }
    {
        &self.buf[self.at..self.end]
    }

    /// Lets the first n bytes go.
    #[inline]
    pub(crate) fn consume(&mut self, n: usize)
        requires { n ≤ length (bytes_of self.old) }
        ensures { bytes_of self.new ≡ drop n (bytes_of self.old) }
    {
        self.at += n;
    }

    // Moves the bytes to the front of the buffer, if a piece does not fit behind them.
    pub(crate) fn make_room(&mut self)
        requires { length (bytes_of self.old) ≤ 4097 }
        ensures same { bytes_of self.new ≡ bytes_of self.old }
        ensures room { self.new.end + 4096 ≤ 16384 }
    {
        if self.end + PIECE > SIZE {
            self.buf.copy_within(self.at..self.end, 0);
            self.end -= self.at;
            self.at = 0;
        }
    }

    /// Reads a piece of up to 4,096 bytes, and answers how many came.
    pub(crate) fn fill<S: Source>(&mut self, source: &mut S) -> Result<usize, Failed>
        requires { length (bytes_of self.old) ≤ 4097 }
        ensures bytes { IfOk result (λ n. Gains n (bytes_of self.old) (bytes_of self.new) (S.left source.old) (S.left source.new)) }
        ensures within { IfOk result (λ n. n ≤ 4096) }
        ensures end { result ≡ Ok 0 → EndsEmpty (S.left source.old) }
        ensures stands { OnErr result ((bytes_of self.new ≡ bytes_of self.old) × (S.left source.new ≡ S.left source.old)) }
        ensures cause { OnErr result (Rose (S.faults source.old) (S.faults source.new)) }
        ensures good { OnOk result (S.faults source.new ≡ S.faults source.old) }
        ensures count { S.faults source.old ≤ S.faults source.new }
    {
        self.make_room();
        let to = self.end + PIECE;
        match source.read(&mut self.buf[self.end..to]) {
            Ok(n) => {
                self.end += n;
                Ok(n)
            }
            Err(failed) => Err(failed),
        }
    }
}
