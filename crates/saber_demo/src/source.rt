// The generated rows as a source.
ghost use Rattle.std.specs.Prelude.{◌≡◌, ◌≤◌, ◌<◌, ◌+◌, ◌^◌, ◌++◌, [], drop, take, length};
ghost use Rattle.saber_demo.specs.Generator.{step};
ghost use Rattle.saber_demo.specs.Rows.{generated_file, lines_from};

use crate::lines::write_row;
use arrayvec::ArrayString;
use saber_io::{Failed, Source};
use std::marker::Model;

/// The file of generated rows, which are made as it is read. No read fails, and none takes memory.
#[derive(Drop)]
pub struct Generated {
    // the state of the generator, behind the rows that are made
    state: u64,
    // how many rows are made, and how many there are
    made: u64,
    rows: u64,
    // the line of the last row that is made, and how much of it was given
    line: ArrayString<64>,
    given: usize,
}

impl Model for Generated {
    ghost use Rattle.std.specs.Prelude.{◌≤◌, ◌<◌, ◌-◌, ◌^◌, ◌++◌, List, ℕ, drop, length};
    ghost use Rattle.saber_demo.specs.Rows.{lines_from};

    ghost Value = { List ℕ };

    ghost view = { λ g. drop g.given g.line.bytes ++ lines_from g.state g.made (g.rows - g.made) };

    ghost invariant = { λ g. (g.state < 2 ^ 31) × (g.made ≤ g.rows) × (g.given ≤ length g.line.bytes) };
}

// The generator's next state.
fn step(state: u64) -> u64
    requires { state < 2 ^ 31 }
    ensures next { result ≡ step state }
    ensures bits { result < 2 ^ 31 }
{
    (state * 1_103_515_245 + 12_345) % 2_147_483_648
}

// Copies what fits of some bytes, from a place on, into the front of the buffer, and tells how many
// these are.
#[tactic(auto, using(crate::proofs::Sources::part_and_rest))]
fn give(bytes: &[u8], at: usize, buf: &mut [u8]) -> usize
    requires there { at ≤ length bytes.now }
    requires room { 0 < length buf.old }
    ensures fits { result ≤ length buf.old }
    ensures inside { at + result ≤ length bytes.now }
    ensures given { drop at bytes.now ≡ take result buf.new ++ drop (at + result) bytes.now }
    ensures some { result ≡ 0 → drop at bytes.now ≡ [] }
{
    let size = (bytes.len() - at).min(buf.len());
    buf[..size].copy_from_slice(&bytes[at..at + size]);
    size
}

impl Generated {
    /// The first rows that a seed gives, before the first read.
    pub fn new(seed: u64, rows: u64) -> Generated
        requires { seed < 2 ^ 31 }
        ensures { result ≡ generated_file seed rows }
    {
        Generated {
            state: seed,
            made: 0,
            rows,
            line: ArrayString::new(),
            given: 0,
        }
    }
}

impl Source for Generated {
    ghost use Rattle.std.specs.Prelude.{Some};

    ghost left = { λ g. Some g };

    ghost faults = { λ g. 0 };

    fn read(&mut self, buf: &mut [u8]) -> Result<usize, Failed> {
        if self.given == self.line.len() && self.made < self.rows {
            let state = step(self.state);
            write_row(&mut self.line, self.made, state / 65_536);
            self.state = state;
            self.made += 1;
            self.given = 0;
        }
        let size = give(self.line.as_str().as_bytes(), self.given, buf);
        self.given += size;
        Ok(size)
    }
}
