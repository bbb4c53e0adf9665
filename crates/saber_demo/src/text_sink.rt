// A sink in memory for the text of a run.
use saber_io::{Sink, WriteFault};
use std::alloc::Global;
use std::marker::Model;

/// A sink that keeps what is written. Only memory can be wanting: no write fails.
#[derive(Drop)]
pub struct TextSink {
    bytes: Vec<u8>,
    writes: u64,
}

impl Model for TextSink {
    ghost use Rattle.saber_demo.specs.TextSinks.{TextState};

    ghost Value = { TextState };

    ghost view = { λ s. record { written = s.bytes.items; writes = s.writes } };
}

impl TextSink {
    ghost use Rattle.std.specs.Prelude.{◌≡◌, []};

    /// Nothing is written yet.
    pub fn new(alloc: Global) -> TextSink
        ensures { result ≡ record { written = []; writes = 0 } }
    {
        TextSink {
            bytes: Vec::new(alloc),
            writes: 0,
        }
    }

    /// What is written.
    pub fn text(&self) -> &[u8]
        ensures { result.now ≡ self.now.written }
    {
        &self.bytes
    }
}

impl Sink for TextSink {
    ghost use Rattle.std.specs.Prelude.{Some};

    ghost written = { λ s. Some s.written };

    ghost faults = { λ s. 0 };

    ghost writes = { λ s. s.writes };

    fn write_all(&mut self, piece: &[u8]) -> Result<(), WriteFault> {
        self.bytes.extend_from_slice(piece)?;
        self.writes = self.writes.saturating_add(1);
        Ok(())
    }
}
