// The real outside. Nothing is told of its bytes; each fault that it reports is counted.
ghost use Rattle.std.specs.Prelude.{◌≡◌, ◌≢◌, ◌<◌, ◌≤◌, IfOk, OnOk, OnErr, length};
ghost use Rattle.std.specs.Io.KnownBytes.{Appends};
ghost use Rattle.saber_io.specs.Outside.{raised_faults};
ghost use Rattle.saber_plan.specs.Outputs.{raised_count};

use crate::{CreateFault, Failed, Files, OpenFault, Outs, Sink, Source, WriteFault};
use std::alloc::Global;
use std::fs;
use std::fs::File;
use std::io::{Read, Write};
use std::marker::Model;

/// A file of the system, read from its beginning. It tells no content; each error that the system
/// reports is a fault.
#[derive(Drop)]
pub struct FileSource {
    file: File,
    faults: u64,
}

impl Model for FileSource {
    ghost use Rattle.std.specs.Prelude.{ℕ};

    ghost Value = { ℕ };

    ghost view = { λ s. s.faults };
}

impl Source for FileSource {
    ghost use Rattle.std.specs.Prelude.{None};

    ghost left = { λ _. None };

    ghost faults = { λ s. s };

    fn read(&mut self, buf: &mut [u8]) -> Result<usize, Failed>
        requires { 0 < length buf.old }
        ensures within { IfOk result (λ n. n ≤ length buf.old) }
        ensures ok { OnOk result (self.new ≡ self.old) }
        ensures err { OnErr result (self.new ≡ raised_count self.old) }
        ensures count { self.old ≤ self.new }
    {
        match self.file.read(buf) {
            Ok(n) => Ok(n),
            Err(_) => {
                self.faults = self.faults.saturating_add(1);
                Err(Failed)
            }
        }
    }
}

/// Files of the system by their paths. They tell no content; each error that the system reports is
/// a fault.
#[derive(Drop)]
pub struct HostFiles {
    rt: HostRuntime,
    faults: u64,
}

impl Model for HostFiles {
    ghost use Rattle.std.specs.Prelude.{ℕ};

    ghost Value = { ℕ };

    ghost view = { λ f. f.faults };
}

impl HostFiles {
    /// The files that the running program can open.
    pub fn new(rt: HostRuntime) -> HostFiles
        ensures { result ≡ 0 }
    {
        HostFiles { rt, faults: 0 }
    }
}

impl Files for HostFiles {
    ghost use Rattle.std.specs.Prelude.{None};

    type Src = FileSource;

    ghost told = { λ _. None };

    ghost faults = { λ f. f };

    fn open_file(&mut self, _alloc: Global, name: &str) -> Result<FileSource, OpenFault>
        ensures fresh { IfOk result (λ src. src ≡ 0) }
        ensures ok { OnOk result (self.new ≡ self.old) }
        ensures err { OnErr result (self.new ≡ raised_count self.old) }
        ensures memory { result ≢ Err OpenFault.NoMemory }
        ensures count { self.old ≤ self.new }
    {
        match fs::open(&self.rt, name) {
            Ok(file) => Ok(FileSource { file, faults: 0 }),
            Err(_) => {
                self.faults = self.faults.saturating_add(1);
                Err(OpenFault::Failed)
            }
        }
    }

    fn close_file(&mut self, src: FileSource)
        ensures { self.new ≡ raised_faults self.old src }
    {
        if src.faults > 0 {
            self.faults = self.faults.saturating_add(1);
        }
    }
}

/// A sink over a writer, as standard output or standard error. It tells no content; each error that
/// the writer reports is a fault, and so is a writer that takes nothing of a piece that isn't
/// empty.
#[derive(Drop)]
pub struct StdSink<W: Write + Drop> {
    writer: W,
    faults: u64,
    writes: u64,
}

impl<W: Write + Drop> Model for StdSink<W> {
    ghost use Rattle.saber_io.specs.Host.{WriterState};

    ghost Value = { WriterState W };

    ghost view = { λ s. record { writer = s.writer; faults = s.faults; writes = s.writes } };
}

impl<W: Write + Drop> StdSink<W> {
    /// A sink that hands its pieces to this writer.
    pub fn new(writer: W) -> StdSink<W>
        ensures { result ≡ record { writer = writer; faults = 0; writes = 0 } }
    {
        StdSink {
            writer,
            faults: 0,
            writes: 0,
        }
    }
}

impl<W: Write + Drop> Sink for StdSink<W> {
    ghost use Rattle.std.specs.Prelude.{None};

    ghost written = { λ _. None };

    ghost faults = { λ s. s.faults };

    ghost writes = { λ s. s.writes };

    fn write_all(&mut self, piece: &[u8]) -> Result<(), WriteFault>
        // Where the writer tells what it holds, the whole piece has gone there.
        ensures whole { OnOk result (
            Appends (W.contents self.old.writer) (W.contents self.new.writer) piece.now) }
        ensures ok { OnOk result (self.new.faults ≡ self.old.faults) }
        ensures err { OnErr result (self.new.faults ≡ raised_count self.old.faults) }
        ensures memory { result ≢ Err WriteFault.NoMemory }
        ensures one { self.new.writes ≡ raised_count self.old.writes }
        ensures count { self.old.faults ≤ self.new.faults }
    {
        self.writes = self.writes.saturating_add(1);
        if self.writer.write_all(piece).is_ok() && self.writer.flush().is_ok() {
            return Ok(());
        }
        self.faults = self.faults.saturating_add(1);
        Err(WriteFault::Failed)
    }
}

/// A file of the system that was created: a sink over it, which tells no content.
#[derive(Drop)]
pub struct FileSink {
    sink: StdSink<File>,
}

impl Model for FileSink {
    ghost use Rattle.saber_io.specs.Host.{Counts};

    ghost Value = { Counts };

    ghost view = { λ s. record { faults = s.sink.faults; writes = s.sink.writes } };
}

impl Sink for FileSink {
    ghost use Rattle.std.specs.Prelude.{None};

    ghost written = { λ _. None };

    ghost faults = { λ s. s.faults };

    ghost writes = { λ s. s.writes };

    fn write_all(&mut self, piece: &[u8]) -> Result<(), WriteFault>
        ensures ok { OnOk result (self.new.faults ≡ self.old.faults) }
        ensures err { OnErr result (self.new.faults ≡ raised_count self.old.faults) }
        ensures memory { result ≢ Err WriteFault.NoMemory }
        ensures one { self.new.writes ≡ raised_count self.old.writes }
        ensures count { self.old.faults ≤ self.new.faults }
    {
        self.sink.write_all(piece)
    }
}

/// Files of the system that are created by their paths: what stood there is gone. They tell no
/// name; each error that the system reports is a fault.
#[derive(Drop)]
pub struct HostOuts {
    rt: HostRuntime,
    creates: u64,
    faults: u64,
}

impl Model for HostOuts {
    ghost use Rattle.saber_io.specs.Host.{OutCounts};

    ghost Value = { OutCounts };

    ghost view = { λ o. record { creates = o.creates; faults = o.faults } };
}

impl HostOuts {
    /// The files that the running program can create.
    pub fn new(rt: HostRuntime) -> HostOuts
        ensures { result ≡ record { creates = 0; faults = 0 } }
    {
        HostOuts {
            rt,
            creates: 0,
            faults: 0,
        }
    }
}

impl Outs for HostOuts {
    ghost use Rattle.std.specs.Prelude.{None};

    type Out = FileSink;

    ghost asked = { λ _. None };

    ghost creates = { λ o. o.creates };

    ghost faults = { λ o. o.faults };

    fn create_file(&mut self, _alloc: Global, name: &str) -> Result<FileSink, CreateFault>
        ensures fresh { IfOk result (λ out. out ≡ record { faults = 0; writes = 0 }) }
        ensures ok { OnOk result (self.new.faults ≡ self.old.faults) }
        ensures err { OnErr result (self.new.faults ≡ raised_count self.old.faults) }
        ensures memory { result ≢ Err CreateFault.NoMemory }
        ensures one { self.new.creates ≡ raised_count self.old.creates }
        ensures count { self.old.faults ≤ self.new.faults }
    {
        self.creates = self.creates.saturating_add(1);
        match fs::create(&self.rt, name) {
            Ok(file) => Ok(FileSink {
                sink: StdSink::new(file),
            }),
            Err(_) => {
                self.faults = self.faults.saturating_add(1);
                Err(CreateFault::Failed)
            }
        }
    }
}
