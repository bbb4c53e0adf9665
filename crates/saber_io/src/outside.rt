// What the engine asks of the outside. Each object counts its faults, so that a caller can say that
// a fault is real. A count stands still at its type's last value, so 'the count rose' means that it
// rose or stands there.
ghost use Rattle.std.specs.Prelude.{◌≡◌, ◌≢◌, ◌<◌, ◌≤◌, ℕ, List, Option, length, take, IfOk, OnOk, OnErr, Ok, Err};
ghost use Rattle.saber_io.specs.declared.outside.OpenFault.{OpenFault};
ghost use Rattle.saber_io.specs.declared.outside.WriteFault.{WriteFault};
ghost use Rattle.saber_io.specs.Outside.{left_before, EndsEmpty, FilesView, after_asking, after_closing, raised_faults, Opens};
ghost use Rattle.saber_plan.specs.Outputs.{raised_count, Rose, appended_text, AppendsPrefix};

use std::alloc::{AllocError, AllocFailed, Global};

/// A read that failed.
#[derive(Clone, Copy)]
pub struct Failed;

/// Why a file wasn't opened: it couldn't be, or memory was wanting.
#[derive(Clone, Copy)]
pub enum OpenFault {
    Failed,
    NoMemory,
}

/// Why a piece wasn't written whole: it couldn't be, or memory was wanting.
#[derive(Clone, Copy, Debug, PartialEq, Eq)]
pub enum WriteFault {
    Failed,
    NoMemory,
}

impl From<AllocError> for OpenFault {
    ghost from_gives = { λ _ e. e ≡ OpenFault.NoMemory };

    fn from(_: AllocError) -> Self {
        OpenFault::NoMemory
    }
}

impl<T: Drop> From<AllocFailed<T>> for OpenFault {
    ghost from_gives = { λ _ e. e ≡ OpenFault.NoMemory };

    fn from(_: AllocFailed<T>) -> Self {
        OpenFault::NoMemory
    }
}

impl From<AllocError> for WriteFault {
    ghost from_gives = { λ _ e. e ≡ WriteFault.NoMemory };

    fn from(_: AllocError) -> Self {
        WriteFault::NoMemory
    }
}

/// Bytes that come in pieces, as from a file.
pub trait Source {
    /// The bytes that reads will still give, where it tells.
    ghost left: { Self → Option (List ℕ) };

    /// How often a read has failed.
    ghost faults: { Self → ℕ };

    /// Fills the front of the buffer, and answers with how many bytes. 0 is the end. After Failed a
    /// later read may go on.
    fn read(&mut self, buf: &mut [u8]) -> Result<usize, Failed>
        requires { 0 < length buf.old }
        ensures within { IfOk result (λ n. n ≤ length buf.old) }
        ensures bytes { IfOk result (λ n. left self.old ≡ left_before (take n buf.new) (left self.new)) }
        ensures end { result ≡ Ok 0 → EndsEmpty (left self.old) }
        ensures good { OnOk result (faults self.new ≡ faults self.old) }
        ensures stands { OnErr result (left self.new ≡ left self.old) }
        ensures cause { OnErr result (Rose (faults self.old) (faults self.new)) }
        ensures count { faults self.old ≤ faults self.new };
}

/// Where bytes go out to, as to a terminal.
pub trait Sink {
    /// The bytes that have gone out, where it tells.
    ghost written: { Self → Option (List ℕ) };

    /// How often a write has failed.
    ghost faults: { Self → ℕ };

    /// How many writes went out, those that failed among them.
    ghost writes: { Self → ℕ };

    /// Writes the whole piece. After Failed a part of it may be out, after NoMemory nothing of it
    /// is, and there was no write.
    fn write_all(&mut self, piece: &[u8]) -> Result<(), WriteFault>
        ensures ok { OnOk result (written self.new ≡ appended_text (written self.old) piece.now) }
        ensures good { result ≢ Err WriteFault.Failed → faults self.new ≡ faults self.old }
        ensures failed { result ≡ Err WriteFault.Failed →
            AppendsPrefix (written self.old) (written self.new) piece.now }
        ensures memory { result ≡ Err WriteFault.NoMemory → written self.new ≡ written self.old }
        ensures one { result ≢ Err WriteFault.NoMemory → writes self.new ≡ raised_count (writes self.old) }
        ensures none { result ≡ Err WriteFault.NoMemory → writes self.new ≡ writes self.old }
        ensures cause { result ≡ Err WriteFault.Failed → Rose (faults self.old) (faults self.new) }
        ensures count { faults self.old ≤ faults self.new };
}

/// Files by their names.
pub trait Files {
    /// A file that is open, from its first byte on.
    type Src: Source;

    /// The contents by name, the names that were asked for, and the sources that were given back,
    /// where it tells.
    ghost told: { Self → Option FilesView };

    /// How often an open has failed, and how many sources were given back with faults.
    ghost faults: { Self → ℕ };

    /// Opens the file with this name.
    fn open_file(&mut self, alloc: Global, name: &str) -> Result<Self::Src, OpenFault>
        ensures opens { IfOk result (λ src. Opens (told self.old) name.now (Self.Src.left src)) }
        ensures fresh { IfOk result (λ src. Self.Src.faults src ≡ 0) }
        ensures good { OnOk result (faults self.new ≡ faults self.old) }
        ensures asked { result ≢ Err OpenFault.NoMemory →
            told self.new ≡ after_asking (told self.old) name.now }
        ensures memory { result ≡ Err OpenFault.NoMemory →
            (told self.new ≡ told self.old) × (faults self.new ≡ faults self.old) }
        ensures cause { result ≡ Err OpenFault.Failed → Rose (faults self.old) (faults self.new) }
        ensures count { faults self.old ≤ faults self.new };

    /// Takes a source back. It needs no memory.
    fn close_file(&mut self, src: Self::Src)
        ensures closed { told self.new ≡
            after_closing (told self.old) (Self.Src.left src) (Self.Src.faults src) }
        ensures count { faults self.new ≡ raised_faults (faults self.old) (Self.Src.faults src) };
}
