// Files that are created to be written to.
ghost use Rattle.std.specs.Prelude.{◌≡◌, ◌≢◌, ◌≤◌, ℕ, List, Option, IfOk, Err};
ghost use Rattle.saber_io.specs.declared.outs.CreateFault.{CreateFault};
ghost use Rattle.saber_plan.specs.Outputs.{raised_count, Rose};
ghost use Rattle.saber_io.specs.Outs.{after_naming, HoldsNothing};

use crate::Sink;
use std::alloc::{AllocError, AllocFailed, Global};

/// Why a file wasn't created: it couldn't be, or memory was wanting.
#[derive(Clone, Copy)]
pub enum CreateFault {
    Failed,
    NoMemory,
}

impl From<AllocError> for CreateFault {
    ghost from_gives = { λ _ e. e ≡ CreateFault.NoMemory };

    fn from(_: AllocError) -> Self {
        CreateFault::NoMemory
    }
}

impl<T: Drop> From<AllocFailed<T>> for CreateFault {
    ghost from_gives = { λ _ e. e ≡ CreateFault.NoMemory };

    fn from(_: AllocFailed<T>) -> Self {
        CreateFault::NoMemory
    }
}

/// Files that are created by their names, to be written to.
pub trait Outs {
    /// A file that was created; another thread may write to it.
    type Out: Sink + Send + Drop;

    /// The names that were asked for, in order, where it tells.
    ghost asked: { Self → Option (List (List ℕ)) };

    /// How often a file was asked for.
    ghost creates: { Self → ℕ };

    /// How often one couldn't be created.
    ghost faults: { Self → ℕ };

    /// Creates the file with this name, empty: what was there is gone. After NoMemory it wasn't
    /// asked for.
    fn create_file(&mut self, alloc: Global, name: &str) -> Result<Self::Out, CreateFault>
        ensures empty { IfOk result (λ out. HoldsNothing (Self.Out.written out)) }
        ensures fresh { IfOk result (λ out. Self.Out.faults out ≡ 0) }
        ensures unwritten { IfOk result (λ out. Self.Out.writes out ≡ 0) }
        ensures asked { result ≢ Err CreateFault.NoMemory → asked self.new ≡ after_naming (asked self.old) name.now }
        ensures one { result ≢ Err CreateFault.NoMemory → creates self.new ≡ raised_count (creates self.old) }
        ensures unasked { result ≡ Err CreateFault.NoMemory → asked self.new ≡ asked self.old }
        ensures none { result ≡ Err CreateFault.NoMemory → creates self.new ≡ creates self.old }
        ensures cause { result ≡ Err CreateFault.Failed → Rose (faults self.old) (faults self.new) }
        ensures good { result ≢ Err CreateFault.Failed → faults self.new ≡ faults self.old }
        ensures count { faults self.old ≤ faults self.new };
}
