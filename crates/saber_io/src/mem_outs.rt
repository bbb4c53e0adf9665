// Files that are created in memory.
ghost use Rattle.std.specs.Prelude.{◌≡◌, ◌≢◌, ◌≤◌, [], ◌∷◌, ◌++◌, Contains, IfOk, OnOk, OnErr};
ghost use Rattle.saber_io.specs.declared.outs.CreateFault.{CreateFault};
ghost use Rattle.saber_plan.specs.Outputs.{raised_count};
ghost use Rattle.saber_io.specs.Outs.{fails_of, created_file, one_asked, one_failed};

use crate::memory::is_listed;
use crate::{CreateFault, MemSink, Outs};
use std::alloc::{AllocError, Global};
use std::marker::Model;

/// A write that fails: the name of its file, its number there, and how many bytes it still lets
/// out. Writes are numbered from 1.
#[derive(Drop)]
pub struct MemFail {
    pub name: String,
    pub write: u64,
    pub out: u64,
}

/// Files that are created in memory, whose create number j fails where j is one of `fails`. Creates
/// are numbered from 1. It keeps which names were asked for.
#[derive(Drop)]
pub struct MemOuts {
    fails: Vec<u64>,
    writes: Vec<MemFail>,
    creates: u64,
    faults: u64,
    asked: Vec<String>,
}

impl Model for MemOuts {
    ghost use Rattle.std.specs.Prelude.{map, string_bytes};
    ghost use Rattle.saber_io.specs.Outs.{OutsState};

    ghost Value = { OutsState };

    ghost view = { λ o. record {
      fails = o.fails.items;
      writes = o.writes.items;
      creates = o.creates;
      faults = o.faults;
      asked = map string_bytes o.asked.items;
    } };
}

impl MemFail {
    // The writes to a file of this name that fail.
    fn of_name(alloc: Global, writes: &[MemFail], name: &str) -> Result<Vec<(u64, u64)>, AllocError>
        ensures { IfOk result (λ fails. fails.items ≡ fails_of writes.now name.now) }
    {
        writes
            .iter()
            .filter(|fail| fail.name.as_str() == name)
            .map(|fail| (fail.write, fail.out))
            .collect(alloc)
    }
}

impl MemOuts {
    ghost use Rattle.std.specs.Prelude.{map, string_bytes};

    /// Files of which none was created yet, and the writes to them that fail: of two with one name
    /// and number the first counts.
    pub fn new(alloc: Global, fails: Vec<u64>, writes: Vec<MemFail>) -> MemOuts
        ensures { result ≡ record {
          fails = fails.items;
          writes = writes.items;
          creates = 0;
          faults = 0;
          asked = [];
        } }
    {
        MemOuts {
            fails,
            writes,
            creates: 0,
            faults: 0,
            asked: Vec::new(alloc),
        }
    }

    // Keeps the name of a file that is asked for, and tells which writes to it fail.
    fn ask(&mut self, alloc: Global, name: &str) -> Result<Vec<(u64, u64)>, AllocError>
        ensures fails { IfOk result (λ fails. fails.items ≡ fails_of self.old.writes name.now) }
        ensures ok { OnOk result (self.new ≡ record self.old { asked = self.old.asked ++ name.now ∷ [] }) }
        ensures err { OnErr result (self.new ≡ self.old) }
    {
        let fails = MemFail::of_name(alloc, &self.writes, name)?;
        let asked = String::from_str(alloc, name)?;
        self.asked.push(asked)?;
        Ok(fails)
    }

    /// The names that were asked for, in order.
    pub fn asked(&self) -> &[String]
        ensures { map string_bytes result.now ≡ self.now.asked }
    {
        &self.asked
    }
}

impl Outs for MemOuts {
    ghost use Rattle.std.specs.Prelude.{Some};

    type Out = MemSink;

    ghost asked = { λ o. Some o.asked };

    ghost creates = { λ o. o.creates };

    ghost faults = { λ o. o.faults };

    fn create_file(&mut self, alloc: Global, name: &str) -> Result<MemSink, CreateFault>
        ensures listed { result ≡ Err CreateFault.Failed → Contains self.old.fails (raised_count self.old.creates) }
        ensures unlisted { OnOk result (¬ Contains self.old.fails (raised_count self.old.creates)) }
        ensures created { IfOk result (λ out. out ≡ created_file self.old name.now) }
        ensures ok { OnOk result (self.new ≡ one_asked self.old name.now) }
        ensures failed { result ≡ Err CreateFault.Failed → self.new ≡ one_failed self.old name.now }
        ensures memory { result ≡ Err CreateFault.NoMemory → self.new ≡ self.old }
        ensures count { self.old.faults ≤ self.new.faults }
    {
        let fails = self.ask(alloc, name)?;
        let number = self.creates.saturating_add(1);
        self.creates = number;
        if is_listed(&self.fails, number) {
            self.faults = self.faults.saturating_add(1);
            return Err(CreateFault::Failed);
        }
        Ok(MemSink::new(alloc, fails))
    }
}
