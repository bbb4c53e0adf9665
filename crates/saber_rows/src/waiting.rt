// Rows that wait until no earlier one can come.
ghost use Rattle.std.proofs.Props.{props};
ghost use Rattle.std.specs.List.{AllByRecursion};
ghost use Rattle.saber_rows.specs.HeldRows.{IsRanked};

use crate::judge::stamp_of;
use saber_plan::{NoMemory, Row};
use std::alloc::Global;
use std::collections::BTreeMap;

// Where a row stands: by its timestamp, then by its line.
#[derive(Clone, Copy, PartialEq, Eq, PartialOrd, Ord, Drop)]
pub(crate) struct Rank {
    stamp: u64,
    line: u64,
}

/// Rows in order of time, and with one timestamp in order of their lines.
#[derive(Drop)]
pub(crate) struct Waiting {
    rows: BTreeMap<Rank, Row>,
    ghost ranked: { AllByRecursion IsRanked rows.entries } by { Prim.hlevel props },
}

impl Waiting {
    ghost use Rattle.std.specs.Prelude.{◌≡◌, ◌≤◌, ◌+◌, [], ◌∷◌, length, IfNone, IfSome, OnOk, OnErr, Some, None};
    ghost use Rattle.saber_plan.specs.Rows.{stamp, in_time};
    ghost use Rattle.saber_rows.specs.HeldRows.{first_stamp, least_of};
    ghost use Rattle.saber_rows.specs.Waiting.{rows_in, AllBefore};

    /// No rows. Takes no memory.
    pub(crate) fn new(alloc: Global) -> Waiting
        ensures rows { rows_in result ≡ [] }
        ensures before { AllBefore 0 result }
    {
        Waiting {
            rows: BTreeMap::new(alloc),
        }
    }

    /// How many wait.
    pub(crate) fn len(&self) -> usize
        ensures { result ≡ length (rows_in self.now) }
    {
        self.rows.len()
    }

    /// The timestamp of the first.
    pub(crate) fn first(&self) -> Option<u64>
        ensures { result ≡ first_stamp (rows_in self.now) }
    {
        match self.rows.first_key_value() {
            None => None,
            Some((rank, _)) => Some(rank.stamp),
        }
    }

    /// The least timestamp, with one more.
    pub(crate) fn least(&self, stamp: u64) -> u64
        ensures { result ≡ least_of (rows_in self.now) stamp }
    {
        match self.first() {
            None => stamp,
            Some(first) => first.min(stamp),
        }
    }

    /// The first leaves.
    pub(crate) fn pop(&mut self) -> Option<Row>
        ensures some { IfSome result (λ row. rows_in self.old ≡ row ∷ rows_in self.new) }
        ensures none { result ≡ None → (rows_in self.old ≡ []) × (self.new ≡ self.old) }
        ensures before { (line : _) → AllBefore line self.old → AllBefore line self.new }
    {
        if self.rows.is_empty() {
            return None;
        }
        let (_, row) = self.rows.pop_first()?;
        Some(row)
    }

    /// A row more, of a line behind those of the others.
    pub(crate) fn insert(&mut self, line: u64, row: Row) -> Result<(), NoMemory>
        requires { AllBefore line self.old }
        ensures ok { OnOk result (rows_in self.new ≡ in_time row (rows_in self.old)) }
        ensures before { OnOk result (AllBefore (line + 1) self.new) }
        ensures err { OnErr result (rows_in self.new ≡ rows_in self.old) }
        ensures stays { OnErr result (AllBefore line self.new) }
    {
        let stamp = stamp_of(row.values.as_slice());
        self.rows.insert(Rank { stamp, line }, row)?;
        Ok(())
    }
}
