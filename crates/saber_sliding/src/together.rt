// Parts of rows: those that the same windows have in one entry of the back, whose entries have
// their own parts.
ghost use Rattle.std.specs.Prelude.{◌≡◌, ◌+◌, ◌≤◌, length, true, false, Some, OnOk};
ghost use Rattle.saber_plan.specs.Parts.{merge};
ghost use Rattle.saber_partial.specs.Tallies.{CanMerge};
ghost use Rattle.saber_sliding.specs.Entries.{joined_entries, last_number, pushed_entries, suffixes, CanFollow, Put};

use crate::groups::GroupQueue;
use saber_partial::{Partial, Pile, RowPart, Steps};
use saber_plan::NoMemory;
use std::alloc::Global;
use std::sync::ledger::Ledger;

// Whether the last entry has this number.
fn ends_with(back: &[(u64, Partial)], number: u64) -> bool
    ensures { result ≡ true → last_number back.now ≡ Some number }
{
    match back.last() {
        Some(entry) => entry.0 == number,
        None => false,
    }
}

// The part of a row behind the last entry's own: one step.
fn join_last<L: Ledger>(
    back: &mut Vec<(u64, Partial)>,
    part: &RowPart,
    steps: &mut Steps<L>,
) -> Result<(), NoMemory>
    requires { CanFollow part.now (suffixes back.old.items) }
    ensures back { OnOk result (back.new.items ≡ joined_entries part.now back.old.items) }
    ensures same { length back.new.items ≡ length back.old.items }
    ensures steps { steps.new ≤ steps.old + 1 }
{
    let Some(last) = back.last_mut() else {
        return Ok(());
    };
    last.1.merge_row(part, steps)
}

// The same, and the merge of all where that is kept: two steps, if each piece more counts for one.
fn join_behind<L: Ledger>(
    alloc: Global,
    late: bool,
    back: &mut Vec<(u64, Partial)>,
    back_part: &mut Pile,
    part: &RowPart,
    steps: &mut Steps<L>,
) -> Result<(), NoMemory>
    requires room { CanFollow part.now (suffixes back.old.items) }
    requires can { late ≡ false → CanMerge back_part.old.part part.now }
    ensures back { OnOk result (back.new.items ≡ joined_entries part.now back.old.items) }
    ensures part { OnOk result (late ≡ false → back_part.new.part ≡ merge back_part.old.part part.now) }
    ensures steps { OnOk result (steps.new + (length back.new.items + back_part.new.pieces) ≤ steps.old + (length back.old.items + back_part.old.pieces) + 2) }
{
    join_last(back, part, steps)?;
    if late {
        return Ok(());
    }
    back_part.take_row(alloc, part, steps)
}

impl GroupQueue {
    /// The part of a row becomes an entry, as with `push`, in the memory of one that went.
    pub(crate) fn push_row<L: Ledger>(
        &mut self,
        alloc: Global,
        number: u64,
        part: &RowPart,
        steps: &mut Steps<L>,
    ) -> Result<(), NoMemory>
        requires { CanFollow part.now self.old.entries }
        ensures entries { OnOk result (self.new.entries ≡ pushed_entries self.old.entries number part.now) }
        ensures steps { OnOk result (steps.new + self.new.owed ≤ steps.old + self.old.owed + 2) }
    {
        let own = Partial::of_row_in(alloc, &mut self.spare, part)?;
        self.push(alloc, number, own, steps)
    }

    /// The part of a row behind all others: where the last entry has this number and is kept with
    /// its own part, it goes into that; else it becomes an entry, as with `push`. It costs two
    /// steps, each now or later. After want of memory it is only safe to let go.
    pub(crate) fn put<L: Ledger>(
        &mut self,
        alloc: Global,
        number: u64,
        part: &RowPart,
        steps: &mut Steps<L>,
    ) -> Result<(), NoMemory>
        requires { CanFollow part.now self.old.entries }
        ensures entries { OnOk result (Put self.old.entries number part.now self.new.entries) }
        ensures steps { OnOk result (steps.new + self.new.owed ≤ steps.old + self.old.owed + 2) }
    {
        if !ends_with(&self.back, number) {
            return self.push_row(alloc, number, part, steps);
        }
        match join_behind(
            alloc,
            self.late,
            &mut self.back,
            &mut self.back_part,
            part,
            steps,
        ) {
            Ok(()) => Ok(()),
            Err(lacks) => {
                *self = GroupQueue::empty(alloc);
                Err(lacks)
            }
        }
    }
}
