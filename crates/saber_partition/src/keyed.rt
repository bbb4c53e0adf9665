// What is kept of the rows with one key list.
ghost use Rattle.std.specs.Prelude.{◌≡◌, ◌≤◌, ◌+◌, [], List, OnOk};
ghost use Rattle.saber_plan.specs.declared.rows.Row.{Row};
ghost use Rattle.saber_plan.specs.Texts.{Behind};
ghost use Rattle.saber_plan.specs.Trees.{tree_of};
ghost use Rattle.saber_sliding.specs.Entries.{CanFollow};
ghost use Rattle.saber_partition.specs.Streams.{part_in, Came, Comes, Entered, Keeps};

use saber_partial::{RowParts, Steps};
use saber_plan::{NoMemory, Plan};
use saber_sliding::Open;
use std::alloc::Global;
use std::sync::ledger::Ledger;

/// Of the rows with a key list the windows that aren't closed, with the parts that they have, and
/// how many are begun.
#[derive(Drop)]
pub(crate) struct Keyed {
    pub(crate) windows: Open,
    pub(crate) begun: u64,
}

impl Keyed {
    /// Of no row. Takes no memory.
    pub(crate) fn of_none(alloc: Global) -> Keyed
        ensures next { result.windows.next ≡ 0 }
        ensures begun { result.begun ≡ 0 }
        ensures parts { result.windows.slices.entries ≡ [] }
    {
        Keyed {
            windows: Open::new(alloc, 0),
            begun: 0,
        }
    }

    // Puts the part of a row behind the others, in one entry with those of rows in the same
    // windows: two steps, now or later. A row that doesn't pass has none.
    fn take_part<L: Ledger>(
        &mut self,
        alloc: Global,
        past: u64,
        parts: &RowParts,
        part: Option<usize>,
        steps: &mut Steps<L>,
    ) -> Result<(), NoMemory>
        requires { CanFollow (part_in parts.now part) self.old.windows.slices.entries }
        ensures parts { OnOk result (Entered self.old.windows.slices.entries past (part_in parts.now part) self.new.windows.slices.entries) }
        ensures next { OnOk result (self.new.windows.next ≡ self.old.windows.next) }
        ensures begun { OnOk result (self.new.begun ≡ past) }
        ensures steps { OnOk result (steps.new + self.new.windows.slices.owed ≤ steps.old + self.old.windows.slices.owed + 2) }
    {
        self.begun = past;
        let Some(i) = part else {
            return Ok(());
        };
        if i >= parts.len() {
            return Ok(());
        }
        self.windows.slices.put(alloc, past, &parts.part(i), steps)
    }

    /// Takes in the part of a row, behind which so many windows are closed and begun, and appends
    /// the lines of the window that it closes. It costs two steps and one for the window, however
    /// many windows have the row.
    pub(crate) fn take_row<L: Ledger>(
        &mut self,
        alloc: Global,
        plan: &Plan,
        low: u64,
        past: u64,
        parts: &RowParts,
        part: Option<usize>,
        out: &mut Vec<u8>,
        steps: &mut Steps<L>,
    ) -> Result<(), NoMemory>
        requires { (us : List Row) × (r : Row) × Comes (tree_of plan.now) us r low past (part_in parts.now part)
            × Keeps (tree_of plan.now) us self.old.windows.next self.old.begun self.old.windows.slices.entries }
        ensures came { OnOk result ((us : List Row) (r : Row) → Comes (tree_of plan.now) us r low past (part_in parts.now part)
            → Keeps (tree_of plan.now) us self.old.windows.next self.old.begun self.old.windows.slices.entries
            → Came (tree_of plan.now) us r self.new.windows.next self.new.begun self.new.windows.slices.entries out.old.items out.new.items) }
        ensures behind { Behind out.old.items out.new.items }
        ensures steps { OnOk result (steps.new + self.new.windows.slices.owed + self.old.windows.next ≤ steps.old + self.old.windows.slices.owed + 2 + self.new.windows.next) }
    {
        self.take_part(alloc, past, parts, part, steps)?;
        self.windows.close_lines(alloc, plan, low, out, steps)?;
        Ok(())
    }
}
