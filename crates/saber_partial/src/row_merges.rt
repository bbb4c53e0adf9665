// A row's part taken into others.
ghost use Rattle.std.specs.Prelude.{◌≡◌, ◌+◌, IfOk, OnOk};
ghost use Rattle.saber_plan.specs.Parts.{merge};
ghost use Rattle.saber_partial.specs.Tallies.{CanMerge};

use crate::groups::Partial;
use crate::merges::take_in_row;
use crate::row_parts::RowPart;
use crate::steps::Steps;
use saber_plan::NoMemory;
use std::alloc::Global;
use std::sync::ledger::Ledger;

impl Partial {
    /// Becomes the part of a row, in the memory that it has. After want of memory it has no group.
    #[inline]
    pub(crate) fn set_to_row(&mut self, part: &RowPart) -> Result<(), NoMemory>
        ensures { OnOk result (self.new ≡ part.now) }
    {
        self.groups.clear(*part.layout);
        self.groups.push(part.row)
    }

    /// The part of a row, in the memory of one that is of no use any more, if there is one.
    pub fn of_row_in(
        alloc: Global,
        spare: &mut Option<Partial>,
        part: &RowPart,
    ) -> Result<Partial, NoMemory>
        ensures { IfOk result (λ p. p ≡ part.now) }
    {
        let mut own = Partial::of_spare(alloc, spare);
        own.set_to_row(part)?;
        Ok(own)
    }

    /// Takes in the part of a later row of the same plan, which is lent: one group, found by its
    /// key, and no memory where it is there. One step. Else as `merge_from`.
    #[inline]
    pub fn merge_row<L: Ledger>(
        &mut self,
        part: &RowPart,
        steps: &mut Steps<L>,
    ) -> Result<(), NoMemory>
        requires { CanMerge self.old part.now }
        ensures ok { OnOk result (self.new ≡ merge self.old part.now) }
        ensures steps { steps.new ≡ steps.old + 1 }
    {
        steps.tick();
        if self.is_empty() {
            return self.set_to_row(part);
        }
        self.groups.has_one_layout();
        take_in_row(&mut self.groups, part.row)
    }
}
