// The line and the answer of a part of one group, and of two such parts together.
ghost use Rattle.std.specs.Prelude.{◌≡◌, ◌≤◌, ◌+◌, ◌++◌, ◌∷◌, [], take, true, IfOk, OnOk, OnErr, pos};
ghost use Rattle.std.specs.Fmt.{signed_decimal};
ghost use Rattle.std.specs.List.{AllByRecursion};
ghost use Rattle.saber_plan.specs.declared.plans.Shape.TheVariants.{Group};
ghost use Rattle.saber_plan.specs.Trees.{tree_of};
ghost use Rattle.saber_plan.specs.Answers.{items_over, line};
ghost use Rattle.saber_plan.specs.Parts.{merge, part_answers, part_lines};
ghost use Rattle.saber_plan.specs.Texts.{Behind};
ghost use Rattle.saber_partial.specs.Flat.{entry_in, IsLayout, IsRow};
ghost use Rattle.saber_partial.specs.Ones.{AreKeyless, IsOne};
ghost use Rattle.saber_partial.specs.Printing.{joined_row, IsLone};
ghost use Rattle.saber_partial.specs.Tallies.{CanJoin, CanMerge};

use crate::answers::push_group;
use crate::joined_answers::push_both;
use crate::joined_lines::write_both_cells;
use crate::layout::Layout;
use crate::lines::write_cells;
use crate::row_parts::RowPart;
use crate::steps::Steps;
use saber_changes::Answers;
use saber_digits::{end_line, flush, put_number};
use saber_plan::{Expr, NoMemory, Plan};
use std::alloc::Global;
use std::sync::ledger::Ledger;

// The number of a window at the front of an array. Tells where it ends.
#[inline(always)]
fn put_window(draft: &mut [u8; 128], window: u64) -> usize
    ensures text { take result draft.new ≡ signed_decimal (pos window) }
    ensures short { result ≤ 40 }
{
    put_number(draft, 0, i128::from(window))
}

// The line of one row of numbers. One line needs no heading that is made once for many.
#[inline]
fn write_alone(out: &mut Vec<u8>, window: u64, items: &[Expr], row: &[i128]) -> Result<(), NoMemory>
    requires items { AllByRecursion IsLone items.now }
    ensures ok { OnOk result (out.new.items ≡ out.old.items ++ line (pos window ∷ items_over items.now row.now [])) }
    ensures behind { Behind out.old.items out.new.items }
{
    let mut draft = [0; 128];
    let first = put_window(&mut draft, window);
    let last = write_cells(out, &mut draft, first, items, row)?;
    let end = end_line(&mut draft, last);
    flush(out, &draft, end)
}

// The line of two rows of numbers together.
#[inline]
fn write_pair(
    out: &mut Vec<u8>,
    window: u64,
    items: &[Expr],
    layout: &Layout,
    row: &[i128],
    later: &[i128],
) -> Result<(), NoMemory>
    requires items { AllByRecursion IsLone items.now }
    requires layout { IsLayout layout.now }
    requires row { IsRow layout.now row.now }
    requires later { IsRow layout.now later.now }
    requires can { CanJoin (entry_in layout.now row.now).1 (entry_in layout.now later.now).1 }
    ensures ok { OnOk result (out.new.items ≡ out.old.items ++ line (pos window ∷ items_over items.now (joined_row layout.now row.now later.now) [])) }
    ensures behind { Behind out.old.items out.new.items }
{
    let mut draft = [0; 128];
    let first = put_window(&mut draft, window);
    let last = write_both_cells(out, &mut draft, first, items, layout, row, later)?;
    let end = end_line(&mut draft, last);
    flush(out, &draft, end)
}

impl RowPart<'_> {
    /// Whether it lies under the empty key.
    #[inline(always)]
    pub fn has_no_key(&self) -> bool
        ensures yes { result ≡ true → IsOne self.now }
        ensures keyless { AreKeyless self.now → IsOne self.now }
    {
        self.layout.keys == 0
    }

    /// Writes its line behind what `out` has, as `Partial::lines` does. Where memory is wanting,
    /// `out` stays as it was.
    #[inline]
    pub fn lines(&self, plan: &Plan, window: u64, out: &mut Vec<u8>) -> Result<(), NoMemory>
        requires group { (tree_of plan.now).shape ≡ Group }
        ensures ok { OnOk result (out.new.items ≡ out.old.items ++ part_lines (tree_of plan.now) window self.now) }
        ensures err { OnErr result (out.new.items ≡ out.old.items) }
    {
        let start = out.len();
        match write_alone(out, window, plan.items(), self.row) {
            Ok(()) => Ok(()),
            Err(want) => {
                out.truncate(start);
                Err(want)
            }
        }
    }

    /// The same of the merge with what is known of later rows, without that merge: one step.
    #[inline]
    pub fn lines_with<L: Ledger>(
        &self,
        later: &RowPart,
        plan: &Plan,
        window: u64,
        out: &mut Vec<u8>,
        steps: &mut Steps<L>,
    ) -> Result<(), NoMemory>
        requires group { (tree_of plan.now).shape ≡ Group }
        requires one { IsOne self.now }
        requires other { IsOne later.now }
        requires can { CanMerge self.now later.now }
        ensures ok { OnOk result (out.new.items ≡ out.old.items ++ part_lines (tree_of plan.now) window (merge self.now later.now)) }
        ensures err { OnErr result (out.new.items ≡ out.old.items) }
        ensures steps { steps.new ≡ steps.old + 1 }
    {
        steps.tick();
        let start = out.len();
        match write_pair(out, window, plan.items(), self.layout, self.row, later.row) {
            Ok(()) => Ok(()),
            Err(want) => {
                out.truncate(start);
                Err(want)
            }
        }
    }

    /// Its answers, as `Partial::answers` gives them.
    pub fn answers(&self, alloc: Global, plan: &Plan) -> Result<Answers, NoMemory>
        requires group { (tree_of plan.now).shape ≡ Group }
        ensures { IfOk result (λ a. a ≡ part_answers (tree_of plan.now) self.now) }
    {
        let items = plan.items();
        let mut answers = Answers::with_room(alloc, 1, items.len())?;
        let mut line = Vec::with_capacity(alloc, items.len())?;
        push_group(&mut answers, &mut line, items, self.row)?;
        Ok(answers)
    }

    /// Those of the merge with what is known of later rows: one step.
    pub fn answers_with<L: Ledger>(
        &self,
        alloc: Global,
        later: &RowPart,
        plan: &Plan,
        steps: &mut Steps<L>,
    ) -> Result<Answers, NoMemory>
        requires group { (tree_of plan.now).shape ≡ Group }
        requires one { IsOne self.now }
        requires other { IsOne later.now }
        requires can { CanMerge self.now later.now }
        ensures ok { IfOk result (λ a. a ≡ part_answers (tree_of plan.now) (merge self.now later.now)) }
        ensures steps { steps.new ≡ steps.old + 1 }
    {
        steps.tick();
        let items = plan.items();
        let mut answers = Answers::with_room(alloc, 1, items.len())?;
        let mut line = Vec::with_capacity(alloc, items.len())?;
        push_both(
            &mut answers,
            &mut line,
            items,
            self.layout,
            self.row,
            later.row,
        )?;
        Ok(answers)
    }
}
