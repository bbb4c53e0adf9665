// The lines of groups.
ghost use Rattle.std.specs.Prelude.{◌≡◌, ◌≤◌, ◌∷◌, ◌++◌, [], IfOk, OnOk, OnErr, drop, length, pos};
ghost use Rattle.std.specs.List.{AllByRecursion};
ghost use Rattle.saber_plan.specs.declared.plans.Shape.TheVariants.{Group};
ghost use Rattle.saber_plan.specs.Trees.{tree_of};
ghost use Rattle.saber_plan.specs.Answers.{items_over, line};
ghost use Rattle.saber_plan.specs.Parts.{part_lines};
ghost use Rattle.saber_plan.specs.Texts.{Behind};
ghost use Rattle.saber_digits.specs.Cells.{cells, drafted_text};
ghost use Rattle.saber_partial.specs.Printing.{lines_for, IsHeading, IsLone};

use crate::groups::Partial;
use crate::headings::Heading;
use crate::printed::number;
use crate::table::Table;
use saber_digits::{end_line, flush, put_cell, start_line};
use saber_plan::{Expr, NoMemory, Plan};

#[inline(always)]
pub(crate) fn write_cells(
    out: &mut Vec<u8>,
    draft: &mut [u8; 128],
    start: usize,
    items: &[Expr],
    row: &[i128],
) -> Result<usize, NoMemory>
    requires start { start ≤ 121 }
    requires items { AllByRecursion IsLone items.now }
    ensures ok { IfOk result (λ end. drafted_text out.new.items draft.new end
        ≡ drafted_text out.old.items draft.old start ++ cells (items_over items.now row.now [])) }
    ensures room { IfOk result (λ end. end ≤ 121) }
    ensures behind { Behind out.old.items out.new.items }
{
    let mut at = start;
    for item in items {
        at = put_cell(out, draft, at, number(row, item))?;
    }
    Ok(at)
}

/// The line of a group: the window's number, a cell for each item, and LF. It goes into an array,
/// which is written out where it is nearly full, so that a cell asks no room of the list.
#[inline]
pub(crate) fn write_line(
    out: &mut Vec<u8>,
    draft: &mut [u8; 128],
    start: usize,
    heading: &Heading,
    items: &[Expr],
    row: &[i128],
) -> Result<usize, NoMemory>
    requires start { start ≤ 128 }
    requires heading { IsHeading heading.now }
    requires items { AllByRecursion IsLone items.now }
    ensures ok { IfOk result (λ end. drafted_text out.new.items draft.new end
        ≡ drafted_text out.old.items draft.old start ++ line (pos heading.now.window ∷ items_over items.now row.now [])) }
    ensures room { IfOk result (λ end. end ≤ 128) }
    ensures behind { Behind out.old.items out.new.items }
{
    let first = start_line(out, draft, start, &heading.text, heading.count)?;
    let end = write_cells(out, draft, first, items, row)?;
    Ok(end_line(draft, end))
}

/// The lines of groups from one on, one after another.
pub(crate) fn write_groups(
    out: &mut Vec<u8>,
    draft: &mut [u8; 128],
    start: usize,
    heading: &Heading,
    items: &[Expr],
    groups: &Table,
    from: usize,
) -> Result<usize, NoMemory>
    requires start { start ≤ 128 }
    requires heading { IsHeading heading.now }
    requires items { AllByRecursion IsLone items.now }
    requires from { from ≤ length groups.now.entries }
    ensures ok { IfOk result (λ end. drafted_text out.new.items draft.new end
        ≡ drafted_text out.old.items draft.old start ++ lines_for heading.now.window items.now (drop from groups.now.entries)) }
    ensures room { IfOk result (λ end. end ≤ 128) }
    ensures behind { Behind out.old.items out.new.items }
{
    groups.has_one_layout();
    let mut at = start;
    for i in from..groups.len() {
        at = write_line(out, draft, at, heading, items, groups.row(i))?;
    }
    Ok(at)
}

// The lines of all groups.
fn write_all(out: &mut Vec<u8>, window: u64, items: &[Expr], groups: &Table) -> Result<(), NoMemory>
    requires { AllByRecursion IsLone items.now }
    ensures ok { OnOk result (out.new.items ≡ out.old.items ++ lines_for window items.now groups.now.entries) }
    ensures behind { Behind out.old.items out.new.items }
{
    let heading = Heading::of_window(window);
    let mut draft = [0; 128];
    let end = write_groups(out, &mut draft, 0, &heading, items, groups, 0)?;
    flush(out, &draft, end)
}

impl Partial {
    /// Writes the lines of the groups behind what `out` has: in the order of keys, each the
    /// window's number and the answers to the plan's items in decimal, with commas between, and LF
    /// (this project's rule). Where memory is wanting, `out` stays as it was.
    pub fn lines(&self, plan: &Plan, window: u64, out: &mut Vec<u8>) -> Result<(), NoMemory>
        requires group { (tree_of plan.now).shape ≡ Group }
        ensures ok { OnOk result (out.new.items ≡ out.old.items ++ part_lines (tree_of plan.now) window self.now) }
        ensures err { OnErr result (out.new.items ≡ out.old.items) }
    {
        let start = out.len();
        match write_all(out, window, plan.items(), &self.groups) {
            Ok(()) => Ok(()),
            Err(want) => {
                out.truncate(start);
                Err(want)
            }
        }
    }
}
