// The lines of two parts together, without their merge.
ghost use Rattle.std.specs.Prelude.{◌≡◌, ◌≤◌, ◌<◌, ◌+◌, ◌∷◌, ◌++◌, [], IfOk, OnOk, OnErr, drop, length, pos};
ghost use Rattle.std.specs.List.{AllByRecursion};
ghost use Rattle.saber_plan.specs.declared.plans.Shape.TheVariants.{Group};
ghost use Rattle.saber_plan.specs.Trees.{tree_of};
ghost use Rattle.saber_plan.specs.Answers.{items_over, line};
ghost use Rattle.saber_plan.specs.Parts.{merge, part_lines};
ghost use Rattle.saber_plan.specs.Texts.{Behind};
ghost use Rattle.saber_digits.specs.Cells.{cells, drafted_text};
ghost use Rattle.saber_partial.specs.Flat.{entry_in, IsLayout, IsRow};
ghost use Rattle.saber_partial.specs.Printing.{joined_row, lines_for, IsHeading, IsLone};
ghost use Rattle.saber_partial.specs.Sorted.{weave, CanJoinAll};
ghost use Rattle.saber_partial.specs.Tallies.{CanJoin, CanMerge};

use crate::groups::Partial;
use crate::headings::Heading;
use crate::layout::Layout;
use crate::lines::{write_groups, write_line};
use crate::places::key_order;
use crate::printed::number_of_both;
use crate::steps::Steps;
use crate::table::Table;
use saber_digits::{end_line, flush, put_cell, start_line};
use saber_plan::{Expr, NoMemory, Plan};
use std::cmp::Ordering;
use std::sync::ledger::Ledger;

#[inline(always)]
pub(crate) fn write_both_cells(
    out: &mut Vec<u8>,
    draft: &mut [u8; 128],
    start: usize,
    items: &[Expr],
    layout: &Layout,
    row: &[i128],
    later: &[i128],
) -> Result<usize, NoMemory>
    requires start { start ≤ 121 }
    requires items { AllByRecursion IsLone items.now }
    requires layout { IsLayout layout.now }
    requires row { IsRow layout.now row.now }
    requires later { IsRow layout.now later.now }
    requires can { CanJoin (entry_in layout.now row.now).1 (entry_in layout.now later.now).1 }
    ensures ok { IfOk result (λ end. drafted_text out.new.items draft.new end
        ≡ drafted_text out.old.items draft.old start ++ cells (items_over items.now (joined_row layout.now row.now later.now) [])) }
    ensures room { IfOk result (λ end. end ≤ 121) }
    ensures behind { Behind out.old.items out.new.items }
{
    let mut at = start;
    for item in items {
        at = put_cell(out, draft, at, number_of_both(layout, row, later, item))?;
    }
    Ok(at)
}

// The line of a group that both have.
#[inline(always)]
fn write_both(
    out: &mut Vec<u8>,
    draft: &mut [u8; 128],
    start: usize,
    heading: &Heading,
    items: &[Expr],
    layout: &Layout,
    row: &[i128],
    later: &[i128],
) -> Result<usize, NoMemory>
    requires start { start ≤ 128 }
    requires heading { IsHeading heading.now }
    requires items { AllByRecursion IsLone items.now }
    requires layout { IsLayout layout.now }
    requires row { IsRow layout.now row.now }
    requires later { IsRow layout.now later.now }
    requires can { CanJoin (entry_in layout.now row.now).1 (entry_in layout.now later.now).1 }
    ensures ok { IfOk result (λ end. drafted_text out.new.items draft.new end
        ≡ drafted_text out.old.items draft.old start ++ line (pos heading.now.window ∷ items_over items.now (joined_row layout.now row.now later.now) [])) }
    ensures room { IfOk result (λ end. end ≤ 128) }
    ensures behind { Behind out.old.items out.new.items }
{
    let first = start_line(out, draft, start, &heading.text, heading.count)?;
    let end = write_both_cells(out, draft, first, items, layout, row, later)?;
    Ok(end_line(draft, end))
}

// The line of the group that comes next in a walk over both, of one or of both. Tells where the
// text and the walk then are.
#[inline(always)]
fn write_next(
    out: &mut Vec<u8>,
    draft: &mut [u8; 128],
    at: usize,
    heading: &Heading,
    items: &[Expr],
    groups: &Table,
    i: usize,
    others: &Table,
    j: usize,
) -> Result<(usize, usize, usize), NoMemory>
    requires at { at ≤ 128 }
    requires alike { groups.now.layout ≡ others.now.layout }
    requires heading { IsHeading heading.now }
    requires items { AllByRecursion IsLone items.now }
    requires mine { i < length groups.now.entries }
    requires theirs { j < length others.now.entries }
    requires can { CanJoinAll groups.now.entries others.now.entries }
    ensures ok { IfOk result (λ next. drafted_text out.new.items draft.new next.0
        ++ lines_for heading.now.window items.now (weave (drop next.1 groups.now.entries) (drop next.2 others.now.entries))
        ≡ drafted_text out.old.items draft.old at
        ++ lines_for heading.now.window items.now (weave (drop i groups.now.entries) (drop j others.now.entries))) }
    ensures room { IfOk result (λ next. next.0 ≤ 128) }
    ensures mine { IfOk result (λ next. next.1 ≤ length groups.now.entries) }
    ensures theirs { IfOk result (λ next. next.2 ≤ length others.now.entries) }
    ensures further { IfOk result (λ next. i + j < next.1 + next.2) }
    ensures behind { Behind out.old.items out.new.items }
{
    let _counts = (groups.len(), others.len());
    let layout = groups.layout();
    match key_order(groups.key(i), others.key(j)) {
        Ordering::Less => {
            let end = write_line(out, draft, at, heading, items, groups.row(i))?;
            Ok((end, i + 1, j))
        }
        Ordering::Equal => {
            let row = groups.row(i);
            let later = others.row(j);
            let end = write_both(out, draft, at, heading, items, layout, row, later)?;
            Ok((end, i + 1, j + 1))
        }
        Ordering::Greater => {
            let end = write_line(out, draft, at, heading, items, others.row(j))?;
            Ok((end, i, j + 1))
        }
    }
}

// The lines of the groups of both by key, in one walk over both.
fn write_woven(
    out: &mut Vec<u8>,
    draft: &mut [u8; 128],
    heading: &Heading,
    items: &[Expr],
    groups: &Table,
    others: &Table,
) -> Result<usize, NoMemory>
    requires alike { groups.now.layout ≡ others.now.layout }
    requires heading { IsHeading heading.now }
    requires items { AllByRecursion IsLone items.now }
    requires can { CanJoinAll groups.now.entries others.now.entries }
    ensures ok { IfOk result (λ end. drafted_text out.new.items draft.new end
        ≡ drafted_text out.old.items draft.old 0 ++ lines_for heading.now.window items.now (weave groups.now.entries others.now.entries)) }
    ensures room { IfOk result (λ end. end ≤ 128) }
    ensures behind { Behind out.old.items out.new.items }
{
    let mut at = 0;
    let mut i = 0;
    let mut j = 0;
    while i < groups.len() && j < others.len() {
        let (end, mine, theirs) = write_next(out, draft, at, heading, items, groups, i, others, j)?;
        at = end;
        i = mine;
        j = theirs;
    }
    let middle = write_groups(out, draft, at, heading, items, groups, i)?;
    write_groups(out, draft, middle, heading, items, others, j)
}

// The lines of all groups of both.
fn write_all_woven(
    out: &mut Vec<u8>,
    window: u64,
    items: &[Expr],
    groups: &Table,
    others: &Table,
) -> Result<(), NoMemory>
    requires alike { groups.now.layout ≡ others.now.layout }
    requires items { AllByRecursion IsLone items.now }
    requires can { CanJoinAll groups.now.entries others.now.entries }
    ensures ok { OnOk result (out.new.items ≡ out.old.items ++ lines_for window items.now (weave groups.now.entries others.now.entries)) }
    ensures behind { Behind out.old.items out.new.items }
{
    let heading = Heading::of_window(window);
    let mut draft = [0; 128];
    let end = write_woven(out, &mut draft, &heading, items, groups, others)?;
    flush(out, &draft, end)
}

impl Partial {
    /// Writes the lines of the merge with what is known of later rows of the same plan, as `lines`
    /// does, without a list of the merge: one step. Where memory is wanting, `out` stays as it was.
    pub(crate) fn lines_with<L: Ledger>(
        &self,
        later: &Partial,
        plan: &Plan,
        window: u64,
        out: &mut Vec<u8>,
        steps: &mut Steps<L>,
    ) -> Result<(), NoMemory>
        requires group { (tree_of plan.now).shape ≡ Group }
        requires can { CanMerge self.now later.now }
        ensures ok { OnOk result (out.new.items ≡ out.old.items ++ part_lines (tree_of plan.now) window (merge self.now later.now)) }
        ensures err { OnErr result (out.new.items ≡ out.old.items) }
        ensures steps { steps.new ≡ steps.old + 1 }
    {
        steps.tick();
        if later.is_empty() {
            return self.lines(plan, window, out);
        }
        if self.is_empty() {
            return later.lines(plan, window, out);
        }
        self.groups.has_one_layout();
        later.groups.has_one_layout();
        let start = out.len();
        match write_all_woven(out, window, plan.items(), &self.groups, &later.groups) {
            Ok(()) => Ok(()),
            Err(want) => {
                out.truncate(start);
                Err(want)
            }
        }
    }
}
