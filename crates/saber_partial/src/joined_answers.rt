// The answers of two parts together, without their merge.
ghost use Rattle.std.specs.Prelude.{◌≡◌, ◌≤◌, ◌<◌, ◌+◌, ◌∷◌, ◌++◌, [], IfOk, OnOk, drop, length};
ghost use Rattle.std.specs.List.{AllByRecursion};
ghost use Rattle.saber_plan.specs.declared.plans.Shape.TheVariants.{Group};
ghost use Rattle.saber_plan.specs.Trees.{tree_of};
ghost use Rattle.saber_plan.specs.Answers.{items_over};
ghost use Rattle.saber_plan.specs.Parts.{merge, part_answers};
ghost use Rattle.saber_partial.specs.Flat.{entry_in, IsLayout, IsRow};
ghost use Rattle.saber_partial.specs.Printing.{answers_under, joined_row, IsLone};
ghost use Rattle.saber_partial.specs.Sorted.{weave, CanJoinAll};
ghost use Rattle.saber_partial.specs.Tallies.{CanJoin, CanMerge};

use crate::answers::{push_group, push_groups};
use crate::groups::Partial;
use crate::layout::Layout;
use crate::places::key_order;
use crate::printed::number_of_both;
use crate::steps::Steps;
use crate::table::Table;
use saber_changes::Answers;
use saber_plan::{Expr, NoMemory, Plan};
use std::alloc::Global;
use std::cmp::Ordering;
use std::sync::ledger::Ledger;

// Puts the answers to the items, of a group that both have, into an empty list.
#[inline(always)]
fn put_both(
    line: &mut Vec<i128>,
    items: &[Expr],
    layout: &Layout,
    row: &[i128],
    later: &[i128],
) -> Result<(), NoMemory>
    requires none { line.old.items ≡ [] }
    requires items { AllByRecursion IsLone items.now }
    requires layout { IsLayout layout.now }
    requires row { IsRow layout.now row.now }
    requires later { IsRow layout.now later.now }
    requires can { CanJoin (entry_in layout.now row.now).1 (entry_in layout.now later.now).1 }
    ensures { OnOk result (line.new.items ≡ items_over items.now (joined_row layout.now row.now later.now) []) }
{
    for item in items {
        line.push(number_of_both(layout, row, later, item))?;
    }
    Ok(())
}

// The same behind the answers of other groups.
#[inline]
pub(crate) fn push_both(
    answers: &mut Answers,
    line: &mut Vec<i128>,
    items: &[Expr],
    layout: &Layout,
    row: &[i128],
    later: &[i128],
) -> Result<(), NoMemory>
    requires items { AllByRecursion IsLone items.now }
    requires layout { IsLayout layout.now }
    requires row { IsRow layout.now row.now }
    requires later { IsRow layout.now later.now }
    requires can { CanJoin (entry_in layout.now row.now).1 (entry_in layout.now later.now).1 }
    ensures { OnOk result (answers.new ≡ answers.old ++ items_over items.now (joined_row layout.now row.now later.now) [] ∷ []) }
{
    line.clear();
    put_both(line, items, layout, row, later)?;
    answers.push(line.as_slice())?;
    Ok(())
}

// The answers of the group that comes next in a walk over both, of one or of both. Tells where the
// walk then is.
#[inline(always)]
fn push_next(
    answers: &mut Answers,
    line: &mut Vec<i128>,
    items: &[Expr],
    groups: &Table,
    i: usize,
    others: &Table,
    j: usize,
) -> Result<(usize, usize), NoMemory>
    requires alike { groups.now.layout ≡ others.now.layout }
    requires items { AllByRecursion IsLone items.now }
    requires mine { i < length groups.now.entries }
    requires theirs { j < length others.now.entries }
    requires can { CanJoinAll groups.now.entries others.now.entries }
    ensures ok { IfOk result (λ next. answers.new ++ answers_under items.now (weave (drop next.0 groups.now.entries) (drop next.1 others.now.entries))
        ≡ answers.old ++ answers_under items.now (weave (drop i groups.now.entries) (drop j others.now.entries))) }
    ensures mine { IfOk result (λ next. next.0 ≤ length groups.now.entries) }
    ensures theirs { IfOk result (λ next. next.1 ≤ length others.now.entries) }
    ensures further { IfOk result (λ next. i + j < next.0 + next.1) }
{
    let _counts = (groups.len(), others.len());
    let layout = groups.layout();
    match key_order(groups.key(i), others.key(j)) {
        Ordering::Less => {
            push_group(answers, line, items, groups.row(i))?;
            Ok((i + 1, j))
        }
        Ordering::Equal => {
            push_both(answers, line, items, layout, groups.row(i), others.row(j))?;
            Ok((i + 1, j + 1))
        }
        Ordering::Greater => {
            push_group(answers, line, items, others.row(j))?;
            Ok((i, j + 1))
        }
    }
}

// The answers of the groups of both by key, in one walk over both.
fn push_woven(
    answers: &mut Answers,
    line: &mut Vec<i128>,
    items: &[Expr],
    groups: &Table,
    others: &Table,
) -> Result<(), NoMemory>
    requires alike { groups.now.layout ≡ others.now.layout }
    requires items { AllByRecursion IsLone items.now }
    requires can { CanJoinAll groups.now.entries others.now.entries }
    ensures { OnOk result (answers.new ≡ answers.old ++ answers_under items.now (weave groups.now.entries others.now.entries)) }
{
    let mut i = 0;
    let mut j = 0;
    while i < groups.len() && j < others.len() {
        let (mine, theirs) = push_next(answers, line, items, groups, i, others, j)?;
        i = mine;
        j = theirs;
    }
    push_groups(answers, line, items, groups, i)?;
    push_groups(answers, line, items, others, j)?;
    Ok(())
}

// Those of all groups of both.
fn answers_woven(
    alloc: Global,
    items: &[Expr],
    groups: &Table,
    others: &Table,
) -> Result<Answers, NoMemory>
    requires alike { groups.now.layout ≡ others.now.layout }
    requires items { AllByRecursion IsLone items.now }
    requires can { CanJoinAll groups.now.entries others.now.entries }
    ensures { IfOk result (λ a. a ≡ answers_under items.now (weave groups.now.entries others.now.entries)) }
{
    let room = groups.len().saturating_add(others.len());
    let mut answers = Answers::with_room(alloc, room, items.len())?;
    let mut line = Vec::with_capacity(alloc, items.len())?;
    push_woven(&mut answers, &mut line, items, groups, others)?;
    Ok(answers)
}

impl Partial {
    /// The answers of the merge with what is known of later rows of the same plan, as `answers`
    /// gives them, without a list of the merge: one step.
    pub(crate) fn answers_with<L: Ledger>(
        &self,
        alloc: Global,
        later: &Partial,
        plan: &Plan,
        steps: &mut Steps<L>,
    ) -> Result<Answers, NoMemory>
        requires group { (tree_of plan.now).shape ≡ Group }
        requires can { CanMerge self.now later.now }
        ensures ok { IfOk result (λ a. a ≡ part_answers (tree_of plan.now) (merge self.now later.now)) }
        ensures steps { steps.new ≡ steps.old + 1 }
    {
        steps.tick();
        if later.is_empty() {
            return self.answers(alloc, plan);
        }
        if self.is_empty() {
            return later.answers(alloc, plan);
        }
        self.groups.has_one_layout();
        later.groups.has_one_layout();
        answers_woven(alloc, plan.items(), &self.groups, &later.groups)
    }
}
