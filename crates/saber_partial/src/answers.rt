// The answers of groups, as values.
ghost use Rattle.std.specs.Prelude.{◌≡◌, ◌≤◌, ◌∷◌, ◌++◌, [], IfOk, OnOk, drop, length};
ghost use Rattle.std.specs.List.{AllByRecursion};
ghost use Rattle.saber_plan.specs.declared.plans.Shape.TheVariants.{Group};
ghost use Rattle.saber_plan.specs.Trees.{tree_of};
ghost use Rattle.saber_plan.specs.Answers.{items_over};
ghost use Rattle.saber_plan.specs.Parts.{part_answers};
ghost use Rattle.saber_partial.specs.Printing.{answers_under, IsLone};

use crate::groups::Partial;
use crate::printed::number;
use crate::table::Table;
use saber_changes::Answers;
use saber_plan::{Expr, NoMemory, Plan};
use std::alloc::Global;

// Puts the answers to the items, of one group, into an empty list.
#[inline(always)]
fn put_numbers(line: &mut Vec<i128>, items: &[Expr], row: &[i128]) -> Result<(), NoMemory>
    requires none { line.old.items ≡ [] }
    requires items { AllByRecursion IsLone items.now }
    ensures { OnOk result (line.new.items ≡ items_over items.now row.now []) }
{
    for item in items {
        line.push(number(row, item))?;
    }
    Ok(())
}

/// Puts the answers of one group behind others. `line` is written over.
#[inline]
pub(crate) fn push_group(
    answers: &mut Answers,
    line: &mut Vec<i128>,
    items: &[Expr],
    row: &[i128],
) -> Result<(), NoMemory>
    requires { AllByRecursion IsLone items.now }
    ensures { OnOk result (answers.new ≡ answers.old ++ items_over items.now row.now [] ∷ []) }
{
    line.clear();
    put_numbers(line, items, row)?;
    answers.push(line.as_slice())?;
    Ok(())
}

/// Those of the groups from one on. `line` is written over.
pub(crate) fn push_groups(
    answers: &mut Answers,
    line: &mut Vec<i128>,
    items: &[Expr],
    groups: &Table,
    from: usize,
) -> Result<(), NoMemory>
    requires items { AllByRecursion IsLone items.now }
    requires from { from ≤ length groups.now.entries }
    ensures { OnOk result (answers.new ≡ answers.old ++ answers_under items.now (drop from groups.now.entries)) }
{
    groups.has_one_layout();
    for i in from..groups.len() {
        push_group(answers, line, items, groups.row(i))?;
    }
    Ok(())
}

// Those of all groups.
fn answers_in(alloc: Global, items: &[Expr], groups: &Table) -> Result<Answers, NoMemory>
    requires { AllByRecursion IsLone items.now }
    ensures { IfOk result (λ a. a ≡ answers_under items.now groups.now.entries) }
{
    let mut answers = Answers::with_room(alloc, groups.len(), items.len())?;
    let mut line = Vec::with_capacity(alloc, items.len())?;
    push_groups(&mut answers, &mut line, items, groups, 0)?;
    Ok(answers)
}

impl Partial {
    /// The answers to the plan's items, a line for each group in the order of keys, without the
    /// window's number. It fails only for want of memory.
    pub fn answers(&self, alloc: Global, plan: &Plan) -> Result<Answers, NoMemory>
        requires group { (tree_of plan.now).shape ≡ Group }
        ensures { IfOk result (λ a. a ≡ part_answers (tree_of plan.now) self.now) }
    {
        answers_in(alloc, plan.items(), &self.groups)
    }
}
