// A selection, and the rows of a task.
ghost use Rattle.std.specs.Prelude.{◌≡◌, ◌++◌, OnOk};
ghost use Rattle.std.specs.List.{AllByRecursion};
ghost use Rattle.saber_plan.specs.declared.plans.Shape.TheVariants as shapes;
ghost use Rattle.saber_plan.specs.Trees.{tree_of};
ghost use Rattle.saber_plan.specs.Checked.{IsPlain};
ghost use Rattle.saber_plan.specs.GivenRows.{IsRowOf};
ghost use Rattle.saber_plan.specs.Answers.{selected_lines};
ghost use Rattle.saber_select.specs.Printing.{row_text};

use crate::lines::write_line;
use saber_eval::passes;
use saber_flat::{RowRef, Rows};
use saber_plan::{Expr, NoMemory, Plan};
use std::marker::Model;

/// The operator of a checked selection over its plan: the rows that pass WHERE (CQL 2006: a
/// selection), and of each the values of the items. It keeps nothing from task to task (SABER 2016:
/// a stateless operator), and want of memory for a task's text is its only error. Contracts see it
/// as the plan.
#[derive(Drop)]
pub struct Select<'a> {
    pub(crate) plan: &'a Plan,
    items: &'a [Expr],
}

impl<'a> Model for Select<'a> {
    ghost use Rattle.std.specs.Prelude.{◌≡◌};
    ghost use Rattle.saber_plan.specs.declared.plans.Shape.TheVariants as shapes;
    ghost use Rattle.saber_plan.specs.declared.plans.Plan.{Plan};
    ghost use Rattle.saber_plan.specs.Trees.{tree_of};
    ghost use Rattle.saber_plan.specs.Checked.{IsChecked, IsPlain};
    ghost use Rattle.saber_plan.specs.contracts.plans.Plan as e;

    ghost Value = { Plan };

    ghost coded = { e.the_row.coded };

    ghost view = { λ s. s.plan.now };

    ghost invariant = { λ s. IsChecked (tree_of s.plan.now) × ((tree_of s.plan.now).shape ≡ shapes.Select) × IsPlain (tree_of s.plan.now) × (s.items.now ≡ (tree_of s.plan.now).items) };
}

impl<'a> Select<'a> {
    /// The operator of this plan. Takes no memory.
    pub fn new(plan: &'a Plan) -> Select<'a>
        requires select { (tree_of plan.now).shape ≡ shapes.Select }
        requires plain { IsPlain (tree_of plan.now) }
        ensures { result ≡ plan.now }
    {
        Select {
            plan,
            items: plan.items(),
        }
    }

    // A row's line, if the row passes.
    #[tactic(auto, using(saber_eval::proofs::FittingLaws::selection_fits, crate::proofs::Shown::items_fit))]
    fn write_row(&self, row: &RowRef, out: &mut Vec<u8>) -> Result<(), NoMemory>
        requires { IsRowOf (tree_of self.now) row.now }
        ensures { OnOk result (out.new.items ≡ out.old.items ++ row_text (tree_of self.now) row.now.values) }
    {
        if !passes(self.plan, row) {
            return Ok(());
        }
        write_line(out, self.items, row)
    }

    /// Writes the lines of the rows that pass, in the order of the rows, behind what `out` has. It
    /// stands by itself, since within a call that begins pieces of all operators it would cost each
    /// row more.
    #[inline(never)]
    pub(crate) fn write_rows(&self, rows: &Rows, out: &mut Vec<u8>) -> Result<(), NoMemory>
        requires { AllByRecursion (IsRowOf (tree_of self.now)) rows.now }
        ensures { OnOk result (out.new.items ≡ out.old.items ++ selected_lines (tree_of self.now) rows.now) }
    {
        for i in 0..rows.len() {
            self.write_row(&rows.row(i), out)?;
        }
        Ok(())
    }
}
