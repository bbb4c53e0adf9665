// The lines of rows.
ghost use Rattle.std.specs.Prelude.{◌≡◌, ◌≤◌, ◌++◌, [], length, OnOk};
ghost use Rattle.std.specs.List.{AllByRecursion};
ghost use Rattle.saber_plan.specs.Checked.{ExprFits};
ghost use Rattle.saber_plan.specs.Answers.{items_over, line};
ghost use Rattle.saber_eval.specs.Widths.{widths};
ghost use Rattle.saber_digits.specs.Cells.{cells};

use saber_digits::{write_cell, write_number};
use saber_eval::value;
use saber_flat::RowRef;
use saber_plan::{Expr, NoMemory};

fn write_cells(out: &mut Vec<u8>, items: &[Expr], row: &RowRef) -> Result<(), NoMemory>
    requires { AllByRecursion (ExprFits (widths row.now.values [])) items.now }
    ensures { OnOk result (out.new.items ≡ out.old.items ++ cells (items_over items.now row.now.values [])) }
{
    for item in items {
        write_cell(out, value(item, row))?;
    }
    Ok(())
}

/// Writes the values of the items over a row in decimal, with commas between, and LF (this
/// project's rule).
pub(crate) fn write_line(out: &mut Vec<u8>, items: &[Expr], row: &RowRef) -> Result<(), NoMemory>
    requires fit { AllByRecursion (ExprFits (widths row.now.values [])) items.now }
    requires some { 1 ≤ length items.now }
    ensures { OnOk result (out.new.items ≡ out.old.items ++ line (items_over items.now row.now.values [])) }
{
    write_number(out, value(&items[0], row))?;
    write_cells(out, &items[1..], row)?;
    out.push(b'\n')?;
    Ok(())
}
