// The numbers of a group that are printed.
ghost use Rattle.std.specs.Prelude.{◌≡◌, []};
ghost use Rattle.saber_plan.specs.Checked.{lone};
ghost use Rattle.saber_plan.specs.Values.{value};
ghost use Rattle.saber_partial.specs.Flat.{entry_in, IsLayout, IsRow};
ghost use Rattle.saber_partial.specs.Printing.{joined_row, IsLone};
ghost use Rattle.saber_partial.specs.Tallies.{CanJoin};

use crate::folds::step;
use crate::layout::Layout;
use saber_plan::{Expr, Factor};

// Where the number that an item is stands in a group's row.
#[inline(always)]
fn place_of(item: &Expr) -> usize
    requires { IsLone item.now }
    ensures { item.now ≡ lone result }
{
    match &item.as_slice()[0].factors.as_slice()[0] {
        Factor::Column { side: _, index } => *index as usize,
        Factor::Constant(_) => unreachable!(),
    }
}

/// The number of a group that an item is; 0 where there is none.
#[inline(always)]
pub(crate) fn number(row: &[i128], item: &Expr) -> i128
    requires { IsLone item.now }
    ensures { result ≡ value item.now row.now [] }
{
    match row.get(place_of(item)) {
        Some(number) => *number,
        None => 0,
    }
}

/// The same of a group of which two rows have numbers.
#[inline(always)]
pub(crate) fn number_of_both(layout: &Layout, row: &[i128], later: &[i128], item: &Expr) -> i128
    requires item { IsLone item.now }
    requires layout { IsLayout layout.now }
    requires mine { IsRow layout.now row.now }
    requires theirs { IsRow layout.now later.now }
    requires can { CanJoin (entry_in layout.now row.now).1 (entry_in layout.now later.now).1 }
    ensures { result ≡ value item.now (joined_row layout.now row.now later.now) [] }
{
    let place = place_of(item);
    let count = layout.keys;
    if place >= row.len() {
        return 0;
    }
    if place < count {
        return row[place];
    }
    if place == count {
        return row[place] + later[place];
    }
    step(layout.folds[place - count - 1], row[place], later[place])
}
