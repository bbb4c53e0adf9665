// What is known of the rows with one key, as a row of numbers.
ghost use Rattle.std.specs.Prelude.{◌≡◌, ◌+◌, ◌≤◌, [], ◌∷◌, length};
ghost use Rattle.std.specs.List.{AllByRecursion};
ghost use Rattle.saber_plan.specs.Trees.{tree_of};
ghost use Rattle.saber_plan.specs.Parts.{numbers, join_numbers};
ghost use Rattle.saber_partial.specs.Gathering.{CanCount};
ghost use Rattle.saber_partial.specs.Tallies.{CanJoin};
ghost use Rattle.saber_partial.specs.Flat.{entry_in, IsLayout, IsRow, Suits};

use crate::aggregates::Aggregates;
use crate::first_row::write_values;
use crate::joined_values::join_values;
use crate::later_row::add_values;
use crate::layout::Layout;
use saber_flat::RowRef;

/// Takes what is known of later rows with the key into a row of numbers.
#[inline]
pub(crate) fn join_row(layout: &Layout, xs: &mut [i128], ys: &[i128])
    requires layout { IsLayout layout.now }
    requires mine { IsRow layout.now xs.old }
    requires theirs { IsRow layout.now ys.now }
    requires can { CanJoin (entry_in layout.now xs.old).1 (entry_in layout.now ys.now).1 }
    ensures row { IsRow layout.now xs.new }
    ensures joined { entry_in layout.now xs.new ≡ ((entry_in layout.now xs.old).0, join_numbers (entry_in layout.now xs.old).1 (entry_in layout.now ys.now).1) }
{
    let keys = layout.keys;
    xs[keys] += ys[keys];
    join_values(&layout.folds, &mut xs[keys + 1..], &ys[keys + 1..]);
}

/// Counts one row more with the key. Each row asks it.
#[inline(always)]
pub(crate) fn add_row(layout: &Layout, xs: &mut [i128], aggregates: &Aggregates, row: &RowRef)
    requires layout { IsLayout layout.now }
    requires mine { IsRow layout.now xs.old }
    requires fit { AllByRecursion (CanCount row.now.values) (tree_of aggregates.now).aggregates }
    requires can { CanJoin (entry_in layout.now xs.old).1 (numbers (tree_of aggregates.now).aggregates (row.now.values ∷ [])) }
    ensures row { IsRow layout.now xs.new }
    ensures joined { entry_in layout.now xs.new
        ≡ ((entry_in layout.now xs.old).0, join_numbers (entry_in layout.now xs.old).1 (numbers (tree_of aggregates.now).aggregates (row.now.values ∷ []))) }
{
    let keys = layout.keys;
    xs[keys] += 1;
    add_values(
        &mut xs[keys + 1..],
        aggregates.sources(),
        aggregates.list(),
        row,
    );
}

/// Writes what is known of a first row over a row of numbers.
#[inline]
pub(crate) fn write_first(
    layout: &Layout,
    xs: &mut [i128],
    key: &[i128],
    aggregates: &Aggregates,
    row: &RowRef,
)
    requires suits { Suits layout.now (length key.now) (tree_of aggregates.now).aggregates }
    requires long { length xs.old ≡ layout.now.width }
    requires fit { AllByRecursion (CanCount row.now.values) (tree_of aggregates.now).aggregates }
    ensures row { IsRow layout.now xs.new }
    ensures first { entry_in layout.now xs.new ≡ (key.now, numbers (tree_of aggregates.now).aggregates (row.now.values ∷ [])) }
{
    let (front, behind) = xs.split_at_mut(layout.keys);
    front.copy_from_slice(key);
    behind[0] = 1;
    write_values(
        &mut behind[1..],
        aggregates.sources(),
        aggregates.list(),
        row,
    );
}
