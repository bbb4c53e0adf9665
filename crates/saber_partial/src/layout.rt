// How the numbers of a group lie in a row.
ghost use Rattle.std.specs.Prelude.{◌≡◌, ◌≤◌, length};
ghost use Rattle.saber_partial.specs.Flat.{IsLayout, Suits};

use saber_plan::{Aggregate, Fold};

/// How many numbers a row has: the columns of the key, one that counts rows, and the aggregates,
/// and how each of those goes on over more rows. The groups of a part have one layout.
#[derive(Clone, Copy)]
pub(crate) struct Layout {
    pub(crate) keys: usize,
    /// All of them.
    pub(crate) width: usize,
    /// Of the aggregates, before others of no meaning.
    pub(crate) folds: [Fold; 32],
}

impl Layout {
    /// The layout of no groups.
    pub(crate) fn of_none() -> Layout
        ensures layout { IsLayout result }
        ensures keys { result.keys ≡ 0 }
    {
        Layout {
            keys: 0,
            width: 1,
            folds: [Fold::Sum; 32],
        }
    }

    /// The layout of groups of keys of so many columns.
    pub(crate) fn of_aggregates(keys: usize, aggregates: &[Aggregate]) -> Layout
        requires keys { keys ≤ 8 }
        requires few { length aggregates.now ≤ 32 }
        ensures suits { Suits result keys aggregates.now }
        ensures layout { IsLayout result }
    {
        let mut folds = [Fold::Sum; 32];
        for k in 0..aggregates.len() {
            folds[k] = aggregates[k].fold;
        }
        Layout {
            keys,
            width: keys + 1 + aggregates.len(),
            folds,
        }
    }
}
