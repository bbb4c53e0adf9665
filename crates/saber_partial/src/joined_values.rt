// Aggregates of rows joined with those of later rows, in place.
ghost use Rattle.std.specs.Prelude.{◌≡◌, ◌≤◌, length};
ghost use Rattle.saber_partial.specs.Gathering.{stepped_numbers, StepsFit};

use crate::folds::step;
use saber_plan::Fold;

/// Takes those of later rows into as many, by their folds.
#[inline]
pub(crate) fn join_values(folds: &[Fold], xs: &mut [i128], ys: &[i128])
    requires folds { length xs.old ≤ length folds.now }
    requires long { length xs.old ≡ length ys.now }
    requires fits { StepsFit folds.now xs.old ys.now }
    ensures { xs.new ≡ stepped_numbers folds.now xs.old ys.now }
{
    for k in 0..xs.len() {
        xs[k] = step(folds[k], xs[k], ys[k]);
    }
}
