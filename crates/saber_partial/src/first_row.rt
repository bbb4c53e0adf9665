// Aggregates of a first row.
ghost use Rattle.std.specs.Prelude.{◌≡◌, length};
ghost use Rattle.std.specs.List.{AllByRecursion};
ghost use Rattle.saber_partial.specs.Flat.{with_folds};
ghost use Rattle.saber_partial.specs.Gathering.{plan_folds, values_over, CanCount, IsSmall};
ghost use Rattle.saber_partial.specs.Sources.{AreSources};

use crate::sources::Source;
use saber_flat::RowRef;
use saber_plan::Aggregate;

/// Writes the values over a first row over as many numbers.
#[inline]
pub(crate) fn write_values(
    xs: &mut [i128],
    sources: &[Source],
    aggregates: &[Aggregate],
    row: &RowRef,
)
    requires long { length xs.old ≡ length aggregates.now }
    requires sources { AreSources aggregates.now sources.now }
    requires fit { AllByRecursion (CanCount row.now.values) aggregates.now }
    ensures all { xs.new ≡ values_over row.now.values aggregates.now }
    ensures small { AllByRecursion IsSmall (with_folds (plan_folds aggregates.now) (values_over row.now.values aggregates.now)) }
{
    for k in 0..xs.len() {
        xs[k] = sources[k].value(&aggregates[k].expr, row);
    }
}
