// Aggregates with those over one row more taken in, in place.
ghost use Rattle.std.specs.Prelude.{◌≡◌, ◌<◌, ◌^◌, [], get_or, length, pos};
ghost use Rattle.std.proofs.Math.ListN.{set};
ghost use Rattle.std.specs.List.{AllByRecursion};
ghost use Rattle.saber_plan.specs.Answers.{step};
ghost use Rattle.saber_plan.specs.Values.{value};
ghost use Rattle.saber_partial.specs.Flat.{with_folds};
ghost use Rattle.saber_partial.specs.Gathering.{plan_folds, stepped_numbers, values_over, CanCount, HasRoom, IsSmall};
ghost use Rattle.saber_partial.specs.Sources.{AreSources, IsSource};
ghost use Rattle.saber_partial.specs.Tallies.{SumWithin};

use crate::folds::step;
use crate::sources::Source;
use saber_flat::RowRef;
use saber_plan::{Aggregate, Fold};

// Takes the value over a row into the number at k. That of a first row stays, and nothing is worked
// out for it.
#[inline(always)]
fn add_value(xs: &mut [i128], k: usize, source: Source, aggregate: &Aggregate, row: &RowRef)
    requires there { k < length xs.old }
    requires source { IsSource aggregate.now.expr source }
    requires fit { CanCount row.now.values aggregate.now }
    requires room { SumWithin (2 ^ 126) aggregate.now.fold (get_or xs.old k (pos 0)) }
    ensures all { xs.new ≡ set xs.old k (step aggregate.now.fold (get_or xs.old k (pos 0)) (value aggregate.now.expr row.now.values [])) }
    ensures small { SumWithin (2 ^ 86) aggregate.now.fold (value aggregate.now.expr row.now.values []) }
{
    match aggregate.fold {
        Fold::First => return,
        Fold::Sum | Fold::Min | Fold::Max => {}
    }
    xs[k] = step(aggregate.fold, xs[k], source.value(&aggregate.expr, row));
}

/// Takes the values over one row more into as many numbers.
#[inline(always)]
pub(crate) fn add_values(
    xs: &mut [i128],
    sources: &[Source],
    aggregates: &[Aggregate],
    row: &RowRef,
)
    requires long { length xs.old ≡ length aggregates.now }
    requires sources { AreSources aggregates.now sources.now }
    requires fit { AllByRecursion (CanCount row.now.values) aggregates.now }
    requires room { AllByRecursion HasRoom (with_folds (plan_folds aggregates.now) xs.old) }
    ensures all { xs.new ≡ stepped_numbers (plan_folds aggregates.now) xs.old (values_over row.now.values aggregates.now) }
    ensures small { AllByRecursion IsSmall (with_folds (plan_folds aggregates.now) (values_over row.now.values aggregates.now)) }
{
    for k in 0..xs.len() {
        add_value(xs, k, sources[k], &aggregates[k], row);
    }
}
