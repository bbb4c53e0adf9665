// The operator of a plan, of whichever kind.
ghost use Rattle.std.specs.Prelude.{◌≡◌, IfOk, IsSome};
ghost use Rattle.std.specs.List.{AllByRecursion, AllZip};
ghost use Rattle.saber_plan.specs.declared.plans.Shape.TheVariants as shapes;
ghost use Rattle.saber_plan.specs.Checked.{IsChecked};
ghost use Rattle.saber_plan.specs.Trees.{tree_of};
ghost use Rattle.saber_fragment.specs.Cases.{of_one};
ghost use Rattle.saber_engine.specs.Jobs.{tree_in};
ghost use Rattle.saber_engine.specs.Ways.{tree_by};

use crate::jobs::Job;
use crate::ways::{Way, way_of};
use saber_fragment::OneOf;
use saber_group::GroupOperator;
use saber_join::JoinOperator;
use saber_partition::Partition;
use saber_plan::{NoMemory, Plan, Shape};
use saber_select::{Select, WindowedOperator};
use std::alloc::Global;
use std::collections::VecDeque;

/// That of a selection.
type Selection<'p> = OneOf<Select<'p>, WindowedOperator<'p>>;

/// That of a group query.
type Grouping<'p> = OneOf<Partition<'p>, GroupOperator<'p>>;

/// The one type of operators that are run: ring, workers and crew are compiled for it once, and
/// once it is shown that they may be sent and shared.
pub(crate) type AnyOperator<'p> = OneOf<OneOf<Selection<'p>, Grouping<'p>>, JoinOperator<'p>>;

// The operator of a selection under a stream word.
fn windowed_of(plan: &Plan) -> WindowedOperator<'_>
    requires select { (tree_of plan.now).shape ≡ shapes.Select }
    requires word { IsSome (tree_of plan.now).word }
    ensures { tree_of result ≡ tree_of plan.now }
{
    match way_of(plan) {
        Way::Alike => WindowedOperator::new(plan),
        Way::ByList => unreachable!(),
        Way::Changing(change) => WindowedOperator::changing(plan, change),
    }
}

// The operator of a selection.
fn selection_of(plan: &Plan) -> Selection<'_>
    requires select { (tree_of plan.now).shape ≡ shapes.Select }
    ensures { of_one tree_of tree_of result ≡ tree_of plan.now }
{
    match plan.word() {
        None => OneOf::First(Select::new(plan)),
        Some(_) => OneOf::Second(windowed_of(plan)),
    }
}

// The operator of a group query.
fn grouping_of(plan: &Plan) -> Grouping<'_>
    requires group { (tree_of plan.now).shape ≡ shapes.Group }
    ensures { of_one tree_of tree_of result ≡ tree_of plan.now }
{
    match way_of(plan) {
        Way::Alike => OneOf::Second(GroupOperator::new(plan)),
        Way::ByList => OneOf::First(Partition::new(plan)),
        Way::Changing(change) => OneOf::Second(GroupOperator::changing(plan, change)),
    }
}

// The operator of a join.
fn joining_of(plan: &Plan) -> JoinOperator<'_>
    requires join { (tree_of plan.now).shape ≡ shapes.Join }
    ensures { tree_of result ≡ tree_of plan.now }
{
    match way_of(plan) {
        Way::Alike => JoinOperator::new(plan),
        Way::ByList => unreachable!(),
        Way::Changing(change) => JoinOperator::changing(plan, change),
    }
}

/// The operator of a plan.
pub(crate) fn operator_of(plan: &Plan) -> AnyOperator<'_>
    ensures { tree_by result ≡ tree_of plan.now }
{
    match plan.shape() {
        Shape::Select => OneOf::First(OneOf::First(selection_of(plan))),
        Shape::Group => OneOf::First(OneOf::Second(grouping_of(plan))),
        Shape::Join => OneOf::Second(joining_of(plan)),
    }
}

/// The operators of queries that share their input, in their order.
pub(crate) fn operators_for<'p, K>(
    alloc: Global,
    jobs: &[Job<'p, K>],
) -> Result<VecDeque<AnyOperator<'p>>, NoMemory>
    requires checked { AllByRecursion (λ job. IsChecked (tree_in job)) jobs.now }
    ensures { IfOk result (λ ops. AllZip (λ op job. tree_by op ≡ tree_in job) ops.items jobs.now) }
{
    let Some((job, others)) = jobs.split_first() else {
        return Ok(VecDeque::new(alloc));
    };
    let operator = operator_of(job.plan);
    let mut operators = operators_for(alloc, others)?;
    operators.push_front(operator)?;
    Ok(operators)
}
