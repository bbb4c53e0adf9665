// Plans of group queries that are told as texts, over a stream S of three columns: a time t, a key
// g and a number v.
ghost use Rattle.std.specs.Prelude.{◌≡◌, [], true, IfOk};
ghost use Rattle.saber_plan.specs.declared.rows.Side.TheVariants as sides;
ghost use Rattle.saber_plan.specs.Checked.{IsChecked, columns_on};
ghost use Rattle.saber_plan.specs.Trees.{tree_of};
ghost use Rattle.saber_edge_tests.specs.Asking.{IsOfThree};

use saber_check::plan_of;
use saber_plan::{NoMemory, Plan, Shape, Stream};
use std::alloc::Global;
use std::process::Abort;

fn planned(rt: &impl Abort, alloc: Global, text: &str) -> Plan
    ensures { IsChecked (tree_of result) }
{
    match plan_of(alloc, text.as_bytes()) {
        Ok(plan) => plan,
        Err(_) => panic!(rt; "{text}"),
    }
}

fn left_columns(streams: &[Stream]) -> u32
    ensures { result ≡ columns_on streams.now sides.Left }
{
    match streams {
        [] => 0,
        [only] => only.columns,
        [first, _second, ..] => first.columns,
    }
}

fn has_no_keys(plan: &Plan) -> bool
    ensures { result ≡ true → (tree_of plan.now).partition ≡ [] }
{
    match plan.partition() {
        [] => true,
        [_first, ..] => false,
    }
}

// Whether it is a group query over a stream of three columns, without PARTITION BY.
fn is_of_three(plan: &Plan) -> bool
    requires { IsChecked (tree_of plan.now) }
    ensures { result ≡ true → IsOfThree plan.now }
{
    plan.shape() == Shape::Group && left_columns(plan.streams()) == 3 && has_no_keys(plan)
}

/// The plan of a group query.
pub(crate) fn plan_of_groups(rt: &impl Abort, alloc: Global, query: &str) -> Result<Plan, NoMemory>
    ensures { IfOk result IsOfThree }
{
    let text = format!(in alloc; "STREAM S(t,g,v); {query}")?;
    let plan = planned(rt, alloc, &text);
    assert!(rt; is_of_three(&plan), "{query}");
    Ok(plan)
}
