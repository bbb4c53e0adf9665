// Texts as plans.
ghost use Rattle.std.specs.Prelude.{IfOk, IfErr};
ghost use Rattle.saber_plan.specs.Trees.{tree_of};
ghost use Rattle.saber_plan.specs.Checked.{IsChecked};
ghost use Rattle.saber_check.specs.Texts.{HasPlan, IsFaultIn};

use crate::query::check;
use saber_plan::Plan;
use saber_query::{QueryFault, parse};
use std::alloc::Global;

/// The plan of a text, or its first fault at a byte of the text: its bytes, tokens and grammar come
/// first, then the checks of the query that it means.
pub fn plan_of(alloc: Global, text: &[u8]) -> Result<Plan, QueryFault>
    ensures plan { IfOk result (λ p. HasPlan text.now (tree_of p)) }
    ensures checked { IfOk result (λ p. IsChecked (tree_of p)) }
    ensures fault { IfErr result (IsFaultIn text.now) }
{
    let query = parse(alloc, text)?;
    let plan = check(alloc, &query);
    query.let_go();
    plan
}
