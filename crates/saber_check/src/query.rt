// The check of a query.
ghost use Rattle.std.specs.Prelude.{◌≡◌, IfOk, IfErr};
ghost use Rattle.saber_plan.specs.Trees.{tree_of};
ghost use Rattle.saber_plan.specs.Checked.{IsChecked};
ghost use Rattle.saber_query.specs.Parsed.{IsParsed};
ghost use Rattle.saber_query.specs.Trees.{query_of};
ghost use Rattle.saber_check.specs.Plans.{plan_tree};
ghost use Rattle.saber_check.specs.Outcome.{IsFaultless, IsFaultOf};

use crate::plans::plan;
use crate::whole::first_fault;
use saber_plan::Plan;
use saber_query::{Query, QueryFault};
use std::alloc::Global;

/// The plan of a query, or the first that is wrong with it, at the byte where its word begins.
/// Where several things are wrong at one word, the order of `Cause` decides.
pub fn check(alloc: Global, query: &Query) -> Result<Plan, QueryFault>
    ensures parsed { IsParsed query.now.select query.now.starts }
    ensures faultless { IfOk result (λ p. IsFaultless (query_of query.now.select)) }
    ensures plan { IfOk result (λ p. tree_of p ≡ plan_tree (query_of query.now.select)) }
    ensures checked { IfOk result (λ p. IsChecked (tree_of p)) }
    ensures fault { IfErr result (IsFaultOf query.now) }
{
    let tree = query.select();
    match first_fault(tree) {
        Some(fault) => Err(QueryFault::At {
            byte: query.starts()[fault.index as usize],
            cause: fault.cause,
        }),
        None => Ok(plan(alloc, tree)?),
    }
}
