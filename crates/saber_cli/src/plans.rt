// From the text of a query to the plan that is run.
ghost use Rattle.std.specs.Prelude.{◌≡◌, IfOk, IfErr};
ghost use Rattle.saber_plan.specs.Trees.{tree_of};
ghost use Rattle.saber_plan.specs.Checked.{IsChecked};
ghost use Rattle.saber_check.specs.Texts.{HasPlan};
ghost use Rattle.saber_cli.specs.Planned.{IsTextFault, refusal};

use saber_check::plan_of;
use saber_notes::Outcome;
use saber_plan::Plan;
use saber_query::QueryFault;
use std::alloc::Global;

// A fault of a text as an outcome.
pub(crate) fn refused(fault: QueryFault) -> Outcome
    ensures { result ≡ refusal fault }
{
    match fault {
        QueryFault::NoMemory => Outcome::NoMemory,
        QueryFault::At { byte, cause } => Outcome::QueryFault { byte, cause },
    }
}

/// The plan of a text, or the text's fault.
pub(crate) fn planned(alloc: Global, text: &[u8]) -> Result<Plan, Outcome>
    ensures plan { IfOk result (λ plan. HasPlan text.now (tree_of plan)) }
    ensures checked { IfOk result (λ plan. IsChecked (tree_of plan)) }
    ensures fault { IfErr result (IsTextFault text.now) }
{
    match plan_of(alloc, text) {
        Ok(plan) => Ok(plan),
        Err(fault) => Err(refused(fault)),
    }
}
