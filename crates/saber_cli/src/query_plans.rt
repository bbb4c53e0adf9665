// The plan of a query's file, and the plans of a chain's two queries.
ghost use Rattle.std.specs.Prelude.{◌≡◌, ◌≢◌, ℕ, List, IfOk, IfErr, IfSome, None, length, true, false};
ghost use Rattle.saber_plan.specs.Outputs.{Rose};
ghost use Rattle.saber_plan.specs.Trees.{tree_of};
ghost use Rattle.saber_plan.specs.Checked.{IsChecked};
ghost use Rattle.saber_plan.specs.Windows.{has_windows};
ghost use Rattle.saber_plan.specs.Answers.{frame};
ghost use Rattle.saber_words.specs.Chain.{asked_chain};
ghost use Rattle.saber_notes.specs.declared.outcome.InputFile.{InputFile};
ghost use Rattle.saber_cli.specs.Outcomes.{IsClean, IsFileFault, IsOfPlan, IsOfPlans};
ghost use Rattle.saber_cli.specs.Due.{IsLike, first_run, IsPlanned};
ghost use Rattle.saber_cli.specs.Uses.{Uses, KeepsFaults, outcome_of};
ghost use Rattle.saber_cli.specs.Chained.{HasPlansTold, HasReason, IsChainable, MayBeFirst};
ghost use Rattle.saber_words.specs.Commands.{chain};
ghost use Rattle.saber_cli.specs.Leaving.{LeavesTold};
ghost use Rattle.saber_cli.specs.Chaining.{BothRead, IsMisfit, LacksPlan, MayNotBeFirst, as_second};

use crate::plans::planned;
use crate::queries::query_text;
use crate::row_files::file_count;
use saber_chain::Plans;
use saber_io::Files;
use saber_notes::{InputFile, Outcome};
use saber_plan::{Plan, Shape};
use saber_words::Chain;
use std::alloc::Global;

/// Opens, reads and closes a query's file, and gives the plan of the query that it has. The
/// outcomes that it answers are those of a command whose first query this is.
pub fn query_plan<F: Files>(alloc: Global, files: &mut F, name: &str) -> Result<Plan, Outcome>
    ensures plan { IfOk result (λ plan. IfSome (F.told files.old) (λ t. IsPlanned t.contents name.now (tree_of plan))) }
    ensures checked { IfOk result (λ plan. IsChecked (tree_of plan)) }
    ensures lacks { IfErr result (λ o. IfSome (F.told files.old) (λ t. LacksPlan t.contents name.now o)) }
    ensures kinds { IfErr result IsOfPlan }
    ensures uses { Uses InputFile.Query name.now (outcome_of result) (F.told files.old) (F.told files.new) }
    ensures cause { IfErr result (λ o. IsFileFault o → Rose (F.faults files.old) (F.faults files.new)) }
    ensures read_good { IsClean (outcome_of result) → F.faults files.new ≡ F.faults files.old }
    ensures count { KeepsFaults (F.faults files.old) (F.faults files.new) }
{
    let text = match query_text(alloc, files, name) {
        Ok(text) => text,
        Err(outcome) => return Err(outcome),
    };
    match planned(alloc, &text) {
        Ok(plan) => Ok(plan),
        Err(outcome) => Err(outcome),
    }
}

// What a second query came to, as it is told.
fn as_second(outcome: Outcome) -> Outcome
    ensures { result ≡ as_second outcome }
{
    match outcome {
        Outcome::QueryFault { byte, cause } => Outcome::SecondQueryFault { byte, cause },
        Outcome::OpenFault(_) => Outcome::OpenFault(InputFile::SecondQuery),
        Outcome::ReadFault(_) => Outcome::ReadFault(InputFile::SecondQuery),
        _ => outcome,
    }
}

// Whether a query has windows.
#[tactic(auto, using(saber_laws::proofs::CheckedLaws::selections_have_no_window, saber_laws::proofs::CheckedLaws::words_have_one_window, saber_laws::proofs::CheckedLaws::groups_have_one_window, saber_laws::proofs::CheckedLaws::joins_have_two_windows))]
fn has_windows(plan: &Plan) -> bool
    requires { IsChecked (tree_of plan.now) }
    ensures { result ≡ has_windows (frame (tree_of plan.now)) }
{
    match plan.shape() {
        Shape::Select => match plan.word() {
            None => false,
            Some(_) => true,
        },
        Shape::Group => true,
        Shape::Join => true,
    }
}

// Whether a query's lines begin with the numbers of windows, which rise.
fn may_be_first(plan: &Plan) -> bool
    requires { IsChecked (tree_of plan.now) }
    ensures is { result ≡ true → MayBeFirst (tree_of plan.now) }
    ensures isnt { result ≡ false → MayNotBeFirst (tree_of plan.now) }
{
    if !has_windows(plan) {
        return false;
    }
    plan.partition().is_empty()
}

// Why two plans make no chain over so many row files.
fn misfit(first: &Plan, second: &Plan, files: u64) -> Option<Outcome>
    requires { IsChecked (tree_of first.now) }
    ensures some { IfSome result (IsMisfit (tree_of first.now) (tree_of second.now) files) }
    ensures chains { result ≡ None → IsChainable (tree_of first.now) (tree_of second.now) }
    ensures like { result ≡ None → length (tree_of first.now).streams ≡ files }
{
    if !may_be_first(first) {
        return Some(Outcome::Unchainable(InputFile::Query));
    }
    if second.shape() == Shape::Join {
        return Some(Outcome::Unchainable(InputFile::SecondQuery));
    }
    let streams = first.streams().len() as u64;
    if streams != files {
        return Some(Outcome::FileCount { streams, files });
    }
    None
}

/// Reads and checks the first query and then the second one, and whether they chain over the row
/// files that are named.
pub(crate) fn chain_plans<F: Files>(
    alloc: Global,
    files: &mut F,
    command: &Chain<'_>,
) -> Result<Plans, Outcome>
    ensures plans { IfOk result (λ plans. HasPlansTold (F.told files.old) (asked_chain command.now) (tree_of plans.first) (tree_of plans.second)) }
    ensures first { IfOk result (λ plans. IsChecked (tree_of plans.first)) }
    ensures second { IfOk result (λ plans. IsChecked (tree_of plans.second)) }
    ensures chains { IfOk result (λ plans. IsChainable (tree_of plans.first) (tree_of plans.second)) }
    ensures like { IfOk result (λ plans. IsLike (first_run (asked_chain command.now)) (tree_of plans.first)) }
    ensures reason { IfErr result (λ o. IfSome (F.told files.old) (λ t. HasReason t.contents (asked_chain command.now) o)) }
    ensures kinds { IfErr result IsOfPlans }
    ensures read { IfOk result (λ plans. BothRead (asked_chain command.now).first (asked_chain command.now).second (F.told files.old) (F.told files.new)) }
    ensures leaves { IfErr result (λ o. LeavesTold (chain (asked_chain command.now)) o (F.told files.old) (F.told files.new)) }
    ensures cause { IfErr result (λ o. IsFileFault o → Rose (F.faults files.old) (F.faults files.new)) }
    ensures read_good { IsClean (outcome_of result) → F.faults files.new ≡ F.faults files.old }
    ensures count { KeepsFaults (F.faults files.old) (F.faults files.new) }
{
    let first = match query_plan(alloc, files, command.first) {
        Ok(plan) => plan,
        Err(outcome) => return Err(outcome),
    };
    let second = match query_plan(alloc, files, command.second) {
        Ok(plan) => plan,
        Err(outcome) => {
            first.let_go();
            return Err(as_second(outcome));
        }
    };
    match misfit(&first, &second, file_count(&command.rows)) {
        None => Ok(Plans { first, second }),
        Some(outcome) => {
            first.let_go();
            second.let_go();
            Err(outcome)
        }
    }
}
