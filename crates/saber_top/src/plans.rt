// The plans of several queries, and whether they can share an input.
ghost use Rattle.std.specs.Prelude.{◌≡◌, ◌≤◌, ◌<◌, ◌+◌, ◌^◌, ◌∷◌, IfOk, IfErr, IfSome, OnOk, None, length, map, true, false};
ghost use Rattle.std.specs.List.{AllByRecursion};
ghost use Rattle.saber_plan.specs.Outputs.{Rose};
ghost use Rattle.saber_plan.specs.declared.rows.Side.TheVariants as sides;
ghost use Rattle.saber_plan.specs.Checked.{IsChecked, columns_on};
ghost use Rattle.saber_plan.specs.Trees.{tree_of};
ghost use Rattle.saber_notes.specs.declared.early.Early.{Early};
ghost use Rattle.saber_top.specs.Queries.{ArePlanned, HasStream, MayShare, LackPlans, LackShared, IsFirstUnlike, as_early, first_columns};
ghost use Rattle.saber_top.specs.ManyLeaves.{AllRead, LackFits, SharedFits, UsesFirst};
ghost use Rattle.saber_top.specs.Ends.{IsFileEnd, IsReadWell};

use saber_cli::query_plan;
use saber_io::Files;
use saber_notes::{Early, Outcome};
use saber_plan::Plan;
use std::alloc::Global;
use std::collections::VecDeque;

/// The plans of queries, in their order.
#[derive(Drop)]
pub(crate) struct Plans {
    pub(crate) list: Vec<Plan>,
}

impl Plans {
    /// Lets them go.
    pub(crate) fn let_go(self) {
        drop(self);
    }
}

// What the query of this number came to that has no plan.
fn as_early(number: u64, outcome: Outcome) -> Early
    ensures { result ≡ as_early number outcome }
{
    match outcome {
        Outcome::QueryFault { byte, cause } => Early::QueryFault {
            query: number,
            byte,
            cause,
        },
        Outcome::OpenFault(_) => Early::QueryUnopened { query: number },
        Outcome::ReadFault(_) => Early::QueryUnread { query: number },
        _ => Early::NoMemory,
    }
}

// Lets plans go.
fn let_go(plans: VecDeque<Plan>) {
    drop(plans);
}

// These plans with one before them.
fn with_first(plan: Plan, plans: VecDeque<Plan>) -> Result<VecDeque<Plan>, Early>
    ensures plans { IfOk result (λ all. all.items ≡ plan ∷ plans.items) }
    ensures lacks { IfErr result (λ e. e ≡ Early.NoMemory) }
{
    let mut plans = plans;
    match plans.push_front(plan) {
        Ok(()) => Ok(plans),
        Err(full) => {
            full.value.let_go();
            let_go(plans);
            Err(Early::NoMemory)
        }
    }
}

// Reads and checks the queries that these files have, one after another, up to the first one at
// fault. So many others stand before them.
fn read_each<F: Files>(
    alloc: Global,
    files: &mut F,
    names: &[&str],
    others: u64,
) -> Result<VecDeque<Plan>, Early>
    requires { others + length names.now < 2 ^ 64 }
    ensures plans { IfOk result (λ plans. IfSome (F.told files.old) (λ t. ArePlanned t.contents (map (λ name. name.now) names.now) (map tree_of plans.items))) }
    ensures checked { IfOk result (λ plans. AllByRecursion (λ plan. IsChecked (tree_of plan)) plans.items) }
    ensures many { IfOk result (λ plans. length plans.items ≡ length (map (λ name. name.now) names.now)) }
    ensures read { IfOk result (λ plans. AllRead (map (λ name. name.now) names.now) (F.told files.old) (F.told files.new)) }
    ensures reason { IfErr result (λ e. IfSome (F.told files.old) (λ t. LackPlans t.contents others (map (λ name. name.now) names.now) e)) }
    ensures leaves { IfErr result (λ e. UsesFirst (map (λ name. name.now) names.now) (LackFits others e) (F.told files.old) (F.told files.new)) }
    ensures cause { IfErr result (λ e. IsFileEnd e → Rose (F.faults files.old) (F.faults files.new)) }
    ensures good { OnOk result (F.faults files.new ≡ F.faults files.old) }
    ensures read_good { IfErr result (λ e. IsReadWell e → F.faults files.new ≡ F.faults files.old) }
{
    let Some((name, rest)) = names.split_first() else {
        return Ok(VecDeque::new(alloc));
    };
    let plan = match query_plan(alloc, files, *name) {
        Ok(plan) => plan,
        Err(outcome) => return Err(as_early(others + 1, outcome)),
    };
    match read_each(alloc, files, rest, others + 1) {
        Ok(plans) => with_first(plan, plans),
        Err(early) => {
            plan.let_go();
            Err(early)
        }
    }
}

// How many columns the first stream of a plan has.
fn columns_of(plan: &Plan) -> u32
    ensures { result ≡ columns_on (tree_of plan.now).streams sides.Left }
{
    let Some((stream, _)) = plan.streams().split_first() else {
        return 0;
    };
    stream.columns
}

// Whether a plan has one stream, of so many columns.
fn has_stream(plan: &Plan, columns: u32) -> bool
    ensures is { result ≡ true → HasStream columns (tree_of plan.now) }
    ensures isnt { result ≡ false → HasStream columns (tree_of plan.now) → ⊥ }
{
    if plan.streams().len() != 1 {
        return false;
    }
    columns_of(plan) == columns
}

// The number of the first of these plans that has not one stream of so many columns. So many others
// stand before them.
fn first_unlike(plans: &[Plan], columns: u32, others: u64) -> Option<u64>
    requires { others + length plans.now < 2 ^ 64 }
    ensures share { result ≡ None → AllByRecursion (HasStream columns) (map tree_of plans.now) }
    ensures unlike { IfSome result (IsFirstUnlike columns others (map tree_of plans.now)) }
{
    let Some((plan, rest)) = plans.split_first() else {
        return None;
    };
    let fits = has_stream(plan, columns);
    if !fits {
        return Some(others + 1);
    }
    first_unlike(rest, columns, others + 1)
}

// The number of the first of these plans that can't share the input of the first one.
fn unlike(plans: &[Plan]) -> Option<u64>
    requires { length plans.now ≤ 8 }
    ensures share { result ≡ None → MayShare (map tree_of plans.now) }
    ensures unlike { IfSome result (IsFirstUnlike (first_columns (map tree_of plans.now)) 0 (map tree_of plans.now)) }
{
    let Some((first, _)) = plans.split_first() else {
        return None;
    };
    first_unlike(plans, columns_of(first), 0)
}

/// The plans of the queries that these files have: each is read and checked, one after another, and
/// then whether they can share an input.
pub(crate) fn shared_plans<F: Files>(
    alloc: Global,
    files: &mut F,
    names: &[&str],
) -> Result<Plans, Early>
    requires { length names.now ≤ 8 }
    ensures plans { IfOk result (λ plans. IfSome (F.told files.old) (λ t. ArePlanned t.contents (map (λ name. name.now) names.now) (map tree_of plans.list.items))) }
    ensures checked { IfOk result (λ plans. AllByRecursion (λ plan. IsChecked (tree_of plan)) plans.list.items) }
    ensures share { IfOk result (λ plans. MayShare (map tree_of plans.list.items)) }
    ensures many { IfOk result (λ plans. length plans.list.items ≡ length (map (λ name. name.now) names.now)) }
    ensures read { IfOk result (λ plans. AllRead (map (λ name. name.now) names.now) (F.told files.old) (F.told files.new)) }
    ensures reason { IfErr result (λ e. IfSome (F.told files.old) (λ t. LackShared t.contents (map (λ name. name.now) names.now) e)) }
    ensures leaves { IfErr result (λ e. UsesFirst (map (λ name. name.now) names.now) (SharedFits (map (λ name. name.now) names.now) e) (F.told files.old) (F.told files.new)) }
    ensures cause { IfErr result (λ e. IsFileEnd e → Rose (F.faults files.old) (F.faults files.new)) }
    ensures good { OnOk result (F.faults files.new ≡ F.faults files.old) }
    ensures read_good { IfErr result (λ e. IsReadWell e → F.faults files.new ≡ F.faults files.old) }
{
    let plans = match read_each(alloc, files, names, 0) {
        Ok(plans) => Plans {
            list: Vec::from(plans),
        },
        Err(early) => return Err(early),
    };
    match unlike(&plans.list) {
        None => Ok(plans),
        Some(query) => {
            plans.let_go();
            Err(Early::Unshareable { query })
        }
    }
}
