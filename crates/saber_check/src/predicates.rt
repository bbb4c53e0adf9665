// The plans of predicates.
ghost use Rattle.std.specs.Prelude.{◌≡◌, ◌≤◌, ◌^◌, IfOk};
ghost use Rattle.saber_plan.specs.Trees as t;
ghost use Rattle.saber_query.specs.Trees.{test_of, both_of, tests_of, query_of};
ghost use Rattle.saber_check.specs.Plans.{plan_expr, plan_cmp, plan_test, plan_both, plan_tests, Small};

use crate::expressions::expr;
use saber_plan::NoMemory;
use saber_query::{Cmp, Conj, Expr, Pred, Select, Unit};
use std::alloc::Global;

fn cmp(cmp: Cmp) -> saber_plan::Cmp
    ensures { result ≡ plan_cmp cmp }
{
    match cmp {
        Cmp::Equal => saber_plan::Cmp::Equal,
        Cmp::Unequal => saber_plan::Cmp::Unequal,
        Cmp::Less => saber_plan::Cmp::Less,
        Cmp::AtMost => saber_plan::Cmp::AtMost,
        Cmp::Greater => saber_plan::Cmp::Greater,
        Cmp::AtLeast => saber_plan::Cmp::AtLeast,
    }
}

fn comparison(
    alloc: Global,
    query: &Select,
    left: &Expr,
    sign: Cmp,
    right: &Expr,
) -> Result<saber_plan::Unit, NoMemory>
    requires { Small (query_of query.now) }
    ensures { IfOk result (λ u. t.test_of u ≡ t.compare (plan_expr (query_of query.now) left.now)
        (plan_cmp sign) (plan_expr (query_of query.now) right.now)) }
{
    let left = expr(alloc, query, left)?;
    let right = expr(alloc, query, right)?;
    Ok(saber_plan::Unit::compare(left, cmp(sign), right))
}

fn negation(alloc: Global, inner: saber_plan::Unit) -> Result<saber_plan::Unit, NoMemory>
    ensures { IfOk result (λ u. t.test_of u ≡ t.negated (t.test_of inner)) }
{
    saber_plan::Unit::negated(alloc, inner)
}

#[cycle(plan)]
fn plan_unit(alloc: Global, query: &Select, unit: &Unit) -> Result<saber_plan::Unit, NoMemory>
    requires { Small (query_of query.now) }
    ensures { IfOk result (λ u. t.test_of u ≡ plan_test (query_of query.now) (test_of unit.now)) }
{
    match unit {
        Unit::Not(inner) => {
            let inner = plan_unit(alloc, query, inner)?;
            negation(alloc, inner)
        }
        Unit::Enclosed(inner) => {
            let inner = plan_pred(alloc, query, inner)?;
            Ok(saber_plan::Unit::any(inner))
        }
        Unit::Compare(left, sign, right) => comparison(alloc, query, left, *sign, right),
    }
}

#[cycle(plan)]
fn plan_conj(alloc: Global, query: &Select, conj: &Conj) -> Result<saber_plan::Conj, NoMemory>
    requires { Small (query_of query.now) }
    ensures { IfOk result (λ b. t.both_of b ≡ plan_both (query_of query.now) (both_of conj.now)) }
{
    let mut list = Vec::new(alloc);
    let first = plan_unit(alloc, query, &conj.first)?;
    list.push(first)?;
    for unit in &conj.more {
        let next = plan_unit(alloc, query, unit)?;
        list.push(next)?;
    }
    Ok(saber_plan::Conj::from_vec(list))
}

#[cycle(plan)]
pub(crate) fn plan_pred(
    alloc: Global,
    query: &Select,
    pred: &Pred,
) -> Result<saber_plan::Pred, NoMemory>
    requires { Small (query_of query.now) }
    ensures { IfOk result (λ p. t.tests_of p ≡ plan_tests (query_of query.now)
        (tests_of pred.now)) }
{
    let mut list = Vec::new(alloc);
    let first = plan_conj(alloc, query, &pred.first)?;
    list.push(first)?;
    for conj in &pred.more {
        let next = plan_conj(alloc, query, conj)?;
        list.push(next)?;
    }
    Ok(saber_plan::Pred::from_vec(list))
}
