// The truth of predicates, over the numbers of a left and a right row. A walk stops where the rest
// can't change the answer, like Rust's `&&` and `||`.
ghost use Rattle.std.specs.Prelude.{◌≡◌, IfSome};
ghost use Rattle.saber_plan.specs.Trees.{test_of, both_of, tests_of, either, both, no_more, no_other};
ghost use Rattle.saber_plan.specs.Values.{column_of, value_at, compares};
ghost use Rattle.saber_plan.specs.Values.{test_holds, all_hold, some_holds};
ghost use Rattle.saber_plan.specs.Checked.{ExprFits, TestFits, AllFit, SomeFit};
ghost use Rattle.saber_eval.specs.Widths.{widths};

use crate::values::{single, sum_all};
use saber_plan::{Cmp, Conj, Expr, Pred, Unit};

#[inline(always)]
fn compares(cmp: Cmp, left: i128, right: i128) -> bool
    ensures { result ≡ compares cmp left right }
{
    match cmp {
        Cmp::Equal => left == right,
        Cmp::Unequal => left != right,
        Cmp::Less => left < right,
        Cmp::AtMost => left <= right,
        Cmp::Greater => left > right,
        Cmp::AtLeast => left >= right,
    }
}

// The comparison of two expressions, if each is a column or a number alone, as most are.
#[inline(always)]
fn singles_compared(x: &Expr, cmp: Cmp, y: &Expr, left: &[i64], right: &[i64]) -> Option<bool>
    requires first { ExprFits (widths left.now right.now) x.now }
    requires second { ExprFits (widths left.now right.now) y.now }
    ensures { IfSome result (λ b. b ≡ compares cmp (value_at (column_of left.now right.now) x.now)
        (value_at (column_of left.now right.now) y.now)) }
{
    if let Some(first) = single(x.as_slice(), left, right) {
        if let Some(second) = single(y.as_slice(), left, right) {
            return Some(compares(cmp, i128::from(first), i128::from(second)));
        }
    }
    None
}

// The comparison of any two.
fn compared(x: &Expr, cmp: Cmp, y: &Expr, left: &[i64], right: &[i64]) -> bool
    requires first { ExprFits (widths left.now right.now) x.now }
    requires second { ExprFits (widths left.now right.now) y.now }
    ensures { result ≡ compares cmp (value_at (column_of left.now right.now) x.now)
        (value_at (column_of left.now right.now) y.now) }
{
    if let Some(holds) = singles_compared(x, cmp, y, left, right) {
        return holds;
    }
    compares(
        cmp,
        sum_all(x.as_slice(), left, right),
        sum_all(y.as_slice(), left, right),
    )
}

#[cycle(pred)]
fn test_holds(u: &Unit, left: &[i64], right: &[i64]) -> bool
    requires { TestFits (widths left.now right.now) (test_of u.now) }
    ensures { result ≡ test_holds (column_of left.now right.now) (test_of u.now) }
{
    match u {
        Unit::Not(inner) => !test_holds(inner, left, right),
        Unit::Any(inner) => some_hold(inner, left, right),
        Unit::Compare(x, cmp, y) => compared(x, *cmp, y, left, right),
    }
}

#[cycle(pred)]
fn all_hold(c: &Conj, left: &[i64], right: &[i64]) -> bool
    requires { AllFit (widths left.now right.now) (both_of c.now) }
    ensures { result ≡ all_hold (column_of left.now right.now) (both_of c.now) }
{
    for u in c.as_slice() {
        if !test_holds(u, left, right) {
            return false;
        }
    }
    true
}

// Kept out of line, so that what needs no walk saves no registers for it.
#[cycle(pred)]
#[inline(never)]
fn some_hold(p: &Pred, left: &[i64], right: &[i64]) -> bool
    requires { SomeFit (widths left.now right.now) (tests_of p.now) }
    ensures { result ≡ some_holds (column_of left.now right.now) (tests_of p.now) }
{
    for c in p.as_slice() {
        if all_hold(c, left, right) {
            return true;
        }
    }
    false
}

// The one unit of a predicate that has no more, as most have.
#[inline(always)]
fn only_unit(p: &Pred) -> Option<&Unit>
    ensures { IfSome result (λ u. tests_of p.now ≡ either (both (test_of u.now) no_more) no_other) }
{
    let all = p.as_slice();
    if all.len() != 1 {
        return None;
    }
    let units = all[0].as_slice();
    if units.len() != 1 {
        return None;
    }
    Some(&units[0])
}

// Whether a predicate holds. One comparison alone, of a column with a number, needs no walk.
#[inline]
pub(crate) fn predicate_holds(p: &Pred, left: &[i64], right: &[i64]) -> bool
    requires { SomeFit (widths left.now right.now) (tests_of p.now) }
    ensures { result ≡ some_holds (column_of left.now right.now) (tests_of p.now) }
{
    if let Some(u) = only_unit(p) {
        if let Unit::Compare(x, cmp, y) = u {
            if let Some(holds) = singles_compared(x, *cmp, y, left, right) {
                return holds;
            }
        }
    }
    some_hold(p, left, right)
}
