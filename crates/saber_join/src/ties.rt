// What the two rows of each pair that passes WHERE have in common.
ghost use Rattle.std.specs.Prelude.{◌≡◌, true, map, IfSome, Some};
ghost use Rattle.std.specs.List.{AllByRecursion};
ghost use Rattle.saber_plan.specs.declared.rows.Side.TheVariants as sides;
ghost use Rattle.saber_plan.specs.declared.predicates.Cmp.TheVariants as cmps;
ghost use Rattle.saber_plan.specs.Trees.{test_of, tests_of, joined_tests, compare};
ghost use Rattle.saber_plan.specs.Values.{value};
ghost use Rattle.saber_plan.specs.Checked.{ExprFits};
ghost use Rattle.saber_eval.specs.Widths.{widths};
ghost use Rattle.saber_join.specs.Ties.{IsOf, Over, IsColumn, TiesTest, TiesAll, TiesPairs, narrow};

use saber_eval::{column_in, value2};
use saber_flat::RowRef;
use saber_plan::{Cmp, Expr, Factor, Pred, Side, Unit};
use std::marker::Model;

/// An expression over the rows of one side, and the number of its column, where it is one column
/// alone: as most are, so that a row costs no walk through it. Contracts see it as the expression.
#[derive(Drop)]
pub(crate) struct End<'a> {
    expr: &'a Expr,
    column: Option<usize>,
}

impl<'a> Model for End<'a> {
    ghost use Rattle.std.specs.Prelude.{List, IfSome};
    ghost use Rattle.saber_plan.specs.declared.expressions.Product.{Product};
    ghost use Rattle.saber_join.specs.Ties.{IsColumn};

    ghost Value = { List Product };

    ghost view = { λ e. e.expr.now };

    ghost invariant = { λ e. IfSome e.column (λ k. IsColumn k e.expr.now) };
}

// The number of the column that an expression is alone.
fn column_number(e: &Expr) -> Option<usize>
    ensures { IfSome result (λ k. IsColumn k e.now) }
{
    match column_in(e) {
        Some(column) => Some(column.1 as usize),
        None => None,
    }
}

fn end_of(expr: &Expr) -> End<'_>
    ensures { result ≡ expr.now }
{
    End {
        expr,
        column: column_number(expr),
    }
}

// A number by which equal values are found, in half the bits: 0 for those that don't fit.
fn narrow(value: i128) -> i64
    ensures { result ≡ narrow value }
{
    if value < i128::from(i64::MIN) || value > i128::from(i64::MAX) {
        return 0;
    }
    value as i64
}

impl End<'_> {
    /// Its value over a row, in half the bits.
    #[inline(always)]
    pub(crate) fn key(&self, row: &RowRef) -> i64
        requires { ExprFits (widths row.now.values row.now.values) self.now }
        ensures { result ≡ narrow (value self.now row.now.values row.now.values) }
    {
        match self.column {
            Some(k) => narrow(i128::from(row.values()[k])),
            None => narrow(value2(self.expr, row, &row.again())),
        }
    }
}

/// An expression over left rows and one over right rows, which are equal in each pair that passes
/// WHERE. So only rows with equal values of them need be paired.
#[derive(Drop)]
pub(crate) struct Tie<'a> {
    pub(crate) left: End<'a>,
    pub(crate) right: End<'a>,
}

impl<'a> Model for Tie<'a> {
    ghost use Rattle.saber_join.specs.Ties.{Ends};

    ghost Value = { Ends };

    ghost view = { λ t. record { left = t.left; right = t.right } };
}

// Whether it is no column of the other side.
fn is_of(factor: &Factor, side: Side) -> bool
    ensures { result ≡ true → IsOf side factor.now }
{
    match factor {
        Factor::Column { side: own, .. } => *own == side,
        Factor::Constant(_) => true,
    }
}

fn are_of(factors: &[Factor], side: Side) -> bool
    ensures { result ≡ true → AllByRecursion (IsOf side) factors.now }
{
    for factor in factors {
        if !is_of(factor, side) {
            return false;
        }
    }
    true
}

// Whether all columns are of this side.
fn is_over(e: &Expr, side: Side) -> bool
    ensures { result ≡ true → Over side e.now }
{
    for product in e.as_slice() {
        if !are_of(product.factors.as_slice(), side) {
            return false;
        }
    }
    true
}

// Whether it is over left rows alone. An expression without columns is over both sides, and would
// tie no row to another.
fn is_left(e: &Expr) -> bool
    ensures { result ≡ true → Over sides.Left e.now }
{
    is_over(e, Side::Left) && !is_over(e, Side::Right)
}

fn is_right(e: &Expr) -> bool
    ensures { result ≡ true → Over sides.Right e.now }
{
    is_over(e, Side::Right) && !is_over(e, Side::Left)
}

// What the equality of two expressions ties.
fn tied<'a>(x: &'a Expr, y: &'a Expr) -> Option<Tie<'a>>
    ensures { IfSome result (λ t. TiesTest (compare x.now cmps.Equal y.now) t) }
{
    if is_left(x) && is_right(y) {
        return Some(Tie {
            left: end_of(x),
            right: end_of(y),
        });
    }
    if is_left(y) && is_right(x) {
        return Some(Tie {
            left: end_of(y),
            right: end_of(x),
        });
    }
    None
}

// What a unit ties.
fn tie_by(unit: &Unit) -> Option<Tie<'_>>
    ensures { IfSome result (λ t. TiesTest (test_of unit.now) t) }
{
    match unit {
        Unit::Compare(x, cmp, y) => match cmp {
            Cmp::Equal => tied(x, y),
            Cmp::Unequal | Cmp::Less | Cmp::AtMost | Cmp::Greater | Cmp::AtLeast => None,
        },
        Unit::Not(_) | Unit::Any(_) => None,
    }
}

// What the first of these units that ties anything ties.
fn tie_among(units: &[Unit]) -> Option<Tie<'_>>
    ensures { IfSome result (λ t. TiesAll (joined_tests (map test_of units.now)) t) }
{
    for unit in units {
        if let Some(tie) = tie_by(unit) {
            return Some(tie);
        }
    }
    None
}

/// What WHERE ties, where it is one list of units joined by AND.
pub(crate) fn tie_in(pred: &Pred) -> Option<Tie<'_>>
    ensures { IfSome result (λ t. TiesPairs (Some (tests_of pred.now)) t) }
{
    let conjs = pred.as_slice();
    if conjs.len() != 1 {
        return None;
    }
    tie_among(conjs[0].as_slice())
}
