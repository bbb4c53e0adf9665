//! Values of expressions and truth of predicates, over one row or over a pair of rows.
//! Panes, partial answers, groups, joins and selections ask for them row by row.
//!
//! - Parts: `lib` (the calls), `values` (expressions), `predicates` (WHERE), `columns` (expressions
//!   that are one column alone).
//! - Calls: `value`, `holds` and `passes` take an expression, a predicate or a plan, and a row of
//!   the one stream, `value2`, `holds2` and `passes2` a left and a right row; they give a number of
//!   128 bits, or whether WHERE holds. `column_in` gives the column that an expression is.
//! - Proved: they are the definitions of `saber_plan/specs/Values.antt`, without an error and
//!   without memory. No value passes its expression's bound, nor `2^126`, and no step overflows.
//! - What they require, that each column is there and nothing overflows, the check of a query has
//!   made sure of: `proofs/FittingLaws.antt` hands it on to each row of a group query and of a
//!   selection, and to each pair of a join, in proofs above (`group_fits`, `selection_fits`,
//!   `pair_fits`).
//! - Limits: none of their own. Columns count from 0, and column 0 is the time.
#![tactic(auto)]

ghost use Rattle.std.specs.Prelude.{◌≡◌, ◌≤◌, ◌^◌, nat_abs, []};
ghost use Rattle.saber_plan.specs.Trees.{tests_of, tree_of};
ghost use Rattle.saber_plan.specs.Values as v;
ghost use Rattle.saber_plan.specs.Bounds.{sum_bound};
ghost use Rattle.saber_plan.specs.Checked.{ExprFits, PredicateFits, SomeFit};
ghost use Rattle.saber_eval.specs.Widths.{widths};

mod columns;
mod predicates;
mod values;

pub use columns::column_in;
use saber_flat::RowRef;
use saber_plan::{Expr, Plan, Pred};

/// The value of an expression over a row of a query's one stream: whole numbers, exact. Columns
/// count from 0, and column 0 is the timestamp. Without its sign it is at most the expression's
/// bound, which the check keeps at 2^126 (this project's rule), so 128 bits hold each step.
pub fn value(e: &Expr, row: &RowRef) -> i128
    requires { ExprFits (widths row.now.values []) e.now }
    ensures value { result ≡ v.value e.now row.now.values [] }
    ensures bound { nat_abs result ≤ sum_bound 0 e.now }
    ensures small { nat_abs result ≤ 2 ^ 126 }
{
    values::sum(e.as_slice(), row.values(), &[])
}

/// The same over a left and a right row, for a join of two streams. Each column names its side.
pub fn value2(e: &Expr, left: &RowRef, right: &RowRef) -> i128
    requires { ExprFits (widths left.now.values right.now.values) e.now }
    ensures value { result ≡ v.value e.now left.now.values right.now.values }
    ensures bound { nat_abs result ≤ sum_bound 0 e.now }
    ensures small { nat_abs result ≤ 2 ^ 126 }
{
    values::sum(e.as_slice(), left.values(), right.values())
}

/// Whether a row of a query's one stream passes the predicate of WHERE (the selection of CQL 2006,
/// over whole numbers): OR of AND of comparisons, each of which may be negated or stand in
/// parentheses.
pub fn holds(p: &Pred, row: &RowRef) -> bool
    requires { SomeFit (widths row.now.values []) (tests_of p.now) }
    ensures { result ≡ v.some_holds (v.column_of row.now.values []) (tests_of p.now) }
{
    predicates::predicate_holds(p, row.values(), &[])
}

/// The same for a pair of a left and a right row, as a join asks for it.
pub fn holds2(p: &Pred, left: &RowRef, right: &RowRef) -> bool
    requires { SomeFit (widths left.now.values right.now.values) (tests_of p.now) }
    ensures { result ≡ v.some_holds (v.column_of left.now.values right.now.values)
        (tests_of p.now) }
{
    predicates::predicate_holds(p, left.values(), right.values())
}

/// Whether a row of a query's one stream passes WHERE. Where the query has none, each row does.
#[inline(always)]
pub fn passes(plan: &Plan, row: &RowRef) -> bool
    requires { PredicateFits (widths row.now.values []) (tree_of plan.now).predicate }
    ensures { result ≡ v.passes (tree_of plan.now).predicate row.now.values [] }
{
    match plan.predicate() {
        Some(predicate) => holds(predicate, row),
        None => true,
    }
}

/// The same for a pair of a left and a right row.
#[inline(always)]
pub fn passes2(plan: &Plan, left: &RowRef, right: &RowRef) -> bool
    requires { PredicateFits (widths left.now.values right.now.values) (tree_of plan.now).predicate }
    ensures { result ≡ v.passes (tree_of plan.now).predicate left.now.values right.now.values }
{
    match plan.predicate() {
        Some(predicate) => holds2(predicate, left, right),
        None => true,
    }
}
