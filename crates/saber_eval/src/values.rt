// The values of expressions, over the numbers of a left and a right row. One row has no numbers on
// the right.
ghost use Rattle.std.specs.Prelude.{◌≡◌, ◌≤◌, ◌+◌, ◌^◌, ◌*◌, nat_abs, IfSome, fold, ◌*ℤ◌, ◌+ℤ◌, pos};
ghost use Rattle.std.specs.List.{AllByRecursion};
ghost use Rattle.saber_plan.specs.Values.{column_of, factor_value, signed_value, product_value, value_at};
ghost use Rattle.saber_plan.specs.Bounds.{factor_bound, bound_after, ProductFits, sum_bound};
ghost use Rattle.saber_plan.specs.Checked.{HasColumn, ExprFits};
ghost use Rattle.saber_eval.specs.Widths.{widths};

use saber_plan::{Factor, Product, Side};

fn factor(f: &Factor, left: &[i64], right: &[i64]) -> i64
    requires { HasColumn (widths left.now right.now) f.now }
    ensures value { result ≡ factor_value (column_of left.now right.now) f.now }
    ensures bound { nat_abs result ≤ factor_bound f.now }
{
    match f {
        Factor::Column { side, index } => match side {
            Side::Left => left[*index as usize],
            Side::Right => right[*index as usize],
        },
        Factor::Constant(number) => *number,
    }
}

// Of 128 bits, since the bound leaves room.
fn times(so_far: i128, by: i64) -> i128
    requires { nat_abs so_far * nat_abs by ≤ 2 ^ 126 }
    ensures value { result ≡ so_far *ℤ by }
    ensures bound { nat_abs result ≤ nat_abs so_far * nat_abs by }
{
    so_far * by as i128
}

// Of two numbers of 64 bits, which takes one step of the machine.
fn both(first: i64, second: i64) -> i128
    ensures value { result ≡ first *ℤ second }
    ensures bound { nat_abs result ≤ nat_abs first * nat_abs second }
{
    i128::from(first) * i128::from(second)
}

// A product of one factor or two, as most are, or of more.
fn product(factors: &[Factor], left: &[i64], right: &[i64]) -> i128
    requires fits { ProductFits 1 factors.now }
    requires columns { AllByRecursion (HasColumn (widths left.now right.now)) factors.now }
    ensures value { result ≡ fold (λ z f. z *ℤ factor_value (column_of left.now right.now) f)
        (pos 1) factors.now }
    ensures bound { nat_abs result ≤ bound_after 1 factors.now }
{
    if factors.len() == 1 {
        return i128::from(factor(&factors[0], left, right));
    }
    if factors.len() == 2 {
        return both(
            factor(&factors[0], left, right),
            factor(&factors[1], left, right),
        );
    }
    let mut so_far = 1i128;
    for f in factors {
        so_far = times(so_far, factor(f, left, right));
    }
    so_far
}

fn with_sign(minus: bool, number: i128) -> i128
    requires { nat_abs number ≤ 2 ^ 126 }
    ensures value { result ≡ signed_value minus number }
    ensures bound { nat_abs result ≤ nat_abs number }
{
    if minus { -number } else { number }
}

fn plus(so_far: i128, more: i128) -> i128
    requires { nat_abs so_far + nat_abs more ≤ 2 ^ 126 }
    ensures value { result ≡ so_far +ℤ more }
    ensures bound { nat_abs result ≤ nat_abs so_far + nat_abs more }
{
    so_far + more
}

fn term(p: &Product, left: &[i64], right: &[i64]) -> i128
    requires fits { ProductFits 1 p.now.factors }
    requires room { bound_after 1 p.now.factors ≤ 2 ^ 126 }
    requires columns { AllByRecursion (HasColumn (widths left.now right.now)) p.now.factors }
    ensures value { result ≡ product_value (column_of left.now right.now) p.now }
    ensures bound { nat_abs result ≤ bound_after 1 p.now.factors }
{
    with_sign(p.minus, product(p.factors.as_slice(), left, right))
}

// The value of one column or constant alone, as most expressions are.
#[inline(always)]
pub(crate) fn single(products: &[Product], left: &[i64], right: &[i64]) -> Option<i64>
    requires { ExprFits (widths left.now right.now) products.now }
    ensures value { IfSome result (λ z. z ≡ value_at (column_of left.now right.now) products.now) }
    ensures bound { IfSome result (λ z. nat_abs z ≤ sum_bound 0 products.now) }
{
    if products.len() != 1 {
        return None;
    }
    if products[0].minus {
        return None;
    }
    let factors = products[0].factors.as_slice();
    if factors.len() != 1 {
        return None;
    }
    Some(factor(&factors[0], left, right))
}

// The value of an expression, one product after another.
#[inline(never)]
pub(crate) fn sum_all(products: &[Product], left: &[i64], right: &[i64]) -> i128
    requires { ExprFits (widths left.now right.now) products.now }
    ensures value { result ≡ value_at (column_of left.now right.now) products.now }
    ensures bound { nat_abs result ≤ sum_bound 0 products.now }
    ensures small { nat_abs result ≤ 2 ^ 126 }
{
    let mut so_far = 0i128;
    for p in products {
        so_far = plus(so_far, term(p, left, right));
    }
    so_far
}

// The value of an expression.
#[inline(always)]
pub(crate) fn sum(products: &[Product], left: &[i64], right: &[i64]) -> i128
    requires { ExprFits (widths left.now right.now) products.now }
    ensures value { result ≡ value_at (column_of left.now right.now) products.now }
    ensures bound { nat_abs result ≤ sum_bound 0 products.now }
    ensures small { nat_abs result ≤ 2 ^ 126 }
{
    match single(products, left, right) {
        Some(number) => i128::from(number),
        None => sum_all(products, left, right),
    }
}
