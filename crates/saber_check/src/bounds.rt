// Expressions that no row makes overflow.
ghost use Rattle.std.specs.Prelude.{◌≡◌, ℕ, ◌+◌, ◌*◌, ◌^◌, ◌<◌, ◌≤◌, IfSome, Some, option_and_then};
ghost use Rattle.std.specs.Option.{option_map_or};
ghost use Rattle.saber_query.specs.declared.fault.Cause.TheVariants.{ExprTooWide};
ghost use Rattle.saber_query.specs.declared.tree.Term.{Term};
ghost use Rattle.saber_check.specs.Least.{at};
ghost use Rattle.saber_check.specs.Walked.{is_sum_wide, running_product, product_bound, product_faults, sum_faults, running_sum, expr_bound, prods};
ghost use Rattle.saber_check.specs.Widths.{factor_width, prod_width, term_width, expr_width, span, second_width, column_width};
ghost use Rattle.saber_check.specs.Bounds.{factor_bound, within, factors, products};

use saber_query::{Column, Expr, Factor, Prod, Term};

const LIMIT: u128 = 1 << 126;

fn within(bound: u128) -> Option<u128>
    ensures value { result ≡ within bound }
    ensures small { IfSome result (λ m. m ≤ 2 ^ 126) }
{
    if bound > LIMIT {
        return None;
    }
    Some(bound)
}

fn factor_bound(factor: &Factor) -> u128
    ensures value { result ≡ factor_bound factor.now }
{
    match factor {
        Factor::Column(_) => 1 << 63,
        Factor::Number(number) => u128::from(*number),
        Factor::Negative(number) => u128::from(*number),
    }
}

fn times(bound: u128, factor: &Factor) -> Option<u128>
    requires { bound ≤ 2 ^ 126 }
    ensures value { result ≡ within (bound * factor_bound factor.now) }
    ensures small { IfSome result (λ m. m ≤ 2 ^ 126) }
{
    match bound.checked_mul(factor_bound(factor)) {
        Some(next) => within(next),
        None => None,
    }
}

/// How many words a column has.
pub(crate) fn column_words(column: &Column) -> u64
    ensures { result ≡ column_width column.now }
{
    match &column.second {
        Some(_) => 3,
        None => 1,
    }
}

fn factor_words(factor: &Factor) -> u64
    ensures { result ≡ factor_width factor.now }
{
    match factor {
        Factor::Column(column) => column_words(column),
        Factor::Number(_) => 1,
        Factor::Negative(_) => 2,
    }
}

fn factors_words(factors: &[Factor]) -> u64
    requires { span factor_width factors.now ≤ 2 ^ 61 }
    ensures { result ≡ span factor_width factors.now }
{
    let mut words = 0;
    for factor in factors {
        words += 1 + factor_words(factor);
    }
    words
}

fn prod_words(prod: &Prod) -> u64
    requires { prod_width prod.now ≤ 2 ^ 61 }
    ensures { result ≡ prod_width prod.now }
{
    factor_words(&prod.first) + factors_words(prod.more.as_slice())
}

#[tactic(auto, unfolding(crate::specs::Walked::product_faults))]
fn factors_pass(first: u128, index: u64, factors: &[Factor]) -> Option<u64>
    requires first { first ≤ 2 ^ 126 }
    requires room { index + span factor_width factors.now ≤ 2 ^ 61 }
    ensures { at result ExprTooWide ≡ product_faults first index factors.now }
{
    let mut bound = first;
    let mut place = index;
    for factor in factors {
        match times(bound, factor) {
            Some(next) => bound = next,
            None => return Some(place),
        }
        place += factor_words(factor) + 1;
    }
    None
}

/// The place of the factor at which a running product passes the limit.
#[tactic(auto, unfolding(crate::specs::Walked::product_faults))]
pub(crate) fn product_passes(index: u64, prod: &Prod) -> Option<u64>
    requires { index + prod_width prod.now ≤ 2 ^ 60 }
    ensures { at result ExprTooWide ≡ product_faults 1 index (factors prod.now) }
{
    match times(1, &prod.first) {
        Some(next) => factors_pass(
            next,
            index + factor_words(&prod.first) + 1,
            prod.more.as_slice(),
        ),
        None => Some(index),
    }
}

#[tactic(auto, unfolding(crate::specs::Walked::running_product))]
fn factors_bound(first: u128, factors: &[Factor]) -> Option<u128>
    requires first { first ≤ 2 ^ 126 }
    ensures value { result ≡ running_product first factors.now }
    ensures small { IfSome result (λ m. m ≤ 2 ^ 126) }
{
    let mut bound = first;
    for factor in factors {
        match times(bound, factor) {
            Some(next) => bound = next,
            None => return None,
        }
    }
    Some(bound)
}

#[tactic(auto, unfolding(crate::specs::Walked::running_product))]
fn product_bound(prod: &Prod) -> Option<u128>
    ensures value { result ≡ product_bound prod.now }
    ensures small { IfSome result (λ m. m ≤ 2 ^ 126) }
{
    match times(1, &prod.first) {
        Some(next) => factors_bound(next, prod.more.as_slice()),
        None => None,
    }
}

// The running sum behind one more product.
fn plus(sum: u128, prod: &Prod) -> Option<u128>
    requires { sum ≤ 2 ^ 126 }
    ensures value { result ≡ option_map_or (λ b. within (sum + b)) (product_bound prod.now)
        (Some sum) }
    ensures small { IfSome result (λ m. m ≤ 2 ^ 126) }
{
    match product_bound(prod) {
        Some(bound) => within(sum + bound),
        None => Some(sum),
    }
}

#[tactic(auto, unfolding(crate::specs::Walked::sum_faults))]
fn terms_pass(first: u128, index: u64, terms: &[Term]) -> Option<u64>
    requires first { first ≤ 2 ^ 126 }
    requires room { index + span term_width terms.now ≤ 2 ^ 61 }
    ensures { at result ExprTooWide ≡ sum_faults first index (prods terms.now) }
{
    let mut sum = first;
    let mut place = index;
    for term in terms {
        match plus(sum, &term.prod) {
            Some(next) => sum = next,
            None => return Some(place),
        }
        place += prod_words(&term.prod) + 1;
    }
    None
}

/// The place of the product at which the running sum passes the limit.
#[tactic(auto, unfolding(crate::specs::Walked::sum_faults))]
pub(crate) fn sum_passes(index: u64, expr: &Expr) -> Option<u64>
    requires { index + expr_width expr.now ≤ 2 ^ 60 }
    ensures { at result ExprTooWide ≡ sum_faults 0 index (products expr.now) }
{
    match plus(0, &expr.first) {
        Some(next) => terms_pass(
            next,
            index + prod_words(&expr.first) + 1,
            expr.more.as_slice(),
        ),
        None => Some(index),
    }
}

// The running sum behind one more product, if neither is too wide.
fn joined(sum: u128, prod: &Prod) -> Option<u128>
    requires { sum ≤ 2 ^ 126 }
    ensures value { result ≡ option_and_then (λ b. within (sum + b)) (product_bound prod.now) }
    ensures small { IfSome result (λ m. m ≤ 2 ^ 126) }
{
    match product_bound(prod) {
        Some(bound) => within(sum + bound),
        None => None,
    }
}

#[tactic(auto, unfolding(crate::specs::Walked::running_sum))]
fn terms_bound(first: u128, terms: &[Term]) -> Option<u128>
    requires first { first ≤ 2 ^ 126 }
    ensures value { result ≡ running_sum first (prods terms.now) }
{
    let mut sum = first;
    for term in terms {
        match joined(sum, &term.prod) {
            Some(next) => sum = next,
            None => return None,
        }
    }
    Some(sum)
}

#[tactic(auto, unfolding(crate::specs::Walked::running_sum))]
fn expr_bound(expr: &Expr) -> Option<u128>
    ensures value { result ≡ expr_bound expr.now }
{
    match joined(0, &expr.first) {
        Some(next) => terms_bound(next, expr.more.as_slice()),
        None => None,
    }
}

/// Whether a SUM's argument isn't too wide by itself, and passes the limit of SUM.
pub(crate) fn is_sum_wide(expr: &Expr) -> bool
    ensures { result ≡ is_sum_wide expr.now }
{
    match expr_bound(expr) {
        Some(bound) => bound > 1 << 86,
        None => false,
    }
}
