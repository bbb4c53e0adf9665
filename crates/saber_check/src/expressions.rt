// The plans of expressions.
ghost use Rattle.std.specs.Prelude.{◌≡◌, ◌+◌, ◌≤◌, ◌^◌, ◌∷◌, ◌++◌, [], map, length, IfOk, OnOk, pos, neg_ℤ, min, ◌-◌};
ghost use Rattle.saber_query.specs.Trees.{query_of};
ghost use Rattle.saber_check.specs.Widths.{decl_width, span};
ghost use Rattle.saber_check.specs.Names.{decls, names};
ghost use Rattle.saber_check.specs.Faults.{own_name};
ghost use Rattle.saber_check.specs.Bounds.{factors};
ghost use Rattle.saber_check.specs.Plans.{place_in, place, columns, is_left, second_name, plan_place, plan_side, plan_factor, plan_product, is_minus, plan_term, plan_expr, Small};

use crate::names::in_first;
use crate::shape::own_name;
use saber_plan::{Factors, NoMemory, Product, Side};
use saber_query::{Adding, Column, Decl, Expr, Factor, Name, Prod, Select};
use std::alloc::Global;

fn place_in_more(name: &Name, names: &[Name]) -> u32
    requires { length names.now ≤ 2 ^ 30 }
    ensures value { result ≡ place_in name.now names.now }
    ensures small { result ≤ length names.now }
{
    let mut place = 0;
    for other in names {
        if other.is(name) {
            return place;
        }
        place += 1;
    }
    place
}

fn place_in(name: &Name, decl: &Decl) -> u32
    requires { decl_width decl.now ≤ 2 ^ 30 }
    ensures { result ≡ place_in name.now (names decl.now) }
{
    if decl.first.is(name) {
        return 0;
    }
    place_in_more(name, decl.more.as_slice()) + 1
}

fn place_among(decls: &[Decl], stream: &Name, name: &Name) -> u32
    requires { span decl_width decls.now ≤ 2 ^ 30 }
    ensures { result ≡ place decls.now stream.now name.now }
{
    for decl in decls {
        if decl.name.is(stream) {
            return place_in(name, decl);
        }
    }
    0
}

fn place(query: &Select, stream: &Name, name: &Name) -> u32
    requires { Small (query_of query.now) }
    ensures { result ≡ place (decls (query_of query.now)) stream.now name.now }
{
    if query.decl.name.is(stream) {
        return place_in(name, &query.decl);
    }
    place_among(query.decls.as_slice(), stream, name)
}

fn is_left(query: &Select, column: &Column) -> bool
    ensures { result ≡ is_left (query_of query.now) column.now }
{
    match &column.second {
        Some(_) => query.from.name.is(&column.first),
        None => in_first(query, &column.first),
    }
}

fn second_name(query: &Select) -> &Name
    ensures { result.now ≡ second_name (query_of query.now) }
{
    match &query.second {
        Some(source) => &source.name,
        None => &query.from.name,
    }
}

/// The place of a column in its stream.
pub(crate) fn plan_place(query: &Select, column: &Column) -> u32
    requires { Small (query_of query.now) }
    ensures { result ≡ plan_place (query_of query.now) column.now }
{
    if is_left(query, column) {
        return place(query, &query.from.name, own_name(column));
    }
    place(query, second_name(query), own_name(column))
}

fn plan_side(query: &Select, column: &Column) -> Side
    ensures { result ≡ plan_side (query_of query.now) column.now }
{
    if is_left(query, column) {
        Side::Left
    } else {
        Side::Right
    }
}

fn number(value: u64) -> i64
    ensures { result ≡ pos (min value (2 ^ 63 - 1)) }
{
    if value < 1 << 63 {
        value as i64
    } else {
        i64::MAX
    }
}

fn negative(value: u64) -> i64
    ensures { result ≡ neg_ℤ (pos (min value (2 ^ 63))) }
{
    if value < 1 << 63 {
        -(value as i64)
    } else {
        i64::MIN
    }
}

fn factor(query: &Select, factor: &Factor) -> saber_plan::Factor
    requires { Small (query_of query.now) }
    ensures { result ≡ plan_factor (query_of query.now) factor.now }
{
    match factor {
        Factor::Column(column) => saber_plan::Factor::Column {
            side: plan_side(query, column),
            index: plan_place(query, column),
        },
        Factor::Number(value) => saber_plan::Factor::Constant(number(*value)),
        Factor::Negative(value) => saber_plan::Factor::Constant(negative(*value)),
    }
}

fn product(alloc: Global, query: &Select, minus: bool, prod: &Prod) -> Result<Product, NoMemory>
    requires { Small (query_of query.now) }
    ensures { IfOk result (λ p. p ≡ plan_product (query_of query.now) minus prod.now) }
{
    let mut list = Vec::new(alloc);
    list.push(factor(query, &prod.first))?;
    let factors = prod.more.as_slice();
    for next in factors {
        list.push(factor(query, next))?;
    }
    Ok(Product {
        minus,
        factors: Factors::from_vec(list),
    })
}

fn is_minus(adding: Adding) -> bool
    ensures { result ≡ is_minus adding }
{
    match adding {
        Adding::Plus => false,
        Adding::Minus => true,
    }
}

// One product more.
fn put_product(
    list: &mut Vec<Product>,
    alloc: Global,
    query: &Select,
    minus: bool,
    prod: &Prod,
) -> Result<(), NoMemory>
    requires { Small (query_of query.now) }
    ensures { OnOk result (list.new.items ≡ list.old.items ++ plan_product (query_of query.now) minus prod.now ∷ []) }
{
    list.push(product(alloc, query, minus, prod)?)?;
    Ok(())
}

pub(crate) fn expr(alloc: Global, query: &Select, expr: &Expr) -> Result<saber_plan::Expr, NoMemory>
    requires { Small (query_of query.now) }
    ensures { IfOk result (λ e. e ≡ plan_expr (query_of query.now) expr.now) }
{
    let mut list = Vec::new(alloc);
    put_product(&mut list, alloc, query, false, &expr.first)?;
    let terms = expr.more.as_slice();
    for term in terms {
        put_product(&mut list, alloc, query, is_minus(term.adding), &term.prod)?;
    }
    Ok(saber_plan::Expr::from_vec(list))
}
