// The text of expressions.
ghost use Rattle.std.specs.Prelude.{◌≡◌, ◌++◌, ◌∷◌, [], OnOk};
ghost use Rattle.saber_query.specs.declared.token.Token.TheVariants.{Mark};
ghost use Rattle.saber_query.specs.Spelling.{spaced_text};
ghost use Rattle.saber_query.specs.Words as w;

use crate::spell::{mark, name, number};
use saber_query::{Adding, Column, Expr, Factor, Prod, Sign, Term};
use std::alloc::{AllocError as NoMemory, Global};

#[tactic(auto, using(crate::proofs::SpellLemmas::joining))]
pub(crate) fn column(out: &mut Vec<u8>, column: &Column) -> Result<(), NoMemory>
    ensures { OnOk result (out.new.items ≡ out.old.items ++ spaced_text (w.column_words column.now)) }
{
    name(out, &column.first)?;
    if let Some(second) = &column.second {
        mark(out, Sign::Dot)?;
        name(out, second)?;
    }
    Ok(())
}

#[tactic(auto, using(crate::proofs::SpellLemmas::joining))]
fn factor(alloc: Global, out: &mut Vec<u8>, factor: &Factor) -> Result<(), NoMemory>
    ensures { OnOk result (out.new.items ≡ out.old.items ++ spaced_text (w.factor_words factor.now)) }
{
    match factor {
        Factor::Column(inner) => column(out, inner),
        Factor::Number(value) => number(alloc, out, *value),
        Factor::Negative(value) => {
            mark(out, Sign::Minus)?;
            number(alloc, out, *value)
        }
    }
}

#[tactic(auto, using(crate::proofs::SpellLemmas::joining))]
fn factors(alloc: Global, out: &mut Vec<u8>, others: &[Factor]) -> Result<(), NoMemory>
    ensures { OnOk result (out.new.items ≡ out.old.items ++ spaced_text (w.factors_words others.now)) }
{
    for other in others {
        mark(out, Sign::Star)?;
        factor(alloc, out, other)?;
    }
    Ok(())
}

#[tactic(auto, using(crate::proofs::SpellLemmas::joining))]
fn prod(alloc: Global, out: &mut Vec<u8>, prod: &Prod) -> Result<(), NoMemory>
    ensures { OnOk result (out.new.items ≡ out.old.items ++ spaced_text (w.prod_words prod.now)) }
{
    factor(alloc, out, &prod.first)?;
    factors(alloc, out, prod.more.as_slice())
}

#[tactic(auto, using(crate::proofs::SpellLemmas::joining))]
fn adding(out: &mut Vec<u8>, adding: Adding) -> Result<(), NoMemory>
    ensures { OnOk result (out.new.items ≡ out.old.items ++ spaced_text (Mark (w.adding_sign adding) ∷ [])) }
{
    match adding {
        Adding::Plus => mark(out, Sign::Plus),
        Adding::Minus => mark(out, Sign::Minus),
    }
}

#[tactic(auto, using(crate::proofs::SpellLemmas::joining))]
fn terms(alloc: Global, out: &mut Vec<u8>, terms: &[Term]) -> Result<(), NoMemory>
    ensures { OnOk result (out.new.items ≡ out.old.items ++ spaced_text (w.terms_words terms.now)) }
{
    for term in terms {
        adding(out, term.adding)?;
        prod(alloc, out, &term.prod)?;
    }
    Ok(())
}

#[tactic(auto, using(crate::proofs::SpellLemmas::joining))]
pub(crate) fn expr(alloc: Global, out: &mut Vec<u8>, expr: &Expr) -> Result<(), NoMemory>
    ensures { OnOk result (out.new.items ≡ out.old.items ++ spaced_text (w.expr_words expr.now)) }
{
    prod(alloc, out, &expr.first)?;
    terms(alloc, out, expr.more.as_slice())
}
