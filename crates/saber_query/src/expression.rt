// Names, numbers and expressions from tokens.
ghost use Rattle.std.specs.Prelude.{◌≡◌, ◌∷◌, [], List, ℕ};
ghost use Rattle.saber_query.specs.declared.token.Token.TheVariants.{Named, Number};
ghost use Rattle.saber_query.specs.Machine as m;
ghost use Rattle.saber_query.specs.Words.{second_words, factor_words, factors_words, prod_words, terms_words, expr_words};
ghost use Rattle.saber_query.specs.Reading.{coming_tokens, Parses};

use crate::cursor::Tokens;
use crate::stop::Stop;
use crate::token::{Name, Sign};
use crate::tree::{Column, Expr, Factor, Factors, Prod, Term, Terms};
use std::alloc::Global;

pub(crate) fn name(tokens: &mut Tokens) -> Result<Name, Stop>
    ensures { Parses (m.a_name ∷ []) (λ (n : List ℕ). Named n ∷ []) result (coming_tokens tokens.old)
        (coming_tokens tokens.new) }
{
    match tokens.take_name() {
        Some(name) => Ok(name),
        None => Err(Stop::Syntax),
    }
}

pub(crate) fn number(tokens: &mut Tokens) -> Result<u64, Stop>
    ensures { Parses (m.a_number ∷ []) (λ (n : ℕ). Number n ∷ []) result (coming_tokens tokens.old)
        (coming_tokens tokens.new) }
{
    match tokens.take_number() {
        Some(number) => Ok(number),
        None => Err(Stop::Syntax),
    }
}

pub(crate) fn second_name(tokens: &mut Tokens) -> Result<Option<Name>, Stop>
    ensures { Parses (m.more_column ∷ []) second_words result (coming_tokens tokens.old) (coming_tokens tokens.new) }
{
    if !tokens.take_mark(Sign::Dot) {
        return Ok(None);
    }
    Ok(Some(name(tokens)?))
}

fn factor(tokens: &mut Tokens) -> Result<Factor, Stop>
    ensures { Parses (m.factor ∷ []) factor_words result (coming_tokens tokens.old) (coming_tokens tokens.new) }
{
    if let Some(first) = tokens.take_name() {
        return match second_name(tokens) {
            Ok(second) => Ok(Factor::Column(Column { first, second })),
            Err(stop) => {
                first.let_go();
                Err(stop)
            }
        };
    }
    if let Some(value) = tokens.take_number() {
        return Ok(Factor::Number(value));
    }
    if tokens.take_mark(Sign::Minus) {
        return Ok(Factor::Negative(number(tokens)?));
    }
    Err(Stop::Syntax)
}

fn factors(alloc: Global, tokens: &mut Tokens) -> Result<Factors, Stop>
    ensures { Parses (m.more_factors ∷ []) factors_words result (coming_tokens tokens.old)
        (coming_tokens tokens.new) }
{
    let mut items = Vec::new(alloc);
    while tokens.take_mark(Sign::Star) {
        items.push(factor(tokens)?)?;
    }
    Ok(Factors::from_vec(items))
}

fn prod(alloc: Global, tokens: &mut Tokens) -> Result<Prod, Stop>
    ensures { Parses (m.factor ∷ m.more_factors ∷ []) prod_words result (coming_tokens tokens.old)
        (coming_tokens tokens.new) }
{
    let first = factor(tokens)?;
    match factors(alloc, tokens) {
        Ok(more) => Ok(Prod { first, more }),
        Err(stop) => {
            first.let_go();
            Err(stop)
        }
    }
}

fn terms(alloc: Global, tokens: &mut Tokens) -> Result<Terms, Stop>
    ensures { Parses (m.more_terms ∷ []) terms_words result (coming_tokens tokens.old) (coming_tokens tokens.new) }
{
    let mut items = Vec::new(alloc);
    while let Some(adding) = tokens.take_adding() {
        let prod = prod(alloc, tokens)?;
        items.push(Term { adding, prod })?;
    }
    Ok(Terms::from_vec(items))
}

pub(crate) fn expr(alloc: Global, tokens: &mut Tokens) -> Result<Expr, Stop>
    ensures { Parses (m.factor ∷ m.more_factors ∷ m.more_terms ∷ []) expr_words result
        (coming_tokens tokens.old) (coming_tokens tokens.new) }
{
    let first = prod(alloc, tokens)?;
    match terms(alloc, tokens) {
        Ok(more) => Ok(Expr { first, more }),
        Err(stop) => {
            first.let_go();
            Err(stop)
        }
    }
}
