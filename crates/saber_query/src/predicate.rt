// Predicates from tokens.
ghost use Rattle.std.specs.Prelude.{◌≡◌, ◌≤◌, ◌∷◌, [], ℕ, IfOk, IfErr, map};
ghost use Rattle.saber_query.specs.declared.stop.Stop.TheVariants.{NoMemory};
ghost use Rattle.saber_query.specs.declared.token.Token.TheVariants.{Word, Mark};
ghost use Rattle.saber_query.specs.declared.token.Keyword.TheVariants.{Not};
ghost use Rattle.saber_query.specs.declared.token.Sign.TheVariants.{Open};
ghost use Rattle.saber_query.specs.declared.tree.Cmp.{Cmp};
ghost use Rattle.saber_query.specs.declared.tree.Unit.{Unit as Unit_tree};
ghost use Rattle.saber_query.specs.declared.tree.Conj.{Conj};
ghost use Rattle.saber_query.specs.declared.tree.Pred.{Pred};
ghost use Rattle.saber_query.specs.Machine as m;
ghost use Rattle.saber_query.specs.Words.{cmp_sign, test_words, tests_words, both_words, units_words, conjs_words};
ghost use Rattle.saber_query.specs.Trees.{test_of, both_of, tests_of, test_depth, both_depth, tests_depth, compare, negated, enclosed_by, both_by, tests_by, units_depth, conjs_depth};
ghost use Rattle.saber_query.specs.Reading.{coming_tokens, Parses, StartsWith};

use crate::cursor::Tokens;
use crate::expression::expr;
use crate::stop::Stop;
use crate::token::{Keyword, Sign};
use crate::tree::{Cmp, Conj, Expr, Pred, Unit};
use std::alloc::Global;

fn comparison(tokens: &mut Tokens) -> Result<Cmp, Stop>
    ensures { Parses (m.comparison ∷ []) (λ (c : Cmp). Mark (cmp_sign c) ∷ []) result
        (coming_tokens tokens.old) (coming_tokens tokens.new) }
{
    match tokens.take_cmp() {
        Some(cmp) => Ok(cmp),
        None => Err(Stop::Syntax),
    }
}

fn compared(left: Expr, cmp: Cmp, right: Expr) -> Unit
    ensures { test_of result ≡ compare left cmp right }
{
    Unit::Compare(left, cmp, right)
}

fn negated(alloc: Global, inner: Unit) -> Result<Unit, Stop>
    ensures ok { IfOk result (λ u. test_of u ≡ negated (test_of inner)) }
    ensures err { IfErr result (λ e. e ≡ NoMemory) }
{
    Ok(Unit::Not(Box::new(alloc, inner)?))
}

fn enclosed(alloc: Global, inner: Pred) -> Result<Unit, Stop>
    ensures ok { IfOk result (λ u. test_of u ≡ enclosed_by (tests_of inner)) }
    ensures err { IfErr result (λ e. e ≡ NoMemory) }
{
    Ok(Unit::Enclosed(Box::new(alloc, inner)?))
}

fn joined(first: Unit, more: Vec<Unit>) -> Conj
    ensures { both_of result ≡ both_by (test_of first) (map test_of more.items) }
{
    Conj { first, more }
}

fn chosen(first: Conj, more: Vec<Conj>) -> Pred
    ensures { tests_of result ≡ tests_by (both_of first) (map both_of more.items) }
{
    Pred { first, more }
}

// A comparison: a unit that doesn't begin with NOT or a parenthesis.
fn compare(alloc: Global, tokens: &mut Tokens) -> Result<Unit, Stop>
    requires not { ¬ (StartsWith (Word Not) (coming_tokens tokens.old)) }
    requires open { ¬ (StartsWith (Mark Open) (coming_tokens tokens.old)) }
    ensures parses { (d : ℕ) → Parses (m.unit d ∷ []) (λ (u : Unit_tree). test_words (test_of u)) result
        (coming_tokens tokens.old) (coming_tokens tokens.new) }
    ensures depth { IfOk result (λ u. test_depth (test_of u) ≡ 0) }
{
    let left = expr(alloc, tokens)?;
    let cmp = match comparison(tokens) {
        Ok(cmp) => cmp,
        Err(stop) => {
            left.let_go();
            return Err(stop);
        }
    };
    match expr(alloc, tokens) {
        Ok(right) => Ok(compared(left, cmp, right)),
        Err(stop) => {
            left.let_go();
            Err(stop)
        }
    }
}

// A unit where nothing more may be opened.
fn shallow(alloc: Global, tokens: &mut Tokens) -> Result<Unit, Stop>
    ensures parses { Parses (m.unit 0 ∷ []) (λ (u : Unit_tree). test_words (test_of u)) result
        (coming_tokens tokens.old) (coming_tokens tokens.new) }
    ensures depth { IfOk result (λ u. test_depth (test_of u) ≡ 0) }
{
    if tokens.at_word(Keyword::Not) {
        return Err(Stop::Depth);
    }
    if tokens.at_mark(Sign::Open) {
        return Err(Stop::Depth);
    }
    compare(alloc, tokens)
}

#[cycle(parser)]
fn unit(alloc: Global, tokens: &mut Tokens, left: u32) -> Result<Unit, Stop>
    ensures parses { Parses (m.unit left ∷ []) (λ (u : Unit_tree). test_words (test_of u)) result
        (coming_tokens tokens.old) (coming_tokens tokens.new) }
    ensures depth { IfOk result (λ u. test_depth (test_of u) ≤ left) }
{
    if left == 0 {
        return shallow(alloc, tokens);
    }
    if tokens.take_word(Keyword::Not) {
        let inner = unit(alloc, tokens, left - 1)?;
        return negated(alloc, inner);
    }
    if tokens.take_mark(Sign::Open) {
        let inner = pred(alloc, tokens, left - 1)?;
        return match tokens.expect_mark(Sign::Close) {
            Ok(()) => enclosed(alloc, inner),
            Err(stop) => {
                inner.let_go();
                Err(stop)
            }
        };
    }
    compare(alloc, tokens)
}

#[cycle(parser)]
fn units(alloc: Global, tokens: &mut Tokens, left: u32) -> Result<Vec<Unit>, Stop>
    ensures parses { Parses (m.more_ands left ∷ []) units_words result (coming_tokens tokens.old)
        (coming_tokens tokens.new) }
    ensures depth { IfOk result (λ us. units_depth us ≤ left) }
{
    let mut more = Vec::new(alloc);
    while tokens.take_word(Keyword::And) {
        more.push(unit(alloc, tokens, left)?)?;
    }
    Ok(more)
}

#[cycle(parser)]
fn conj(alloc: Global, tokens: &mut Tokens, left: u32) -> Result<Conj, Stop>
    ensures parses { Parses (m.unit left ∷ m.more_ands left ∷ []) (λ (c : Conj). both_words (both_of c))
        result (coming_tokens tokens.old) (coming_tokens tokens.new) }
    ensures depth { IfOk result (λ c. both_depth (both_of c) ≤ left) }
{
    let first = unit(alloc, tokens, left)?;
    match units(alloc, tokens, left) {
        Ok(more) => Ok(joined(first, more)),
        Err(stop) => {
            first.let_go();
            Err(stop)
        }
    }
}

#[cycle(parser)]
fn conjs(alloc: Global, tokens: &mut Tokens, left: u32) -> Result<Vec<Conj>, Stop>
    ensures parses { Parses (m.more_ors left ∷ []) conjs_words result (coming_tokens tokens.old) (coming_tokens tokens.new) }
    ensures depth { IfOk result (λ cs. conjs_depth cs ≤ left) }
{
    let mut more = Vec::new(alloc);
    while tokens.take_word(Keyword::Or) {
        more.push(conj(alloc, tokens, left)?)?;
    }
    Ok(more)
}

#[cycle(parser)]
pub(crate) fn pred(alloc: Global, tokens: &mut Tokens, left: u32) -> Result<Pred, Stop>
    ensures parses { Parses (m.unit left ∷ m.more_ands left ∷ m.more_ors left ∷ [])
        (λ (p : Pred). tests_words (tests_of p)) result (coming_tokens tokens.old)
        (coming_tokens tokens.new) }
    ensures depth { IfOk result (λ p. tests_depth (tests_of p) ≤ left) }
{
    let first = conj(alloc, tokens, left)?;
    match conjs(alloc, tokens, left) {
        Ok(more) => Ok(chosen(first, more)),
        Err(stop) => {
            first.let_go();
            Err(stop)
        }
    }
}
