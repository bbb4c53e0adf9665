// The text of predicates.
ghost use Rattle.std.specs.Prelude.{◌≡◌, ◌++◌, ◌∷◌, [], OnOk, option_map};
ghost use Rattle.saber_query.specs.declared.token.Token.TheVariants.{Mark};
ghost use Rattle.saber_query.specs.Spelling.{spaced_text};
ghost use Rattle.saber_query.specs.Words as w;
ghost use Rattle.saber_query.specs.Trees.{test_of, both_of, tests_of};

use crate::expression::expr;
use crate::spell::{mark, word};
use saber_query::{Cmp, Conj, Expr, Keyword, Pred, Sign, Unit};
use std::alloc::{AllocError as NoMemory, Global};

#[tactic(auto, using(crate::proofs::SpellLemmas::joining))]
fn cmp(out: &mut Vec<u8>, cmp: Cmp) -> Result<(), NoMemory>
    ensures { OnOk result (out.new.items ≡ out.old.items ++ spaced_text (Mark (w.cmp_sign cmp) ∷ [])) }
{
    match cmp {
        Cmp::Equal => mark(out, Sign::Equal),
        Cmp::Unequal => mark(out, Sign::Unequal),
        Cmp::Less => mark(out, Sign::Less),
        Cmp::AtMost => mark(out, Sign::AtMost),
        Cmp::Greater => mark(out, Sign::Greater),
        Cmp::AtLeast => mark(out, Sign::AtLeast),
    }
}

#[tactic(auto, using(crate::proofs::SpellLemmas::joining))]
fn compared(
    alloc: Global,
    out: &mut Vec<u8>,
    left: &Expr,
    between: Cmp,
    right: &Expr,
) -> Result<(), NoMemory>
    ensures { OnOk result (out.new.items ≡ out.old.items ++ spaced_text
        (w.expr_words left.now ++ Mark (w.cmp_sign between) ∷ w.expr_words right.now)) }
{
    expr(alloc, out, left)?;
    cmp(out, between)?;
    expr(alloc, out, right)
}

#[cycle(pred)]
#[tactic(auto, using(crate::proofs::SpellLemmas::walking))]
fn unit(alloc: Global, out: &mut Vec<u8>, tree: &Unit) -> Result<(), NoMemory>
    ensures { OnOk result (out.new.items ≡ out.old.items ++ spaced_text (w.test_words (test_of tree.now))) }
{
    match tree {
        Unit::Not(inner) => {
            word(out, Keyword::Not)?;
            unit(alloc, out, inner)
        }
        Unit::Enclosed(inner) => {
            mark(out, Sign::Open)?;
            pred(alloc, out, inner)?;
            mark(out, Sign::Close)
        }
        Unit::Compare(left, between, right) => compared(alloc, out, left, *between, right),
    }
}

#[cycle(pred)]
#[tactic(auto, using(crate::proofs::SpellLemmas::walking))]
fn conj(alloc: Global, out: &mut Vec<u8>, tree: &Conj) -> Result<(), NoMemory>
    ensures { OnOk result (out.new.items ≡ out.old.items ++ spaced_text (w.both_words (both_of tree.now))) }
{
    unit(alloc, out, &tree.first)?;
    for next in &tree.more {
        word(out, Keyword::And)?;
        unit(alloc, out, next)?;
    }
    Ok(())
}

#[cycle(pred)]
#[tactic(auto, using(crate::proofs::SpellLemmas::walking))]
fn pred(alloc: Global, out: &mut Vec<u8>, tree: &Pred) -> Result<(), NoMemory>
    ensures { OnOk result (out.new.items ≡ out.old.items ++ spaced_text
        (w.tests_words (tests_of tree.now))) }
{
    conj(alloc, out, &tree.first)?;
    for next in &tree.more {
        word(out, Keyword::Or)?;
        conj(alloc, out, next)?;
    }
    Ok(())
}

#[tactic(auto, using(crate::proofs::SpellLemmas::joining))]
pub(crate) fn condition(
    alloc: Global,
    out: &mut Vec<u8>,
    condition: &Option<Pred>,
) -> Result<(), NoMemory>
    ensures { OnOk result (out.new.items ≡ out.old.items ++ spaced_text
        (w.where_words (option_map tests_of condition.now))) }
{
    if let Some(inner) = condition {
        word(out, Keyword::Where)?;
        pred(alloc, out, inner)?;
    }
    Ok(())
}
