// Queries as texts.
ghost use Rattle.std.specs.Prelude.{◌≡◌, ◌++◌, OnOk, IfOk, option_map};
ghost use Rattle.saber_query.specs.Spelling.{spaced_text, spelled_text, HasTokens};
ghost use Rattle.saber_show.specs.Rest.{chosen_words, body_words, rest_words};
ghost use Rattle.saber_query.specs.Words as w;
ghost use Rattle.saber_query.specs.Trees.{query_of, tests_of};

use crate::declaration::{declared, decls};
use crate::predicate::condition;
use crate::select::{group, item, items, opened, second, shut, source};
use crate::spell::{mark, word};
use saber_query::{Keyword, Query, Select, Sign};
use std::alloc::{AllocError as NoMemory, Global};

#[tactic(auto, using(crate::proofs::SpellLemmas::joining))]
fn outputs(alloc: Global, out: &mut Vec<u8>, select: &Select) -> Result<(), NoMemory>
    ensures { OnOk result (out.new.items ≡ out.old.items ++ spaced_text
        (w.outputs_words select.now.item select.now.items)) }
{
    word(out, Keyword::Select)?;
    item(alloc, out, &select.item)?;
    items(alloc, out, select.items.as_slice())
}

#[tactic(auto, using(crate::proofs::SpellLemmas::joining))]
fn streams(alloc: Global, out: &mut Vec<u8>, select: &Select) -> Result<(), NoMemory>
    ensures { OnOk result (out.new.items ≡ out.old.items ++ spaced_text
        (w.streams_words select.now.from select.now.second)) }
{
    word(out, Keyword::From)?;
    source(alloc, out, &select.from)?;
    second(alloc, out, &select.second)
}

#[tactic(auto, using(crate::proofs::SpellLemmas::joining))]
fn last(out: &mut Vec<u8>, closed: bool) -> Result<(), NoMemory>
    ensures { OnOk result (out.new.items ≡ out.old.items ++ spaced_text (w.last_words closed)) }
{
    if closed {
        mark(out, Sign::Semicolon)?;
    }
    Ok(())
}

#[tactic(auto, using(crate::proofs::SpellLemmas::joining))]
fn ends(alloc: Global, out: &mut Vec<u8>, select: &Select) -> Result<(), NoMemory>
    ensures { OnOk result (out.new.items ≡ out.old.items ++ spaced_text
        (w.ends_words (option_map tests_of select.now.predicate) select.now.group)) }
{
    condition(alloc, out, &select.predicate)?;
    group(out, &select.group)
}

// What stands from SELECT on, but for the last semicolon.
fn asked(alloc: Global, out: &mut Vec<u8>, select: &Select) -> Result<(), NoMemory>
    ensures { OnOk result (out.new.items ≡ out.old.items ++ spaced_text (chosen_words select.now)) }
{
    outputs(alloc, out, select)?;
    streams(alloc, out, select)?;
    ends(alloc, out, select)
}

// The same in its word's parentheses, and the last semicolon.
fn body(alloc: Global, out: &mut Vec<u8>, select: &Select) -> Result<(), NoMemory>
    ensures { OnOk result (out.new.items ≡ out.old.items ++ spaced_text (body_words select.now)) }
{
    opened(out, select.word)?;
    asked(alloc, out, select)?;
    shut(out, select.word)?;
    last(out, select.closed)
}

// All but the word STREAM that comes first.
fn rest(alloc: Global, out: &mut Vec<u8>, select: &Select) -> Result<(), NoMemory>
    ensures { OnOk result (out.new.items ≡ out.old.items ++ spaced_text (rest_words select.now)) }
{
    declared(out, &select.decl)?;
    decls(out, select.decls.as_slice())?;
    body(alloc, out, select)
}

#[tactic(auto, unfolding(saber_query::specs::Spelling::spell), using(crate::proofs::RestLemmas::rest_is))]
fn text(alloc: Global, select: &Select) -> Result<Vec<u8>, NoMemory>
    ensures { IfOk result (λ v. v.items ≡ spelled_text (w.words (query_of select.now))) }
{
    let mut out = Vec::new(alloc);
    out.extend_from_slice(Keyword::Stream.text())?;
    rest(alloc, &mut out, select)?;
    Ok(out)
}

/// A query as a text: its words with one space between, keywords in capitals, numbers without
/// leading zeros. It is read back as the same words, and so as the same tree, where it isn't longer
/// than a query may be.
pub fn show(alloc: Global, query: &Query) -> Result<Vec<u8>, NoMemory>
    ensures text { IfOk result (λ v. v.items ≡ spelled_text (w.words (query_of query.now.select))) }
    ensures tokens { IfOk result (λ v. HasTokens v.items (w.words (query_of query.now.select))) }
{
    text(alloc, query.select())
}
