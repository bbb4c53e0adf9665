// The text of what stands from SELECT on.
ghost use Rattle.std.specs.Prelude.{◌≡◌, ◌++◌, ◌∷◌, [], OnOk};
ghost use Rattle.saber_query.specs.Spelling.{spaced_text};
ghost use Rattle.saber_query.specs.declared.tree.Item.TheVariants.{Count};
ghost use Rattle.saber_query.specs.Words as w;

use crate::expression::{column, expr};
use crate::spell::{mark, name, number, word};
use saber_query::{Column, Expr, Item, Keys, Keyword, Measure, Sign, Source, StreamWord, Window};
use std::alloc::{AllocError as NoMemory, Global};

#[tactic(auto, using(crate::proofs::SpellLemmas::joining))]
fn argument(alloc: Global, out: &mut Vec<u8>, argument: &Expr) -> Result<(), NoMemory>
    ensures { OnOk result (out.new.items ≡ out.old.items ++ spaced_text (w.argument_words argument.now)) }
{
    mark(out, Sign::Open)?;
    expr(alloc, out, argument)?;
    mark(out, Sign::Close)
}

#[tactic(auto, using(crate::proofs::SpellLemmas::joining))]
fn all_rows(out: &mut Vec<u8>) -> Result<(), NoMemory>
    ensures { OnOk result (out.new.items ≡ out.old.items ++ spaced_text (w.item_words Count)) }
{
    word(out, Keyword::Count)?;
    mark(out, Sign::Open)?;
    mark(out, Sign::Star)?;
    mark(out, Sign::Close)
}

#[tactic(auto, using(crate::proofs::SpellLemmas::joining))]
pub(crate) fn item(alloc: Global, out: &mut Vec<u8>, item: &Item) -> Result<(), NoMemory>
    ensures { OnOk result (out.new.items ≡ out.old.items ++ spaced_text (w.item_words item.now)) }
{
    match item {
        Item::Count => all_rows(out),
        Item::Sum(inner) => {
            word(out, Keyword::Sum)?;
            argument(alloc, out, inner)
        }
        Item::Min(inner) => {
            word(out, Keyword::Min)?;
            argument(alloc, out, inner)
        }
        Item::Max(inner) => {
            word(out, Keyword::Max)?;
            argument(alloc, out, inner)
        }
        Item::Value(inner) => expr(alloc, out, inner),
    }
}

#[tactic(auto, using(crate::proofs::SpellLemmas::joining))]
pub(crate) fn items(alloc: Global, out: &mut Vec<u8>, others: &[Item]) -> Result<(), NoMemory>
    ensures { OnOk result (out.new.items ≡ out.old.items ++ spaced_text (w.items_words others.now)) }
{
    for other in others {
        mark(out, Sign::Comma)?;
        item(alloc, out, other)?;
    }
    Ok(())
}

#[tactic(auto, using(crate::proofs::SpellLemmas::joining))]
fn columns(out: &mut Vec<u8>, others: &[Column]) -> Result<(), NoMemory>
    ensures { OnOk result (out.new.items ≡ out.old.items ++ spaced_text (w.columns_words others.now)) }
{
    for other in others {
        mark(out, Sign::Comma)?;
        column(out, other)?;
    }
    Ok(())
}

#[tactic(auto, using(crate::proofs::SpellLemmas::joining))]
fn by_columns(out: &mut Vec<u8>, keys: &Keys) -> Result<(), NoMemory>
    ensures { OnOk result (out.new.items ≡ out.old.items ++ spaced_text (w.by_words keys.now)) }
{
    word(out, Keyword::By)?;
    column(out, &keys.first)?;
    columns(out, keys.more.as_slice())
}

#[tactic(auto, using(crate::proofs::SpellLemmas::joining))]
fn measure(out: &mut Vec<u8>, measure: &Measure) -> Result<(), NoMemory>
    ensures { OnOk result (out.new.items ≡ out.old.items ++ spaced_text (w.measure_words measure.now)) }
{
    match measure {
        Measure::Rows => word(out, Keyword::Rows),
        Measure::Range => word(out, Keyword::Range),
        Measure::Partition(keys) => {
            word(out, Keyword::Partition)?;
            by_columns(out, keys)?;
            word(out, Keyword::Rows)
        }
    }
}

#[tactic(auto, using(crate::proofs::SpellLemmas::joining))]
fn window(alloc: Global, out: &mut Vec<u8>, window: &Option<Window>) -> Result<(), NoMemory>
    ensures { OnOk result (out.new.items ≡ out.old.items ++ spaced_text (w.window_words window.now)) }
{
    if let Some(inner) = window {
        mark(out, Sign::OpenBracket)?;
        measure(out, &inner.measure)?;
        number(alloc, out, inner.size)?;
        word(out, Keyword::Slide)?;
        number(alloc, out, inner.slide)?;
        mark(out, Sign::CloseBracket)?;
    }
    Ok(())
}

#[tactic(auto, using(crate::proofs::SpellLemmas::joining))]
pub(crate) fn source(alloc: Global, out: &mut Vec<u8>, source: &Source) -> Result<(), NoMemory>
    ensures { OnOk result (out.new.items ≡ out.old.items ++ spaced_text (w.source_words source.now)) }
{
    name(out, &source.name)?;
    window(alloc, out, &source.window)
}

#[tactic(auto, using(crate::proofs::SpellLemmas::joining))]
pub(crate) fn second(
    alloc: Global,
    out: &mut Vec<u8>,
    second: &Option<Source>,
) -> Result<(), NoMemory>
    ensures { OnOk result (out.new.items ≡ out.old.items ++ spaced_text (w.second_source_words second.now)) }
{
    if let Some(inner) = second {
        mark(out, Sign::Comma)?;
        source(alloc, out, inner)?;
    }
    Ok(())
}

#[tactic(auto, using(crate::proofs::SpellLemmas::joining))]
pub(crate) fn group(out: &mut Vec<u8>, group: &Option<Keys>) -> Result<(), NoMemory>
    ensures { OnOk result (out.new.items ≡ out.old.items ++ spaced_text (w.group_words group.now)) }
{
    if let Some(keys) = group {
        word(out, Keyword::Group)?;
        by_columns(out, keys)?;
    }
    Ok(())
}

fn stream_keyword(word: StreamWord) -> Keyword
    ensures { result ≡ w.stream_keyword word }
{
    match word {
        StreamWord::Rstream => Keyword::Rstream,
        StreamWord::Istream => Keyword::Istream,
        StreamWord::Dstream => Keyword::Dstream,
    }
}

#[tactic(auto, using(crate::proofs::SpellLemmas::joining))]
pub(crate) fn opened(out: &mut Vec<u8>, stream: Option<StreamWord>) -> Result<(), NoMemory>
    ensures { OnOk result (out.new.items ≡ out.old.items ++ spaced_text (w.opened_words stream)) }
{
    if let Some(inner) = stream {
        word(out, stream_keyword(inner))?;
        mark(out, Sign::Open)?;
    }
    Ok(())
}

#[tactic(auto, using(crate::proofs::SpellLemmas::joining))]
pub(crate) fn shut(out: &mut Vec<u8>, stream: Option<StreamWord>) -> Result<(), NoMemory>
    ensures { OnOk result (out.new.items ≡ out.old.items ++ spaced_text (w.shut_words stream)) }
{
    if stream.is_some() {
        mark(out, Sign::Close)?;
    }
    Ok(())
}
