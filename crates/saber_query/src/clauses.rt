// Streams of FROM, and columns of GROUP BY and PARTITION BY, from tokens.
ghost use Rattle.std.specs.Prelude.{◌≡◌, ◌∷◌, ◌++◌, []};
ghost use Rattle.saber_query.specs.declared.token.Keyword.TheVariants.{Rows};
ghost use Rattle.saber_query.specs.declared.token.Token.TheVariants.{Word};
ghost use Rattle.saber_query.specs.declared.tree.Keys.{Keys};
ghost use Rattle.saber_query.specs.Machine as m;
ghost use Rattle.saber_query.specs.Words.{measure_words, window_words, source_words, second_source_words, column_words, columns_words, by_words, group_words};
ghost use Rattle.saber_query.specs.Reading.{coming_tokens, Parses};

use crate::cursor::Tokens;
use crate::expression::{number, second_name};
use crate::stop::Stop;
use crate::token::{Keyword, Sign};
use crate::tree::{Column, Columns, Keys, Measure, Source, Window};
use std::alloc::Global;

fn measure(alloc: Global, tokens: &mut Tokens) -> Result<Measure, Stop>
    ensures { Parses (m.measure ∷ []) measure_words result (coming_tokens tokens.old) (coming_tokens tokens.new) }
{
    if tokens.take_word(Keyword::Rows) {
        return Ok(Measure::Rows);
    }
    if tokens.take_word(Keyword::Range) {
        return Ok(Measure::Range);
    }
    if tokens.take_word(Keyword::Partition) {
        return Ok(Measure::Partition(partition(alloc, tokens)?));
    }
    Err(Stop::Syntax)
}

fn window(alloc: Global, tokens: &mut Tokens) -> Result<Option<Window>, Stop>
    ensures { Parses (m.a_window ∷ []) window_words result (coming_tokens tokens.old) (coming_tokens tokens.new) }
{
    if !tokens.take_mark(Sign::OpenBracket) {
        return Ok(None);
    }
    let measure = measure(alloc, tokens)?;
    let size = number(tokens)?;
    tokens.expect_word(Keyword::Slide)?;
    let slide = number(tokens)?;
    tokens.expect_mark(Sign::CloseBracket)?;
    Ok(Some(Window {
        measure,
        size,
        slide,
    }))
}

pub(crate) fn source(alloc: Global, tokens: &mut Tokens) -> Result<Source, Stop>
    ensures { Parses (m.source ∷ []) source_words result (coming_tokens tokens.old) (coming_tokens tokens.new) }
{
    let Some(name) = tokens.take_name() else {
        return Err(Stop::Syntax);
    };
    match window(alloc, tokens) {
        Ok(window) => Ok(Source { name, window }),
        Err(stop) => {
            name.let_go();
            Err(stop)
        }
    }
}

pub(crate) fn second(alloc: Global, tokens: &mut Tokens) -> Result<Option<Source>, Stop>
    ensures { Parses (m.a_second ∷ []) second_source_words result (coming_tokens tokens.old)
        (coming_tokens tokens.new) }
{
    if !tokens.take_mark(Sign::Comma) {
        return Ok(None);
    }
    let second = source(alloc, tokens)?;
    Ok(Some(second))
}

fn column(tokens: &mut Tokens) -> Result<Column, Stop>
    ensures { Parses (m.column ∷ []) column_words result (coming_tokens tokens.old) (coming_tokens tokens.new) }
{
    let Some(first) = tokens.take_name() else {
        return Err(Stop::Syntax);
    };
    match second_name(tokens) {
        Ok(second) => Ok(Column { first, second }),
        Err(stop) => {
            first.let_go();
            Err(stop)
        }
    }
}

fn columns(alloc: Global, tokens: &mut Tokens) -> Result<Columns, Stop>
    ensures { Parses (m.more_columns ∷ []) columns_words result (coming_tokens tokens.old)
        (coming_tokens tokens.new) }
{
    let mut items = Vec::new(alloc);
    while tokens.take_mark(Sign::Comma) {
        items.push(column(tokens)?)?;
    }
    Ok(Columns::from_vec(items))
}

// BY and its columns.
fn by_columns(alloc: Global, tokens: &mut Tokens) -> Result<Keys, Stop>
    ensures { Parses (m.by_word ∷ m.column ∷ m.more_columns ∷ []) by_words result
        (coming_tokens tokens.old) (coming_tokens tokens.new) }
{
    tokens.expect_word(Keyword::By)?;
    let first = column(tokens)?;
    match columns(alloc, tokens) {
        Ok(more) => Ok(Keys { first, more }),
        Err(stop) => {
            first.let_go();
            Err(stop)
        }
    }
}

// What follows PARTITION, before the size.
fn partition(alloc: Global, tokens: &mut Tokens) -> Result<Keys, Stop>
    ensures { Parses (m.by_word ∷ m.column ∷ m.more_columns ∷ m.rows_word ∷ [])
        (λ (g : Keys). by_words g ++ Word Rows ∷ []) result (coming_tokens tokens.old)
        (coming_tokens tokens.new) }
{
    let keys = by_columns(alloc, tokens)?;
    match tokens.expect_word(Keyword::Rows) {
        Ok(()) => Ok(keys),
        Err(stop) => {
            keys.let_go();
            Err(stop)
        }
    }
}

pub(crate) fn group(alloc: Global, tokens: &mut Tokens) -> Result<Option<Keys>, Stop>
    ensures { Parses (m.a_group ∷ []) group_words result (coming_tokens tokens.old) (coming_tokens tokens.new) }
{
    if !tokens.take_word(Keyword::Group) {
        return Ok(None);
    }
    Ok(Some(by_columns(alloc, tokens)?))
}
