// Queries from tokens.
ghost use Rattle.std.specs.Prelude.{◌≡◌, ◌≤◌, ◌∷◌, ◌++◌, [], List, ℕ, Option, Bool, IfOk, Some, None, option_map};
ghost use Rattle.saber_query.specs.declared.token.Token.{Token};
ghost use Rattle.saber_query.specs.declared.token.Token.TheVariants.{Word, Mark, Named};
ghost use Rattle.saber_query.specs.declared.token.Sign.TheVariants.{Open, Close, Star};
ghost use Rattle.saber_query.specs.declared.token.Keyword.TheVariants.{From};
ghost use Rattle.saber_query.specs.declared.tree.Expr.{Expr};
ghost use Rattle.saber_query.specs.declared.select.Outputs.{Outputs};
ghost use Rattle.saber_query.specs.declared.select.Streams.{Streams};
ghost use Rattle.saber_query.specs.declared.select.Chosen.{Chosen};
ghost use Rattle.saber_query.specs.Machine as m;
ghost use Rattle.saber_query.specs.Words.{argument_words, item_words, items_words, where_words, last_words, words, outputs_words, streams_words, words_of_ends, asked_words, asked_of, words_of_body};
ghost use Rattle.saber_query.specs.Trees.{tests_of, where_depth, depth, query_of};
ghost use Rattle.saber_query.specs.Reading.{coming_tokens, Parses, QueryGives};

use crate::clauses::{group, second, source};
use crate::cursor::Tokens;
use crate::declaration::{decl, decls};
use crate::expression::expr;
use crate::letting::{let_declared_go, let_outputs_go, let_predicate_go, let_streams_go};
use crate::predicate::pred;
use crate::stop::Stop;
use crate::token::{Keyword, Sign};
use crate::tree::{Expr, Item, Items, Keys, Pred, Select, Source, StreamWord};
use std::alloc::Global;

// What follows COUNT.
fn all_rows(tokens: &mut Tokens) -> Result<(), Stop>
    ensures { Parses (m.open_sign ∷ m.star_sign ∷ m.close_sign ∷ [])
        (λ (u : Unit {0}). Mark Open ∷ Mark Star ∷ Mark Close ∷ []) result
        (coming_tokens tokens.old) (coming_tokens tokens.new) }
{
    tokens.expect_mark(Sign::Open)?;
    tokens.expect_mark(Sign::Star)?;
    tokens.expect_mark(Sign::Close)
}

// What follows SUM, MIN or MAX.
fn argument(alloc: Global, tokens: &mut Tokens) -> Result<Expr, Stop>
    ensures { Parses (m.open_sign ∷ m.factor ∷ m.more_factors ∷ m.more_terms ∷ m.close_sign ∷ [])
        argument_words result (coming_tokens tokens.old) (coming_tokens tokens.new) }
{
    tokens.expect_mark(Sign::Open)?;
    let argument = expr(alloc, tokens)?;
    match tokens.expect_mark(Sign::Close) {
        Ok(()) => Ok(argument),
        Err(stop) => {
            argument.let_go();
            Err(stop)
        }
    }
}

fn item(alloc: Global, tokens: &mut Tokens) -> Result<Item, Stop>
    ensures { Parses (m.item ∷ []) item_words result (coming_tokens tokens.old) (coming_tokens tokens.new) }
{
    if tokens.take_word(Keyword::Count) {
        all_rows(tokens)?;
        return Ok(Item::Count);
    }
    if tokens.take_word(Keyword::Sum) {
        return Ok(Item::Sum(argument(alloc, tokens)?));
    }
    if tokens.take_word(Keyword::Min) {
        return Ok(Item::Min(argument(alloc, tokens)?));
    }
    if tokens.take_word(Keyword::Max) {
        return Ok(Item::Max(argument(alloc, tokens)?));
    }
    Ok(Item::Value(expr(alloc, tokens)?))
}

fn items(alloc: Global, tokens: &mut Tokens) -> Result<Items, Stop>
    ensures { Parses (m.more_items ∷ []) items_words result (coming_tokens tokens.old) (coming_tokens tokens.new) }
{
    let mut items = Vec::new(alloc);
    while tokens.take_mark(Sign::Comma) {
        items.push(item(alloc, tokens)?)?;
    }
    Ok(Items::from_vec(items))
}

fn semicolon(tokens: &mut Tokens) -> bool
    ensures { Parses (m.a_semicolon ∷ []) last_words (Ok result) (coming_tokens tokens.old)
        (coming_tokens tokens.new) }
{
    tokens.take_mark(Sign::Semicolon)
}

fn condition(alloc: Global, tokens: &mut Tokens, left: u32) -> Result<Option<Pred>, Stop>
    ensures parses { Parses (m.a_where left ∷ []) (λ p. where_words (option_map tests_of p)) result
        (coming_tokens tokens.old) (coming_tokens tokens.new) }
    ensures depth { IfOk result (λ p. where_depth (option_map tests_of p) ≤ left) }
{
    if !tokens.take_word(Keyword::Where) {
        return Ok(None);
    }
    Ok(Some(pred(alloc, tokens, left)?))
}

// What stands between SELECT and FROM.
#[derive(Drop)]
struct Outputs {
    item: Item,
    items: Items,
}

fn take_outputs(alloc: Global, tokens: &mut Tokens) -> Result<Outputs, Stop>
    ensures { Parses (m.select_word ∷ m.item ∷ m.more_items ∷ [])
        (λ (o : Outputs). outputs_words o.item o.items) result (coming_tokens tokens.old)
        (coming_tokens tokens.new) }
{
    tokens.expect_word(Keyword::Select)?;
    let item = item(alloc, tokens)?;
    match items(alloc, tokens) {
        Ok(items) => Ok(Outputs { item, items }),
        Err(stop) => {
            item.let_go();
            Err(stop)
        }
    }
}

// The streams of FROM.
#[derive(Drop)]
struct Streams {
    from: Source,
    second: Option<Source>,
}

fn take_streams(alloc: Global, tokens: &mut Tokens) -> Result<Streams, Stop>
    ensures { Parses (m.from_word ∷ m.source ∷ m.a_second ∷ [])
        (λ (s : Streams). streams_words s.from s.second) result (coming_tokens tokens.old)
        (coming_tokens tokens.new) }
{
    tokens.expect_word(Keyword::From)?;
    let from = source(alloc, tokens)?;
    let second = second(alloc, tokens)?;
    Ok(Streams { from, second })
}

// What may follow the streams.
#[derive(Drop)]
struct Ends {
    predicate: Option<Pred>,
    group: Option<Keys>,
}

fn take_ends(alloc: Global, tokens: &mut Tokens, left: u32) -> Result<Ends, Stop>
    ensures parses { Parses (m.a_where left ∷ m.a_group ∷ []) words_of_ends result
        (coming_tokens tokens.old) (coming_tokens tokens.new) }
    ensures depth { IfOk result (λ e. where_depth (option_map tests_of e.predicate) ≤ left) }
{
    let predicate = condition(alloc, tokens, left)?;
    match group(alloc, tokens) {
        Ok(group) => Ok(Ends { predicate, group }),
        Err(stop) => {
            let_predicate_go(predicate);
            Err(stop)
        }
    }
}

// What stands from SELECT on, but for the last semicolon.
#[derive(Drop)]
struct Chosen {
    outputs: Outputs,
    streams: Streams,
    ends: Ends,
}

// Lets what is chosen go.
fn let_chosen_go(chosen: Chosen) {
    drop(chosen);
}

fn take_chosen(alloc: Global, tokens: &mut Tokens, left: u32) -> Result<Chosen, Stop>
    ensures parses { Parses (m.selects left) (λ (c : Chosen). asked_words (asked_of c)) result
        (coming_tokens tokens.old) (coming_tokens tokens.new) }
    ensures depth { IfOk result (λ c. where_depth (option_map tests_of c.ends.predicate) ≤ left) }
{
    let outputs = take_outputs(alloc, tokens)?;
    let streams = match take_streams(alloc, tokens) {
        Ok(streams) => streams,
        Err(stop) => {
            let_outputs_go(outputs.item, outputs.items);
            return Err(stop);
        }
    };
    match take_ends(alloc, tokens, left) {
        Ok(ends) => Ok(Chosen {
            outputs,
            streams,
            ends,
        }),
        Err(stop) => {
            let_outputs_go(outputs.item, outputs.items);
            let_streams_go(streams.from, streams.second);
            Err(stop)
        }
    }
}

// The same with the word before it, if there is one, in whose parentheses it stands then.
#[derive(Drop)]
struct Body {
    word: Option<StreamWord>,
    chosen: Chosen,
}

// What stands in parentheses behind a word.
fn in_parentheses(alloc: Global, tokens: &mut Tokens, left: u32) -> Result<Chosen, Stop>
    ensures parses { Parses (m.word_symbols left)
        (λ (c : Chosen). Mark Open ∷ (asked_words (asked_of c) ++ Mark Close ∷ [])) result
        (coming_tokens tokens.old) (coming_tokens tokens.new) }
    ensures depth { IfOk result (λ c. where_depth (option_map tests_of c.ends.predicate) ≤ left) }
{
    tokens.expect_mark(Sign::Open)?;
    let chosen = take_chosen(alloc, tokens, left)?;
    match tokens.expect_mark(Sign::Close) {
        Ok(()) => Ok(chosen),
        Err(stop) => {
            let_chosen_go(chosen);
            Err(stop)
        }
    }
}

fn take_body(alloc: Global, tokens: &mut Tokens, left: u32) -> Result<Body, Stop>
    ensures parses { Parses (m.body left ∷ []) words_of_body result (coming_tokens tokens.old)
        (coming_tokens tokens.new) }
    ensures depth { IfOk result (λ b. where_depth (option_map tests_of b.chosen.ends.predicate)
        ≤ left) }
{
    let Some(word) = tokens.take_stream_word() else {
        let chosen = take_chosen(alloc, tokens, left)?;
        return Ok(Body { word: None, chosen });
    };
    let chosen = in_parentheses(alloc, tokens, left)?;
    Ok(Body {
        word: Some(word),
        chosen,
    })
}

fn select(alloc: Global, tokens: &mut Tokens, left: u32) -> Result<Select, Stop>
    ensures parses { Parses (m.start left) (λ q. words (query_of q)) result (coming_tokens tokens.old)
        (coming_tokens tokens.new) }
    ensures depth { IfOk result (λ q. depth (query_of q) ≤ left) }
{
    let decl = decl(alloc, tokens)?;
    let decls = match decls(alloc, tokens) {
        Ok(decls) => decls,
        Err(stop) => {
            decl.let_go();
            return Err(stop);
        }
    };
    let body = match take_body(alloc, tokens, left) {
        Ok(body) => body,
        Err(stop) => {
            let_declared_go(decl, decls);
            return Err(stop);
        }
    };
    let closed = semicolon(tokens);
    let Chosen {
        outputs,
        streams,
        ends,
    } = body.chosen;
    Ok(Select {
        decl,
        decls,
        word: body.word,
        item: outputs.item,
        items: outputs.items,
        from: streams.from,
        second: streams.second,
        predicate: ends.predicate,
        group: ends.group,
        closed,
    })
}

/// The query that the tokens are the words of, else the first of them that doesn't fit, or goes too
/// deep.
pub(crate) fn query(alloc: Global, tokens: &mut Tokens) -> Result<Select, Stop>
    ensures { QueryGives result (coming_tokens tokens.old) (coming_tokens tokens.new) }
{
    let query = select(alloc, tokens, 64)?;
    if !tokens.is_empty() {
        query.let_go();
        return Err(Stop::Syntax);
    }
    Ok(query)
}
