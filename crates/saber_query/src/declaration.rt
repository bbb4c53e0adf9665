// Declarations from tokens.
ghost use Rattle.std.specs.Prelude.{◌≡◌, ◌∷◌, [], List, ℕ};
ghost use Rattle.saber_query.specs.declared.declaration.Listed.{Listed};
ghost use Rattle.saber_query.specs.declared.token.Sign.TheVariants.{Open, Close, Semicolon};
ghost use Rattle.saber_query.specs.declared.token.Token.TheVariants.{Mark, Named};
ghost use Rattle.saber_query.specs.declared.tree.Decl.{Decl};
ghost use Rattle.saber_query.specs.Machine as m;
ghost use Rattle.saber_query.specs.Words.{names_words, declared_words, decl_words, decls_words};
ghost use Rattle.saber_query.specs.Reading.{coming_tokens, Parses};

use crate::cursor::Tokens;
use crate::expression::name;
use crate::stop::Stop;
use crate::token::{Keyword, Name, Sign};
use crate::tree::{Decl, Decls, Names};
use std::alloc::Global;

fn names(alloc: Global, tokens: &mut Tokens) -> Result<Names, Stop>
    ensures { Parses (m.more_names ∷ []) names_words result (coming_tokens tokens.old) (coming_tokens tokens.new) }
{
    let mut items = Vec::new(alloc);
    while tokens.take_mark(Sign::Comma) {
        items.push(name(tokens)?)?;
    }
    Ok(Names::from_vec(items))
}

// The name of a stream, and the parenthesis behind it.
fn stream(tokens: &mut Tokens) -> Result<Name, Stop>
    ensures { Parses (m.a_name ∷ m.open_sign ∷ []) (λ (n : List ℕ). Named n ∷ Mark Open ∷ [])
        result (coming_tokens tokens.old) (coming_tokens tokens.new) }
{
    let stream = name(tokens)?;
    match tokens.expect_mark(Sign::Open) {
        Ok(()) => Ok(stream),
        Err(stop) => {
            stream.let_go();
            Err(stop)
        }
    }
}

// The columns of a stream.
#[derive(Drop)]
struct Listed {
    first: Name,
    more: Names,
}

fn columns(alloc: Global, tokens: &mut Tokens) -> Result<Listed, Stop>
    ensures { Parses (m.a_name ∷ m.more_names ∷ []) (λ (l : Listed). Named l.first ∷ names_words l.more)
        result (coming_tokens tokens.old) (coming_tokens tokens.new) }
{
    let first = name(tokens)?;
    match names(alloc, tokens) {
        Ok(more) => Ok(Listed { first, more }),
        Err(stop) => {
            first.let_go();
            Err(stop)
        }
    }
}

// A declaration up to its last column.
fn opened(alloc: Global, tokens: &mut Tokens) -> Result<Decl, Stop>
    ensures { Parses (m.a_name ∷ m.open_sign ∷ m.a_name ∷ m.more_names ∷ [])
        (λ (d : Decl). Named d.name ∷ Mark Open ∷ Named d.first ∷ names_words d.more)
        result (coming_tokens tokens.old) (coming_tokens tokens.new) }
{
    let name = stream(tokens)?;
    match columns(alloc, tokens) {
        Ok(columns) => Ok(Decl {
            name,
            first: columns.first,
            more: columns.more,
        }),
        Err(stop) => {
            name.let_go();
            Err(stop)
        }
    }
}

// The marks behind the last column.
fn close(tokens: &mut Tokens) -> Result<(), Stop>
    ensures { Parses (m.close_sign ∷ m.semicolon_sign ∷ [])
        (λ (u : Unit {0}). Mark Close ∷ Mark Semicolon ∷ []) result (coming_tokens tokens.old)
        (coming_tokens tokens.new) }
{
    tokens.expect_mark(Sign::Close)?;
    tokens.expect_mark(Sign::Semicolon)
}

// What follows STREAM.
fn declared(alloc: Global, tokens: &mut Tokens) -> Result<Decl, Stop>
    ensures { Parses m.declaration_symbols declared_words result (coming_tokens tokens.old) (coming_tokens tokens.new) }
{
    let decl = opened(alloc, tokens)?;
    match close(tokens) {
        Ok(()) => Ok(decl),
        Err(stop) => {
            decl.let_go();
            Err(stop)
        }
    }
}

pub(crate) fn decl(alloc: Global, tokens: &mut Tokens) -> Result<Decl, Stop>
    ensures { Parses (m.decl ∷ []) decl_words result (coming_tokens tokens.old) (coming_tokens tokens.new) }
{
    if !tokens.take_word(Keyword::Stream) {
        return Err(Stop::Syntax);
    }
    declared(alloc, tokens)
}

pub(crate) fn decls(alloc: Global, tokens: &mut Tokens) -> Result<Decls, Stop>
    ensures { Parses (m.more_decls ∷ []) decls_words result (coming_tokens tokens.old) (coming_tokens tokens.new) }
{
    let mut items = Vec::new(alloc);
    while tokens.take_word(Keyword::Stream) {
        items.push(declared(alloc, tokens)?)?;
    }
    Ok(Decls::from_vec(items))
}
