// Texts as queries.
ghost use Rattle.std.specs.Prelude.{◌≡◌, ◌≤◌, ◌++◌, List, length, map, IfOk, IfErr, Ok, Err};
ghost use Rattle.saber_query.specs.declared.token.Placed.{Placed};
ghost use Rattle.saber_query.specs.declared.token.Token.{Token};
ghost use Rattle.saber_query.specs.declared.fault.QueryFault.TheVariants.{NoMemory};
ghost use Rattle.saber_query.specs.Reading.{coming_tokens, token_of, QueryGives};
ghost use Rattle.saber_query.specs.Lexing.{lexed_text};
ghost use Rattle.saber_query.specs.Means.{byte_of, ParseGives};
ghost use Rattle.saber_query.specs.Small.{byte_at};

use crate::cursor::Tokens;
use crate::fault::{Cause, QueryFault};
use crate::letting::{let_placed_go, let_tokens_go};
use crate::lexer::lex;
use crate::query::Query;
use crate::select::query;
use crate::stop::Stop;
use crate::token::Placed;
use std::alloc::Global;
use std::collections::VecDeque;

// The byte where the tokens that are left begin.
fn start_of_rest(starts: &[u64], left: usize, end: u64) -> u64
    requires { left ≤ length starts.now }
    ensures { result ≡ byte_at starts.now left end }
{
    if left == 0 {
        return end;
    }
    starts[starts.len() - left]
}

fn starts_of(alloc: Global, placed: &[Placed]) -> Result<Vec<u64>, QueryFault>
    ensures ok { IfOk result (λ v. v.items ≡ map byte_of placed.now) }
    ensures err { IfErr result (λ e. e ≡ NoMemory) }
{
    let mut starts = Vec::new(alloc);
    for token in placed {
        starts.push(token.byte)?;
    }
    Ok(starts)
}

fn tokens_of(alloc: Global, placed: Vec<Placed>) -> Result<Tokens, QueryFault>
    ensures ok { IfOk result (λ t. coming_tokens t ≡ map token_of placed.items) }
    ensures err { IfErr result (λ e. e ≡ NoMemory) }
{
    let mut rest = VecDeque::new(alloc);
    for token in placed {
        rest.push_back(token)?;
    }
    Ok(Tokens::from_deque(rest))
}

// The fault of a text at whose tokens the parser stopped: it stands where those that are left
// begin.
fn stopped(text: &[u8], starts: &[u64], left: usize, stop: Stop) -> QueryFault
    requires { (ps : List Placed) × (rest : List Token) × (length text.now ≤ 65536)
        × (lexed_text text.now ≡ Ok ps) × (starts.now ≡ map byte_of ps) × (left ≡ length rest)
        × QueryGives (Err stop) (map token_of ps) rest }
    ensures { ParseGives (Err result) text.now }
{
    let end = text.len() as u64;
    match stop {
        Stop::NoMemory => QueryFault::NoMemory,
        Stop::Syntax => QueryFault::At {
            byte: start_of_rest(starts, left, end),
            cause: Cause::Syntax,
        },
        Stop::Depth => QueryFault::At {
            byte: start_of_rest(starts, left, end),
            cause: Cause::Depth,
        },
    }
}

// The query of a text's tokens.
fn parse_tokens(
    alloc: Global,
    text: &[u8],
    mut tokens: Tokens,
    starts: Vec<u64>,
) -> Result<Query, QueryFault>
    requires { (ps : List Placed) × (length text.now ≤ 65536) × (lexed_text text.now ≡ Ok ps)
        × (coming_tokens tokens ≡ map token_of ps) × (starts.items ≡ map byte_of ps) }
    ensures { ParseGives result text.now }
{
    let parsed = query(alloc, &mut tokens);
    let left = tokens.len();
    let_tokens_go(tokens);
    match parsed {
        Ok(select) => Ok(Query::new(select, starts)),
        Err(stop) => Err(stopped(text, &starts, left, stop)),
    }
}

// The query of a text's tokens with their places.
fn parse_placed(alloc: Global, text: &[u8], placed: Vec<Placed>) -> Result<Query, QueryFault>
    requires short { length text.now ≤ 65536 }
    requires lexed { lexed_text text.now ≡ Ok placed.items }
    ensures { ParseGives result text.now }
{
    let starts = match starts_of(alloc, &placed) {
        Ok(starts) => starts,
        Err(fault) => {
            let_placed_go(placed);
            return Err(fault);
        }
    };
    match tokens_of(alloc, placed) {
        Ok(tokens) => parse_tokens(alloc, text, tokens, starts),
        Err(fault) => Err(fault),
    }
}

/// The query that a text means, or its first fault: a text that is too long, else its first bad
/// token, else the first token that the grammar doesn't allow there or that opens too much. Memory
/// may run out at any time.
///
/// The grammar is this project's profile of CQL 2006; braces repeat, square brackets without quotes
/// are optional:
///
/// ```text
/// Query  = Decl { Decl } ( Select | Word "(" Select ")" ) [ ";" ]
/// Word   = RSTREAM | ISTREAM | DSTREAM
/// Decl   = STREAM Name "(" Name { "," Name } ")" ";"
/// Select = SELECT Item { "," Item } FROM From [ "," From ] [ WHERE Pred ] [ GROUP BY Col { "," Col } ]
/// Item   = COUNT "(" "*" ")" | ( SUM | MIN | MAX ) "(" Expr ")" | Expr
/// From   = Name [ "[" ( ROWS | RANGE | Keys ROWS ) Number SLIDE Number "]" ]
/// Keys   = PARTITION BY Col { "," Col }
/// Pred   = Conj { OR Conj }
/// Conj   = Unit { AND Unit }
/// Unit   = NOT Unit | "(" Pred ")" | Expr Cmp Expr
/// Cmp    = "=" | "<>" | "<" | "<=" | ">" | ">="
/// Expr   = Prod { ( "+" | "-" ) Prod }
/// Prod   = Factor { "*" Factor }
/// Factor = Col | Number | "-" Number
/// Col    = Name [ "." Name ]
/// ```
pub fn parse(alloc: Global, text: &[u8]) -> Result<Query, QueryFault>
    ensures { ParseGives result text.now }
{
    if text.len() > 65_536 {
        return Err(QueryFault::At {
            byte: 65_536,
            cause: Cause::TooLong,
        });
    }
    match lex(alloc, text) {
        Ok(placed) => parse_placed(alloc, text, placed),
        Err(fault) => Err(fault),
    }
}
