// The tokens of a text.
ghost use Rattle.std.specs.Prelude.{◌≡◌, ◌≤◌, ◌<◌, ◌+◌, ◌++◌, ◌∷◌, [], ◌^◌, ◌*◌, ◌-◌, length, IfOk, IfErr, OnOk, OnErr, Err};
ghost use Rattle.saber_query.specs.Lexing.{is_letter, is_name_byte, is_space, single, double, angle, begin, placed_token, step, number_more, last_token, lexed_text, StepGives, LexGives, tokens_in};
ghost use Rattle.saber_query.specs.declared.fault.QueryFault.TheVariants.{NoMemory};
ghost use Rattle.saber_query.specs.declared.lexer.Pending.TheVariants as p;
ghost use Rattle.saber_query.specs.Small.{IsSmall, IsLexFault};

use crate::fault::{Cause, QueryFault};
use crate::token::{Name, Placed, Sign, Token, word};
use std::alloc::Global;

// The part of a token that is read so far, and where it began.
#[derive(Drop)]
pub(crate) enum Pending {
    Nothing,
    Name { start: u64, bytes: Name },
    Number { start: u64, value: u64 },
    Angle { start: u64, greater: bool },
}

fn is_letter(byte: u8) -> bool
    ensures { result ≡ is_letter byte }
{
    byte.is_ascii_alphabetic() || byte == b'_'
}

fn is_name_byte(byte: u8) -> bool
    ensures { result ≡ is_name_byte byte }
{
    is_letter(byte) || byte.is_ascii_digit()
}

fn is_space(byte: u8) -> bool
    ensures { result ≡ is_space byte }
{
    byte == b' ' || byte == b'\t' || byte == b'\n' || byte == b'\r'
}

fn single(byte: u8) -> Option<Sign>
    ensures { result ≡ single byte }
{
    match byte {
        b'(' => Some(Sign::Open),
        b')' => Some(Sign::Close),
        b'[' => Some(Sign::OpenBracket),
        b']' => Some(Sign::CloseBracket),
        b',' => Some(Sign::Comma),
        b';' => Some(Sign::Semicolon),
        b'.' => Some(Sign::Dot),
        b'*' => Some(Sign::Star),
        b'+' => Some(Sign::Plus),
        b'-' => Some(Sign::Minus),
        b'=' => Some(Sign::Equal),
        _ => None,
    }
}

fn double(greater: bool, byte: u8) -> Option<Sign>
    ensures { result ≡ double greater byte }
{
    match (greater, byte) {
        (false, b'=') => Some(Sign::AtMost),
        (false, b'>') => Some(Sign::Unequal),
        (true, b'=') => Some(Sign::AtLeast),
        _ => None,
    }
}

fn angle(greater: bool) -> Sign
    ensures { result ≡ angle greater }
{
    if greater { Sign::Greater } else { Sign::Less }
}

fn put(out: &mut Vec<Placed>, byte: u64, token: Token) -> Result<(), QueryFault>
    ensures ok { OnOk result (out.new.items ≡ out.old.items ++ placed_token byte token ∷ []) }
    ensures err { OnErr result (result ≡ Err QueryFault.NoMemory) }
{
    out.push(Placed { byte, token })?;
    Ok(())
}

// The name that a byte begins.
fn named(alloc: Global, at: u64, byte: u8) -> Result<Pending, QueryFault>
    ensures ok { IfOk result (λ q. q ≡ p.Name at (byte ∷ [])) }
    ensures err { IfErr result (λ e. e ≡ NoMemory) }
{
    let mut bytes = Vec::new(alloc);
    bytes.push(byte)?;
    Ok(Pending::Name {
        start: at,
        bytes: Name::from_vec(bytes),
    })
}

#[tactic(auto, unfolding(crate::specs::Lexing::begin))]
fn begin(alloc: Global, at: u64, byte: u8, out: &mut Vec<Placed>) -> Result<Pending, QueryFault>
    ensures gives { StepGives result out.old.items out.new.items (begin at byte) }
    ensures small { IfOk result IsSmall }
    ensures causes { IfErr result IsLexFault }
{
    if is_letter(byte) {
        return named(alloc, at, byte);
    }
    if byte.is_ascii_digit() {
        return Ok(Pending::Number {
            start: at,
            value: (byte - b'0') as u64,
        });
    }
    if byte == b'<' {
        return Ok(Pending::Angle {
            start: at,
            greater: false,
        });
    }
    if byte == b'>' {
        return Ok(Pending::Angle {
            start: at,
            greater: true,
        });
    }
    if is_space(byte) {
        return Ok(Pending::Nothing);
    }
    let Some(sign) = single(byte) else {
        return Err(QueryFault::At {
            byte: at,
            cause: Cause::BadByte,
        });
    };
    put(out, at, Token::Mark(sign))?;
    Ok(Pending::Nothing)
}

#[tactic(auto, unfolding(crate::specs::Lexing::number_more))]
fn number_more(start: u64, value: u64, digit: u8) -> Result<Pending, QueryFault>
    requires value { value ≤ 2 ^ 63 }
    requires digit { digit < 10 }
    ensures gives { StepGives result [] [] (number_more start (10 * value + digit)) }
    ensures small { IfOk result IsSmall }
    ensures causes { IfErr result IsLexFault }
{
    let next = value as u128 * 10 + digit as u128;
    if next > 1 << 63 {
        return Err(QueryFault::At {
            byte: start,
            cause: Cause::NumberRange,
        });
    }
    Ok(Pending::Number {
        start,
        value: next as u64,
    })
}

// A name with one byte more.
fn longer(start: u64, bytes: Name, byte: u8) -> Result<Pending, QueryFault>
    ensures ok { IfOk result (λ q. q ≡ p.Name start (bytes ++ byte ∷ [])) }
    ensures err { IfErr result (λ e. e ≡ NoMemory) }
{
    let mut bytes = bytes.into_vec();
    bytes.push(byte)?;
    Ok(Pending::Name {
        start,
        bytes: Name::from_vec(bytes),
    })
}

// A byte behind a name.
#[tactic(auto, unfolding(crate::specs::Lexing::step))]
fn after_name(
    alloc: Global,
    at: u64,
    start: u64,
    bytes: Name,
    byte: u8,
    out: &mut Vec<Placed>,
) -> Result<Pending, QueryFault>
    ensures gives { StepGives result out.old.items out.new.items (step at (p.Name start bytes) byte) }
    ensures small { IfOk result IsSmall }
    ensures causes { IfErr result IsLexFault }
{
    if is_name_byte(byte) {
        return longer(start, bytes, byte);
    }
    put(out, start, word(bytes))?;
    begin(alloc, at, byte, out)
}

// A byte behind a number.
#[tactic(auto, unfolding(crate::specs::Lexing::step))]
fn after_number(
    alloc: Global,
    at: u64,
    start: u64,
    value: u64,
    byte: u8,
    out: &mut Vec<Placed>,
) -> Result<Pending, QueryFault>
    requires { value ≤ 2 ^ 63 }
    ensures gives { StepGives result out.old.items out.new.items (step at (p.Number start value) byte) }
    ensures small { IfOk result IsSmall }
    ensures causes { IfErr result IsLexFault }
{
    if byte.is_ascii_digit() {
        return number_more(start, value, byte - b'0');
    }
    put(out, start, Token::Number(value))?;
    begin(alloc, at, byte, out)
}

// A byte behind `<` or `>`.
#[tactic(auto, unfolding(crate::specs::Lexing::step))]
fn after_angle(
    alloc: Global,
    at: u64,
    start: u64,
    greater: bool,
    byte: u8,
    out: &mut Vec<Placed>,
) -> Result<Pending, QueryFault>
    ensures gives { StepGives result out.old.items out.new.items (step at (p.Angle start greater) byte) }
    ensures small { IfOk result IsSmall }
    ensures causes { IfErr result IsLexFault }
{
    if let Some(sign) = double(greater, byte) {
        put(out, start, Token::Mark(sign))?;
        return Ok(Pending::Nothing);
    }
    put(out, start, Token::Mark(angle(greater)))?;
    begin(alloc, at, byte, out)
}

// One byte: what it goes on with or ends, and what it begins.
#[tactic(auto, unfolding(crate::specs::Lexing::step))]
fn step(
    alloc: Global,
    at: u64,
    pending: Pending,
    byte: u8,
    out: &mut Vec<Placed>,
) -> Result<Pending, QueryFault>
    requires { IsSmall pending }
    ensures gives { StepGives result out.old.items out.new.items (step at pending byte) }
    ensures small { IfOk result IsSmall }
    ensures causes { IfErr result IsLexFault }
{
    match pending {
        Pending::Nothing => begin(alloc, at, byte, out),
        Pending::Name { start, bytes } => after_name(alloc, at, start, bytes, byte, out),
        Pending::Number { start, value } => after_number(alloc, at, start, value, byte, out),
        Pending::Angle { start, greater } => after_angle(alloc, at, start, greater, byte, out),
    }
}

#[tactic(auto, unfolding(crate::specs::Lexing::last_token))]
fn end(pending: Pending, out: &mut Vec<Placed>) -> Result<(), QueryFault>
    ensures ok { OnOk result (out.new.items ≡ out.old.items ++ last_token pending) }
    ensures err { OnErr result (result ≡ Err QueryFault.NoMemory) }
{
    match pending {
        Pending::Nothing => Ok(()),
        Pending::Name { start, bytes } => put(out, start, word(bytes)),
        Pending::Number { start, value } => put(out, start, Token::Number(value)),
        Pending::Angle { start, greater } => put(out, start, Token::Mark(angle(greater))),
    }
}

/// The tokens of a text with their places, by longest match; or the first byte that begins no
/// token, or the first number above 2^63, whichever comes first.
#[tactic(auto, unfolding(crate::specs::Lexing::lex_from))]
pub(crate) fn lex(alloc: Global, text: &[u8]) -> Result<Vec<Placed>, QueryFault>
    ensures gives { LexGives (tokens_in result) (lexed_text text.now) }
    ensures causes { IfErr result IsLexFault }
{
    let mut out = Vec::new(alloc);
    let mut pending = Pending::Nothing;
    for (at, byte) in text.iter().enumerate() {
        pending = step(alloc, at as u64, pending, *byte, &mut out)?;
    }
    end(pending, &mut out)?;
    Ok(out)
}
