// What is left of a list of tokens.
ghost use Rattle.std.specs.Prelude.{◌≡◌, ◌<◌, length, OnSome, IsTrue, ◌↔◌, ◌∷◌, [], map};
ghost use Rattle.saber_query.specs.declared.token.Token.TheVariants.{Word, Mark};
ghost use Rattle.saber_query.specs.Machine.{Symbol};
ghost use Rattle.saber_query.specs.Reading.{coming_tokens, token_of, Took, TookName, TookNumber, TookAdding, TookCmp, TookStreamWord, Expected, IsTerminal, Parses, StartsWith, starts_name, starts_number};

use crate::stop::Stop;
use crate::token::{Keyword, Name, Placed, Sign, Token};
use crate::tree::{Adding, Cmp, StreamWord};
use std::collections::VecDeque;

#[derive(Drop)]
pub(crate) struct Tokens {
    rest: VecDeque<Placed>,
}

impl Tokens {
    pub(crate) fn at_mark(&self, sign: Sign) -> bool
        ensures { IsTrue result ↔ StartsWith (Mark sign) (coming_tokens self.now) }
    {
        match self.rest.front() {
            Some(placed) => match placed.token {
                Token::Mark(next) => next == sign,
                _ => false,
            },
            None => false,
        }
    }

    pub(crate) fn at_word(&self, keyword: Keyword) -> bool
        ensures { IsTrue result ↔ StartsWith (Word keyword) (coming_tokens self.now) }
    {
        match self.rest.front() {
            Some(placed) => match placed.token {
                Token::Word(next) => next == keyword,
                _ => false,
            },
            None => false,
        }
    }

    pub(crate) fn take_mark(&mut self, sign: Sign) -> bool
        ensures took { Took (Mark sign) result (coming_tokens self.old) (coming_tokens self.new) }
    {
        let there = self.at_mark(sign);
        if there {
            self.rest.pop_front();
        }
        there
    }

    pub(crate) fn take_word(&mut self, keyword: Keyword) -> bool
        ensures took { Took (Word keyword) result (coming_tokens self.old) (coming_tokens self.new) }
    {
        let there = self.at_word(keyword);
        if there {
            self.rest.pop_front();
        }
        there
    }

    fn at_name(&self) -> bool
        ensures { result ≡ starts_name (coming_tokens self.now) }
    {
        match self.rest.front() {
            Some(placed) => matches!(&placed.token, Token::Named(_)),
            None => false,
        }
    }

    fn at_number(&self) -> bool
        ensures { result ≡ starts_number (coming_tokens self.now) }
    {
        match self.rest.front() {
            Some(placed) => matches!(&placed.token, Token::Number(_)),
            None => false,
        }
    }

    pub(crate) fn take_name(&mut self) -> Option<Name>
        ensures took { TookName result (coming_tokens self.old) (coming_tokens self.new) }
    {
        if !self.at_name() {
            return None;
        }
        match self.rest.pop_front() {
            Some(
                Placed {
                    token: Token::Named(name),
                    ..
                },
            ) => Some(name),
            _ => None,
        }
    }

    pub(crate) fn take_number(&mut self) -> Option<u64>
        ensures took { TookNumber result (coming_tokens self.old) (coming_tokens self.new) }
    {
        if !self.at_number() {
            return None;
        }
        match self.rest.pop_front() {
            Some(
                Placed {
                    token: Token::Number(number),
                    ..
                },
            ) => Some(number),
            _ => None,
        }
    }

    pub(crate) fn take_adding(&mut self) -> Option<Adding>
        ensures took { TookAdding result (coming_tokens self.old) (coming_tokens self.new) }
    {
        if self.take_mark(Sign::Plus) {
            return Some(Adding::Plus);
        }
        if self.take_mark(Sign::Minus) {
            return Some(Adding::Minus);
        }
        None
    }

    pub(crate) fn take_cmp(&mut self) -> Option<Cmp>
        ensures took { TookCmp result (coming_tokens self.old) (coming_tokens self.new) }
    {
        if self.take_mark(Sign::Equal) {
            return Some(Cmp::Equal);
        }
        if self.take_mark(Sign::Unequal) {
            return Some(Cmp::Unequal);
        }
        if self.take_mark(Sign::Less) {
            return Some(Cmp::Less);
        }
        if self.take_mark(Sign::AtMost) {
            return Some(Cmp::AtMost);
        }
        if self.take_mark(Sign::Greater) {
            return Some(Cmp::Greater);
        }
        if self.take_mark(Sign::AtLeast) {
            return Some(Cmp::AtLeast);
        }
        None
    }

    pub(crate) fn take_stream_word(&mut self) -> Option<StreamWord>
        ensures took { TookStreamWord result (coming_tokens self.old) (coming_tokens self.new) }
    {
        if self.take_word(Keyword::Rstream) {
            return Some(StreamWord::Rstream);
        }
        if self.take_word(Keyword::Istream) {
            return Some(StreamWord::Istream);
        }
        if self.take_word(Keyword::Dstream) {
            return Some(StreamWord::Dstream);
        }
        None
    }

    pub(crate) fn expect_mark(&mut self, sign: Sign) -> Result<(), Stop>
        ensures took { Expected (Mark sign) result (coming_tokens self.old) (coming_tokens self.new) }
        ensures parses { (x : Symbol) → IsTerminal x (Mark sign) → Parses (x ∷ [])
            (λ (u : Unit {0}). Mark sign ∷ []) result (coming_tokens self.old) (coming_tokens self.new) }
    {
        if !self.take_mark(sign) {
            return Err(Stop::Syntax);
        }
        Ok(())
    }

    pub(crate) fn expect_word(&mut self, keyword: Keyword) -> Result<(), Stop>
        ensures parses { (x : Symbol) → IsTerminal x (Word keyword) → Parses (x ∷ [])
            (λ (u : Unit {0}). Word keyword ∷ []) result (coming_tokens self.old) (coming_tokens self.new) }
    {
        if !self.take_word(keyword) {
            return Err(Stop::Syntax);
        }
        Ok(())
    }

    pub(crate) fn is_empty(&self) -> bool
        ensures { IsTrue result ↔ (coming_tokens self.now ≡ []) }
    {
        self.rest.is_empty()
    }

    pub(crate) fn from_deque(rest: VecDeque<Placed>) -> Tokens
        ensures { coming_tokens result ≡ map token_of rest.items }
    {
        Tokens { rest }
    }

    /// How many tokens are left.
    pub(crate) fn len(&self) -> usize
        ensures { result ≡ length (coming_tokens self.now) }
    {
        self.rest.len()
    }
}
