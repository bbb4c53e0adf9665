// The tokens of a text (this project's profile of CQL 2006).
ghost use Rattle.std.specs.Prelude.{◌≡◌};
ghost use Rattle.std.specs.Str.{str_eq_ignore_ascii_case};
ghost use Rattle.saber_query.specs.Tokens.{keyword_among, keyword_of, word_of};

use std::marker::Model;

/// The reserved words, in any case.
#[derive(Clone, Copy)]
pub enum Keyword {
    Stream,
    Select,
    From,
    Where,
    Group,
    By,
    And,
    Or,
    Not,
    Rows,
    Range,
    Slide,
    Count,
    Sum,
    Min,
    Max,
    Partition,
    Rstream,
    Istream,
    Dstream,
}

/// The signs of one or two bytes.
#[derive(Clone, Copy)]
pub enum Sign {
    Open,
    Close,
    OpenBracket,
    CloseBracket,
    Comma,
    Semicolon,
    Dot,
    Star,
    Plus,
    Minus,
    Equal,
    Unequal,
    Less,
    AtMost,
    Greater,
    AtLeast,
}

/// The bytes of a name: ASCII letters, digits and `_`. Names are case sensitive.
#[derive(Drop)]
pub struct Name {
    bytes: Vec<u8>,
}

impl Model for Name {
    ghost use Rattle.std.specs.Prelude.{List, ℕ};

    ghost Value = { List ℕ };

    ghost view = { λ v. v.bytes.items };
}

impl Name {
    ghost use Rattle.std.specs.Prelude.{◌≡◌, bytes_eq};

    pub(crate) fn from_vec(bytes: Vec<u8>) -> Name
        ensures { result ≡ bytes.items }
    {
        Name { bytes }
    }

    pub(crate) fn into_vec(self) -> Vec<u8>
        ensures { result.items ≡ self }
    {
        self.bytes
    }

    /// The bytes as the text has them.
    pub fn as_slice(&self) -> &[u8]
        ensures { result.now ≡ self.now }
    {
        &self.bytes
    }

    /// Whether both have the same bytes.
    pub fn is(&self, other: &Name) -> bool
        ensures { result ≡ bytes_eq self.now other.now }
    {
        self.as_slice() == other.as_slice()
    }
}

/// A token of a text. A number is its value: leading zeros are lost.
#[derive(Drop)]
pub enum Token {
    Word(Keyword),
    Mark(Sign),
    Named(Name),
    Number(u64),
}

/// A token and the byte that it begins at, counted from 0.
#[derive(Drop)]
pub struct Placed {
    pub byte: u64,
    pub token: Token,
}

const KEYWORDS: [Keyword; 20] = [
    Keyword::Stream,
    Keyword::Select,
    Keyword::From,
    Keyword::Where,
    Keyword::Group,
    Keyword::By,
    Keyword::And,
    Keyword::Or,
    Keyword::Not,
    Keyword::Rows,
    Keyword::Range,
    Keyword::Slide,
    Keyword::Count,
    Keyword::Sum,
    Keyword::Min,
    Keyword::Max,
    Keyword::Partition,
    Keyword::Rstream,
    Keyword::Istream,
    Keyword::Dstream,
];

impl Keyword {
    ghost use Rattle.std.specs.Prelude.{◌≡◌};
    ghost use Rattle.saber_query.specs.Tokens.{text_of};

    /// The word in capitals.
    pub fn text(self) -> &'static [u8]
        ensures { result.now ≡ text_of self }
    {
        match self {
            Keyword::Stream => b"STREAM",
            Keyword::Select => b"SELECT",
            Keyword::From => b"FROM",
            Keyword::Where => b"WHERE",
            Keyword::Group => b"GROUP",
            Keyword::By => b"BY",
            Keyword::And => b"AND",
            Keyword::Or => b"OR",
            Keyword::Not => b"NOT",
            Keyword::Rows => b"ROWS",
            Keyword::Range => b"RANGE",
            Keyword::Slide => b"SLIDE",
            Keyword::Count => b"COUNT",
            Keyword::Sum => b"SUM",
            Keyword::Min => b"MIN",
            Keyword::Max => b"MAX",
            Keyword::Partition => b"PARTITION",
            Keyword::Rstream => b"RSTREAM",
            Keyword::Istream => b"ISTREAM",
            Keyword::Dstream => b"DSTREAM",
        }
    }
}

impl Sign {
    ghost use Rattle.std.specs.Prelude.{◌≡◌};
    ghost use Rattle.saber_query.specs.Tokens.{sign_text};

    /// The sign as it is written.
    pub fn text(self) -> &'static [u8]
        ensures { result.now ≡ sign_text self }
    {
        match self {
            Sign::Open => b"(",
            Sign::Close => b")",
            Sign::OpenBracket => b"[",
            Sign::CloseBracket => b"]",
            Sign::Comma => b",",
            Sign::Semicolon => b";",
            Sign::Dot => b".",
            Sign::Star => b"*",
            Sign::Plus => b"+",
            Sign::Minus => b"-",
            Sign::Equal => b"=",
            Sign::Unequal => b"<>",
            Sign::Less => b"<",
            Sign::AtMost => b"<=",
            Sign::Greater => b">",
            Sign::AtLeast => b">=",
        }
    }
}

fn same_word(a: &[u8], b: &[u8]) -> bool
    ensures { result ≡ str_eq_ignore_ascii_case a.now b.now }
{
    a.eq_ignore_ascii_case(b)
}

#[tactic(auto, unfolding(crate::specs::Tokens::keyword_among))]
fn keyword_among(bytes: &[u8], keywords: &[Keyword]) -> Option<Keyword>
    ensures { result ≡ keyword_among bytes.now keywords.now }
{
    for keyword in keywords {
        if same_word(bytes, keyword.text()) {
            return Some(*keyword);
        }
    }
    None
}

fn keyword_of(bytes: &[u8]) -> Option<Keyword>
    ensures { result ≡ keyword_of bytes.now }
{
    keyword_among(bytes, &KEYWORDS)
}

/// The keyword that the bytes are in any case, else a name.
pub(crate) fn word(bytes: Name) -> Token
    ensures { result ≡ word_of bytes }
{
    match keyword_of(bytes.as_slice()) {
        Some(keyword) => Token::Word(keyword),
        None => Token::Named(bytes),
    }
}
