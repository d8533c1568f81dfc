//! Names and keywords.

ghost use Rattle.std.specs.Prelude.{◌≡◌, ◌≤◌, ◌<◌, ◌+◌, ◌^◌, length};
ghost use Rattle.fz_token.specs.Word as spec;

use crate::{Keyword, Token, TokenKind};

impl Keyword {
    /// Every keyword, in the order of the alphabet.
    pub const ALL: [Keyword; 15] = [
        Keyword::Array,
        Keyword::Bool,
        Keyword::Constraint,
        Keyword::False,
        Keyword::Float,
        Keyword::Int,
        Keyword::Maximize,
        Keyword::Minimize,
        Keyword::Of,
        Keyword::Predicate,
        Keyword::Satisfy,
        Keyword::Set,
        Keyword::Solve,
        Keyword::True,
        Keyword::Var,
    ];

    /// The bytes of the keyword.
    pub fn spelling(self) -> &'static [u8]
        ensures { result.now ≡ spec.spelling self }
    {
        match self {
            Keyword::Array => b"array",
            Keyword::Bool => b"bool",
            Keyword::Constraint => b"constraint",
            Keyword::False => b"false",
            Keyword::Float => b"float",
            Keyword::Int => b"int",
            Keyword::Maximize => b"maximize",
            Keyword::Minimize => b"minimize",
            Keyword::Of => b"of",
            Keyword::Predicate => b"predicate",
            Keyword::Satisfy => b"satisfy",
            Keyword::Set => b"set",
            Keyword::Solve => b"solve",
            Keyword::True => b"true",
            Keyword::Var => b"var",
        }
    }

    /// The keyword that is spelled so, if there is one.
    #[tactic(auto, unfolding(crate::specs::Word::keyword_of))]
    pub fn spelled(word: &[u8]) -> Option<Keyword>
        ensures { result ≡ spec.keyword_of word.now }
    {
        Keyword::ALL
            .iter()
            .copied()
            .find(|keyword| keyword.spelling() == word)
    }
}

fn is_word_byte(byte: u8) -> bool
    ensures { result ≡ spec.is_word_byte byte }
{
    byte.is_ascii_alphanumeric() || byte == b'_'
}

/// How many letters, digits and `_` stand at the front of `text`.
fn word_len(text: &[u8]) -> usize
    ensures value { result ≡ spec.word_len text.now }
    ensures within { result ≤ length text.now }
{
    text.iter().take_while(|byte| is_word_byte(**byte)).count()
}

/// The name or keyword at the front of `text`, which stands at the place `at`.
pub fn word_at(text: &[u8], at: usize) -> Token
    requires room { at + length text.now < 2 ^ 64 }
    ensures value { result ≡ spec.word_at at text.now }
    ensures within { result.end ≤ at + length text.now }
{
    let len = word_len(text);
    let kind = match Keyword::spelled(&text[..len]) {
        Some(keyword) => TokenKind::Keyword(keyword),
        None => TokenKind::Name,
    };
    Token {
        kind,
        start: at,
        end: at + len,
    }
}
