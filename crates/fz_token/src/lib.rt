//! The tokens of FlatZinc text.
//!
//! The forms of names, keywords, integers, floats, comments and marks are those of the FlatZinc grammar in the
//! MiniZinc handbook. This crate's own choices are: a string in which a backslash takes the byte after it, other than
//! a line feed; the limit of 10^18 on integers of either sign; keywords of the integer profile alone; and
//! the place that each refusal names. Letters are ASCII, and a byte from 128 on stands only in a string or a comment.
#![tactic(auto)]

mod gap;
mod marks;
mod number;
mod quoted;
mod scan;
mod word;

ghost use Rattle.std.specs.Prelude.{◌≡◌, ◌≤◌, length};

use std::marker::Model;
use thiserror::Error;

/// The words that are no names.
#[derive(Clone, Copy, Debug, PartialEq, Eq)]
pub enum Keyword {
    Array,
    Bool,
    Constraint,
    False,
    Float,
    Int,
    Maximize,
    Minimize,
    Of,
    Predicate,
    Satisfy,
    Set,
    Solve,
    True,
    Var,
}

/// A token that is spelled in one way.
#[derive(Clone, Copy, Debug, PartialEq, Eq)]
pub enum Mark {
    /// `(`
    OpenRound,
    /// `)`
    CloseRound,
    /// `[`
    OpenSquare,
    /// `]`
    CloseSquare,
    /// `{`
    OpenCurly,
    /// `}`
    CloseCurly,
    /// `,`
    Comma,
    /// `;`
    Semicolon,
    /// `:`
    Colon,
    /// `::`
    DoubleColon,
    /// `=`
    Equals,
    /// `..`
    DoubleDot,
}

/// What a token is. The text of a name, a float or a string is that between the token's places.
#[derive(Clone, Copy, Debug, PartialEq, Eq)]
pub enum TokenKind {
    /// A letter or `_`, then letters, digits and `_`; no keyword.
    Name,
    Keyword(Keyword),
    /// Decimal, or hexadecimal after `0x`, or octal after `0o`, with its sign: within 10^18 of 0.
    Integer(i64),
    /// Decimal digits with a fraction, an exponent or both.
    Float,
    /// A string with both its quotes.
    Quoted,
    Mark(Mark),
}

/// A token, from the byte at `start` up to the byte before `end`, counted from 0.
#[derive(Clone, Copy, Debug, PartialEq, Eq)]
pub struct Token {
    pub kind: TokenKind,
    pub start: usize,
    pub end: usize,
}

/// Why no token stands at a place, and the place, counted in bytes from 0.
#[derive(Clone, Copy, Debug, PartialEq, Eq, Error)]
pub enum TokenRefusal {
    /// No token begins with the byte at this place.
    #[error("byte {0}: no token begins here")]
    BadByte(usize),
    /// An integer begins at this place that is beyond 10^18, or has no digit after `0x` or `0o`.
    #[error("byte {0}: the integer is too large or has no digits")]
    Number(usize),
    /// The quote at this place opens a string that its line does not close.
    #[error("byte {0}: the string is not closed on its line")]
    OpenString(usize),
}

/// Reads the tokens of a text, one at a call. It takes no memory.
#[derive(Debug, Drop)]
pub struct Tokens<'a> {
    text: &'a [u8],
    at: usize,
}

impl<'a> Model for Tokens<'a> {
    ghost use Rattle.std.specs.Prelude.{◌≤◌, length};
    ghost use Rattle.fz_token.specs.Reading.{Reading};

    ghost Value = { Reading };

    ghost view = { λ t. record { text = t.text.now; at = t.at } };

    ghost invariant = { λ t. t.at ≤ length t.text.now };
}

impl<'a> Tokens<'a> {
    ghost use Rattle.std.specs.Prelude.{◌<◌, ◌↔◌, IfOk, IfSome, OnErr};
    ghost use Rattle.fz_token.specs.Next.{IsNext, IsOnlyNext, IsUsedUp};
    ghost use Rattle.fz_token.specs.Stream.{IsInOrder, next_of, place_after, stream, stream_at, before};

    /// The tokens from the first byte of `text` on.
    pub fn new(text: &'a [u8]) -> Tokens<'a>
        ensures start { result ≡ record { text = text.entry.now; at = 0 } }

        // The tokens of any text stand in it, one behind another.
        ensures in_order { IsInOrder 0 (length text.entry.now) (stream text.entry.now).tokens }
    {
        Tokens { text, at: 0 }
    }

    /// The next token; `None` where only blanks and comments are left. A refusal is answered again.
    /// The time it takes is in proportion to the bytes up to the token's end.
    pub fn next(&mut self) -> Result<Option<Token>, TokenRefusal>
        ensures answer { result ≡ next_of self.old }
        ensures place { self.new ≡ record self.old { at = place_after result self.old.at } }
        ensures err { OnErr result (self.new ≡ self.old) }

        // It is the one answer that the table of forms gives.
        ensures table { IsNext self.old result }
        ensures only { IsOnlyNext self.old result }
        ensures end { (result ≡ Ok None) ↔ IsUsedUp self.old }

        // One call after another gives the tokens of the text, and uses it up.
        ensures stream { stream_at self.old ≡ before result (stream_at self.new) }
        ensures progress { IfOk result (λ next. IfSome next (λ token.
            (self.old.at < token.end) × (token.end ≤ length self.old.text))) }
    {
        let next = scan::next_token(self.text, self.at);
        if let Ok(Some(token)) = next {
            self.at = token.end;
        }
        next
    }
}
