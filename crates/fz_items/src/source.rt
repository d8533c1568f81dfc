//! The words of a text, one after another, with a look at what follows.

ghost use Rattle.std.specs.Prelude.{◌≡◌, [], ◌∷◌, MatchOption, length};
ghost use Rattle.dp_grammar.specs.Choice.{begins};
ghost use Rattle.fz_token.specs.Stream.{Stream, stream, before};
ghost use Rattle.fz_model.specs.Marks.{is_key};
ghost use Rattle.fz_model.specs.Words.{words, begins_dotted};
ghost use Rattle.fz_items.specs.Seen.{word_of, is_mark};
ghost use Rattle.fz_items.specs.Refusals.{here, unsupported_at};
ghost use Rattle.fz_items.specs.Standing.{Standing, behind};

use crate::unsupported::is_unsupported;
use fz_token::{Keyword, Mark, Token, TokenKind, TokenRefusal, Tokens};
use std::marker::Model;

/// A word that stands in the text: what its token is, its bytes, and whether `..` follows.
#[derive(Clone, Copy, Debug)]
pub struct Seen<'a> {
    pub kind: TokenKind,
    pub bytes: &'a [u8],
    pub dotted: bool,
}

/// The words that are left of a text.
#[derive(Debug, Drop)]
pub struct Source<'a> {
    text: &'a [u8],
    tokens: Tokens<'a>,
    present: Result<Option<Token>, TokenRefusal>,
    ahead: Result<Option<Token>, TokenRefusal>,
    last: Option<TokenKind>,
    earlier: Option<TokenKind>,
}

impl<'a> Model for Source<'a> {
    ghost use Rattle.std.specs.Prelude.{◌≡◌};
    ghost use Rattle.fz_model.specs.Words.{words};
    ghost use Rattle.fz_items.specs.Standing.{Standing, IsBehind, IsLeft, left_of};

    ghost Value = { Standing };

    ghost view = { λ s. record { text = s.text.now; left = words s.text.now (left_of s.present s.ahead s.tokens).tokens } };

    ghost invariant = { λ s. (s.tokens.text ≡ s.text.now) × IsLeft s.text.now (left_of s.present s.ahead s.tokens) × IsBehind s.text.now (left_of s.present s.ahead s.tokens) s.last s.earlier };
}

impl<'a> Source<'a> {
    /// All words of `text`.
    pub fn new(text: &'a [u8]) -> Source<'a>
        ensures { result ≡ record { text = text.entry.now; left = words text.entry.now (stream text.entry.now).tokens } }
    {
        let mut tokens = Tokens::new(text);
        let present = tokens.next();
        let ahead = tokens.next();
        Source {
            text,
            tokens,
            present,
            ahead,
            last: None,
            earlier: None,
        }
    }

    /// Passes over the first word.
    pub fn advance(&mut self)
        ensures text { self.new.text ≡ self.old.text }
        ensures left { self.new.left ≡ behind self.old.left }
    {
        if let Ok(Some(token)) = self.present {
            self.earlier = self.last;
            self.last = Some(token.kind);
            self.present = self.ahead;
            self.ahead = self.tokens.next();
        }
    }

    /// The first word, if one is left.
    pub fn word(&self) -> Option<Seen<'a>>
        ensures { MatchOption result (self.now.left ≡ []) (λ seen. self.now.left ≡ word_of seen ∷ behind self.now.left) }
    {
        match self.present {
            Ok(Some(token)) => Some(Seen {
                kind: token.kind,
                bytes: &self.text[token.start..token.end],
                dotted: is_double_dot(&self.ahead),
            }),
            _ => None,
        }
    }
}

impl Source<'_> {
    /// The place of the first word, or the text's length where no word is left; or why no token is there.
    pub fn place(&self) -> Result<usize, TokenRefusal>
        ensures { result ≡ here (length self.now.text) (stream self.now.text) self.now.left }
    {
        match self.present {
            Ok(Some(token)) => Ok(token.start),
            Ok(None) => Ok(self.text.len()),
            Err(refusal) => Err(refusal),
        }
    }

    /// Whether the first word is known and not supported behind the words before it.
    pub fn is_unsupported(&self) -> bool
        ensures { result ≡ unsupported_at (words self.now.text (stream self.now.text).tokens) self.now.left }
    {
        match self.word() {
            Some(seen) => is_unsupported(seen.kind, self.last, self.earlier),
            None => false,
        }
    }
}

/// Whether `..` comes next.
fn is_double_dot(next: &Result<Option<Token>, TokenRefusal>) -> bool
    ensures { (rest : Stream) → result ≡ begins_dotted (before next.now rest).tokens }
{
    match next {
        Ok(Some(token)) => token.kind == TokenKind::Mark(Mark::DoubleDot),
        _ => false,
    }
}
