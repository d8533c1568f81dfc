//! Words that are known and not supported.

ghost use Rattle.std.specs.Prelude.{◌≡◌, Some, option_map};
ghost use Rattle.fz_model.specs.Marks.{is_key};
ghost use Rattle.fz_model.specs.ModelText as grammar;
ghost use Rattle.fz_model.specs.ModelText.{is_word};
ghost use Rattle.fz_items.specs.Refusals.{bare, unsupported_kind};

use fz_token::{Keyword, Mark, TokenKind};

/// Whether a word of this kind is the keyword.
fn is_keyword(kind: Option<TokenKind>, keyword: Keyword) -> bool
    ensures { result ≡ is_word (is_key keyword) (option_map bare kind) }
{
    match kind {
        Some(TokenKind::Keyword(other)) => other == keyword,
        _ => false,
    }
}

/// Whether a word of this kind is `]`.
fn is_square_close(kind: Option<TokenKind>) -> bool
    ensures { result ≡ is_word grammar.is_square_close (option_map bare kind) }
{
    match kind {
        Some(TokenKind::Mark(Mark::CloseSquare)) => true,
        _ => false,
    }
}

/// Whether a word of this kind is `float` or a float.
fn is_float(kind: TokenKind) -> bool
    ensures { result ≡ grammar.is_float (bare kind) }
{
    match kind {
        TokenKind::Float | TokenKind::Keyword(Keyword::Float) => true,
        _ => false,
    }
}

/// Whether a word of this kind is not supported behind one of the `last` kind, and one of the `earlier` kind before it.
pub fn is_unsupported(kind: TokenKind, last: Option<TokenKind>, earlier: Option<TokenKind>) -> bool
    ensures { result ≡ unsupported_kind kind last earlier }
{
    is_float(kind)
        || (is_keyword(Some(kind), Keyword::Set)
            && (is_keyword(last, Keyword::Var)
                || (is_keyword(last, Keyword::Of) && is_square_close(earlier))))
}
