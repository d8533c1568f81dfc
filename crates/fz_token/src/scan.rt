//! The next token of a text.

ghost use Rattle.std.specs.Prelude.{◌≡◌, ◌≤◌, ◌<◌, ◌+◌, ◌^◌, ◌↔◌, length, IfOk, IfSome};
ghost use Rattle.fz_token.specs.Next.{IsNext, IsOnlyNext, IsUsedUp};
ghost use Rattle.fz_token.specs.Stream.{next_of, stream_at, before, place_after};
ghost use Rattle.fz_token.specs.Token as spec;

use crate::gap::gap_end;
use crate::marks::mark_at;
use crate::number::number_at;
use crate::quoted::quoted_at;
use crate::word::word_at;
use crate::{Token, TokenRefusal};

/// The token at the front of `text`, which stands at the place `at`.
#[tactic(auto, unfolding(crate::specs::Token::token_at))]
pub fn token_at(text: &[u8], at: usize) -> Result<Token, TokenRefusal>
    requires nonempty { 0 < length text.now }
    requires room { at + length text.now < 2 ^ 64 }
    ensures value { result ≡ spec.token_at at text.now }
    ensures within { IfOk result (λ token. (at < token.end) × (token.end ≤ at + length text.now)) }
{
    match text[0] {
        b'A'..=b'Z' | b'a'..=b'z' | b'_' => Ok(word_at(text, at)),
        b'0'..=b'9' | b'-' => number_at(text, at),
        b'"' => quoted_at(text, at),
        _ => mark_at(text, at),
    }
}

/// The next token from the place `at` on, if one is left.
pub fn next_token(text: &[u8], at: usize) -> Result<Option<Token>, TokenRefusal>
    requires { at ≤ length text.now }
    ensures answer { result ≡ next_of (record { text = text.now; at = at }) }
    ensures stream { stream_at (record { text = text.now; at = at })
        ≡ before result (stream_at (record { text = text.now; at = place_after result at })) }
    ensures table { IsNext (record { text = text.now; at = at }) result }
    ensures only { IsOnlyNext (record { text = text.now; at = at }) result }
    ensures end { (result ≡ Ok None) ↔ IsUsedUp (record { text = text.now; at = at }) }
    ensures within { IfOk result (λ next. IfSome next (λ token. (at < token.end) × (token.end ≤ length text.now))) }
{
    let start = gap_end(text, at);
    if start == text.len() {
        return Ok(None);
    }
    let (_, rest) = text.split_at(start);
    token_at(rest, start).map(Some)
}
