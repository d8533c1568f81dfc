//! Marks.

ghost use Rattle.std.specs.Prelude.{◌≡◌, ◌≤◌, ◌<◌, ◌+◌, ◌^◌, length, IfOk, slice_index, slice_get};
ghost use Rattle.fz_token.specs.Mark as spec;

use crate::{Mark, Token, TokenKind, TokenRefusal};

/// The mark of one byte.
fn single(byte: u8) -> Option<Mark>
    ensures { result ≡ spec.single byte }
{
    match byte {
        b'(' => Some(Mark::OpenRound),
        b')' => Some(Mark::CloseRound),
        b'[' => Some(Mark::OpenSquare),
        b']' => Some(Mark::CloseSquare),
        b'{' => Some(Mark::OpenCurly),
        b'}' => Some(Mark::CloseCurly),
        b',' => Some(Mark::Comma),
        b';' => Some(Mark::Semicolon),
        b':' => Some(Mark::Colon),
        b'=' => Some(Mark::Equals),
        _ => None,
    }
}

/// The mark of two bytes.
fn double(first: u8, second: u8) -> Option<Mark>
    ensures { result ≡ spec.double first second }
{
    match (first, second) {
        (b':', b':') => Some(Mark::DoubleColon),
        (b'.', b'.') => Some(Mark::DoubleDot),
        _ => None,
    }
}

/// The mark at the front of `text`, which stands at the place `at`.
pub fn mark_at(text: &[u8], at: usize) -> Result<Token, TokenRefusal>
    requires nonempty { 0 < length text.now }
    requires room { at + length text.now < 2 ^ 64 }
    ensures value { result ≡ spec.mark_at at text.now }
    ensures within { IfOk result (λ token. (at < token.end) × (token.end ≤ at + length text.now)) }
{
    if text.len() > 1
        && let Some(mark) = double(text[0], text[1])
    {
        return Ok(Token {
            kind: TokenKind::Mark(mark),
            start: at,
            end: at + 2,
        });
    }
    match single(text[0]) {
        Some(mark) => Ok(Token {
            kind: TokenKind::Mark(mark),
            start: at,
            end: at + 1,
        }),
        None => Err(TokenRefusal::BadByte(at)),
    }
}
