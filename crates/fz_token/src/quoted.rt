//! Strings.

ghost use Rattle.std.specs.Prelude.{◌≡◌, ◌≤◌, ◌<◌, ◌+◌, ◌^◌, length, IfOk, drop, IfSome, true, false};
ghost use Rattle.fz_token.specs.Quoted as spec;

use crate::{Token, TokenKind, TokenRefusal};

/// How many bytes there are up to and with the closing quote, where `body` follows the opening quote.
fn closed_len(body: &[u8]) -> Option<usize>
    ensures value { result ≡ spec.closed_len 0 false body.now }
    ensures within { IfSome result (λ len. len ≤ length body.now) }
{
    let mut taken = false;
    for (i, byte) in body.iter().enumerate() {
        if *byte == b'\n' {
            return None;
        }
        if *byte == b'"' && !taken {
            return Some(i + 1);
        }
        taken = *byte == b'\\' && !taken;
    }
    None
}

/// The string at the front of `text`, which stands at the place `at` and begins with a quote.
pub fn quoted_at(text: &[u8], at: usize) -> Result<Token, TokenRefusal>
    requires nonempty { 0 < length text.now }
    requires room { at + length text.now < 2 ^ 64 }
    ensures value { result ≡ spec.quoted_at at text.now }
    ensures within { IfOk result (λ token. (at < token.end) × (token.end ≤ at + length text.now)) }
{
    match closed_len(&text[1..]) {
        Some(len) => Ok(Token {
            kind: TokenKind::Quoted,
            start: at,
            end: at + 1 + len,
        }),
        None => Err(TokenRefusal::OpenString(at)),
    }
}
