//! Integers and floats.

ghost use Rattle.std.specs.Prelude.{◌≡◌, ◌≤◌, ◌<◌, ◌+◌, ◌^◌, length, IfSome, IfOk, SomeIff};
ghost use Rattle.std.specs.Char.{digit_value};
ghost use Rattle.std.specs.Str.Parse.{digits_value};
ghost use Rattle.fz_token.specs.Number as spec;

use crate::{Token, TokenKind, TokenRefusal};

/// The largest magnitude of an integer.
const LIMIT: u64 = 1_000_000_000_000_000_000;

/// What the byte is worth as a digit; 36 where it is none.
fn digit_value(byte: u8) -> u64
    ensures { result ≡ digit_value byte }
{
    match byte {
        b'0'..=b'9' => u64::from(byte - b'0'),
        b'A'..=b'Z' => u64::from(byte - b'A') + 10,
        b'a'..=b'z' => u64::from(byte - b'a') + 10,
        _ => 36,
    }
}

/// How many digits of the base `radix` stand at the front of `text`.
fn digits_len(text: &[u8], radix: u64) -> usize
    ensures value { result ≡ spec.digits_len radix text.now }
    ensures within { result ≤ length text.now }
{
    text.iter()
        .take_while(|byte| digit_value(**byte) < radix)
        .count()
}

/// How long the fraction at the front of `text` is, a `.` and digits; 0 where there is none.
fn fraction_len(text: &[u8]) -> usize
    ensures value { result ≡ spec.fraction_len text.now }
    ensures within { result ≤ length text.now }
{
    let [b'.', rest @ ..] = text else {
        return 0;
    };
    match digits_len(rest, 10) {
        0 => 0,
        digits => 1 + digits,
    }
}

/// How long the exponent at the front of `text` is, an `e` or `E`, perhaps a sign, and digits; 0 where there is none.
fn exponent_len(text: &[u8]) -> usize
    ensures value { result ≡ spec.exponent_len text.now }
    ensures within { result ≤ length text.now }
{
    let [b'e' | b'E', rest @ ..] = text else {
        return 0;
    };
    let sign = match rest {
        [b'+' | b'-', ..] => 1,
        _ => 0,
    };
    match digits_len(&rest[sign..], 10) {
        0 => 0,
        digits => 1 + sign + digits,
    }
}

/// How long the fraction and exponent are that follow the digits of a float; 0 where neither is there.
fn float_tail_len(text: &[u8]) -> usize
    ensures value { result ≡ spec.float_tail_len text.now }
    ensures within { result ≤ length text.now }
{
    let fraction = fraction_len(text);
    fraction + exponent_len(&text[fraction..])
}

/// The base that the front of an integer names.
fn radix_of(text: &[u8]) -> u64
    ensures value { result ≡ spec.radix_of text.now }
    ensures bound { (8 ≤ result) × (result ≤ 16) }
{
    match text {
        [b'0', b'x', ..] => 16,
        [b'0', b'o', ..] => 8,
        _ => 10,
    }
}

/// The number that these digits spell, where it keeps to the limit.
fn magnitude(digits: &[u8], radix: u64) -> Option<u64>
    requires { (0 < radix) × (radix ≤ 16) }
    ensures { SomeIff result (digits_value radix digits.now ≤ spec.limit) (digits_value radix digits.now) }
{
    let mut value: u64 = 0;
    for byte in digits {
        value = value * radix + digit_value(*byte);
        if value > LIMIT {
            return None;
        }
    }
    Some(value)
}

/// How long the name of the base is in front of its digits.
fn base_len(radix: u64) -> usize
    ensures { result ≡ spec.base_len radix }
{
    if radix == 10 { 0 } else { 2 }
}

fn signed(negative: bool, magnitude: u64) -> i64
    requires { magnitude ≤ spec.limit }
    ensures { result ≡ spec.signed negative magnitude }
{
    let value = magnitude as i64;
    if negative { -value } else { value }
}

/// The integer at the front of `text`, which follows its sign: its value, and how long it is without the sign.
/// There is none where it has no digits or is beyond the limit.
#[tactic(auto, unfolding(crate::specs::Number::integer))]
fn integer(text: &[u8], negative: bool) -> Option<(i64, usize)>
    ensures value { result ≡ spec.integer negative text.now }
    ensures within { IfSome result (λ found. (0 < found.1) × (found.1 ≤ length text.now)) }
{
    let radix = radix_of(text);
    let base = base_len(radix);
    let (_, rest) = text.split_at(base);
    let len = digits_len(rest, radix);
    if len == 0 {
        return None;
    }
    let (digits, _) = rest.split_at(len);
    let magnitude = magnitude(digits, radix)?;
    Some((signed(negative, magnitude), base + len))
}

/// The number that begins at the place `start` and whose digits stand at `at`, at the front of `text`.
fn unsigned_at(text: &[u8], negative: bool, start: usize, at: usize) -> Result<Token, TokenRefusal>
    requires order { start ≤ at }
    requires room { at + length text.now < 2 ^ 64 }
    ensures value { result ≡ spec.unsigned_at negative start at text.now }
    ensures within { IfOk result (λ token. (start < token.end) × (token.end ≤ at + length text.now)) }
{
    let whole = digits_len(text, 10);
    if whole == 0 {
        return Err(TokenRefusal::BadByte(start));
    }
    let (_, rest) = text.split_at(whole);
    let tail = float_tail_len(rest);
    if tail > 0 {
        let end = at + whole + tail;
        return Ok(Token {
            kind: TokenKind::Float,
            start,
            end,
        });
    }
    match integer(text, negative) {
        Some((value, len)) => Ok(Token {
            kind: TokenKind::Integer(value),
            start,
            end: at + len,
        }),
        None => Err(TokenRefusal::Number(start)),
    }
}

/// The number at the front of `text`, which stands at the place `at` and begins with a digit or `-`.
#[tactic(auto, unfolding(crate::specs::Number::number_at))]
pub fn number_at(text: &[u8], at: usize) -> Result<Token, TokenRefusal>
    requires room { at + length text.now < 2 ^ 64 }
    ensures value { result ≡ spec.number_at at text.now }
    ensures within { IfOk result (λ token. (at < token.end) × (token.end ≤ at + length text.now)) }
{
    match text {
        [b'-', rest @ ..] => unsigned_at(rest, true, at, at + 1),
        _ => unsigned_at(text, false, at, at),
    }
}
