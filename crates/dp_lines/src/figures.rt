// The numbers, names and labels that single words spell.

ghost use Rattle.std.specs.Prelude.{◌≡◌, ◌≤◌, ◌<◌, ◌+◌, ◌^◌, true, SomeIff, Ok, Err, drop, length};
ghost use Rattle.std.specs.Char.{digit_value};
ghost use Rattle.std.specs.List.{list_all, list_any};
ghost use Rattle.std.specs.Str.{bytes_eq};
ghost use Rattle.std.specs.Str.Parse.{digits_value};
ghost use Rattle.dp_base.specs.Names as names;
ghost use Rattle.dp_lines.specs.Allowed as allowed;
ghost use Rattle.dp_lines.specs.Figures as spec;
ghost use Rattle.dp_lines.specs.Words as words;
ghost use Rattle.dp_lines.specs.Parts.{Says};

use crate::fields::Kind;
use crate::refusal::{Fault, Flaw};
use dp_domain::{Name, Op};
use std::alloc::Global;

/// The largest number, and the largest size of a value.
const LARGEST: u64 = 1_000_000_000_000_000_000;

/// The words that are no names.
const KEYWORDS: [&[u8]; 15] = [
    b"array",
    b"bool",
    b"constraint",
    b"false",
    b"float",
    b"int",
    b"maximize",
    b"minimize",
    b"of",
    b"predicate",
    b"satisfy",
    b"set",
    b"solve",
    b"true",
    b"var",
];

/// What the byte is worth as a digit; 36 where it is none.
fn digit_value(byte: u8) -> u64
    ensures { result ≡ digit_value byte }
{
    match byte {
        b'0'..=b'9' => u64::from(byte - b'0'),
        b'A'..=b'Z' => u64::from(byte - b'A') + 10,
        b'a'..=b'z' => u64::from(byte - b'a') + 10,
        _ => 36,
    }
}

fn all_digits(text: &[u8]) -> bool
    ensures { result ≡ list_all words.is_decimal text.now }
{
    text.iter().all(|byte| byte.is_ascii_digit())
}

/// Whether these are one or more decimal digits.
fn are_digits(text: &[u8]) -> bool
    ensures { result ≡ spec.are_digits text.now }
{
    match text {
        [] => false,
        [_, ..] => all_digits(text),
    }
}

/// The number of these digits, where it keeps to the largest.
fn magnitude(digits: &[u8]) -> Option<u64>
    ensures { SomeIff result (digits_value 10 digits.now ≤ 10 ^ 18) (digits_value 10 digits.now) }
{
    let mut value: u64 = 0;
    for byte in digits {
        value = value * 10 + digit_value(*byte);
        if value > LARGEST {
            return None;
        }
    }
    Some(value)
}

/// The number from 1 to 10^18 that digits spell; `unfit` of other bytes, `beyond` of a number out of range.
fn figure(text: &[u8], unfit: Flaw, beyond: Flaw) -> Result<u64, Flaw>
    ensures { result ≡ spec.figure unfit beyond text.now }
{
    if !are_digits(text) {
        return Err(unfit);
    }
    match magnitude(text) {
        None | Some(0) => Err(beyond),
        Some(value) => Ok(value),
    }
}

/// The number of an atom or a step.
pub fn number_at(at: u64, text: &[u8]) -> Result<u64, Flaw>
    ensures { result ≡ spec.number_at at text.now }
{
    figure(text, Flaw::Form(at), Flaw::Number(at))
}

fn signed(negative: bool, size: u64) -> i64
    requires { size ≤ 10 ^ 18 }
    ensures { Ok result ≡ spec.signed_by negative (Ok size) }
{
    let value = size as i64;
    if negative { -value } else { value }
}

/// Such a number, or its negative behind a `-`.
pub fn literal_at(at: u64, text: &[u8]) -> Result<i64, Flaw>
    ensures { result ≡ spec.literal_at at text.now }
{
    match text {
        [b'-', digits @ ..] => Ok(signed(true, number_at(at, digits)?)),
        _ => Ok(signed(false, number_at(at, text)?)),
    }
}

/// Whether an atom may name the number, which lies within ±10^18.
fn is_nameable(op: Op, value: i64) -> bool
    ensures { result ≡ spec.is_nameable op value }
{
    match op {
        Op::Ge => value > -(LARGEST as i64),
        Op::Le => value < LARGEST as i64,
        Op::Eq | Op::Ne => true,
    }
}

/// The number of an atom with this comparison.
pub fn value_at(op: Op, at: u64, text: &[u8]) -> Result<i64, Flaw>
    ensures { result ≡ spec.value_at op at text.now }
{
    if text == b"0".as_slice() {
        return Ok(0);
    }
    let value = literal_at(at, text)?;
    if is_nameable(op, value) {
        Ok(value)
    } else {
        Err(Flaw::Number(at))
    }
}

/// A comparison.
pub fn op_at(at: u64, text: &[u8]) -> Result<Op, Flaw>
    ensures { result ≡ spec.op_at at text.now }
{
    match text {
        b">=" => Ok(Op::Ge),
        b"<=" => Ok(Op::Le),
        b"==" => Ok(Op::Eq),
        b"!=" => Ok(Op::Ne),
        _ => Err(Flaw::Form(at)),
    }
}

/// The kind of line that a first field names.
pub fn kind_at(at: u64, text: &[u8]) -> Result<Kind, Flaw>
    ensures { result ≡ spec.kind_at at text.now }
{
    match text {
        b"a" => Ok(Kind::Atom),
        b"i" => Ok(Kind::Inference),
        b"n" => Ok(Kind::Nogood),
        b"c" => Ok(Kind::Conclusion),
        b"d" => Err(Flaw::NotBuilt),
        _ => Err(Flaw::Form(at)),
    }
}

/// That the word is this one.
pub fn mark_at(mark: &[u8], at: u64, text: &[u8]) -> Result<(), Flaw>
    ensures { result ≡ spec.mark_at mark.now at text.now }
{
    if text == mark {
        Ok(())
    } else {
        Err(Flaw::Form(at))
    }
}

pub fn is_first(byte: u8) -> bool
    ensures { result ≡ names.is_first byte }
{
    byte.is_ascii_alphabetic() || byte == b'_'
}

pub fn is_later(byte: u8) -> bool
    ensures { result ≡ names.is_later byte }
{
    is_first(byte) || byte.is_ascii_digit()
}

fn are_later(bytes: &[u8]) -> bool
    ensures { result ≡ list_all names.is_later bytes.now }
{
    bytes.iter().all(|byte| is_later(*byte))
}

fn is_word(bytes: &[u8]) -> bool
    ensures { result ≡ names.is_word bytes.now }
{
    match bytes {
        [] => false,
        [first, rest @ ..] => is_first(*first) && are_later(rest),
    }
}

fn is_label(bytes: &[u8]) -> bool
    ensures { result ≡ allowed.is_label bytes.now }
{
    match bytes {
        [] => false,
        [_, ..] => are_later(bytes),
    }
}

fn is_among(bytes: &[u8], words: &[&[u8]]) -> bool
    ensures { result ≡ list_any (λ word. bytes_eq bytes.now word.now) words.now }
{
    words.iter().any(|word| bytes == *word)
}

fn is_keyword(bytes: &[u8]) -> bool
    ensures { result ≡ list_any (bytes_eq bytes.now) names.keywords }
{
    is_among(bytes, &KEYWORDS)
}

fn is_name(bytes: &[u8]) -> bool
    ensures { result ≡ names.is_name bytes.now }
{
    is_word(bytes) && !is_keyword(bytes)
}

/// A name.
pub fn name_at(alloc: Global, at: u64, text: &[u8]) -> Result<Name, Fault>
    ensures { Says (λ name. name) result (spec.name_at at text.now) }
{
    if !is_name(text) {
        return Err(Fault::Flawed(Flaw::Form(at)));
    }
    Ok(Name::new(text.to_vec(alloc)?))
}

/// All but the first two bytes; nothing where there are fewer.
fn behind_two(text: &[u8]) -> &[u8]
    ensures { result.now ≡ drop 2 text.now }
{
    match text {
        [_, _, rest @ ..] => rest,
        _ => &[],
    }
}

/// Whether the first two bytes are `c:`.
pub fn is_constraint(text: &[u8]) -> bool
    ensures { result ≡ spec.is_constraint text.now }
{
    matches!(text, [b'c', b':', ..])
}

/// Whether the first two bytes are `l:`.
pub fn is_label_field(text: &[u8]) -> bool
    ensures { result ≡ spec.is_label_field text.now }
{
    matches!(text, [b'l', b':', ..])
}

/// `c:` and the number of a constraint.
pub fn constraint_at(at: u64, text: &[u8]) -> Result<u64, Flaw>
    requires { at < 2 ^ 63 }
    ensures { result ≡ spec.constraint_at at text.now }
{
    figure(behind_two(text), Flaw::Form(at), Flaw::Number(at + 2))
}

/// `l:` and a label.
pub fn label_at(alloc: Global, at: u64, text: &[u8]) -> Result<Name, Fault>
    ensures { Says (λ label. label) result (spec.label_at at text.now) }
{
    let label = behind_two(text);
    if !is_label(label) {
        return Err(Fault::Flawed(Flaw::Form(at)));
    }
    Ok(Name::new(label.to_vec(alloc)?))
}
