// The words of a line, one after the other.

ghost use Rattle.std.specs.Prelude.{◌≡◌, ℕ, ◌+◌, ◌-◌, ◌<◌, ◌≤◌, ◌^◌, true, false, not, drop, take, length};
ghost use Rattle.std.specs.List.{prefix_len};
ghost use Rattle.dp_base.specs.Names as names;
ghost use Rattle.dp_lines.specs.Parts.{Left, is_done};
ghost use Rattle.dp_lines.specs.Words as spec;

use crate::figures::{is_first, is_later};
use std::marker::Model;

fn is_blank(byte: u8) -> bool
    ensures { result ≡ spec.is_blank byte }
{
    byte == b' ' || byte == b'\t'
}

fn blanks_len(text: &[u8]) -> usize
    ensures value { result ≡ prefix_len spec.is_blank text.now }
    ensures within { result ≤ length text.now }
{
    text.iter().take_while(|byte| is_blank(**byte)).count()
}

fn later_len(text: &[u8]) -> usize
    ensures value { result ≡ prefix_len names.is_later text.now }
    ensures within { result ≤ length text.now }
{
    text.iter().take_while(|byte| is_later(**byte)).count()
}

fn digits_len(text: &[u8]) -> usize
    ensures value { result ≡ prefix_len spec.is_decimal text.now }
    ensures within { result ≤ length text.now }
{
    text.iter().take_while(|byte| byte.is_ascii_digit()).count()
}

fn filled_len(text: &[u8]) -> usize
    ensures value { result ≡ prefix_len (λ b. not (spec.is_blank b)) text.now }
    ensures within { result ≤ length text.now }
{
    text.iter().take_while(|byte| !is_blank(**byte)).count()
}

/// How long the token is at the front within brackets.
fn token_len(text: &[u8]) -> usize
    requires some { 0 < length text.now }
    ensures value { result ≡ spec.token_len text.now }
    ensures within { result ≤ length text.now }
{
    match text {
        [b'A'..=b'Z' | b'a'..=b'z' | b'_', ..] => later_len(text),
        [b'0'..=b'9', ..] => digits_len(text),
        [b'-', digits @ ..] if digits_len(digits) > 0 => 1 + digits_len(digits),
        [b'>' | b'<' | b'=' | b'!', b'=', ..] => 2,
        _ => 1,
    }
}

/// How long the word is at the front, within brackets or not.
fn word_len(text: &[u8], inside: bool) -> usize
    requires some { 0 < length text.now }
    ensures value { result ≡ spec.word_len inside text.now }
    ensures within { result ≤ length text.now }
{
    if inside {
        return token_len(text);
    }
    match text {
        [b'[', ..] => 1,
        _ => filled_len(text),
    }
}

/// Whether the place behind a word that begins with this byte is within brackets.
fn is_inside_behind(inside: bool, first: u8) -> bool
    ensures { result ≡ spec.is_inside_behind inside first }
{
    if inside { first != b']' } else { first == b'[' }
}

/// Where a word begins and ends, and whether what stands behind it is within brackets.
#[derive(Clone, Copy, Drop)]
struct Span {
    start: usize,
    end: usize,
    inside: bool,
}

/// The next word of the line from the place `at` on; where none is left, no bytes at the end.
fn next_span(line: &[u8], at: usize, inside: bool) -> Span
    requires within { at ≤ length line.now }
    ensures order { (at ≤ result.start) × (result.start ≤ result.end) × (result.end ≤ length line.now) }
    ensures words { spec.words_from inside (at + 1) 0 (drop at line.now) ≡ spec.words_at result.start result.end result.inside line.now }
{
    let (_, rest) = line.split_at(at);
    let blanks = blanks_len(rest);
    let start = at + blanks;
    let (_, word) = rest.split_at(blanks);
    match word {
        [] => Span {
            start,
            end: start,
            inside,
        },
        [first, ..] => Span {
            start,
            end: start + word_len(word, inside),
            inside: is_inside_behind(inside, *first),
        },
    }
}

/// A line whose words are taken one after the other. Where the next one lies is kept, so that none is looked for twice.
#[derive(Drop)]
pub struct Words<'a> {
    line: &'a [u8],
    front: Span,
}

impl<'a> Model for Words<'a> {
    ghost use Rattle.std.specs.Prelude.{◌≤◌, ◌^◌, length};
    ghost use Rattle.dp_lines.specs.Parts.{Left};
    ghost use Rattle.dp_lines.specs.Words.{end_of, words_at};

    ghost Value = { Left };

    ghost view = { λ w. record { words = words_at w.front.start w.front.end w.front.inside w.line.now; end = end_of w.line.now } };

    ghost invariant = { λ w. (w.front.start ≤ w.front.end) × (w.front.end ≤ length w.line.now) × (length w.line.now ≤ 2 ^ 62) };
}

impl<'a> Words<'a> {
    /// The words of a line without its end.
    pub fn new(line: &'a [u8]) -> Words<'a>
        requires { length line.now ≤ 2 ^ 62 }
        ensures { result ≡ record { words = spec.words line.now; end = spec.end_of line.now } }
    {
        Words {
            line,
            front: next_span(line, 0, false),
        }
    }

    /// Takes the next word, and gives its place from 1 and its bytes; where none is left, no bytes at the end.
    pub fn next(&mut self) -> (u64, &'a [u8])
        ensures place { result.0 ≡ (spec.front_word self.old.end self.old.words).at }
        ensures text { result.1.now ≡ (spec.front_word self.old.end self.old.words).text }
        ensures rest { self.new.words ≡ drop 1 self.old.words }
        ensures end { self.new.end ≡ self.old.end }
        ensures bound { result.0 < 2 ^ 63 }
    {
        let Span { start, end, inside } = self.front;
        self.front = next_span(self.line, end, inside);
        (start as u64 + 1, &self.line[start..end])
    }

    /// The bytes of the next word; none where none is left.
    pub fn peek(&self) -> &'a [u8]
        ensures { result.now ≡ (spec.front_word self.now.end self.now.words).text }
    {
        &self.line[self.front.start..self.front.end]
    }

    /// Whether none is left.
    pub fn is_done(&self) -> bool
        ensures { result ≡ is_done self.now.words }
    {
        self.front.start == self.line.len()
    }
}
