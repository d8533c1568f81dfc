//! Texts with their tokens, a row each: a short name, the text, its tokens, and the refusal after them if there is one.

use fz_token::TokenKind::{Float, Integer, Keyword, Mark, Name, Quoted};
use fz_token::TokenRefusal::{BadByte, Number, OpenString};
use fz_token::{Keyword as K, Mark as M, *};
use std::process::Abort;

/// A kind, and the places of the first byte and of the byte after the last.
type Wanted = (TokenKind, usize, usize);

type Row = (
    &'static str,
    &'static [u8],
    &'static [Wanted],
    Option<TokenRefusal>,
);

const GAPS: [Row; 9] = [
    ("empty text", b"", &[], None),
    ("every blank", b" \t\r\nx", &[(Name, 4, 5)], None),
    ("blanks alone", b" \r\n\t ", &[], None),
    ("comment ends at LF", b"% a b\nc", &[(Name, 6, 7)], None),
    (
        "comment without LF at the end",
        b"a % b",
        &[(Name, 0, 1)],
        None,
    ),
    (
        "CR does not end a comment",
        b"% a\rb\nc",
        &[(Name, 6, 7)],
        None,
    ),
    (
        "comment in a comment",
        b"%% a % b\n% c\n\nd",
        &[(Name, 14, 15)],
        None,
    ),
    (
        "comment parts a name",
        b"a%b\nc",
        &[(Name, 0, 1), (Name, 4, 5)],
        None,
    ),
    (
        "any byte in a comment",
        b"%\x00\xff\"\n1",
        &[(Integer(1), 5, 6)],
        None,
    ),
];

const WORDS: [Row; 12] = [
    ("one letter", b"x", &[(Name, 0, 1)], None),
    ("letters, digits and _", b"_aZ9_", &[(Name, 0, 5)], None),
    (
        "array bool constraint",
        b"array bool constraint",
        &[
            (Keyword(K::Array), 0, 5),
            (Keyword(K::Bool), 6, 10),
            (Keyword(K::Constraint), 11, 21),
        ],
        None,
    ),
    (
        "false float int",
        b"false float int",
        &[
            (Keyword(K::False), 0, 5),
            (Keyword(K::Float), 6, 11),
            (Keyword(K::Int), 12, 15),
        ],
        None,
    ),
    (
        "maximize minimize of",
        b"maximize minimize of",
        &[
            (Keyword(K::Maximize), 0, 8),
            (Keyword(K::Minimize), 9, 17),
            (Keyword(K::Of), 18, 20),
        ],
        None,
    ),
    (
        "predicate satisfy set",
        b"predicate satisfy set",
        &[
            (Keyword(K::Predicate), 0, 9),
            (Keyword(K::Satisfy), 10, 17),
            (Keyword(K::Set), 18, 21),
        ],
        None,
    ),
    (
        "solve true var",
        b"solve true var",
        &[
            (Keyword(K::Solve), 0, 5),
            (Keyword(K::True), 6, 10),
            (Keyword(K::Var), 11, 14),
        ],
        None,
    ),
    (
        "keyword and more letters",
        b"variable",
        &[(Name, 0, 8)],
        None,
    ),
    ("keyword and a digit", b"of1", &[(Name, 0, 3)], None),
    ("keyword and _", b"set_", &[(Name, 0, 4)], None),
    ("keyword in capitals", b"Var", &[(Name, 0, 3)], None),
    ("front of a keyword", b"minimiz", &[(Name, 0, 7)], None),
];

const INTEGERS: [Row; 27] = [
    ("zero", b"0", &[(Integer(0), 0, 1)], None),
    ("leading zeros", b"00", &[(Integer(0), 0, 2)], None),
    (
        "leading zero and a digit",
        b"012",
        &[(Integer(12), 0, 3)],
        None,
    ),
    ("negative", b"-7", &[(Integer(-7), 0, 2)], None),
    ("negative zero", b"-0", &[(Integer(0), 0, 2)], None),
    ("hexadecimal", b"0x1aF", &[(Integer(431), 0, 5)], None),
    (
        "negative hexadecimal",
        b"-0x1F",
        &[(Integer(-31), 0, 5)],
        None,
    ),
    ("octal", b"0o17", &[(Integer(15), 0, 4)], None),
    (
        "octal up to the 8",
        b"0o178",
        &[(Integer(15), 0, 4), (Integer(8), 4, 5)],
        None,
    ),
    ("no hexadecimal digit", b"0x", &[], Some(Number(0))),
    (
        "no hexadecimal digit after a sign",
        b" -0xg",
        &[],
        Some(Number(1)),
    ),
    ("no octal digit", b"0o8", &[], Some(Number(0))),
    (
        "capital X",
        b"0X1",
        &[(Integer(0), 0, 1), (Name, 1, 3)],
        None,
    ),
    (
        "capital O",
        b"0O7",
        &[(Integer(0), 0, 1), (Name, 1, 3)],
        None,
    ),
    (
        "digits and letters",
        b"12ab",
        &[(Integer(12), 0, 2), (Name, 2, 4)],
        None,
    ),
    (
        "two zeros and x",
        b"00x1",
        &[(Integer(0), 0, 2), (Name, 2, 4)],
        None,
    ),
    (
        "minus between digits",
        b"1-2",
        &[(Integer(1), 0, 1), (Integer(-2), 1, 3)],
        None,
    ),
    ("minus alone", b"-", &[], Some(BadByte(0))),
    ("two minuses", b"--1", &[], Some(BadByte(0))),
    (
        "minus and a blank",
        b"a - 1",
        &[(Name, 0, 1)],
        Some(BadByte(2)),
    ),
    ("plus", b"+1", &[], Some(BadByte(0))),
    (
        "10^18",
        b"1000000000000000000 -1000000000000000000",
        &[
            (Integer(1_000_000_000_000_000_000), 0, 19),
            (Integer(-1_000_000_000_000_000_000), 20, 40),
        ],
        None,
    ),
    ("10^18 + 1", b" 1000000000000000001", &[], Some(Number(1))),
    ("-10^18 - 1", b" -1000000000000000001", &[], Some(Number(1))),
    (
        "10^18 in base 16",
        b"0xde0b6b3a7640000 -0xDE0B6B3A7640000",
        &[
            (Integer(1_000_000_000_000_000_000), 0, 17),
            (Integer(-1_000_000_000_000_000_000), 18, 36),
        ],
        None,
    ),
    (
        "10^18 in base 8",
        b"0o67405553164731000000 -0o067405553164731000000",
        &[
            (Integer(1_000_000_000_000_000_000), 0, 22),
            (Integer(-1_000_000_000_000_000_000), 23, 47),
        ],
        None,
    ),
    (
        "many zeros",
        b"00000000000000000000000000000000001",
        &[(Integer(1), 0, 35)],
        None,
    ),
];

const TOO_LARGE: [Row; 5] = [
    (
        "10^18 + 1 in base 16",
        b"0xde0b6b3a7640001",
        &[],
        Some(Number(0)),
    ),
    (
        "-10^18 - 1 in base 16",
        b"-0xde0b6b3a7640001",
        &[],
        Some(Number(0)),
    ),
    (
        "10^18 + 1 in base 8",
        b"0o67405553164731000001",
        &[],
        Some(Number(0)),
    ),
    (
        "-10^18 - 1 in base 8",
        b"-0o67405553164731000001",
        &[],
        Some(Number(0)),
    ),
    (
        "forty digits",
        b"9999999999999999999999999999999999999999",
        &[],
        Some(Number(0)),
    ),
];

const FLOATS: [Row; 16] = [
    ("fraction", b"1.5", &[(Float, 0, 3)], None),
    ("negative fraction", b"-0.25", &[(Float, 0, 5)], None),
    ("exponent", b"1e5", &[(Float, 0, 3)], None),
    (
        "capital exponent with plus",
        b"1E+05",
        &[(Float, 0, 5)],
        None,
    ),
    ("fraction and exponent", b"1.5e-3", &[(Float, 0, 6)], None),
    (
        "beyond the limit of integers",
        b"99999999999999999999.0",
        &[(Float, 0, 22)],
        None,
    ),
    (
        "range",
        b"1..5",
        &[
            (Integer(1), 0, 1),
            (Mark(M::DoubleDot), 1, 3),
            (Integer(5), 3, 4),
        ],
        None,
    ),
    (
        "range to a negative",
        b"-2..-1",
        &[
            (Integer(-2), 0, 2),
            (Mark(M::DoubleDot), 2, 4),
            (Integer(-1), 4, 6),
        ],
        None,
    ),
    (
        "range from a float",
        b"1.5..2",
        &[
            (Float, 0, 3),
            (Mark(M::DoubleDot), 3, 5),
            (Integer(2), 5, 6),
        ],
        None,
    ),
    (
        "digits and a dot",
        b"1.",
        &[(Integer(1), 0, 1)],
        Some(BadByte(1)),
    ),
    ("dot and digits", b".5", &[], Some(BadByte(0))),
    (
        "three dots",
        b"1...",
        &[(Integer(1), 0, 1), (Mark(M::DoubleDot), 1, 3)],
        Some(BadByte(3)),
    ),
    (
        "exponent without digits",
        b"1e",
        &[(Integer(1), 0, 1), (Name, 1, 2)],
        None,
    ),
    (
        "signed exponent without digits",
        b"1e-",
        &[(Integer(1), 0, 1), (Name, 1, 2)],
        Some(BadByte(2)),
    ),
    (
        "exponent without digits after a fraction",
        b"1.5e",
        &[(Float, 0, 3), (Name, 3, 4)],
        None,
    ),
    (
        "fraction of a hexadecimal",
        b"0x1.5",
        &[(Integer(1), 0, 3)],
        Some(BadByte(3)),
    ),
];

const STRINGS: [Row; 12] = [
    ("empty string", b"\"\"", &[(Quoted, 0, 2)], None),
    (
        "two strings",
        b"\"a\"\"b\"",
        &[(Quoted, 0, 3), (Quoted, 3, 6)],
        None,
    ),
    (
        "quote after a backslash",
        b"\"a\\\"b\"",
        &[(Quoted, 0, 6)],
        None,
    ),
    ("two backslashes", b"\"\\\\\"", &[(Quoted, 0, 4)], None),
    (
        "three backslashes",
        b"\"\\\\\\\"\"",
        &[(Quoted, 0, 6)],
        None,
    ),
    (
        "comment's sign",
        b"\"%\" a",
        &[(Quoted, 0, 3), (Name, 4, 5)],
        None,
    ),
    (
        "CR, NUL and high bytes",
        b"\"\r\x00\x80\xff\"",
        &[(Quoted, 0, 6)],
        None,
    ),
    (
        "open at the end",
        b"a \"b",
        &[(Name, 0, 1)],
        Some(OpenString(2)),
    ),
    ("open at LF", b"\"a\nb\"", &[], Some(OpenString(0))),
    (
        "backslash before LF",
        b"\"a\\\n\"",
        &[],
        Some(OpenString(0)),
    ),
    ("backslash at the end", b"\"a\\", &[], Some(OpenString(0))),
    ("closing quote taken", b" \"a\\\"", &[], Some(OpenString(1))),
];

const MARKS: [Row; 10] = [
    (
        "brackets",
        b"()[]{}",
        &[
            (Mark(M::OpenRound), 0, 1),
            (Mark(M::CloseRound), 1, 2),
            (Mark(M::OpenSquare), 2, 3),
            (Mark(M::CloseSquare), 3, 4),
            (Mark(M::OpenCurly), 4, 5),
            (Mark(M::CloseCurly), 5, 6),
        ],
        None,
    ),
    (
        "comma, semicolon, equals",
        b",;=",
        &[
            (Mark(M::Comma), 0, 1),
            (Mark(M::Semicolon), 1, 2),
            (Mark(M::Equals), 2, 3),
        ],
        None,
    ),
    ("colon", b":", &[(Mark(M::Colon), 0, 1)], None),
    ("double colon", b"::", &[(Mark(M::DoubleColon), 0, 2)], None),
    (
        "three colons",
        b":::",
        &[(Mark(M::DoubleColon), 0, 2), (Mark(M::Colon), 2, 3)],
        None,
    ),
    (
        "colons apart",
        b": :",
        &[(Mark(M::Colon), 0, 1), (Mark(M::Colon), 2, 3)],
        None,
    ),
    ("dots apart", b". .", &[], Some(BadByte(0))),
    (
        "other signs",
        b"=<",
        &[(Mark(M::Equals), 0, 1)],
        Some(BadByte(1)),
    ),
    ("high byte", b"a\xc3\xa9", &[(Name, 0, 1)], Some(BadByte(1))),
    ("NUL", b"a \x00", &[(Name, 0, 1)], Some(BadByte(2))),
];

const ITEMS: [Row; 2] = [
    (
        "variable item",
        b"var 1..5: x :: output_var;",
        &[
            (Keyword(K::Var), 0, 3),
            (Integer(1), 4, 5),
            (Mark(M::DoubleDot), 5, 7),
            (Integer(5), 7, 8),
            (Mark(M::Colon), 8, 9),
            (Name, 10, 11),
            (Mark(M::DoubleColon), 12, 14),
            (Name, 15, 25),
            (Mark(M::Semicolon), 25, 26),
        ],
        None,
    ),
    (
        "constraint item",
        b"constraint int_le(x,3); % last",
        &[
            (Keyword(K::Constraint), 0, 10),
            (Name, 11, 17),
            (Mark(M::OpenRound), 17, 18),
            (Name, 18, 19),
            (Mark(M::Comma), 19, 20),
            (Integer(3), 20, 21),
            (Mark(M::CloseRound), 21, 22),
            (Mark(M::Semicolon), 22, 23),
        ],
        None,
    ),
];

fn check(rt: &impl Abort, rows: &[Row]) {
    for (name, text, wanted, refusal) in rows {
        let mut tokens = Tokens::new(text);
        for (kind, start, end) in *wanted {
            let token = Token {
                kind: *kind,
                start: *start,
                end: *end,
            };
            assert_eq!(rt; tokens.next(), Ok(Some(token)), "{name}");
        }
        let last = match refusal {
            Some(refusal) => Err(*refusal),
            None => Ok(None),
        };
        assert_eq!(rt; tokens.next(), last, "{name}");
        assert_eq!(rt; tokens.next(), last, "{name}: asked again");
    }
}

#[test]
fn blanks_and_comments(rt: HostRuntime) {
    check(&rt, &GAPS);
}

#[test]
fn words(rt: HostRuntime) {
    check(&rt, &WORDS);
}

#[test]
fn integers(rt: HostRuntime) {
    check(&rt, &INTEGERS);
}

#[test]
fn integers_beyond_the_limit(rt: HostRuntime) {
    check(&rt, &TOO_LARGE);
}

#[test]
fn floats_and_ranges(rt: HostRuntime) {
    check(&rt, &FLOATS);
}

#[test]
fn strings(rt: HostRuntime) {
    check(&rt, &STRINGS);
}

#[test]
fn marks_and_other_bytes(rt: HostRuntime) {
    check(&rt, &MARKS);
}

#[test]
fn items(rt: HostRuntime) {
    check(&rt, &ITEMS);
}

#[test]
fn keywords_are_spelled(rt: HostRuntime) {
    assert_eq!(rt; K::Satisfy.spelling(), b"satisfy".as_slice());
    assert_eq!(rt; K::spelled(b"satisfy"), Some(K::Satisfy));
    assert_eq!(rt; K::spelled(b"satisf"), None);
}
