use crate::readers::{Read, WIDE, Wanted, bytewise, in_two, take};
use LineRefusal::{Form, LogTooLong, NotBuilt, Number, TooLong};
use dp_base::Memory;
use dp_domain::Op;
use dp_lines::{Limits, LineFault, LineRefusal, Reader};
use std::alloc::Global;
use std::test::Fail;

const LOG: &[u8] = b"a 1 [x >= 3]
i 1 0 -1 c:1 l:linear
a 2 [y >= 3]
i 2 0 -2 c:1 l:linear
a 3 [x >= 1]
i 3 -2 0 3 c:2 l:linear
a 4 [y >= 2]
i 4 3 0 -4 c:1 l:linear
a 5 [x >= 2]
i 5 -4 0 5 c:2 l:linear
a 6 [y >= 1]
i 6 5 0 -6 c:1 l:linear
i 7 -1 -6 0 c:2 l:linear
n 8 0 1 2 3 4 5 6 7
c UNSAT
";

const LOG_LINES: &[(u64, Wanted)] = &[
    (1, Wanted::Atom(1, b"x", Op::Ge, 3)),
    (2, Wanted::Inference(1, &[], Some(-1), Some(1), b"linear")),
    (3, Wanted::Atom(2, b"y", Op::Ge, 3)),
    (4, Wanted::Inference(2, &[], Some(-2), Some(1), b"linear")),
    (5, Wanted::Atom(3, b"x", Op::Ge, 1)),
    (6, Wanted::Inference(3, &[-2], Some(3), Some(2), b"linear")),
    (7, Wanted::Atom(4, b"y", Op::Ge, 2)),
    (8, Wanted::Inference(4, &[3], Some(-4), Some(1), b"linear")),
    (9, Wanted::Atom(5, b"x", Op::Ge, 2)),
    (10, Wanted::Inference(5, &[-4], Some(5), Some(2), b"linear")),
    (11, Wanted::Atom(6, b"y", Op::Ge, 1)),
    (12, Wanted::Inference(6, &[5], Some(-6), Some(1), b"linear")),
    (
        13,
        Wanted::Inference(7, &[-1, -6], None, Some(2), b"linear"),
    ),
    (14, Wanted::Nogood(8, &[], &[1, 2, 3, 4, 5, 6, 7])),
    (15, Wanted::Unsat),
];

/// A line that is wanted of a whole text.
type Spelled = (&'static str, &'static [u8], Wanted);

const LARGEST: i64 = 1_000_000_000_000_000_000;

const SPELLINGS: &[Spelled] = &[
    ("CR LF", b"c UNSAT\r\n", Wanted::Unsat),
    ("CR at the end", b"c UNSAT\r", Wanted::Unsat),
    ("blanks", b" \tc\t \tUNSAT \n", Wanted::Unsat),
    ("a bound", b"c 5", Wanted::Bound(5)),
    ("a negative bound with zeros", b"c -05", Wanted::Bound(-5)),
    (
        "no blanks in brackets",
        b"a 01 [x!=3]",
        Wanted::Atom(1, b"x", Op::Ne, 3),
    ),
    (
        "blanks in brackets",
        b"a 1 [ _a1\t<= -07 ] ",
        Wanted::Atom(1, b"_a1", Op::Le, -7),
    ),
    ("zero", b"a 1 [x == 0]", Wanted::Atom(1, b"x", Op::Eq, 0)),
    (
        "the largest of >=",
        b"a 1 [x >= 1000000000000000000]",
        Wanted::Atom(1, b"x", Op::Ge, LARGEST),
    ),
    (
        "the least of >=",
        b"a 1 [x >= -999999999999999999]",
        Wanted::Atom(1, b"x", Op::Ge, 1 - LARGEST),
    ),
    (
        "the largest of <=",
        b"a 1 [x <= 999999999999999999]",
        Wanted::Atom(1, b"x", Op::Le, LARGEST - 1),
    ),
    (
        "the least of <=",
        b"a 1 [x <= -1000000000000000000]",
        Wanted::Atom(1, b"x", Op::Le, -LARGEST),
    ),
    (
        "the largest of ==",
        b"a 1 [x == 1000000000000000000]",
        Wanted::Atom(1, b"x", Op::Eq, LARGEST),
    ),
    (
        "the least of !=",
        b"a 1 [x != -001000000000000000000]",
        Wanted::Atom(1, b"x", Op::Ne, -LARGEST),
    ),
    (
        "no constraint and no label",
        b"i 1 0",
        Wanted::Inference(1, &[], None, None, b""),
    ),
    (
        "the constraint behind the label",
        b"i 1 2 -3 0 l:a_1 c:007",
        Wanted::Inference(1, &[2, -3], None, Some(7), b"a_1"),
    ),
    (
        "a label alone",
        b"i 1 0 4 l:0",
        Wanted::Inference(1, &[], Some(4), None, b"0"),
    ),
    (
        "the largest constraint",
        b"i 1 0 c:1000000000000000000",
        Wanted::Inference(1, &[], None, Some(1_000_000_000_000_000_000), b""),
    ),
    ("no hints", b"n 1 2 -3", Wanted::Nogood(1, &[2, -3], &[])),
    (
        "no hints behind the zero",
        b"n 1 0",
        Wanted::Nogood(1, &[], &[]),
    ),
    (
        "neither atoms nor hints",
        b"n 01 ",
        Wanted::Nogood(1, &[], &[]),
    ),
    (
        "the largest numbers",
        b"n 001000000000000000000 -0001000000000000000000 0 01000000000000000000",
        Wanted::Nogood(
            1_000_000_000_000_000_000,
            &[-LARGEST],
            &[1_000_000_000_000_000_000],
        ),
    ),
];

/// A text whose first line is refused.
type Refused = (&'static str, &'static [u8], LineRefusal);

const FORMS: &[Refused] = &[
    ("no number", b"n\n", Form(1, 2)),
    ("no number behind blanks", b"n  ", Form(1, 4)),
    ("no claim", b"c", Form(1, 2)),
    ("no claim before CR", b"c\r\n", Form(1, 2)),
    ("another letter", b" \tx 1", Form(1, 3)),
    ("a letter with its number", b"n1 2", Form(1, 1)),
    ("a CR alone", b"\r\r\n", Form(1, 1)),
    ("a CR is no line end", b"c UNSAT\rc UNSAT", Form(1, 3)),
    ("a CR in a field", b"n 1 2\r3", Form(1, 5)),
    ("a byte that is not allowed", b"n 1 \x80", Form(1, 5)),
    ("a NUL", b"n 1 2\x00", Form(1, 5)),
    ("a word cut short", b"c UNS", Form(1, 3)),
    ("another case", b"c unsat", Form(1, 3)),
    ("more than a claim", b"c UNSAT 1", Form(1, 9)),
    ("a negative number", b"a -1 [x >= 3]", Form(1, 3)),
    ("minus zero for a number", b"n -0", Form(1, 3)),
    ("minus zero for a hint", b"n 1 0 -0", Form(1, 7)),
    ("a plus", b"n +1", Form(1, 3)),
    ("a minus alone", b"n 1 -", Form(1, 5)),
    ("no blank before [", b"a 1[x >= 3]", Form(1, 3)),
    ("no [", b"a 1 x >= 3", Form(1, 5)),
    ("a keyword", b"a 1 [int >= 3]", Form(1, 6)),
    ("a number for a name", b"a 1 [3 >= x]", Form(1, 6)),
    ("no comparison", b"a 1 [x > 3]", Form(1, 8)),
    ("half a comparison more", b"a 1 [x === 3]", Form(1, 10)),
    ("a CR in brackets", b"a 1 [x\r>= 3]", Form(1, 7)),
    ("a name for a value", b"a 1 [x >= y]", Form(1, 11)),
    ("a minus alone for a value", b"a 1 [x >= - 3]", Form(1, 11)),
    ("more than a value", b"a 1 [x >= 3y]", Form(1, 12)),
    ("no value", b"a 1 [x >=", Form(1, 10)),
    ("no ]", b"a 1 [x >= 3 ", Form(1, 13)),
    ("more behind ]", b"a 1 [x >= 3]y", Form(1, 13)),
    ("brackets for a literal", b"n 1 [x >= 3]", Form(1, 5)),
    ("no separator", b"i 1 2", Form(1, 6)),
    ("a constraint for a premise", b"i 1 c:1", Form(1, 5)),
    ("two consequents", b"i 1 0 2 3", Form(1, 9)),
    ("zero behind the consequent", b"i 1 0 2 0", Form(1, 9)),
    ("zero behind the constraint", b"i 1 0 c:1 0", Form(1, 11)),
    ("no constraint number", b"i 1 0 c:", Form(1, 7)),
    ("a name for a constraint", b"i 1 0 c:x", Form(1, 7)),
    ("a negative constraint", b"i 1 0 l:a c:-1", Form(1, 11)),
    ("two constraints", b"i 1 0 c:1 l:a c:2", Form(1, 15)),
    ("no label", b"i 1 0 l:", Form(1, 7)),
    ("another byte in a label", b"i 1 0 l:a-b", Form(1, 7)),
];

const NUMBERS: &[Refused] = &[
    ("zero for a number", b"n 0", Number(1, 3)),
    ("zeros for a number", b"a 00 x", Number(1, 3)),
    (
        "one past the largest",
        b"n 1000000000000000001",
        Number(1, 3),
    ),
    (
        "one past it with zeros",
        b"n 0001000000000000000001",
        Number(1, 3),
    ),
    ("past 2^64", b"n 18446744073709551617", Number(1, 3)),
    ("minus zero", b"n 1 -0", Number(1, 5)),
    ("zeros for a literal", b"n 1 00", Number(1, 5)),
    (
        "one below the least",
        b"i 1 -1000000000000000001 0",
        Number(1, 5),
    ),
    ("zero for a hint", b"n 1 0 0", Number(1, 7)),
    (
        "a hint past the largest",
        b"n 1 0 9999999999999999999999",
        Number(1, 7),
    ),
    ("zero for a consequent", b"i 1 0 0", Number(1, 7)),
    ("zero for a constraint", b"i 1 0 c:0", Number(1, 9)),
    (
        "a constraint past the largest",
        b"i 1 0 c:1000000000000000001",
        Number(1, 9),
    ),
    ("zero for a claim", b"c 0", Number(1, 3)),
    ("minus zero for a value", b"a 1 [x >= -0]", Number(1, 11)),
    ("zeros for a value", b"a 1 [x >= 00]", Number(1, 11)),
    (
        "the least of all for >=",
        b"a 1 [x >= -1000000000000000000]",
        Number(1, 11),
    ),
    (
        "past the largest for >=",
        b"a 1 [x >= 1000000000000000001]",
        Number(1, 11),
    ),
    (
        "the largest of all for <=",
        b"a 1 [x <= 1000000000000000000]",
        Number(1, 11),
    ),
    (
        "below the least for ==",
        b"a 1 [x == -1000000000000000001]",
        Number(1, 11),
    ),
    (
        "past the largest for !=",
        b"a 1 [x != 1000000000000000001]",
        Number(1, 11),
    ),
    ("the first byte wins", b"n 00 x", Number(1, 3)),
];

/// The limits, a text, the lines before the end, and the refusal there.
type Limited = (
    u64,
    u64,
    &'static [u8],
    &'static [(u64, Wanted)],
    Option<LineRefusal>,
);

const LIMITED: &[Limited] = &[
    (7, 8, b"c UNSAT\n", &[(1, Wanted::Unsat)], None),
    (7, 8, b"c UNSAT\r\n", &[], Some(LogTooLong(1))),
    (7, 99, b"c UNSAT\r\n", &[], Some(TooLong(1))),
    (7, 7, b"c UNSAT", &[(1, Wanted::Unsat)], None),
    (7, 7, b"c UNSAT\n", &[], Some(LogTooLong(1))),
    (7, 99, b"        \n", &[], Some(TooLong(1))),
    (9, 99, b"n 1 -0", &[], Some(Number(1, 5))),
    (9, 99, b"d 1", &[], Some(NotBuilt(1))),
    (7, 99, b"c UNSAT\r", &[], Some(TooLong(1))),
    (8, 7, b"c UNSAT\r", &[], Some(LogTooLong(1))),
    (9, 2, b"\n\n\nc UNSAT", &[], Some(LogTooLong(3))),
    (
        9,
        99,
        b"c UNSAT\n \n  d x\n",
        &[(1, Wanted::Unsat)],
        Some(NotBuilt(3)),
    ),
    (2, 99, b"d 1\n", &[], Some(TooLong(1))),
    (3, 99, b"xxxx", &[], Some(TooLong(1))),
    (9, 0, b"", &[], None),
    (0, 3, b"\n\n\n", &[], None),
    (3, 99, b"xxxxxx\n", &[], Some(TooLong(1))),
    (3, 7, b"xxxxxx\n", &[], Some(TooLong(1))),
    (3, 6, b"xxxxxx\n", &[], Some(LogTooLong(1))),
    (3, 6, b"xxxxxx", &[], Some(TooLong(1))),
    (3, 5, b"xxxxxx", &[], Some(LogTooLong(1))),
    (0, 9, b"x\n", &[], Some(TooLong(1))),
    (
        7,
        99,
        b"c UNSAT\n           \nc UNSAT",
        &[(1, Wanted::Unsat)],
        Some(TooLong(2)),
    ),
    (
        7,
        18,
        b"c UNSAT\n          \n",
        &[(1, Wanted::Unsat)],
        Some(LogTooLong(2)),
    ),
];

/// What is wanted where so many lines end with a refusal, if any.
fn ended(count: usize, refusal: Option<LineRefusal>) -> Read {
    (count, refusal.map(LineFault::Refused))
}

#[test]
fn texts_byte_by_byte(rt: HostRuntime) -> Result<(), Fail> {
    let alloc = rt.alloc();
    assert_eq!(rt; bytewise(alloc, WIDE, LOG, LOG_LINES)?, ended(15, None));
    for (name, text, wanted) in SPELLINGS {
        let read = bytewise(alloc, WIDE, *text, &[(1, *wanted)])?;
        assert_eq!(rt; read, ended(1, None), "{name}");
    }
    for rows in [FORMS, NUMBERS] {
        for (name, text, refusal) in rows {
            let read = bytewise(alloc, WIDE, *text, &[])?;
            assert_eq!(rt; read, ended(0, Some(*refusal)), "{name}");
        }
    }
    for (place, (line, total, text, wanted, refusal)) in LIMITED.iter().enumerate() {
        let limits = Limits {
            line: *line,
            total: *total,
        };
        let read = bytewise(alloc, limits, *text, *wanted)?;
        assert_eq!(rt; read, ended(wanted.len(), *refusal), "text {place}");
    }
    Ok(())
}

#[test]
fn a_log_in_two_pieces(rt: HostRuntime) -> Result<(), Fail> {
    for place in 0..LOG.len() + 1 {
        let read = in_two(rt.alloc(), WIDE, LOG, place, LOG_LINES)?;
        assert_eq!(rt; read, ended(15, None), "{place}");
    }
    Ok(())
}

#[test]
fn lines_are_counted_once(rt: HostRuntime) -> Result<(), Fail> {
    let mut reader = Reader::new(rt.alloc(), WIDE);
    reader.feed(b"\n \nc UNS")?;
    assert_eq!(rt; take(&mut reader, &[], 0), ended(0, None));
    assert_eq!(rt; reader.lines_seen(), 2);
    reader.feed(b"AT\n\n\nq")?;
    let read = take(&mut reader, &[(3, Wanted::Unsat)], 0);
    assert_eq!(rt; read, ended(1, None));
    assert_eq!(rt; reader.lines_seen(), 5);
    reader.end();
    for _ in 0..2 {
        assert_eq!(rt; take(&mut reader, &[], 0), ended(0, Some(Form(6, 1))));
        assert_eq!(rt; reader.lines_seen(), 5);
    }
    Ok(())
}

#[test]
fn an_overlong_line_is_counted(rt: HostRuntime) -> Result<(), Fail> {
    let mut reader = Reader::new(rt.alloc(), Limits { line: 4, total: 99 });
    reader.feed(b"\nxxxxx")?;
    assert_eq!(rt; take(&mut reader, &[], 0), ended(0, None));
    assert_eq!(rt; reader.lines_seen(), 1);
    reader.feed(b"x \nc UNSAT\n")?;
    assert_eq!(rt; take(&mut reader, &[], 0), ended(0, Some(TooLong(2))));
    assert_eq!(rt; reader.lines_seen(), 1);
    Ok(())
}
