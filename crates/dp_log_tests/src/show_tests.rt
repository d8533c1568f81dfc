use crate::pieces::in_pieces;
use dp_base::Memory;
use dp_checker::Why;
use dp_lines::LineRefusal;
use dp_show::{Refusal, Showing, show_log};
use std::alloc::Global;
use std::test::Fail;

/// What is wanted behind the steps.
#[derive(Clone, Copy)]
enum Wanted {
    End,
    Unread(LineRefusal),
    Refused(u64, Why, &'static [u8]),
}

fn is_wanted(refusal: &Option<Refusal>, wanted: Wanted) -> bool {
    match (refusal, wanted) {
        (None, Wanted::End) => true,
        (Some(Refusal::Unread(refusal)), Wanted::Unread(wanted)) => *refusal == wanted,
        (Some(Refusal::Refused(refusal, text)), Wanted::Refused(line, why, wanted)) => {
            refusal.line == line && refusal.why == why && text.bytes() == wanted
        }
        _ => false,
    }
}

/// Whether this is shown of a short log.
fn shows(alloc: Global, log: &[u8], steps: &[u8], wanted: Wanted) -> Result<bool, Memory> {
    if log.len() > 1000 {
        return Ok(false);
    }
    let shown = show_log(alloc, log)?;
    Ok(shown.steps.bytes() == steps && is_wanted(&shown.refusal, wanted))
}

/// A log, the steps that are shown of it, and what is wanted behind them.
type Case = (&'static [u8], &'static [u8], Wanted);

const PROOF: &[u8] = b"a 1 [x >= 3]
i 1 0 -1 c:1 l:linear
a 2 [y >= 3]
i 2 0 -2 c:1 l:linear
a 3 [x >= 1]
i 3 -2 0 3 c:2 l:linear
a 4 [y >= 2]
i 4 3 0 -4 c:1 l:linear
a 5 [x >= 2]
i 5 -4 0 5 c:2 l:linear
a 6 [y >= 1]
i 6 5 0 -6 c:1 l:linear
i 7 -1 -6 0 c:2 l:linear
n 8 0 1 2 3 4 5 6 7
c UNSAT
";

const PROOF_STEPS: &[u8] = b"1: true -> [x <= 2] (c:1 l:linear)
2: true -> [y <= 2] (c:1 l:linear)
3: [y <= 2] -> [x >= 1] (c:2 l:linear)
4: [x >= 1] -> [y <= 1] (c:1 l:linear)
5: [y <= 1] -> [x >= 2] (c:2 l:linear)
6: [x >= 2] -> [y <= 0] (c:1 l:linear)
7: [x <= 2] & [y <= 0] -> false (c:2 l:linear)
8: not (true) by 1 2 3 4 5 6 7
conclusion: UNSAT
";

const WHOLE: &[Case] = &[
    // nothing
    (b"", b"", Wanted::End),
    // the lines of atoms show nothing
    (b"a 1 [x >= 3]\n\na 2 [y != 0]\n", b"", Wanted::End),
    // a whole proof
    (PROOF, PROOF_STEPS, Wanted::End),
    // a bound is concluded, and steps may follow
    (
        b"a 1 [x <= 3]\nc -1\nc 1\ni 4 0\n",
        b"conclusion: [x >= 4]\nconclusion: [x <= 3]\n4: true -> false\n",
        Wanted::End,
    ),
    // a nogood without hints, and one with a hint
    (
        b"a 9 [x == -5]\na 10 [y != 5]\nn 1 9 -10\nn 1 -9 10 0 4\n",
        b"1: not ([x == -5] & [y == 5])\n1: not ([x != -5] & [y != 5]) by 4\n",
        Wanted::End,
    ),
    // an inference with a label alone, and one with a constraint alone
    (
        b"a 1 [x >= 1]\ni 2 1 0 -1 l:initial_domain\ni 3 1 0 c:5\n",
        b"2: [x >= 1] -> [x <= 0] (l:initial_domain)\n3: [x >= 1] -> false (c:5)\n",
        Wanted::End,
    ),
];

const REFUSED: &[Case] = &[
    // a field is missing
    (
        b"a 1 [x >= 1]\nn 1 1\nn\nc UNSAT\n",
        b"1: not ([x >= 1])\n",
        Wanted::Unread(LineRefusal::Form(3, 2)),
    ),
    // a deletion
    (
        b"c UNSAT\nd 1\n",
        b"conclusion: UNSAT\n",
        Wanted::Unread(LineRefusal::NotBuilt(2)),
    ),
    // the number of an atom is taken
    (
        b"a 1 [x >= 1]\nn 1 1\na  1 [y>=2]\nc UNSAT\n",
        b"1: not ([x >= 1])\n",
        Wanted::Refused(3, Why::AtomTwice, b"a 1 [y >= 2]\n"),
    ),
    // the first literal of an inference that is not defined
    (
        b"a 1 [x >= 1]\ni 5 1 0 -1\ni 6 1 -3 0 2\n",
        b"5: [x >= 1] -> [x <= 0]\n",
        Wanted::Refused(3, Why::UnknownAtom(-3), b"i 6 1 -3 0 2\n"),
    ),
    // the consequent comes last
    (
        b"a 1 [x >= 1]\ni 6 1 0 2\n",
        b"",
        Wanted::Refused(2, Why::UnknownAtom(2), b"i 6 1 0 2\n"),
    ),
    // a literal of a nogood, and of a conclusion
    (
        b"n 2 7 8",
        b"",
        Wanted::Refused(1, Why::UnknownAtom(7), b"n 2 7 8\n"),
    ),
    (
        b"c UNSAT\nc -7\n",
        b"conclusion: UNSAT\n",
        Wanted::Refused(2, Why::UnknownAtom(-7), b"c -7\n"),
    ),
];

#[test]
fn logs_are_shown(rt: HostRuntime) -> Result<(), Fail> {
    for cases in [WHOLE, REFUSED] {
        for (place, (log, steps, wanted)) in cases.iter().enumerate() {
            assert!(rt; shows(rt.alloc(), *log, *steps, *wanted)?, "log {place}");
        }
    }
    Ok(())
}

/// Whether this is shown of a short log in pieces of so many bytes, by a piece where so many had come.
fn shows_in_pieces(
    alloc: Global,
    case: &Case,
    size: usize,
    at: Option<usize>,
) -> Result<bool, Memory> {
    let (log, steps, wanted) = case;
    if log.len() > 1000 || size == 0 {
        return Ok(false);
    }
    let (shown, came) = in_pieces(Showing::new(alloc)?, *log, size)?;
    Ok(shown.steps.bytes() == *steps && is_wanted(&shown.refusal, *wanted) && came == at)
}

/// A log, the number of bytes of each piece, and how many have come where a piece answers.
type Piecewise = (&'static Case, usize, Option<usize>);

const MISSING: &Case = &(
    b"a 1 [x >= 1]\nn 1 1\nn\nc UNSAT\n",
    b"1: not ([x >= 1])\n",
    Wanted::Unread(LineRefusal::Form(3, 2)),
);

const UNKNOWN: &Case = &(
    b"a 1 [x >= 1]\ni 6 1 0 2\nc UNSAT\n",
    b"",
    Wanted::Refused(2, Why::UnknownAtom(2), b"i 6 1 0 2\n"),
);

const UNENDED: &Case = &(
    b"n 1 0 4\nn 2 7 8",
    b"1: not (true) by 4\n",
    Wanted::Refused(2, Why::UnknownAtom(7), b"n 2 7 8\n"),
);

const EMPTY: &Case = &(b"", b"", Wanted::End);

const ALL: &Case = &(PROOF, PROOF_STEPS, Wanted::End);

const PIECES: &[Piecewise] = &[
    // the piece that ends the refused line answers
    (MISSING, 1, Some(21)),
    (MISSING, 7, Some(21)),
    (MISSING, 1000, Some(29)),
    (UNKNOWN, 1, Some(23)),
    (UNKNOWN, 7, Some(28)),
    (UNKNOWN, 1000, Some(31)),
    // a line without its end is judged in the end
    (UNENDED, 1, None),
    (UNENDED, 7, None),
    (UNENDED, 1000, None),
    // nothing
    (EMPTY, 1, None),
    // a whole proof
    (ALL, 1, None),
    (ALL, 7, None),
    (ALL, 1000, None),
];

#[test]
fn logs_in_pieces(rt: HostRuntime) -> Result<(), Fail> {
    for (place, (case, size, at)) in PIECES.iter().enumerate() {
        assert!(rt;
            shows_in_pieces(rt.alloc(), case, *size, *at)?,
            "log {place}"
        );
    }
    Ok(())
}
