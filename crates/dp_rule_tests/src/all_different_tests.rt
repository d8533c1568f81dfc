use crate::rows::Answer::{Clashes, Gives, Quiet, Test, Turn};
use crate::rows::Position::{Number, Var};
use crate::rows::{Answer, Place, Position, answers, terms_of};
use dp_domain::{Op, Test as _};
use dp_rule_alldiff::*;
use dp_trials::LARGEST;
use std::alloc::Global;
use std::test::Fail;

const X: Position = Var(0);

const Y: Position = Var(1);

const Z: Position = Var(2);

const THREE: &[Position] = &[X, Y, Z];

const LEAST: Position = Number(i64::MIN);

const MOST: Position = Number(i64::MAX);

const WIDE: (i64, i64) = (-LARGEST, LARGEST);

/// x is 0, 1 or 2, y is 1 or 2, and z is 2.
const LOW: Place = (&[(0, 2), (1, 2), (2, 2)], &[], &[]);

/// x is 0 to 9, y is 3 or 4, and z is 4, 5 or 6.
const HIGH: Place = (&[(0, 9), (3, 4), (4, 6)], &[], &[]);

/// The terms, a place, and whether they clash there.
const TESTS: &[(&[Position], Place, Answer)] = &[
    // three variables
    (THREE, (&[(0, 1), (0, 1), (0, 1)], &[], &[]), Test(true)),
    (THREE, (&[(0, 1), (0, 1), (0, 2)], &[], &[]), Test(false)),
    (THREE, (&[(0, 1), (0, 1), (1, 2)], &[], &[]), Test(false)),
    (THREE, (&[(0, 5), (2, 2), (2, 2)], &[], &[]), Test(true)),
    (THREE, (&[(2, 3), (3, 3), (2, 2)], &[], &[]), Test(true)),
];

/// y is 1 or 2, and z too.
const MIDDLE: &[(u32, Op, i64)] = &[
    (1, Op::Ge, 1),
    (1, Op::Le, 2),
    (2, Op::Ge, 1),
    (2, Op::Le, 2),
];

/// The same, and x is at least 1.
const RAISED: &[(u32, Op, i64)] = &[
    (0, Op::Ge, 1),
    (1, Op::Ge, 1),
    (1, Op::Le, 2),
    (2, Op::Ge, 1),
    (2, Op::Le, 2),
];

/// The terms, a place, their turn there, and why.
const EXPLAINED: &[(&[Position], Place, Answer)] = &[
    // one variable twice
    (
        &[X, X],
        (&[(0, 2), (0, 9), (0, 9)], &[], &[]),
        Gives((0, Op::Ge, 1), &[]),
    ),
    (
        &[X, X],
        (&[(0, 2), (0, 9), (0, 9)], &[], &[(0, Op::Ge, 1)]),
        Gives((0, Op::Ge, 2), &[(0, Op::Ge, 1)]),
    ),
    (
        &[X, X],
        (&[(0, 2), (0, 9), (0, 9)], &[], &[(0, Op::Ge, 2)]),
        Clashes(&[(0, Op::Ge, 2)]),
    ),
    // a number that is taken
    (
        &[Y, X],
        (
            &[(0, 4), (0, 9), (0, 9)],
            &[],
            &[(1, Op::Ge, 2), (1, Op::Le, 2)],
        ),
        Gives((0, Op::Ne, 2), &[(1, Op::Ge, 2), (1, Op::Le, 2)]),
    ),
    (
        &[Y, X],
        (
            &[(0, 4), (0, 9), (0, 9)],
            &[],
            &[(1, Op::Ge, 4), (1, Op::Le, 4)],
        ),
        Gives((0, Op::Le, 3), &[(1, Op::Ge, 4), (1, Op::Le, 4)]),
    ),
];

/// The terms, a place, and their turn there by a tight interval.
const TIGHT: &[(&[Position], Place, Answer)] = &[
    (
        THREE,
        (&[(1, 2), (1, 2), (1, 3)], &[], &[]),
        Turn((2, Op::Ge, 3)),
    ),
    (
        THREE,
        (&[(1, 2), (1, 2), (0, 2)], &[], &[]),
        Turn((2, Op::Le, 0)),
    ),
    (THREE, (&[(1, 2), (1, 2), (5, 9)], &[], &[]), Quiet),
    (THREE, (&[(0, 9), (0, 9), (0, 9)], &[], &[]), Quiet),
    (
        THREE,
        (&[(0, 9), (0, 0), (1, 1)], &[], &[]),
        Turn((0, Op::Ge, 2)),
    ),
];

fn all_different(alloc: Global, terms: &[Position]) -> Result<AllDiff, Memory> {
    AllDiff::new(alloc, terms_of(alloc, terms)?)
}

#[test]
fn tests_turns_and_explanations(rt: HostRuntime) -> Result<(), Fail> {
    for rows in [TESTS, EXPLAINED, TIGHT] {
        for (terms, place, answer) in rows {
            let rule = all_different(rt.alloc(), *terms)?;
            assert!(rt;
                answers(rt.alloc(), &rule, place, *answer)?,
                "{terms:?} {place:?} {answer:?}"
            );
        }
    }
    Ok(())
}

fn crosses_threads<T: Send + Sync>(_value: &T) {}

#[test]
fn shapes(rt: HostRuntime) -> Result<(), Fail> {
    let rule = all_different(rt.alloc(), &[Z, Number(3), X, Z])?;
    assert_eq!(rt; rule.terms().len(), 4);
    assert_eq!(rt; rule.scope_len(), 2);
    for (var, wanted) in [(0, true), (1, false), (2, true), (3, false)] {
        assert_eq!(rt; rule.is_point(VarId(var), 7), wanted, "{var}");
    }
    crosses_threads(&rule);
    Ok(())
}
