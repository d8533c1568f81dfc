use crate::rows::Answer::{Clashes, Gives, Quiet, Test, Turn};
use crate::rows::{Answer, Place, Used, answers, condition_of};
use dp_base::Memory;
use dp_domain::Op;
use dp_rule_linear::*;
use dp_trials::{LARGEST as BOUND, is_counted};
use std::alloc::Global;
use std::test::Fail;

const LARGEST: i64 = 10_000_000_000_000_000;

const LARGEST_RHS: i128 = 1_000_000_000_000_000_000_000_000_000_000_000_000;

/// Multiples of the variables at these places.
type Terms = &'static [(i64, u32)];

/// A sum under a condition: at most a number, or other than it.
#[derive(Clone, Copy, Debug)]
enum Linear {
    AtMost(Option<Used>, Terms, i128),
    Other(Option<Used>, Terms, i128),
}

use Linear::{AtMost, Other};

/// Both kinds of these terms under `[cond >= 1]` are refused so.
const REFUSED: &[(u32, Terms, i128, Option<LinRefusal>)] = &[
    // terms
    (
        0,
        &[(1, 1), (0, 2)],
        LARGEST_RHS + 1,
        Some(LinRefusal::BadTerm(1)),
    ),
    (
        0,
        &[(1, 1), (-1, 1)],
        LARGEST_RHS + 1,
        Some(LinRefusal::BadTerm(1)),
    ),
    (
        0,
        &[(1, 2), (1, 1)],
        LARGEST_RHS + 1,
        Some(LinRefusal::BadTerm(1)),
    ),
    (
        0,
        &[(0, 2), (1, 1)],
        LARGEST_RHS + 1,
        Some(LinRefusal::BadTerm(0)),
    ),
    (
        0,
        &[(LARGEST + 1, 1), (1, 2)],
        LARGEST_RHS + 1,
        Some(LinRefusal::BadTerm(0)),
    ),
    (
        0,
        &[(LARGEST, 1), (-LARGEST - 1, 2)],
        LARGEST_RHS + 1,
        Some(LinRefusal::BadTerm(1)),
    ),
    // right sides, then conditions
    (0, LARGE, LARGEST_RHS, None),
    (3, LARGE, -LARGEST_RHS, None),
    (0, LARGE, LARGEST_RHS + 1, Some(LinRefusal::BadRhs)),
    (1, LARGE, -LARGEST_RHS - 1, Some(LinRefusal::BadRhs)),
    (1, LARGE, 0, Some(LinRefusal::BadCondition)),
    (2, LARGE, 0, Some(LinRefusal::BadCondition)),
];

fn multiples(alloc: Global, terms: &[(i64, u32)]) -> Result<Vec<(i64, VarId)>, Memory> {
    let mut multiples = Vec::new(alloc);
    for (multiple, place) in terms {
        multiples.push((*multiple, VarId(*place)))?;
    }
    Ok(multiples)
}

fn at_most(
    alloc: Global,
    cond: Option<Used>,
    terms: &[(i64, u32)],
    rhs: i128,
) -> Result<Result<LinLe, LinRefusal>, Memory> {
    Ok(LinLe::new(condition_of(cond)?, multiples(alloc, terms)?, rhs))
}

fn other(
    alloc: Global,
    cond: Option<Used>,
    terms: &[(i64, u32)],
    rhs: i128,
) -> Result<Result<LinNe, LinRefusal>, Memory> {
    Ok(LinNe::new(condition_of(cond)?, multiples(alloc, terms)?, rhs))
}

#[test]
fn refusals(rt: HostRuntime) -> Result<(), Fail> {
    for (var, terms, rhs, refusal) in REFUSED {
        let cond = Some((*var, Op::Ge, 1));
        let le = at_most(rt.alloc(), cond, *terms, *rhs)?.err();
        assert_eq!(rt; le, *refusal, "{terms:?} {rhs}");
        let ne = other(rt.alloc(), cond, *terms, *rhs)?.err();
        assert_eq!(rt; ne, *refusal, "{terms:?} {rhs}");
    }
    Ok(())
}

const LARGE: Terms = &[(LARGEST, 1), (-LARGEST, 2)];

/// 2x - 3y, of variables 1 and 2.
const TWO: Terms = &[(2, 1), (-3, 2)];

/// 3x - 2y, of variables 0 and 1.
const SUM: Terms = &[(3, 0), (-2, 1)];

const ONE: Terms = &[(1, 0)];

const MINUS: Terms = &[(-1, 0)];

const ON: Option<Used> = Some((0, Op::Ge, 1));

/// Two variables near the ends of all domains.
const FAR: Place = (&[(0, 1), (-BOUND, 1 - BOUND), (BOUND - 1, BOUND)], &[], &[]);

const LARGE_SUM: i128 = -20_000_000_000_000_000_000_000_000;

/// A sum, a place, and whether it clashes there.
const TESTS: &[(Linear, Place, Answer)] = &[
    // the least values
    (
        AtMost(ON, TWO, -3),
        (&[(1, 1), (5, 9), (1, 4)], &[], &[]),
        Test(true),
    ),
    (
        AtMost(ON, TWO, -2),
        (&[(1, 1), (5, 9), (1, 4)], &[], &[]),
        Test(false),
    ),
    (
        AtMost(ON, TWO, -3),
        (&[(0, 1), (5, 9), (1, 4)], &[], &[]),
        Test(false),
    ),
    (
        AtMost(ON, TWO, -3),
        (&[(0, 0), (5, 9), (1, 4)], &[], &[]),
        Test(false),
    ),
    (
        AtMost(ON, TWO, -1),
        (&[(1, 1), (6, 9), (1, 4)], &[], &[]),
        Test(true),
    ),
];

const WIDE: (i64, i64) = (-BOUND, BOUND);

/// What leaves 0, 2 and 5 of 0 to 5.
const GAPS: &[Used] = &[(0, Op::Ne, 1), (0, Op::Ne, 3), (0, Op::Ne, 4)];

/// A sum, a place, and its turn there.
const TURNS: &[(Linear, Place, Answer)] = &[
    // quotients are rounded to the bound
    (
        AtMost(None, SUM, 5),
        (&[(0, 10), (0, 3)], &[], &[]),
        Turn((0, Op::Le, 3)),
    ),
    (
        AtMost(None, SUM, 4),
        (&[(3, 3), (0, 3)], &[], &[]),
        Turn((1, Op::Ge, 3)),
    ),
    (
        AtMost(None, SUM, 17),
        (&[WIDE, (0, 0)], &[], &[]),
        Turn((0, Op::Le, 5)),
    ),
    (
        AtMost(None, SUM, -17),
        (&[WIDE, (0, 0)], &[], &[]),
        Turn((0, Op::Le, -6)),
    ),
    (
        AtMost(None, SUM, -11),
        (&[(0, 0), WIDE], &[], &[]),
        Turn((1, Op::Ge, 6)),
    ),
];

/// Whether the sum answers so at the place.
fn answers_so(
    alloc: Global,
    linear: &Linear,
    place: &Place,
    answer: Answer,
) -> Result<bool, Memory> {
    match *linear {
        AtMost(cond, terms, rhs) => match at_most(alloc, cond, terms, rhs)? {
            Ok(rule) => answers(alloc, &rule, place, answer),
            Err(_) => Ok(false),
        },
        Other(cond, terms, rhs) => match other(alloc, cond, terms, rhs)? {
            Ok(rule) => answers(alloc, &rule, place, answer),
            Err(_) => Ok(false),
        },
    }
}

#[test]
fn tests_turns_and_explanations(rt: HostRuntime) -> Result<(), Fail> {
    for rows in [TESTS, TURNS] {
        for (linear, place, answer) in rows {
            assert!(rt;
                answers_so(rt.alloc(), linear, place, *answer)?,
                "{linear:?} {place:?} {answer:?}"
            );
        }
    }
    Ok(())
}

fn crosses_threads<T: Send + Sync>(_value: &T) {}

#[test]
fn shapes(rt: HostRuntime) -> Result<(), Fail> {
    let cond = Some((1, Op::Ge, 1));
    let terms = [(1, 0), (2, 2)];
    let le = at_most(rt.alloc(), cond, &terms, 7)??;
    assert_eq!(rt; le.cond(), condition_of(cond)?);
    assert_eq!(rt; (le.terms().len(), le.rhs()), (2, 7));
    assert!(rt; is_counted(&le, 3));
    crosses_threads(&le);
    let ne = other(rt.alloc(), None, &terms, 7)??;
    assert_eq!(rt; ne.cond(), None);
    assert_eq!(rt; (ne.terms().len(), ne.rhs()), (2, 7));
    crosses_threads(&ne);
    for (cond, x, y) in [(0, 1, 2), (2, 0, 1)] {
        let terms = [(1, x), (1, y)];
        let rule = other(rt.alloc(), Some((cond, Op::Ge, 1)), &terms, 0)??;
        assert!(rt; is_counted(&rule, 3), "{cond}");
    }
    let rule = at_most(rt.alloc(), None, &[(1, 0), (1, 1)], 0)??;
    assert!(rt; is_counted(&rule, 2));
    Ok(())
}
