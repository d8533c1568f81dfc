use crate::rows::Answer::{Clash, Clashes, Gives, Quiet, Test, Turn};
use crate::rows::Position::{Number, Var};
use crate::rows::{Answer, Place, Position, answers, term_of, terms_of};
use dp_domain::{Op, Test as _};
use dp_rule_element::*;
use dp_trials::{LARGEST, is_counted};
use std::alloc::Global;
use std::test::Fail;

const V: Position = Var(0);

const W: Position = Var(1);

const X: Position = Var(2);

const Y: Position = Var(3);

const FOUR: Position = Number(4);

const FIVE: Position = Number(5);

/// An index, an array and a value.
type Parts = (Position, &'static [Position], Position);

/// x is the entry of 4, w and 6 at v.
const ENTRY: Parts = (V, &[FOUR, W, Number(6)], X);

/// The array of 4, w and 6, where w is 4 to 9.
const ARRAY: &[Position] = &[FOUR, W, Number(6)];

const AT: Place = (&[(0, 1), (4, 9), (0, 1)], &[], &[]);

/// v is 0 or 2.
const JUMP: Place = (&[(0, 2)], &[(0, Op::Ne, 1)], &[]);

/// An element constraint, a place, and whether it clashes there.
const TESTS: &[(Parts, Place, Answer)] = &[
    (ENTRY, (&[(1, 3), (7, 9), (5, 5)], &[], &[]), Test(true)),
    (ENTRY, (&[(1, 3), (5, 9), (5, 5)], &[], &[]), Test(false)),
    (ENTRY, (&[(1, 1), (5, 9), (5, 5)], &[], &[]), Test(true)),
    (ENTRY, (&[(0, 0), (4, 4), (4, 4)], &[], &[]), Test(true)),
    (ENTRY, (&[(4, 9), (6, 6), (6, 6)], &[], &[]), Test(true)),
];

/// An index in its own array.
const OWN: Parts = (V, &[V, FIVE, V], Number(3));

/// x is the entry of w, 4 and w at v.
const AROUND: Parts = (V, &[W, FOUR, W], X);

const NINE: &[(i64, i64)] = &[(0, 9), (0, 9), (0, 9)];

/// 4 is the entry of x, w and x at v.
const HOLE: Parts = (V, &[X, W, X], FOUR);

/// An element constraint, a place, its turn there, and why.
const EXPLAINED: &[(Parts, Place, Answer)] = &[
    (OWN, (&[(0, 3)], &[], &[]), Gives((0, Op::Ge, 3), &[])),
    (OWN, (&[(0, 3)], &[], &[(0, Op::Ge, 3)]), Quiet),
    (
        OWN,
        (&[(0, 3)], &[], &[(0, Op::Le, 2)]),
        Clashes(&[(0, Op::Le, 2)]),
    ),
    // the least number; no first entry; no third; the second entry alone
    (AROUND, (NINE, &[], &[]), Gives((0, Op::Ge, 1), &[])),
    (
        AROUND,
        (NINE, &[], &[(1, Op::Ge, 7), (2, Op::Ge, 2), (2, Op::Le, 5)]),
        Gives((0, Op::Ge, 2), &[(1, Op::Ge, 7), (2, Op::Le, 5)]),
    ),
];

/// y is the entry of w, x and 7 at v.
const LAST: Parts = (V, &[W, X, Number(7)], Y);

/// The numbers of an array of which two are beyond all domains.
const BEYOND: &[Position] = &[Number(i64::MAX), FIVE, Number(-1_000_000_001)];

/// An element constraint, a place, and its turn there.
const TURNS: &[(Parts, Place, Answer)] = &[
    // bounds by what can be selected
    (
        LAST,
        (&[(0, 9), (0, 2), (4, 5), (0, 9)], &[], &[]),
        Turn((0, Op::Ge, 1)),
    ),
    (
        LAST,
        (&[(1, 9), (0, 2), (4, 5), (0, 9)], &[], &[]),
        Turn((0, Op::Le, 3)),
    ),
    (
        LAST,
        (&[(1, 3), (0, 2), (4, 5), (3, 9)], &[], &[]),
        Turn((0, Op::Ge, 2)),
    ),
    (
        LAST,
        (&[(1, 3), (0, 2), (4, 5), (0, 6)], &[], &[]),
        Turn((0, Op::Le, 2)),
    ),
    (
        LAST,
        (&[(1, 3), (0, 2), (4, 5), (0, 9)], &[], &[]),
        Turn((3, Op::Le, 7)),
    ),
];

fn element(alloc: Global, parts: &Parts) -> Result<Element, Memory> {
    let (index, array, value) = *parts;
    Element::new(
        alloc,
        term_of(index),
        terms_of(alloc, array)?,
        term_of(value),
    )
}

#[test]
fn tests_turns_and_explanations(rt: HostRuntime) -> Result<(), Fail> {
    for rows in [TESTS, EXPLAINED, TURNS] {
        for (parts, place, answer) in rows {
            let rule = element(rt.alloc(), parts)?;
            assert!(rt;
                answers(rt.alloc(), &rule, place, *answer)?,
                "{parts:?} {place:?} {answer:?}"
            );
        }
    }
    Ok(())
}

fn crosses_threads<T: Send + Sync>(_value: &T) {}

#[test]
fn shapes(rt: HostRuntime) -> Result<(), Fail> {
    let rule = element(rt.alloc(), &(X, &[V, FIVE, X, W], V))?;
    assert_eq!(rt; rule.index(), term_of(X));
    let array = terms_of(rt.alloc(), &[V, FIVE, X, W])?;
    assert!(rt; rule.array() == array.as_slice());
    assert_eq!(rt; rule.value(), term_of(V));
    assert!(rt; is_counted(&rule, 3), "each variable once");
    crosses_threads(&rule);
    let rule = element(rt.alloc(), &(W, &[V], X))?;
    for (var, value, wanted) in [(1, 1, true), (1, -7, true), (0, 1, false), (2, 1, false)] {
        assert_eq!(rt; rule.is_point(VarId(var), value), wanted, "{var} {value}");
    }
    let rule = element(rt.alloc(), &(Number(1), &[W], W))?;
    assert!(rt; !rule.is_point(VarId(1), 1), "a number as the index");
    Ok(())
}
