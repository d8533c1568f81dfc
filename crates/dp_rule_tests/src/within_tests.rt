use crate::rows::Answer::{Clashes, Gives, Quiet, Test};
use crate::rows::{Answer, NONE, Place, Used, answers, condition_of, set_of};
use dp_domain::{Op, Test as _};
use dp_rule_clause::*;
use dp_trials::{LARGEST, is_counted};
use std::alloc::Global;
use std::test::Fail;

/// A condition, a variable, and the intervals of the set that it lies in.
type Parts = (Option<Used>, u32, Three);

/// Three intervals.
type Three = ((i64, i64), (i64, i64), (i64, i64));

fn within(alloc: Global, parts: &Parts) -> Result<Result<Within, BadCondition>, Fail> {
    let (cond, var, (first, second, third)) = *parts;
    let set = set_of(alloc, [first, second, third])?;
    Ok(Within::new(condition_of(cond)?, VarId(var), set))
}

const ON: Option<Used> = Some((0, Op::Ge, 1));

/// The set of 2, 7 and 8.
const SET: Three = ((7, 8), (2, 2), NONE);

/// Variable 1 lies in it, under a condition on variable 0.
const SWITCHED: Parts = (ON, 1, SET);

const FREE: Parts = (None, 1, SET);

/// What leaves 1 and 9 of 1 to 9.
const GAP: &[Used] = &[
    (0, Op::Ne, 2),
    (0, Op::Ne, 3),
    (0, Op::Ne, 4),
    (0, Op::Ne, 5),
    (0, Op::Ne, 6),
    (0, Op::Ne, 7),
    (0, Op::Ne, 8),
];

/// A restriction, a place, and whether it clashes there.
const TESTS: &[(Parts, Place, Answer)] = &[
    (SWITCHED, (&[(1, 1), (3, 6)], &[], &[]), Test(true)),
    (SWITCHED, (&[(1, 1), (3, 7)], &[], &[]), Test(false)),
    (SWITCHED, (&[(1, 1), (2, 6)], &[], &[]), Test(false)),
    (SWITCHED, (&[(1, 1), (9, 12)], &[], &[]), Test(true)),
    (SWITCHED, (&[(1, 1), (-3, 1)], &[], &[]), Test(true)),
];

const WIDE: (i64, i64) = (-LARGEST, LARGEST);

const SMALL: &[(i64, i64)] = &[(0, 1), WIDE, (0, 1)];

/// A restriction, a place, its turn there, and why.
const TURNS: &[(Parts, Place, Answer)] = &[
    // bounds of the values in the set
    (
        SWITCHED,
        (SMALL, &[], &[(0, Op::Ge, 1)]),
        Gives((1, Op::Ge, 2), &[(0, Op::Ge, 1)]),
    ),
    (
        SWITCHED,
        (SMALL, &[], &[(0, Op::Ge, 1), (1, Op::Ge, 2)]),
        Gives((1, Op::Le, 8), &[(0, Op::Ge, 1)]),
    ),
    (
        SWITCHED,
        (
            SMALL,
            &[],
            &[(0, Op::Ge, 1), (1, Op::Ge, 2), (1, Op::Le, 8)],
        ),
        Quiet,
    ),
    // jumps over numbers outside: up, past a hole, down
    (
        SWITCHED,
        (SMALL, &[], &[(0, Op::Ge, 1), (1, Op::Ge, 3)]),
        Gives((1, Op::Ge, 7), &[(0, Op::Ge, 1), (1, Op::Ge, 3)]),
    ),
    (
        SWITCHED,
        (
            SMALL,
            &[],
            &[(0, Op::Ge, 1), (1, Op::Ne, 2), (1, Op::Ne, 9)],
        ),
        Gives((1, Op::Ge, 7), &[(0, Op::Ge, 1), (1, Op::Ne, 2)]),
    ),
];

/// Variable 0 is -5 to 5, and variable 1 above the set.
const ABOVE: Place = (&[(-5, 5), WIDE, (-5, 5)], &[], &[(1, Op::Ge, 9)]);

/// A restriction under each comparison, a place, its turn there, and why.
const OPPOSED: &[(Parts, Place, Answer)] = &[
    (
        (Some((0, Op::Ge, 2)), 1, SET),
        ABOVE,
        Gives((0, Op::Le, 1), &[(1, Op::Ge, 9)]),
    ),
    (
        (Some((0, Op::Le, 2)), 1, SET),
        ABOVE,
        Gives((0, Op::Ge, 3), &[(1, Op::Ge, 9)]),
    ),
    ((Some((0, Op::Eq, 2)), 1, SET), ABOVE, Quiet),
    (
        (Some((0, Op::Eq, 5)), 1, SET),
        ABOVE,
        Gives((0, Op::Le, 4), &[(1, Op::Ge, 9)]),
    ),
    (
        (Some((0, Op::Eq, -5)), 1, SET),
        ABOVE,
        Gives((0, Op::Ge, -4), &[(1, Op::Ge, 9)]),
    ),
];

#[test]
fn tests_turns_and_explanations(rt: HostRuntime) -> Result<(), Fail> {
    for rows in [TESTS, TURNS, OPPOSED] {
        for (parts, place, answer) in rows {
            let rule = within(rt.alloc(), parts)??;
            assert!(rt;
                answers(rt.alloc(), &rule, place, *answer)?,
                "{parts:?} {place:?} {answer:?}"
            );
        }
    }
    Ok(())
}

fn crosses_threads<T: Send + Sync>(_value: &T) {}

#[test]
fn shapes(rt: HostRuntime) -> Result<(), Fail> {
    for interval in [(1, 3), NONE] {
        let set = (interval, NONE, NONE);
        let own = within(rt.alloc(), &(Some((1, Op::Ge, 1)), 1, set))?;
        assert_eq!(rt; own.err(), Some(BadCondition));
        assert_eq!(rt; within(rt.alloc(), &(ON, 1, set))?.err(), None);
    }
    for (cond, var, count) in [(ON, 1, 2), (Some((1, Op::Ge, 1)), 0, 2), (None, 0, 1)] {
        let rule = within(rt.alloc(), &(cond, var, SET))??;
        assert!(rt; is_counted(&rule, count), "{var} {count}");
        assert_eq!(rt; rule.cond(), condition_of(cond)?);
        assert_eq!(rt; rule.var(), VarId(var));
        assert_eq!(rt; rule.set().upper(), Some(8));
        crosses_threads(&rule);
    }
    Ok(())
}
