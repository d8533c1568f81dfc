use crate::rows::Answer::{Clashes, Gives, Quiet, Test};
use crate::rows::{Answer, Place, Used, answers, atoms_of};
use dp_base::Memory;
use dp_domain::{Op, Test as _};
use dp_rule_clause::*;
use dp_trials::{LARGEST, is_counted};
use std::alloc::Global;
use std::test::Fail;

fn nogood(alloc: Global, rows: &[Used]) -> Result<Nogood, Memory> {
    Nogood::new(alloc, atoms_of(alloc, rows)?.as_slice())
}

/// Variable 0 is 0 or 1, 1 is 5 to 9, and 2 is 1 to 4.
const NEAR: Place = (&[(0, 1), (5, 9), (1, 4)], &[], &[]);

/// A nogood, a place, and whether it clashes there.
const TESTS: &[(&[Used], Place, Answer)] = &[
    // no atom; entailed; refuted; open; an entailed hole; one of five values
    (&[], NEAR, Test(true)),
    (&[(1, Op::Ge, 5)], NEAR, Test(true)),
    (&[(1, Op::Ge, 10)], NEAR, Test(false)),
    (&[(1, Op::Ge, 6)], NEAR, Test(false)),
    (&[(1, Op::Ne, 4)], NEAR, Test(true)),
];

const WIDE: (i64, i64) = (-LARGEST, LARGEST);

const ALL: &[(i64, i64)] = &[WIDE, WIDE, WIDE];

const FREE: Place = (ALL, &[], &[]);

/// A nogood, a place, and its turn there by atoms on one variable.
const ONE: &[(&[Used], Place, Answer)] = &[
    // one atom of each comparison
    (&[(0, Op::Ge, 2)], FREE, Gives((0, Op::Le, 1), &[])),
    (&[(0, Op::Le, 2)], FREE, Gives((0, Op::Ge, 3), &[])),
    (&[(0, Op::Eq, 2)], FREE, Gives((0, Op::Ne, 2), &[])),
    (&[(0, Op::Ne, 2)], FREE, Gives((0, Op::Ge, 2), &[])),
    (
        &[(0, Op::Eq, -LARGEST)],
        FREE,
        Gives((0, Op::Ge, 1 - LARGEST), &[]),
    ),
];

/// The same by atoms on more variables.
const MORE: &[(&[Used], Place, Answer)] = &[
    // the other atom is entailed
    (
        &[(0, Op::Eq, 3), (1, Op::Le, 9)],
        (ALL, &[], &[(1, Op::Le, 8), (1, Op::Ne, 5)]),
        Gives((0, Op::Ne, 3), &[(1, Op::Le, 8)]),
    ),
    // both are open; one is refuted; the later variable
    (&[(0, Op::Ge, 5), (1, Op::Ge, 5)], FREE, Quiet),
    (
        &[(0, Op::Ge, 5), (1, Op::Ge, 5)],
        (ALL, &[], &[(0, Op::Le, 4)]),
        Quiet,
    ),
    (
        &[(0, Op::Ge, 5), (1, Op::Ge, 5)],
        (ALL, &[], &[(0, Op::Ge, 6)]),
        Gives((1, Op::Le, 4), &[(0, Op::Ge, 6)]),
    ),
    // only what is needed: a bound, holes
    (
        &[(0, Op::Ge, 5), (1, Op::Ge, 5)],
        (
            ALL,
            &[],
            &[
                (1, Op::Ge, 7),
                (1, Op::Le, 20),
                (1, Op::Ne, 9),
                (0, Op::Ne, 9),
            ],
        ),
        Gives((0, Op::Le, 4), &[(1, Op::Ge, 7)]),
    ),
];

#[test]
fn tests_turns_and_explanations(rt: HostRuntime) -> Result<(), Fail> {
    for rows in [TESTS, ONE, MORE] {
        for (atoms, place, answer) in rows {
            let rule = nogood(rt.alloc(), *atoms)?;
            assert!(rt;
                answers(rt.alloc(), &rule, place, *answer)?,
                "{atoms:?} {place:?} {answer:?}"
            );
        }
    }
    Ok(())
}

const A: Used = (2, Op::Ge, 1);

const B: Used = (0, Op::Ge, 1);

const C: Used = (2, Op::Le, 1);

const D: Used = (2, Op::Ge, -1);

/// The atoms that are given, those that are kept, and how many variables these have; repeats are left out.
const KEPT: &[(&[Used], &[Used], usize)] = &[
    (&[A, B, A, B], &[A, B], 2),
    (&[A, B, C, D], &[A, B, C, D], 2),
    (&[A, B, A, C, B, D, C], &[A, B, C, D], 2),
    (&[D, D, D, D, D, D], &[D], 1),
    (&[], &[], 0),
];

fn crosses_threads<T: Send + Sync>(_value: &T) {}

#[test]
fn shapes(rt: HostRuntime) -> Result<(), Fail> {
    for (given, kept, count) in KEPT {
        let rule = nogood(rt.alloc(), *given)?;
        let kept = atoms_of(rt.alloc(), *kept)?;
        assert!(rt; rule.atoms() == kept.as_slice(), "{given:?}");
        assert_eq!(rt; rule.scope_len(), *count, "{given:?}");
    }
    let rows = [A, B, (1, Op::Le, 7), (2, Op::Ge, 2), (0, Op::Ne, 7), A];
    assert!(rt; is_counted(&nogood(rt.alloc(), &rows)?, 3));
    let (few, _) = rows.split_at(4);
    assert!(rt; is_counted(&nogood(rt.alloc(), few)?, 3));
    let rule = nogood(
        rt.alloc(),
        &[(1, Op::Eq, 5), (2, Op::Ge, 1), (0, Op::Ne, 1)],
    )?;
    for (var, value, wanted) in [
        (1, 5, true),
        (1, 6, false),
        (2, 5, false),
        (2, 1, false),
        (0, 1, false),
    ] {
        assert_eq!(rt; rule.is_point(VarId(var), value), wanted, "{var} {value}");
    }
    crosses_threads(&rule);
    Ok(())
}
