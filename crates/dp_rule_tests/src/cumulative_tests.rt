use crate::rows::Answer::{Clash, Clashes, Gives, Quiet, Test, Turn};
use crate::rows::Position::{Number, Var};
use crate::rows::{Answer, Place, Position, answers, term_of, terms_of};
use dp_domain::{Op, Test as _};
use dp_rule_cumulative::*;
use dp_trials::{LARGEST, is_counted};
use std::alloc::Global;
use std::test::Fail;

const S: Position = Var(0);

const T: Position = Var(1);

const ZERO: Position = Number(0);

/// The starts, the durations and the uses of tasks, and what they share.
type Tasks = (&'static [Position], &'static [i64], &'static [i64], i64);

fn cumulative(alloc: Global, tasks: &Tasks) -> Result<Cumulative, TaskRefusal> {
    let (starts, durations, uses, capacity) = *tasks;
    let starts = terms_of(alloc, starts)?;
    let durations = durations.to_vec(alloc).map_err(Memory::from)?;
    let uses = uses.to_vec(alloc).map_err(Memory::from)?;
    Cumulative::new(alloc, starts, durations, uses, capacity)
}

const REFUSED: &[(Tasks, Option<TaskRefusal>)] = &[
    // lengths
    ((&[S], &[2], &[], 1), Some(TaskRefusal::BadLength)),
    (
        (&[ZERO, S], &[2, -1], &[1], -1),
        Some(TaskRefusal::BadLength),
    ),
    (
        (&[ZERO, S], &[-1], &[1, 1], 1),
        Some(TaskRefusal::BadLength),
    ),
    (
        (&[ZERO, S], &[1, 1, 1], &[1, 1, 1], 1),
        Some(TaskRefusal::BadLength),
    ),
    // numbers
    (
        (&[ZERO, S], &[0, -1], &[LARGEST, 1], 1),
        Some(TaskRefusal::BadTask(1)),
    ),
    (
        (&[ZERO, S], &[0, 1], &[LARGEST, -1], -1),
        Some(TaskRefusal::BadTask(1)),
    ),
    (
        (&[ZERO, S], &[0, LARGEST + 1], &[LARGEST, 1], 1),
        Some(TaskRefusal::BadTask(1)),
    ),
    (
        (&[ZERO, S], &[0, 1], &[LARGEST, LARGEST + 1], 1),
        Some(TaskRefusal::BadTask(1)),
    ),
    (
        (&[ZERO, S], &[0, 1], &[LARGEST, 1], -1),
        Some(TaskRefusal::BadCapacity),
    ),
    (
        (&[ZERO, S], &[0, 1], &[LARGEST, 1], LARGEST + 1),
        Some(TaskRefusal::BadCapacity),
    ),
    ((&[ZERO, S], &[0, LARGEST], &[LARGEST, 0], 0), None),
    ((&[ZERO, S], &[0, 0], &[LARGEST, LARGEST], LARGEST), None),
    ((&[S], &[-1], &[1], 1), Some(TaskRefusal::BadTask(0))),
];

#[test]
fn refusals(rt: HostRuntime) -> Result<(), Fail> {
    for (tasks, refusal) in REFUSED {
        assert_eq!(rt; cumulative(rt.alloc(), tasks).err(), *refusal, "{tasks:?}");
    }
    Ok(())
}

/// Two tasks of one start.
const TWICE: Tasks = (&[S, S], &[2, 2], &[1, 1], 1);

/// Tasks, a place, and whether they clash there.
const TESTS: &[(Tasks, Place, Answer)] = &[
    // a task beside one from 0 to 2
    (
        (&[ZERO, S], &[2, 2], &[1, 1], 1),
        (&[(2, 2)], &[], &[]),
        Test(false),
    ),
    (
        (&[ZERO, S], &[2, 2], &[1, 1], 1),
        (&[(1, 1)], &[], &[]),
        Test(true),
    ),
    (
        (&[ZERO, S], &[2, 2], &[1, 1], 2),
        (&[(1, 1)], &[], &[]),
        Test(false),
    ),
    (
        (&[ZERO, S], &[2, 2], &[1, 1], 1),
        (&[(-1, -1)], &[], &[]),
        Test(true),
    ),
    (
        (&[ZERO, S], &[2, 2], &[1, 1], 1),
        (&[(-2, -2)], &[], &[]),
        Test(false),
    ),
];

/// Starts of a task and of one that runs from 4 until 7 and uses 2 of 3.
const BESIDE: &[Position] = &[S, Number(4)];

/// Tasks, a place, and their turn beside one from 4 to 7.
const PUSHED: &[(Tasks, Place, Answer)] = &[
    // to the right
    (
        (BESIDE, &[2, 3], &[2, 2], 3),
        (&[(3, 9)], &[], &[]),
        Turn((0, Op::Ge, 5)),
    ),
    (
        (BESIDE, &[1, 3], &[2, 2], 3),
        (&[(5, 9)], &[], &[]),
        Turn((0, Op::Ge, 6)),
    ),
    (
        (BESIDE, &[10, 3], &[2, 2], 3),
        (&[(0, 9)], &[], &[]),
        Turn((0, Op::Ge, 7)),
    ),
    (
        (BESIDE, &[5, 3], &[2, 2], 3),
        (&[(6, 7)], &[], &[]),
        Turn((0, Op::Ge, 7)),
    ),
    (
        (BESIDE, &[2, 3], &[4, 2], 3),
        (&[(3, 9)], &[], &[]),
        Turn((0, Op::Ge, 5)),
    ),
];

/// Starts of two tasks and of one at 4.
const THREE: &[Position] = &[T, S, Number(4)];

/// Starts of a task between two.
const BETWEEN: &[Position] = &[S, ZERO, Number(10)];

/// Tasks, a place, and their turn.
const TURNS: &[(Tasks, Place, Answer)] = &[
    // a task that never fits, and one that does
    (
        (&[S], &[2], &[2], 1),
        (&[(0, 3)], &[], &[]),
        Gives((0, Op::Ge, 2), &[]),
    ),
    (
        (&[S], &[2], &[2], 1),
        (&[(0, 3)], &[], &[(0, Op::Ge, 2)]),
        Clashes(&[(0, Op::Ge, 2)]),
    ),
    ((&[S], &[2], &[1], 1), (&[(0, 3)], &[], &[]), Quiet),
    // a task after another
    (
        (&[S, T], &[3, 3], &[1, 1], 1),
        (&[(0, 5), (0, 5)], &[], &[(0, Op::Le, 1)]),
        Gives((1, Op::Ge, 3), &[(0, Op::Le, 1)]),
    ),
    // the first variable that has a bound
    (
        (THREE, &[2, 2, 3], &[2, 2, 2], 3),
        (&[(3, 9), (3, 9)], &[], &[]),
        Turn((0, Op::Ge, 5)),
    ),
];

#[test]
fn tests_turns_and_explanations(rt: HostRuntime) -> Result<(), Fail> {
    for rows in [TESTS, PUSHED, TURNS] {
        for (tasks, place, answer) in rows {
            let rule = cumulative(rt.alloc(), tasks)?;
            assert!(rt;
                answers(rt.alloc(), &rule, place, *answer)?,
                "{tasks:?} {place:?} {answer:?}"
            );
        }
    }
    Ok(())
}

fn crosses_threads<T: Send + Sync>(_value: &T) {}

#[test]
fn shapes(rt: HostRuntime) -> Result<(), Fail> {
    let rule = cumulative(rt.alloc(), &(&[S], &[2], &[3], 4))?;
    let task = Task {
        start: term_of(S),
        duration: 2,
        usage: 3,
    };
    assert_eq!(rt; rule.tasks(), [task].as_slice());
    assert_eq!(rt; rule.capacity(), 4);
    assert!(rt; is_counted(&rule, 1));
    assert!(rt; !rule.is_point(VarId(0), 2));
    crosses_threads(&rule);
    assert!(rt; is_counted(&cumulative(rt.alloc(), &TWICE)?, 1));
    Ok(())
}
