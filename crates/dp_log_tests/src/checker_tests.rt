ghost use Rattle.std.specs.Prelude.{◌≤◌, ◌^◌};
ghost use Rattle.dp_lines.specs.Allowed.{IsAllowed};

use crate::models::{Used, problem_of, reader_of};
use dp_base::Memory;
use dp_checker::{CheckFault, Checker, StepRefusal, Why};
use dp_domain::{Op, Verdict};
use dp_lines::Line;
use dp_parts::Problem;
use std::alloc::Global;
use std::test::Fail;

// x and y from 0 to 3, z an alias of x. 1: x lies in 0..1; 2: x and y differ; 3: y lies in 5..6; 4: x is at most 3.

/// Nothing is asked.
const NOTHING: &str =
    "var 0..3: x;\nvar 0..3: y;\nvar 0..3: z = x;\nconstraint set_in(x,0..1);\nconstraint all_different_int([x,y]);\nconstraint set_in(y,5..6);\nconstraint int_le(x,3);\nsolve satisfy;\n";

/// x is to be least.
const LEAST: &str =
    "var 0..3: x;\nvar 0..3: y;\nvar 0..3: z = x;\nconstraint set_in(x,0..1);\nconstraint all_different_int([x,y]);\nconstraint set_in(y,5..6);\nconstraint int_le(x,3);\nsolve minimize x;\n";

/// x is to be greatest.
const GREATEST: &str =
    "var 0..3: x;\nvar 0..3: y;\nvar 0..3: z = x;\nconstraint set_in(x,0..1);\nconstraint all_different_int([x,y]);\nconstraint set_in(y,5..6);\nconstraint int_le(x,3);\nsolve maximize x;\n";

/// What a log brings: that its line of this number is refused, and each later one so too; that it has no conclusion,
/// which is told of the line behind so many; or that it is accepted, with a bound that it concludes if any.
#[derive(Clone, Copy)]
enum Wanted {
    Refused(u64, Why),
    Unconcluded(u64),
    Accepted(Option<Used>),
}

use Wanted::{Accepted, Refused, Unconcluded};

/// What is asked, a log, and what it brings.
type Row = (&'static str, &'static [u8], Wanted);

// The tests in their order; where the next test is of the same lines, it would refuse them too.
const REFUSED: &[Row] = &[
    (
        LEAST,
        b"a 1 [x >= 0]\nc 1\na 1 [w >= 1]\n",
        Refused(3, Why::AfterConclusion),
    ),
    (
        LEAST,
        b"a 1 [x >= 0]\nc 1\nc 1\nc UNSAT\n",
        Refused(3, Why::AfterConclusion),
    ),
    (
        LEAST,
        b"a 1 [x >= 0]\nc 1\n\ni 1 9 0 c:9\n",
        Refused(4, Why::AfterConclusion),
    ),
    (
        LEAST,
        b"a 1 [x >= 0]\nc 1\nn 1 9 0 8\n",
        Refused(3, Why::AfterConclusion),
    ),
    (
        NOTHING,
        b"a 1 [x >= 1]\na 1 [w >= 1]\na 2 [x >= 1]\n",
        Refused(2, Why::UnknownVar),
    ),
    (NOTHING, b"a 1 [X >= 1]\n", Refused(1, Why::UnknownVar)),
    (
        NOTHING,
        b"a 1 [x >= 1]\na 2 [x >= 1]\na 1 [z >= 1]\na 3 [x >= 1]\n",
        Refused(3, Why::AtomTwice),
    ),
    (
        NOTHING,
        b"a 1 [x >= 2]\ni 7 0 -1 c:1\ni 7 1 -5 6 0 8 c:9\n",
        Refused(3, Why::UnknownAtom(-5)),
    ),
    (
        NOTHING,
        b"a 1 [x >= 2]\ni 7 1 0 8 c:9\n",
        Refused(2, Why::UnknownAtom(8)),
    ),
    (
        NOTHING,
        b"a 1 [x >= 2]\ni 7 0 -1 c:1\nn 7 1 4 0 9\n",
        Refused(3, Why::UnknownAtom(4)),
    ),
    (NOTHING, b"c 3\n", Refused(1, Why::UnknownAtom(3))),
    (
        NOTHING,
        b"a 1 [x >= 2]\ni 7 0 -1 c:1\ni 7 0 -1 c:9\n",
        Refused(3, Why::StepTwice),
    ),
    (
        NOTHING,
        b"a 1 [x >= 2]\ni 7 0 -1 c:1\nn 7 1 0 9\n",
        Refused(3, Why::StepTwice),
    ),
    (
        NOTHING,
        b"a 1 [x >= 2]\nn 3 1 0 3\ni 7 0 -1 c:1\n",
        Refused(2, Why::UnknownStep(3)),
    ),
    (
        NOTHING,
        b"a 1 [x >= 2]\ni 7 0 -1 c:1\nn 2 1 0 7 8\n",
        Refused(3, Why::UnknownStep(8)),
    ),
    (
        NOTHING,
        b"a 1 [x >= 2]\ni 1 0 -1 c:5 l:linear\n",
        Refused(2, Why::UnknownConstraint),
    ),
    (
        NOTHING,
        b"a 1 [x >= 2]\ni 1 1 -1 0 c:5 l:initial_domain\n",
        Refused(2, Why::UnknownConstraint),
    ),
    (
        NOTHING,
        b"a 1 [x >= 2]\ni 1 0 -1 c:1000000000000000000\n",
        Refused(2, Why::UnknownConstraint),
    ),
    (
        NOTHING,
        b"a 1 [x >= 2]\ni 1 0 1 c:1 l:all_different\n",
        Refused(2, Why::WrongLabel),
    ),
    (
        NOTHING,
        b"a 1 [x >= 2]\ni 1 0 -1 l:domain\n",
        Refused(2, Why::WrongLabel),
    ),
    (
        NOTHING,
        b"a 1 [x >= 2]\ni 1 0 1 c:4 l:domain\n",
        Refused(2, Why::WrongLabel),
    ),
    (
        NOTHING,
        b"a 1 [x >= 2]\ni 1 0 -1 c:1 l:initial\n",
        Refused(2, Why::WrongLabel),
    ),
    (
        NOTHING,
        b"a 1 [x >= 1]\ni 1 0 -1 c:1\n",
        Refused(2, Why::NotImplied),
    ),
    (
        NOTHING,
        b"a 1 [x >= 2]\ni 1 0 -1 c:2\n",
        Refused(2, Why::NotImplied),
    ),
    (
        NOTHING,
        b"a 1 [x >= 2]\ni 1 0 -1 c:1 l:initial_domain\n",
        Refused(2, Why::NotImplied),
    ),
    (
        NOTHING,
        b"a 1 [x >= 2]\ni 1 0 -1\n",
        Refused(2, Why::NotImplied),
    ),
    (
        NOTHING,
        b"a 1 [x >= 1]\na 2 [x >= 2]\ni 1 0 -2 c:1\nn 2 1 0 1\nc UNSAT\n",
        Refused(4, Why::NoClash),
    ),
    (NOTHING, b"a 1 [x >= 1]\nn 2 1\n", Refused(2, Why::NoClash)),
    (
        NOTHING,
        b"a 1 [y >= 0]\nc 1\nc UNSAT\n",
        Refused(2, Why::NoGoal),
    ),
    (LEAST, b"a 1 [x >= 2]\nc -1\n", Refused(2, Why::WrongBound)),
    (LEAST, b"a 1 [y >= 0]\nc 1\n", Refused(2, Why::WrongBound)),
    (
        GREATEST,
        b"a 1 [x >= 0]\nc 1\n",
        Refused(2, Why::WrongBound),
    ),
    (LEAST, b"a 1 [x >= 1]\nc 1\n", Refused(2, Why::NotConcluded)),
    (
        NOTHING,
        b"c UNSAT\ni 1 0 c:3\nc UNSAT\n",
        Refused(1, Why::NotConcluded),
    ),
];

const TAKEN: &[Row] = &[
    // no line concludes
    (NOTHING, b"", Unconcluded(0)),
    (NOTHING, b"a 1 [x >= 1]\n", Unconcluded(1)),
    (LEAST, b"a 1 [z >= 1]\na 2 [y != 3]\n\n\n", Unconcluded(4)),
    (NOTHING, b"i 1 0 c:3 l:domain\n", Unconcluded(1)),
    (NOTHING, b"", Unconcluded(1 << 62)),
    // the conclusion is right
    (NOTHING, b"i 1 0 c:3\nc UNSAT\n", Accepted(None)),
    (LEAST, b"i 1 0 c:3 l:domain\nc UNSAT\n", Accepted(None)),
    (
        LEAST,
        b"a 1 [x >= 0]\nc 1\n",
        Accepted(Some((0, Op::Ge, 0))),
    ),
    (
        LEAST,
        b"a 1 [x <= -1]\nc -1\n",
        Accepted(Some((0, Op::Ge, 0))),
    ),
    (
        LEAST,
        b"a 1 [z >= 0]\nc 1\n",
        Accepted(Some((0, Op::Ge, 0))),
    ),
    (
        GREATEST,
        b"a 1 [x >= 2]\ni 1 0 -1 c:1 l:domain\nc -1\n",
        Accepted(Some((0, Op::Le, 1))),
    ),
    (
        GREATEST,
        b"a 1 [x >= 2]\na 2 [x == 0]\ni 1 0 -1 c:1\nn 9 1 0 1\nc -1\n",
        Accepted(Some((0, Op::Le, 1))),
    ),
    (
        NOTHING,
        b"a 1 [x == 2]\na 2 [y == 2]\ni 1 1 2 0 c:2 l:all_different\ni 2 1 0 -2 c:2\nn 3 1 2 0 1 2\ni 4 0 c:3\nc UNSAT\n",
        Accepted(None),
    ),
    (
        GREATEST,
        b"a 1 [x >= 4]\ni 1 1 0 l:initial_domain\ni 2 0 -1\nn 3 1\nc -1\n",
        Accepted(Some((0, Op::Le, 3))),
    ),
];

/// What a log brings: its first refusal, whether each later line is refused so too, and what is answered behind it: a bound, if any.
#[derive(Clone, Copy)]
struct Course {
    refusal: Option<StepRefusal>,
    steady: bool,
    end: Result<Option<Used>, StepRefusal>,
}

/// The bound that is concluded, if any is.
fn bound_of(verdict: &Verdict) -> Option<Used> {
    match verdict {
        Verdict::Unsat => None,
        Verdict::Bound(atom) => Some((atom.var().0, atom.op(), atom.value())),
    }
}

/// Takes the line, again where memory was wanting.
fn taken(checker: &mut Checker, number: u64, line: &Line) -> Option<StepRefusal>
    requires { IsAllowed line.now }
{
    for _ in 0..2 {
        match checker.take(number, line) {
            Ok(()) => return None,
            Err(CheckFault::Refused(refusal)) => return Some(refusal),
            Err(CheckFault::Memory) => {}
        }
    }
    None
}

/// The course of a log of at most twenty lines, which is finished at this number of lines.
fn course_of(alloc: Global, problem: &Problem, log: &[u8], lines: u64) -> Result<Course, Memory>
    requires { lines ≤ 2 ^ 62 }
{
    let mut reader = reader_of(alloc, log)?;
    let mut checker = Checker::new(alloc, problem)?;
    let mut refusal = None;
    let mut steady = true;
    for _ in 0..20 {
        let Some((number, line)) = reader.line().ok().ok_or(Memory)? else {
            break;
        };
        let answer = taken(&mut checker, number, &line);
        steady = steady && (refusal.is_none() || answer == refusal);
        refusal = answer;
    }
    let end = match checker.finish(lines) {
        Ok(verdict) => Ok(bound_of(&verdict)),
        Err(refusal) => Err(refusal),
    };
    Ok(Course {
        refusal,
        steady,
        end,
    })
}

/// How many lines are named at the end of a log.
fn lines_of(wanted: Wanted) -> u64
    ensures { result ≤ 2 ^ 62 }
{
    match wanted {
        Unconcluded(lines) => lines.min(1 << 62),
        Refused(..) | Accepted(_) => 20,
    }
}

fn is_refusal(refusal: StepRefusal, line: u64, why: Why) -> bool {
    refusal.line == line && refusal.why == why
}

fn is_wanted(course: Course, wanted: Wanted) -> bool {
    match (course.refusal, course.end, wanted) {
        (Some(first), Err(last), Refused(line, why)) => {
            course.steady && is_refusal(first, line, why) && is_refusal(last, line, why)
        }
        (None, Err(last), Unconcluded(lines)) => {
            is_refusal(last, lines.saturating_add(1), Why::NoConclusion)
        }
        (None, Ok(bound), Accepted(wanted)) => bound == wanted,
        _ => false,
    }
}

/// Whether a log brings this.
fn brings(alloc: Global, model: &str, log: &[u8], wanted: Wanted) -> Result<bool, Memory> {
    let problem = problem_of(alloc, model)?;
    let course = course_of(alloc, &problem, log, lines_of(wanted))?;
    Ok(is_wanted(course, wanted))
}

#[test]
fn logs_are_checked(rt: HostRuntime) -> Result<(), Fail> {
    for rows in [REFUSED, TAKEN] {
        for (place, (model, log, wanted)) in rows.iter().enumerate() {
            assert!(rt; brings(rt.alloc(), *model, *log, *wanted)?, "log {place}");
        }
    }
    Ok(())
}
