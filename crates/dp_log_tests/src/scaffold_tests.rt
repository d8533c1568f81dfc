ghost use Rattle.std.specs.Prelude.{◌≤◌, ◌^◌};
ghost use Rattle.dp_lines.specs.Allowed.{IsAllowed};

use crate::models::{Used, is_atom, problem_of, reader_of};
use crate::pieces::in_pieces;
use dp_base::Memory;
use dp_domain::{Atom, Op, Verdict};
use dp_lines::{Line, LineRefusal};
use dp_parts::Problem;
use dp_scaffold::{
    GatherFault, GatherWhy, Gatherer, Scaffold, ScaffoldAnswer, ScaffoldReading, ScaffoldRefusal,
    read_scaffold,
};
use std::alloc::Global;
use std::test::Fail;

/// A Boolean p and a number obj, of which nothing is asked.
const NOTHING: &str = "var bool: p;\nvar 0..9: obj;\nsolve satisfy;\n";

/// The same, where obj is to be least.
const LEAST: &str = "var bool: p;\nvar 0..9: obj;\nsolve minimize obj;\n";

/// A nogood of a scaffold: its atoms, its line and its number.
type Learned = (&'static [Used], u64, u64);

/// What lines bring: that the one of this number is refused, and each later one so too; or that there is no conclusion,
/// which is told of the line behind so many.
#[derive(Clone, Copy, Debug)]
enum Wanted {
    Refused(u64, GatherWhy),
    Unclaimed(u64),
}

use Wanted::{Refused, Unclaimed};

// The tests in their order; where the next test is of the same lines, it would refuse them too.
const REFUSED: &[(&str, &[u8], Wanted)] = &[
    (
        NOTHING,
        b"c UNSAT\n\na 1 [w >= 1]\nc UNSAT\n",
        Refused(3, GatherWhy::AfterConclusion),
    ),
    (
        NOTHING,
        b"a 1 [p >= 1]\na 1 [w >= 1]\na 1 [p >= 1]\n",
        Refused(2, GatherWhy::UnknownVar),
    ),
    (
        NOTHING,
        b"a 1 [p >= 1]\na 2 [p >= 1]\na 1 [p >= 1]\n",
        Refused(3, GatherWhy::AtomTwice),
    ),
    (
        NOTHING,
        b"a 1 [p >= 1]\ni 7 1 0\ni 7 1 -5 6 0 8 c:9\n",
        Refused(3, GatherWhy::UnknownAtom(-5)),
    ),
    (
        NOTHING,
        b"a 1 [p >= 1]\ni 7 1 0 8 c:9\n",
        Refused(2, GatherWhy::UnknownAtom(8)),
    ),
    (
        NOTHING,
        b"a 1 [p >= 1]\nn 7 1\nn 7 1 4 0 9\n",
        Refused(3, GatherWhy::UnknownAtom(4)),
    ),
    (NOTHING, b"c 3\n", Refused(1, GatherWhy::UnknownAtom(3))),
    (
        NOTHING,
        b"a 1 [p >= 1]\ni 7 1 0 -1 c:9\nn 7 1\nc UNSAT\n",
        Refused(3, GatherWhy::StepTwice),
    ),
    (
        NOTHING,
        b"a 1 [p >= 1]\nn 7 1 0 9\ni 7 1 0\n",
        Refused(3, GatherWhy::StepTwice),
    ),
    (
        NOTHING,
        b"a 1 [p >= 1]\nn 7 -1\nn 7 1\n",
        Refused(3, GatherWhy::StepTwice),
    ),
    (
        NOTHING,
        b"a 1 [p <= 1]\nc 1\n",
        Refused(2, GatherWhy::NoGoal),
    ),
    (
        LEAST,
        b"a 1 [p >= 1]\nc 1\n",
        Refused(2, GatherWhy::WrongBound),
    ),
    (
        LEAST,
        b"a 1 [obj <= 7]\nc 1\n",
        Refused(2, GatherWhy::WrongBound),
    ),
    (
        LEAST,
        b"a 1 [obj >= 7]\nc -1\n",
        Refused(2, GatherWhy::WrongBound),
    ),
    // no line concludes
    (NOTHING, b"", Unclaimed(0)),
    (NOTHING, b"a 1 [p >= 1]\nn 1 1 -1 0 5\n", Unclaimed(2)),
    (NOTHING, b"", Unclaimed(1 << 62)),
];

/// What lines bring: their first refusal, whether each later line is refused so too, and the refusal behind them.
#[derive(Clone, Copy, Debug)]
struct Course {
    refusal: Option<ScaffoldRefusal>,
    steady: bool,
    end: Option<ScaffoldRefusal>,
}

/// Takes the line, again where memory was wanting.
fn taken(gatherer: &mut Gatherer, number: u64, line: &Line) -> Option<ScaffoldRefusal>
    requires { IsAllowed line.now }
{
    for _ in 0..2 {
        match gatherer.take(number, line) {
            Ok(()) => return None,
            Err(GatherFault::Refused(refusal)) => return Some(refusal),
            Err(GatherFault::Memory) => {}
        }
    }
    None
}

/// The course of at most twenty lines, which are finished at this number of lines.
fn course_of(alloc: Global, problem: &Problem, text: &[u8], lines: u64) -> Result<Course, Memory>
    requires { lines ≤ 2 ^ 62 }
{
    let mut reader = reader_of(alloc, text)?;
    let mut gatherer = Gatherer::new(alloc, problem)?;
    let mut refusal = None;
    let mut steady = true;
    for _ in 0..20 {
        let Some((number, line)) = reader.line().ok().ok_or(Memory)? else {
            break;
        };
        let answer = taken(&mut gatherer, number, &line);
        steady = steady && (refusal.is_none() || answer == refusal);
        refusal = answer;
    }
    let end = gatherer.finish(lines).err();
    Ok(Course {
        refusal,
        steady,
        end,
    })
}

/// How many lines are named at their end.
fn lines_of(wanted: Wanted) -> u64
    ensures { result ≤ 2 ^ 62 }
{
    match wanted {
        Unclaimed(lines) => lines.min(1 << 62),
        Refused(..) => 20,
    }
}

fn is_refusal(refusal: &ScaffoldRefusal, line: u64, why: GatherWhy) -> bool {
    refusal.line == line && refusal.why == why
}

fn is_wanted(course: &Course, wanted: Wanted) -> bool {
    match (&course.refusal, &course.end, wanted) {
        (Some(first), Some(last), Refused(line, why)) => {
            course.steady && is_refusal(first, line, why) && is_refusal(last, line, why)
        }
        (None, Some(last), Unclaimed(lines)) => {
            is_refusal(last, lines.saturating_add(1), GatherWhy::NoConclusion)
        }
        _ => false,
    }
}

#[test]
fn lines_are_refused(rt: HostRuntime) -> Result<(), Fail> {
    for (place, (model, text, wanted)) in REFUSED.iter().enumerate() {
        let problem = problem_of(rt.alloc(), *model)?;
        let course = course_of(rt.alloc(), &problem, *text, lines_of(*wanted))?;
        assert!(rt; is_wanted(&course, *wanted), "text {place}: {course:?}");
    }
    Ok(())
}

fn are_atoms(atoms: &[Atom], used: &[Used]) -> bool {
    atoms.len() == used.len()
        && atoms
            .iter()
            .zip(used)
            .all(|(atom, used)| is_atom(atom, used))
}

/// Whether these are the nogoods of the scaffold.
fn has_nogoods(scaffold: &Scaffold, rows: &[Learned]) -> bool {
    let nogoods = scaffold.nogoods();
    if nogoods.len() != rows.len() {
        return false;
    }
    for (place, (atoms, line, id)) in rows.iter().enumerate() {
        let here = are_atoms(nogoods[place].atoms(), *atoms);
        if !here || scaffold.line_at(place) != *line || scaffold.id_at(place) != *id {
            return false;
        }
    }
    true
}

fn is_claim(claim: &Verdict, bound: Option<Used>) -> bool {
    match (claim, bound) {
        (Verdict::Unsat, None) => true,
        (Verdict::Bound(atom), Some(used)) => is_atom(atom, &used),
        _ => false,
    }
}

/// A model, a text, its nogoods, and the bound that it claims.
const GIVEN: &[(&str, &[u8], &[Learned], Option<Used>)] = &[
    (
        NOTHING,
        b"a 1 [p >= 1]\nn 1 1\nn 2 -1\nc UNSAT\n",
        &[
            (&[(0, Op::Ge, 1)], 2, 1),
            (&[(0, Op::Le, 0)], 3, 2),
            (&[], 4, 0),
        ],
        None,
    ),
    (
        LEAST,
        b"\na 1 [obj >= 7]\n\nc 1\n",
        &[(&[(1, Op::Le, 6)], 4, 0)],
        Some((1, Op::Ge, 7)),
    ),
    (
        NOTHING,
        b"a 4 [p >= 1]\na 2 [obj <= 3]\na 3 [p >= 1]\ni 5 4 0 2 c:9 l:any\nn 8 4 -2 3 4 0 5 77\nc UNSAT\n",
        &[(&[(0, Op::Ge, 1), (1, Op::Ge, 4)], 5, 8), (&[], 6, 0)],
        None,
    ),
    (NOTHING, b"c UNSAT", &[(&[], 1, 0)], None),
];

/// Whether a short text is the scaffold of these nogoods and this claim.
fn is_given(
    alloc: Global,
    model: &str,
    text: &[u8],
    rows: &[Learned],
    bound: Option<Used>,
) -> Result<bool, Memory> {
    let problem = problem_of(alloc, model)?;
    if text.len() > 1000 {
        return Ok(false);
    }
    match read_scaffold(alloc, &problem, text)? {
        ScaffoldAnswer::Given(scaffold) => {
            Ok(has_nogoods(&scaffold, rows) && is_claim(&scaffold.claim(), bound))
        }
        _ => Ok(false),
    }
}

#[test]
fn scaffolds_are_given(rt: HostRuntime) -> Result<(), Fail> {
    for (place, (model, text, rows, bound)) in GIVEN.iter().enumerate() {
        assert!(rt;
            is_given(rt.alloc(), *model, *text, *rows, *bound)?,
            "text {place}"
        );
    }
    Ok(())
}

/// What is answered.
#[derive(Clone, Copy, Debug, PartialEq, Eq)]
enum Told {
    Passed,
    Unread(LineRefusal),
    Refused(u64),
}

fn told_of(answer: &ScaffoldAnswer) -> Told {
    match answer {
        ScaffoldAnswer::Given(_) => Told::Passed,
        ScaffoldAnswer::Unread(refusal) => Told::Unread(*refusal),
        ScaffoldAnswer::Refused(refusal, _) => Told::Refused(refusal.line),
    }
}

const BOUND: &[u8] = b"a 1 [obj >= 0]\nc 1\n";

const UNKNOWN: &[u8] = b"a 1 [obj >= 0]\nn 1 9\nc 1\n";

const MISSING: &[u8] = b"a 1 [obj >= 0]\nn\nc 1\n";

const UNENDED: &[u8] = b"a 1 [obj >= 0]\nn 1 9";

/// A text, the number of bytes of each piece, what is answered, and how many bytes have come where a piece answers.
const PIECES: &[(&[u8], usize, Told, Option<usize>)] = &[
    // all lines pass
    (BOUND, 1, Told::Passed, None),
    (BOUND, 7, Told::Passed, None),
    (BOUND, 1000, Told::Passed, None),
    // the piece that ends the refused line answers
    (UNKNOWN, 1, Told::Refused(2), Some(21)),
    (UNKNOWN, 7, Told::Refused(2), Some(21)),
    (UNKNOWN, 1000, Told::Refused(2), Some(25)),
    (MISSING, 1, Told::Unread(LineRefusal::Form(2, 2)), Some(17)),
    (MISSING, 7, Told::Unread(LineRefusal::Form(2, 2)), Some(21)),
    // a line without its end is judged in the end
    (UNENDED, 1, Told::Refused(2), None),
    (UNENDED, 7, Told::Refused(2), None),
    (UNENDED, 1000, Told::Refused(2), None),
    // nothing concludes nothing
    (b"", 1, Told::Refused(1), None),
    (b"\n", 1, Told::Refused(2), None),
];

/// What is told of a short text in pieces.
fn told_in_pieces(
    alloc: Global,
    text: &[u8],
    size: usize,
) -> Result<(Told, Option<usize>), Memory> {
    if text.len() > 1000 || size == 0 {
        return Err(Memory);
    }
    let problem = problem_of(alloc, LEAST)?;
    let (answer, came) = in_pieces(ScaffoldReading::new(alloc, &problem)?, text, size)?;
    Ok((told_of(&answer), came))
}

#[test]
fn texts_in_pieces(rt: HostRuntime) -> Result<(), Fail> {
    for (place, (text, size, told, came)) in PIECES.iter().enumerate() {
        let answer = told_in_pieces(rt.alloc(), *text, *size)?;
        assert_eq!(rt; answer, (*told, *came), "text {place}");
    }
    Ok(())
}
