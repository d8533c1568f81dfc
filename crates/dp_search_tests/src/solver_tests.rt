ghost use Rattle.std.specs.Prelude.{◌≤◌};

use crate::models::{DIFFERENT, LEAST, MOST, NONE, Used, atom_of, is_atom, problem_of};
use dp_base::Memory;
use dp_desk::{MemoryDesk, Out};
use dp_domain::Op;
use dp_solver::{Outcome, SolveFault, solve, solve_cut};
use std::alloc::Global;
use std::test::Fail;

/// An outcome as it is written in a table; of an open one whether a solution is known.
#[derive(Clone, Copy, Debug)]
enum Wanted {
    Solution(&'static [i64]),
    Unsat,
    Optimal(&'static [i64], Used),
    Unknown(Option<&'static [i64]>),
}

/// Four variables that differ, over four numbers.
const ENOUGH: &str =
    "var 0..3: w;\nvar 0..3: x;\nvar 0..3: y;\nvar 0..3: z;\nconstraint int_ne(w,x);\nconstraint int_ne(w,y);\nconstraint int_ne(w,z);\nconstraint int_ne(x,y);\nconstraint int_ne(x,z);\nconstraint int_ne(y,z);\nsolve satisfy;\n";

/// A variable without a value.
const EMPTY: &str = "var 1..0: x;\nsolve satisfy;\n";

/// w + 3 <= z and x + z <= 6, where z is to be least.
const BETWEEN: &str =
    "var 0..9: w;\nvar 0..9: x;\nvar 0..9: y;\nvar 0..9: z;\nconstraint int_lin_le([1,-1],[w,z],-3);\nconstraint int_lin_le([1,1],[x,z],6);\nsolve minimize z;\n";

/// The same, where z is to be greatest.
const BENEATH: &str =
    "var 0..9: w;\nvar 0..9: x;\nvar 0..9: y;\nvar 0..9: z;\nconstraint int_lin_le([1,-1],[w,z],-3);\nconstraint int_lin_le([1,1],[x,z],6);\nsolve maximize z;\n";

const UNSAT: &str = "c UNSAT\n";

const ONE_NOGOOD: &str = "a 1 [w >= 1]\na 2 [x >= 2]\nn 1 -1 -2\n";

const DIFFERENT_TEXT: &str = "a 1 [w >= 1]
a 2 [x >= 2]
n 1 -1 -2
n 2 -1
a 3 [w >= 2]
a 4 [x >= 1]
n 3 -3 -4
n 4 -3
n 5 -4
c UNSAT
";

/// A name, a model, the most nogoods, the outcome, and its scaffold.
const ROWS: &[(&str, &str, u64, Wanted, &str)] = &[
    (
        "a solution",
        ENOUGH,
        10,
        Wanted::Solution(&[0, 1, 2, 3]),
        "",
    ),
    ("propagation refutes", NONE, 10, Wanted::Unsat, UNSAT),
    ("no value", EMPTY, 10, Wanted::Unsat, UNSAT),
    (
        "nogoods refute",
        DIFFERENT,
        10,
        Wanted::Unsat,
        DIFFERENT_TEXT,
    ),
    (
        "the most nogoods",
        DIFFERENT,
        1,
        Wanted::Unknown(None),
        ONE_NOGOOD,
    ),
    (
        "the least value",
        BETWEEN,
        10,
        Wanted::Optimal(&[0, 0, 0, 3], (3, Op::Ge, 3)),
        "a 1 [z >= 3]\nc 1\n",
    ),
    (
        "the greatest value",
        BENEATH,
        10,
        Wanted::Optimal(&[0, 0, 0, 6], (3, Op::Le, 6)),
        "a 1 [z >= 7]\nc -1\n",
    ),
    (
        "a least cost",
        LEAST,
        10,
        Wanted::Optimal(&[7], (0, Op::Ge, 7)),
        "a 1 [cost >= 7]\nc 1\n",
    ),
    (
        "a greatest gain",
        MOST,
        10,
        Wanted::Optimal(&[4], (0, Op::Le, 4)),
        "a 1 [gain >= 5]\nc -1\n",
    ),
];

fn is_outcome(outcome: &Outcome, wanted: Wanted) -> bool {
    match (outcome, wanted) {
        (Outcome::Solution(found), Wanted::Solution(numbers)) => found.values() == numbers,
        (Outcome::Unsat, Wanted::Unsat) => true,
        (Outcome::Optimal(found, atom), Wanted::Optimal(numbers, bound)) => {
            found.values() == numbers && is_atom(atom, &bound)
        }
        (Outcome::Unknown(None), Wanted::Unknown(None)) => true,
        (Outcome::Unknown(Some(found)), Wanted::Unknown(Some(numbers))) => {
            found.values() == numbers
        }
        _ => false,
    }
}

/// A desk that moves seven bytes at once, and of which one call fails.
fn desk_of(alloc: Global, failing: u64) -> Result<MemoryDesk, Memory> {
    Ok(MemoryDesk::new(alloc, Vec::new(alloc), 7, [failing].to_vec(alloc)?))
}

/// Solves the problem of a model over a desk.
fn solved(
    alloc: Global,
    model: &str,
    conflicts: u64,
    desk: &mut MemoryDesk,
) -> Result<Outcome, SolveFault> {
    let problem = problem_of(alloc, model)?;
    solve(alloc, &problem, conflicts.clamp(1, 1000), desk, Out::Answer)
}

#[test]
fn outcomes_and_their_scaffolds(rt: HostRuntime) -> Result<(), Fail> {
    for (name, model, conflicts, wanted, text) in ROWS {
        let mut desk = desk_of(rt.alloc(), 0)?;
        let outcome = solved(rt.alloc(), *model, *conflicts, &mut desk)?;
        assert!(rt; is_outcome(&outcome, *wanted), "{name}: {outcome:?}");
        let written = desk.written(Out::Answer).unwrap_or(b"not told");
        assert_eq!(rt; written, text.as_bytes(), "{name}");
    }
    Ok(())
}

/// Solves the problem of a model whose domains are cut by an atom.
fn solved_cut(
    alloc: Global,
    model: &str,
    used: Used,
    desk: &mut MemoryDesk,
) -> Result<Outcome, SolveFault> {
    let problem = problem_of(alloc, model)?;
    let atom = atom_of(used)?;
    if atom.var().0 as usize >= problem.initial().len() {
        return Err(SolveFault::Memory);
    }
    let goal = problem.goal();
    solve_cut(alloc, &problem, &[atom], goal, 10, desk, Out::Answer)
}

/// A name, a model, an atom that cuts its domains, the outcome, and its scaffold.
const CUT: &[(&str, &str, Used, Wanted, &str)] = &[
    (
        "one Boolean",
        "var bool: p;\nsolve satisfy;\n",
        (0, Op::Ge, 1),
        Wanted::Solution(&[1]),
        "",
    ),
    (
        "a solution",
        "var bool: w;\nvar bool: x;\nsolve satisfy;\n",
        (0, Op::Ge, 1),
        Wanted::Solution(&[1, 0]),
        "",
    ),
    (
        "the least value beneath a bound",
        BETWEEN,
        (0, Op::Ge, 2),
        Wanted::Optimal(&[2, 0, 0, 5], (3, Op::Ge, 5)),
        "a 1 [z >= 5]\nc 1\n",
    ),
    (
        "no value is left",
        BETWEEN,
        (0, Op::Ge, 10),
        Wanted::Unsat,
        UNSAT,
    ),
];

#[test]
fn atoms_cut_the_domains(rt: HostRuntime) -> Result<(), Fail> {
    for (name, model, used, wanted, text) in CUT {
        let mut desk = desk_of(rt.alloc(), 0)?;
        let outcome = solved_cut(rt.alloc(), *model, *used, &mut desk)?;
        assert!(rt; is_outcome(&outcome, *wanted), "{name}: {outcome:?}");
        let written = desk.written(Out::Answer).unwrap_or(b"not told");
        assert_eq!(rt; written, text.as_bytes(), "{name}");
    }
    Ok(())
}

/// A write that fails, and the front of the scaffold that stands then.
const FAULTS: &[(u64, &str)] = &[
    (1, ""),
    (3, "a 1 [w >= 1]\na"),
    (7, "a 1 [w >= 1]\na 2 [x >= 2]\nn 1 -1 -2\n"),
];

#[test]
fn a_failed_write_ends_the_search(rt: HostRuntime) -> Result<(), Fail> {
    for (failing, front) in FAULTS {
        let mut desk = desk_of(rt.alloc(), *failing)?;
        let fault = solved(rt.alloc(), DIFFERENT, 10, &mut desk).err();
        assert_eq!(rt; fault, Some(SolveFault::WriteFault), "{failing}");
        let written = desk.written(Out::Answer).unwrap_or(b"not told");
        assert_eq!(rt; written, front.as_bytes(), "{failing}");
    }
    Ok(())
}
