ghost use Rattle.std.specs.Prelude.{◌≤◌, IfOk};
ghost use Rattle.dp_scaffold.specs.Scaffolds.{IsScaffoldOf};

use crate::models::{LEAST, NONE, NONE_LOG, problem_of};
use dp_base::Memory;
use dp_parts::Problem;
use dp_pool::Open;
use dp_process::{ProcessRefusal, Processed, process};
use dp_scaffold::{Scaffold, ScaffoldAnswer, read_scaffold};
use std::alloc::Global;
use std::test::Fail;
use std::thread::Threads;

/// What is wanted of a scaffold: its log, how many of its nogoods stand there and how many steps; or that the nogood
/// at this place, on this line and with this number, does not follow.
#[derive(Clone, Copy, Debug)]
enum Wanted {
    Log(&'static str, u64, u64),
    NotFollowing(usize, u64, u64),
}

use Wanted::{Log, NotFollowing};

/// Three clauses of p and q, which leave one case.
const OPEN: &str =
    "var bool: p;\nvar bool: q;\nvar bool: r;\nconstraint bool_clause([p,q],[]);\nconstraint bool_clause([p],[q]);\nconstraint bool_clause([q],[p]);\nsolve satisfy;\n";

/// The four clauses of p and q.
const CLAUSES: &str =
    "var bool: p;\nvar bool: q;\nvar bool: r;\nconstraint bool_clause([p,q],[]);\nconstraint bool_clause([p],[q]);\nconstraint bool_clause([q],[p]);\nconstraint bool_clause([],[p,q]);\nsolve satisfy;\n";

/// No constraint.
const FREE: &str = "var bool: p;\nsolve satisfy;\n";

/// A variable without a value.
const EMPTY: &str = "var 1..0: x;\nsolve satisfy;\n";

const UNSAT: &str = "c UNSAT\n";

const CLAUSE_TEXT: &str = "a 1 [r >= 1]\na 2 [p >= 1]\nn 1 1\nn 2 2\nc UNSAT\n";

const CLAUSE_LOG: &str = "a 1 [p >= 1]
a 2 [q >= 1]
i 1 1 0 2 c:3 l:clause
i 2 1 2 0 c:4 l:clause
n 3 1 0 1 2
i 4 -1 0 2 c:1 l:clause
i 5 -1 2 0 c:2 l:clause
n 6 0 3 4 5
c UNSAT
";

const SEVEN_LOG: &str = "a 1 [cost >= 7]\ni 1 -1 0 c:1 l:linear\nn 2 -1 0 1\nc 1\n";

/// A name, a model, a scaffold, and what is wanted of it.
const ROWS: &[(&str, &str, &str, Wanted)] = &[
    ("two inequalities", NONE, UNSAT, Log(NONE_LOG, 0, 8)),
    ("left out", CLAUSES, CLAUSE_TEXT, Log(CLAUSE_LOG, 1, 6)),
    (
        "one that does not follow",
        OPEN,
        CLAUSE_TEXT,
        NotFollowing(1, 4, 2),
    ),
    (
        "the last of two",
        FREE,
        "a 1 [p >= 1]\nn 1 1\nn 2 -1\nc UNSAT\n",
        NotFollowing(1, 3, 2),
    ),
    ("the conclusion's own", FREE, UNSAT, NotFollowing(0, 1, 0)),
    (
        "a bound",
        LEAST,
        "a 1 [cost >= 7]\nc 1\n",
        Log(SEVEN_LOG, 0, 2),
    ),
    (
        "an initial bound",
        LEAST,
        "a 1 [cost >= 0]\nc 1\n",
        Log("a 1 [cost >= 0]\nn 1 -1\nc 1\n", 0, 1),
    ),
    ("no value", EMPTY, UNSAT, Log("n 1\nc UNSAT\n", 0, 1)),
];

/// The scaffold of a problem that a text is, or none where it is refused.
pub fn scaffold_of(alloc: Global, problem: &Problem, text: &str) -> Result<Scaffold, Memory>
    ensures { IfOk result (λ scaffold. IsScaffoldOf problem.now scaffold) }
{
    if text.len() > 1000 {
        return Err(Memory);
    }
    match read_scaffold(alloc, problem, text.as_bytes())? {
        ScaffoldAnswer::Given(scaffold) => Ok(scaffold),
        _ => Err(Memory),
    }
}

/// What processing a scaffold by so many workers answers.
fn processed<R: Threads + Sync>(
    rt: &R,
    alloc: Global,
    model: &str,
    text: &str,
    workers: usize,
) -> Result<Processed, ProcessRefusal>
    requires some_workers { 1 ≤ workers }
    requires few_workers { workers ≤ 64 }
{
    let problem = problem_of(alloc, model)?;
    let scaffold = scaffold_of(alloc, &problem, text)?;
    process(rt, alloc, &problem, &scaffold, workers, &Open)
}

fn is_wanted(answer: &Result<Processed, ProcessRefusal>, wanted: Wanted) -> bool {
    match (answer, wanted) {
        (Ok(done), Log(text, kept, steps)) => {
            done.text.bytes() == text.as_bytes() && done.kept == kept && done.steps == steps
        }
        (Err(ProcessRefusal::NotFollowing { place, line, id }), NotFollowing(p, l, i)) => {
            *place == p && *line == l && *id == i
        }
        _ => false,
    }
}

#[test]
fn scaffolds_are_processed(rt: HostRuntime) -> Result<(), Fail> {
    for (name, model, text, wanted) in ROWS {
        for workers in [1, 2, 64] {
            let answer = processed(&rt, rt.alloc(), *model, *text, workers);
            assert!(rt;
                is_wanted(&answer, *wanted),
                "{name}, {workers} workers: {answer:?}"
            );
        }
    }
    Ok(())
}
