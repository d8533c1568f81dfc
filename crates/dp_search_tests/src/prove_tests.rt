ghost use Rattle.std.specs.Prelude.{◌≤◌};

use crate::models::{DIFFERENT, MOST, NONE, TOUCHING, Used, is_atom};
use dp_base::Memory;
use dp_domain::{Op, Verdict};
use dp_lower::lower;
use dp_pool::Open;
use fz_items::read_model;
use fz_prove::{Proof, prove_model};
use std::alloc::Global;
use std::test::Fail;
use std::thread::Threads;

/// How proving ends: with a log that is accepted, of no bound or of this one; with a solution; or open.
#[derive(Clone, Copy, Debug)]
enum Wanted {
    Accepted(Option<Used>),
    Solved,
    Unknown,
}

/// Two tasks that must not overlap, of which the last is to end early: a compiled model.
const SCHEDULE: &str =
    "var 0..10: s1;\nvar 1..10: s2;\nvar 0..20: mk:: output_var;\nvar bool: X_INTRODUCED_1_ ::var_is_introduced :: is_defined_var;\nvar bool: X_INTRODUCED_2_ ::var_is_introduced :: is_defined_var;\narray [1..2] of var int: starts:: output_array([1..2]) = [s1,s2];\nconstraint int_lin_le([1,-1],[s1,mk],-2);\nconstraint int_lin_le([1,-1],[s2,mk],-3);\nconstraint int_lin_le_reif([1,-1],[s1,s2],-2,X_INTRODUCED_1_):: defines_var(X_INTRODUCED_1_);\nconstraint int_lin_le_reif([1,-1],[s2,s1],-3,X_INTRODUCED_2_):: defines_var(X_INTRODUCED_2_);\nconstraint bool_clause([X_INTRODUCED_1_,X_INTRODUCED_2_],[]);\nsolve :: int_search([s1,s2],input_order,indomain_min,complete) minimize mk;\n";

const UNSAT: &str = "=====UNSATISFIABLE=====\n";

/// A name, a model, the most nogoods, the text of the outcome, and how proving ends.
const ROWS: &[(&str, &str, u64, &str, Wanted)] = &[
    ("none", NONE, 1000, UNSAT, Wanted::Accepted(None)),
    ("different", DIFFERENT, 1000, UNSAT, Wanted::Accepted(None)),
    (
        "schedule",
        SCHEDULE,
        1000,
        "mk = 5;\nstarts = array1d(1..2, [0, 2]);\n----------\n==========\n",
        Wanted::Accepted(Some((2, Op::Ge, 5))),
    ),
    (
        "most",
        MOST,
        1000,
        "gain = 4;\n----------\n==========\n",
        Wanted::Accepted(Some((0, Op::Le, 4))),
    ),
    (
        "touching",
        TOUCHING,
        1000,
        "s = 2;\n----------\n",
        Wanted::Solved,
    ),
    ("open", DIFFERENT, 1, "=====UNKNOWN=====\n", Wanted::Unknown),
];

/// Proves the model of a text by so many workers.
fn proved<R: Threads + Sync>(
    rt: &R,
    alloc: Global,
    text: &str,
    conflicts: u64,
    workers: usize,
) -> Result<Proof, Memory>
    requires some_workers { 1 ≤ workers }
    requires few_workers { workers ≤ 64 }
{
    match read_model(alloc, text.as_bytes()) {
        Ok(model) => {
            let problem = lower(alloc, &model)?;
            prove_model(
                rt,
                alloc,
                &model,
                &problem,
                conflicts.clamp(1, 1000),
                workers,
                &Open,
            )
        }
        Err(_) => Err(Memory),
    }
}

fn is_claim(claim: &Verdict, bound: Option<Used>) -> bool {
    match (claim, bound) {
        (Verdict::Unsat, None) => true,
        (Verdict::Bound(atom), Some(used)) => is_atom(atom, &used),
        _ => false,
    }
}

fn is_wanted(proof: &Proof, answer: &str, wanted: Wanted) -> bool {
    match (proof, wanted) {
        (Proof::Accepted(text, claim), Wanted::Accepted(bound)) => {
            text.bytes() == answer.as_bytes() && is_claim(claim, bound)
        }
        (Proof::Solved(text), Wanted::Solved) | (Proof::Unknown(text), Wanted::Unknown) => {
            text.bytes() == answer.as_bytes()
        }
        _ => false,
    }
}

#[test]
fn models_are_proved(rt: HostRuntime) -> Result<(), Fail> {
    for (name, model, conflicts, answer, wanted) in ROWS {
        for workers in [1, 3] {
            let proof = proved(&rt, rt.alloc(), *model, *conflicts, workers)?;
            assert!(rt;
                is_wanted(&proof, *answer, *wanted),
                "{name}, {workers} workers: {proof:?}"
            );
        }
    }
    Ok(())
}
