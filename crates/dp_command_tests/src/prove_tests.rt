use crate::runs::{DIFFERENT, Left, MINIMUM, MODEL, front, left_by};
use std::alloc::{AllocError, Global};
use std::test::Fail;
use std::thread::Threads;

// Two tasks that share a capacity, the second of which starts within two steps.
const TASKS: &str =
    "var 0..2: s:: output_var;\nconstraint cumulative([0,s],[2,2],[1,1],1);\nsolve satisfy;\n";

// Two tasks on one machine, whose ends are to be early.
const MAKESPAN: &str =
    "var 0..10: s1;\nvar 1..10: s2;\nvar 0..20: mk:: output_var;\nvar bool: X_INTRODUCED_1_ ::var_is_introduced :: is_defined_var;\nvar bool: X_INTRODUCED_2_ ::var_is_introduced :: is_defined_var;\narray [1..2] of var int: starts:: output_array([1..2]) = [s1,s2];\nconstraint int_lin_le([1,-1],[s1,mk],-2);\nconstraint int_lin_le([1,-1],[s2,mk],-3);\nconstraint int_lin_le_reif([1,-1],[s1,s2],-2,X_INTRODUCED_1_):: defines_var(X_INTRODUCED_1_);\nconstraint int_lin_le_reif([1,-1],[s2,s1],-3,X_INTRODUCED_2_):: defines_var(X_INTRODUCED_2_);\nconstraint bool_clause([X_INTRODUCED_1_,X_INTRODUCED_2_],[]);\nsolve :: int_search([s1,s2],input_order,indomain_min,complete) minimize mk;\n";

// Three variables with distances, of which the greatest value is wanted.
const GREATEST: &str =
    "var 0..9: x:: output_var;\nvar 0..9: y:: output_var;\nconstraint int_lin_le([1,1],[x,y],11);\nconstraint int_lin_le([1,-1],[x,y],-2);\nsolve maximize x;\n";

// What is printed of a model without solutions.
const REFUTED: &str = "=====UNSATISFIABLE=====\naccepted: UNSAT\n";

// What is left where a model is proved. The file of the other name holds no log.
fn proved<R: Threads + Sync>(
    rt: &R,
    alloc: Global,
    model: &str,
    piece: usize,
    failing: &[u64],
) -> Result<Left, AllocError> {
    left_by(rt, alloc, &["prove", "m"], model, b"x", piece, failing)
}

#[test]
fn outcomes_are_told(rt: HostRuntime) -> Result<(), Fail> {
    let alloc = rt.alloc();
    let rows = [
        (MODEL, REFUTED),
        (DIFFERENT, REFUTED),
        (TASKS, "s = 2;\n----------\n"),
        ("solve satisfy;\n", "----------\n"),
        (
            MAKESPAN,
            "mk = 5;\nstarts = array1d(1..2, [0, 2]);\n----------\n==========\naccepted: [mk >= 5]\n",
        ),
        (MINIMUM, "----------\n==========\naccepted: [obj >= 7]\n"),
        (
            GREATEST,
            "x = 4;\ny = 6;\n----------\n==========\naccepted: [x <= 4]\n",
        ),
    ];
    for (model, answer) in rows {
        for piece in [16, 1_000_000] {
            let left = proved(&rt, alloc, model, piece, &[])?;
            assert!(rt; left.is(0, answer.as_bytes(), None), "{model}");
        }
    }
    Ok(())
}

#[test]
fn no_more_nogoods_are_learned(rt: HostRuntime) -> Result<(), Fail> {
    let alloc = rt.alloc();
    let rows = [("1", 4, "=====UNKNOWN=====\n"), ("4000000000", 0, REFUTED)];
    for (conflicts, status, answer) in rows {
        let words = ["prove", "m", "--conflicts", conflicts];
        let left = left_by(&rt, alloc, &words, DIFFERENT, b"", 1_000_000, &[])?;
        assert!(rt; left.is(status, answer.as_bytes(), None), "{conflicts}");
    }
    Ok(())
}

#[test]
fn a_refused_model_is_not_proved(rt: HostRuntime) -> Result<(), Fail> {
    let alloc = rt.alloc();
    let left = proved(&rt, alloc, "#", 1_000_000, &[])?;
    assert!(rt; left.is(3, b"model refused: BadByte at byte 0\n", None));
    let left = left_by(&rt, alloc, &["prove", "absent"], MODEL, b"", 1_000_000, &[])?;
    assert!(rt; left.is(5, b"read fault\n", None));
    Ok(())
}

// In pieces of 16 bytes: opening the model and nine reads, then three writes of the answer.
#[test]
fn failed_calls_are_told(rt: HostRuntime) -> Result<(), Fail> {
    let alloc = rt.alloc();
    for call in 1..11 {
        let left = proved(&rt, alloc, MODEL, 16, &[call])?;
        assert!(rt; left.is(5, b"read fault\n", None), "call {call} fails");
    }
    let text = REFUTED.as_bytes();
    for (call, count) in [(11, 0), (12, 16), (13, 32)] {
        let left = proved(&rt, alloc, MODEL, 16, &[call])?;
        assert!(rt; left.is(6, front(text, count), None), "call {call} fails");
    }
    let left = proved(&rt, alloc, MODEL, 16, &[14])?;
    assert!(rt; left.is(0, text, None), "there are 13 calls");
    Ok(())
}
