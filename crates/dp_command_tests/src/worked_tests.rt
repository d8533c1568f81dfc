use crate::runs::{MINIMUM, MODEL, STEPS, left_by};
use std::alloc::{AllocError, Global};
use std::test::Fail;

/// The end of the log behind its steps.
const END: &str = "n 8 0 1 2 3 4 5 6 7\nc UNSAT\n";

/// Two tasks that must not overlap, of which the last is to end early: a compiled model.
const SCHEDULE: &str =
    "var 0..10: s1;\nvar 1..10: s2;\nvar 0..20: mk:: output_var;\nvar bool: X_INTRODUCED_1_ ::var_is_introduced :: is_defined_var;\nvar bool: X_INTRODUCED_2_ ::var_is_introduced :: is_defined_var;\narray [1..2] of var int: starts:: output_array([1..2]) = [s1,s2];\nconstraint int_lin_le([1,-1],[s1,mk],-2);\nconstraint int_lin_le([1,-1],[s2,mk],-3);\nconstraint int_lin_le_reif([1,-1],[s1,s2],-2,X_INTRODUCED_1_):: defines_var(X_INTRODUCED_1_);\nconstraint int_lin_le_reif([1,-1],[s2,s1],-3,X_INTRODUCED_2_):: defines_var(X_INTRODUCED_2_);\nconstraint bool_clause([X_INTRODUCED_1_,X_INTRODUCED_2_],[]);\nsolve :: int_search([s1,s2],input_order,indomain_min,complete) minimize mk;\n";

const SCHEDULE_LOG: &str = "a 1 [mk >= 5]
a 2 [s1 >= 3]
i 1 -1 0 -2 c:1 l:linear
a 3 [s2 >= 2]
i 2 -1 0 -3 c:2 l:linear
a 4 [X_INTRODUCED_1_ >= 1]
i 3 -3 0 -4 c:3 l:linear
a 5 [X_INTRODUCED_2_ >= 1]
i 4 -2 0 -5 c:4 l:linear
i 5 -4 -5 0 c:5 l:clause
n 6 -1 0 1 2 3 4 5
c 1
";

/// The log of a least value, but for its conclusion.
const LEAST: &str = "a 1 [obj >= 7]\ni 1 -1 0 c:1 l:linear\nn 2 -1 0 1\n";

/// A model, the pieces of a log, the status, and the answer.
const CHECKED: &[(&str, &[&str], u8, &str)] = &[
    (MODEL, &[STEPS, END], 0, "accepted: UNSAT\n"),
    (
        MODEL,
        &[STEPS, "n 8 0 1 2 3 4 5 6 7 9\nc UNSAT\n"],
        1,
        "refused: UnknownStep 9 at line 14\nn 8 0 1 2 3 4 5 6 7 9\n",
    ),
    (
        MODEL,
        &["a 1 [x >= 3]\ni 1 0 -1 c:1 l:initial_domain\n", END],
        1,
        "refused: NotImplied at line 2\ni 1 0 -1 c:1 l:initial_domain\n",
    ),
    (MINIMUM, &[LEAST, "c 1\n"], 0, "accepted: [obj >= 7]\n"),
    (
        MINIMUM,
        &[LEAST, "a 2 [obj <= 6]\nc -2\n"],
        0,
        "accepted: [obj >= 7]\n",
    ),
    (
        MINIMUM,
        &[LEAST, "a 2 [obj <= 7]\nc 2\n"],
        1,
        "refused: WrongBound at line 5\nc 2\n",
    ),
    (SCHEDULE, &[SCHEDULE_LOG], 0, "accepted: [mk >= 5]\n"),
];

/// The pieces behind each other, with these line ends.
fn joined(alloc: Global, pieces: &[&str], end: &str) -> Result<Vec<u8>, AllocError> {
    let mut text = Vec::new(alloc);
    for piece in pieces {
        for byte in piece.as_bytes() {
            if *byte == b'\n' {
                text.extend_from_slice(end.as_bytes())?;
            } else {
                text.push(*byte)?;
            }
        }
    }
    Ok(text)
}

#[test]
fn logs_are_checked(rt: HostRuntime) -> Result<(), Fail> {
    let alloc = rt.alloc();
    for (place, (model, pieces, status, answer)) in CHECKED.iter().enumerate() {
        for end in ["\n", "\r\n"] {
            let log = joined(alloc, *pieces, end)?;
            let left = left_by(
                &rt,
                alloc,
                &["check", "m", "l"],
                *model,
                log.as_slice(),
                16,
                &[],
            )?;
            assert!(rt; left.is(*status, answer.as_bytes(), None), "log {place}");
        }
    }
    Ok(())
}

#[test]
fn a_schedule_is_processed(rt: HostRuntime) -> Result<(), Fail> {
    let words = ["process", "m", "l", "o"];
    let scaffold = b"a 1 [mk >= 5]\nc 1\n";
    let left = left_by(&rt, rt.alloc(), &words, SCHEDULE, scaffold, 16, &[])?;
    let answer = b"processed: 0 of 0 nogoods kept, 6 steps\n";
    assert!(rt; left.is(0, answer, Some(SCHEDULE_LOG.as_bytes())));
    Ok(())
}
