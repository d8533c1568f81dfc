use crate::runs::{DIFFERENT, Left, MINIMUM, MODEL, answered, front, left_by};
use std::alloc::{AllocError, Global};
use std::test::Fail;
use std::thread::Threads;

// Two tasks that share a capacity, the second of which starts within two steps.
const TASKS: &str =
    "var 0..2: s:: output_var;\nconstraint cumulative([0,s],[2,2],[1,1],1);\nsolve satisfy;\n";

// The same where the second takes no time and starts at once.
const NO_TIME: &str =
    "var 0..2: s:: output_var;\nconstraint cumulative([0,s],[2,0],[1,1],1);\nconstraint int_le(s,0);\nsolve satisfy;\n";

// Two tasks on one machine, whose ends are to be early.
const MAKESPAN: &str =
    "var 0..10: s1;\nvar 1..10: s2;\nvar 0..20: mk:: output_var;\nvar bool: X_INTRODUCED_1_ ::var_is_introduced :: is_defined_var;\nvar bool: X_INTRODUCED_2_ ::var_is_introduced :: is_defined_var;\narray [1..2] of var int: starts:: output_array([1..2]) = [s1,s2];\nconstraint int_lin_le([1,-1],[s1,mk],-2);\nconstraint int_lin_le([1,-1],[s2,mk],-3);\nconstraint int_lin_le_reif([1,-1],[s1,s2],-2,X_INTRODUCED_1_):: defines_var(X_INTRODUCED_1_);\nconstraint int_lin_le_reif([1,-1],[s2,s1],-3,X_INTRODUCED_2_):: defines_var(X_INTRODUCED_2_);\nconstraint bool_clause([X_INTRODUCED_1_,X_INTRODUCED_2_],[]);\nsolve :: int_search([s1,s2],input_order,indomain_min,complete) minimize mk;\n";

// Three variables with distances, of which the greatest value is wanted.
const GREATEST: &str =
    "var 0..9: x:: output_var;\nvar 0..9: y:: output_var;\nconstraint int_lin_le([1,1],[x,y],11);\nconstraint int_lin_le([1,-1],[x,y],-2);\nsolve maximize x;\n";

// What is left where a model is solved.
fn solved<R: Threads + Sync>(
    rt: &R,
    alloc: Global,
    model: &str,
    piece: usize,
    failing: &[u64],
) -> Result<Left, AllocError> {
    left_by(rt, alloc, &["solve", "m", "o"], model, b"", piece, failing)
}

// What a check says of the log that the scaffold of a solved model is processed to.
fn proved<R: Threads + Sync>(rt: &R, alloc: Global, model: &str) -> Result<Vec<u8>, AllocError> {
    let scaffold = file_of(rt, alloc, &["solve", "m", "o"], model, b"")?;
    let words = ["process", "m", "l", "o"];
    let log = file_of(rt, alloc, &words, model, scaffold.as_slice())?;
    let words = ["check", "m", "l"];
    let (_, answer) = answered(rt, alloc, &words, model, log.as_slice(), 1_000_000, &[])?;
    Ok(answer)
}

// The file of a run over a desk with a model and a log.
fn file_of<R: Threads + Sync>(
    rt: &R,
    alloc: Global,
    words: &[&str],
    model: &str,
    log: &[u8],
) -> Result<Vec<u8>, AllocError> {
    let left = left_by(rt, alloc, words, model, log, 1_000_000, &[])?;
    Ok(left.file.unwrap_or(Vec::new(alloc)))
}

// How many lines of a text begin with a byte.
fn lines_with(text: &[u8], first: u8) -> usize {
    let mut count: usize = 0;
    for line in text.split(|byte| *byte == b'\n') {
        if line.first() == Some(&first) {
            count = count.saturating_add(1);
        }
    }
    count
}

#[test]
fn solutions_are_printed(rt: HostRuntime) -> Result<(), Fail> {
    let alloc = rt.alloc();
    let rows = [
        (TASKS, "s = 2;\n----------\n"),
        (NO_TIME, "s = 0;\n----------\n"),
        ("solve satisfy;\n", "----------\n"),
    ];
    for (model, answer) in rows {
        for piece in [1, 16, 1_000_000] {
            let left = solved(&rt, alloc, model, piece, &[])?;
            assert!(rt; left.is(0, answer.as_bytes(), Some(b"")), "{model}");
        }
    }
    Ok(())
}

#[test]
fn a_model_without_solutions_is_refuted(rt: HostRuntime) -> Result<(), Fail> {
    let alloc = rt.alloc();
    let left = solved(&rt, alloc, MODEL, 1_000_000, &[])?;
    assert!(rt; left.is(0, b"=====UNSATISFIABLE=====\n", Some(b"c UNSAT\n")));
    let left = solved(&rt, alloc, DIFFERENT, 1_000_000, &[])?;
    assert_eq!(rt; left.status, 0);
    assert_eq!(rt;
        left.answer.as_slice(),
        b"=====UNSATISFIABLE=====\n".as_slice()
    );
    for model in [MODEL, DIFFERENT] {
        let answer = proved(&rt, alloc, model)?;
        assert_eq!(rt; answer.as_slice(), b"accepted: UNSAT\n".as_slice());
    }
    Ok(())
}

#[test]
fn best_solutions_are_printed(rt: HostRuntime) -> Result<(), Fail> {
    let alloc = rt.alloc();
    let rows = [
        (
            MAKESPAN,
            "mk = 5;\nstarts = array1d(1..2, [0, 2]);\n----------\n==========\n",
            "accepted: [mk >= 5]\n",
        ),
        (
            MINIMUM,
            "----------\n==========\n",
            "accepted: [obj >= 7]\n",
        ),
        (
            GREATEST,
            "x = 4;\ny = 6;\n----------\n==========\n",
            "accepted: [x <= 4]\n",
        ),
    ];
    for (model, text, accepted) in rows {
        let left = solved(&rt, alloc, model, 1_000_000, &[])?;
        assert_eq!(rt; left.status, 0, "{model}");
        assert_eq!(rt; left.answer.as_slice(), text.as_bytes(), "{model}");
        let answer = proved(&rt, alloc, model)?;
        assert_eq!(rt; answer.as_slice(), accepted.as_bytes(), "{model}");
    }
    Ok(())
}

#[test]
fn no_more_nogoods_are_learned(rt: HostRuntime) -> Result<(), Fail> {
    let alloc = rt.alloc();
    let words = ["solve", "m", "o", "--conflicts", "1"];
    let left = left_by(&rt, alloc, &words, DIFFERENT, b"", 1_000_000, &[])?;
    assert_eq!(rt; left.status, 4);
    assert_eq!(rt; left.answer.as_slice(), b"=====UNKNOWN=====\n".as_slice());
    let scaffold = left.file.unwrap_or(Vec::new(alloc));
    assert_eq!(rt; lines_with(scaffold.as_slice(), b'n'), 1);
    assert_eq!(rt; lines_with(scaffold.as_slice(), b'c'), 0);
    Ok(())
}

#[test]
fn a_refused_model_is_not_solved(rt: HostRuntime) -> Result<(), Fail> {
    let alloc = rt.alloc();
    let left = solved(&rt, alloc, "#", 1_000_000, &[])?;
    assert!(rt; left.is(3, b"model refused: BadByte at byte 0\n", None));
    let words = ["solve", "absent", "o"];
    let left = left_by(&rt, alloc, &words, MODEL, b"", 1_000_000, &[])?;
    assert!(rt; left.is(5, b"read fault\n", None));
    Ok(())
}

// In pieces of 16 bytes: opening the model and nine reads, then opening the scaffold, a write of it, and two of the
// answer.
#[test]
fn failed_calls_are_told(rt: HostRuntime) -> Result<(), Fail> {
    let alloc = rt.alloc();
    for call in 1..11 {
        let left = solved(&rt, alloc, MODEL, 16, &[call])?;
        assert!(rt; left.is(5, b"read fault\n", None), "call {call} fails");
    }
    let left = solved(&rt, alloc, MODEL, 16, &[11])?;
    assert!(rt; left.is(6, b"", None), "opening the scaffold fails");
    let left = solved(&rt, alloc, MODEL, 16, &[12])?;
    assert!(rt; left.is(6, b"", Some(b"")), "writing the scaffold fails");
    let text = b"=====UNSATISFIABLE=====\n";
    for (call, count) in [(13, 0), (14, 16)] {
        let left = solved(&rt, alloc, MODEL, 16, &[call])?;
        let answer = front(text, count);
        assert!(rt; left.is(6, answer, Some(b"c UNSAT\n")), "call {call} fails");
    }
    let left = solved(&rt, alloc, MODEL, 16, &[15])?;
    assert!(rt; left.is(0, text, Some(b"c UNSAT\n")), "there are 14 calls");
    Ok(())
}
