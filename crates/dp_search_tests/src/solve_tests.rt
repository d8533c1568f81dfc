use crate::models::{DIFFERENT, LEAST, MOST, NONE, TOUCHING};
use dp_base::Memory;
use dp_desk::{MemoryDesk, Out};
use dp_lower::lower;
use dp_solver::SolveFault;
use fz_items::read_model;
use fz_solve::solve_model;
use std::alloc::{AllocError, Global};
use std::test::Fail;

/// What solving left: the answer and the file, where it was opened.
#[derive(Drop)]
struct Left {
    result: Result<u8, SolveFault>,
    answer: Vec<u8>,
    file: Option<Vec<u8>>,
}

/// The bytes that were written to the first file of a desk.
fn file_of(alloc: Global, desk: &MemoryDesk) -> Result<Option<Vec<u8>>, AllocError> {
    match desk.written(Out::First) {
        Some(bytes) => Ok(Some(bytes.to_vec(alloc)?)),
        None => Ok(None),
    }
}

/// Solves the model of a text over a desk in memory that moves 16 bytes at a time.
fn solved(alloc: Global, text: &str, conflicts: u64, failing: u64) -> Result<Left, Memory> {
    let Ok(model) = read_model(alloc, text.as_bytes()) else {
        return Err(Memory);
    };
    let problem = lower(alloc, &model)?;
    let mut desk = MemoryDesk::new(alloc, Vec::new(alloc), 16, [failing].to_vec(alloc)?);
    let conflicts = conflicts.clamp(1, 1000);
    let result = solve_model(alloc, &model, &problem, "o", conflicts, &mut desk);
    let answer = desk.written(Out::Answer).unwrap_or(b"not told");
    let answer = answer.to_vec(alloc)?;
    let file = file_of(alloc, &desk)?;
    Ok(Left {
        result,
        answer,
        file,
    })
}

/// How many lines of a file begin with these bytes.
fn count_lines(file: &[u8], start: &[u8]) -> u64 {
    let mut count = 0u64;
    for line in file.split(|b| *b == b'\n') {
        if line.starts_with(start) {
            count = count.saturating_add(1);
        }
    }
    count
}

/// A name, a model, the most nogoods, the status, the answer, the front of the file, its end, and how many nogoods it has.
type Row = (
    &'static str,
    &'static str,
    u64,
    u8,
    &'static str,
    &'static str,
    &'static str,
    u64,
);

const UNSAT: &str = "=====UNSATISFIABLE=====\n";

const UNKNOWN: &str = "=====UNKNOWN=====\n";

const ROWS: &[Row] = &[
    (
        "touching",
        TOUCHING,
        1000,
        0,
        "s = 2;\n----------\n",
        "",
        "",
        0,
    ),
    ("none", NONE, 1000, 0, UNSAT, "c UNSAT\n", "c UNSAT\n", 0),
    (
        "one nogood",
        DIFFERENT,
        1,
        4,
        UNKNOWN,
        "a 1 [",
        "n 1 -1 -2\n",
        1,
    ),
    (
        "two nogoods",
        DIFFERENT,
        2,
        4,
        UNKNOWN,
        "a 1 [",
        "n 2 -1\n",
        2,
    ),
    (
        "different",
        DIFFERENT,
        1000,
        0,
        UNSAT,
        "a 1 [",
        "\nc UNSAT\n",
        5,
    ),
    (
        "least",
        LEAST,
        1000,
        0,
        "cost = 7;\n----------\n==========\n",
        "a 1 [cost >= 7]\nc 1\n",
        "c 1\n",
        0,
    ),
    (
        "most",
        MOST,
        1000,
        0,
        "gain = 4;\n----------\n==========\n",
        "a 1 [gain >= 5]\nc -1\n",
        "c -1\n",
        0,
    ),
];

#[test]
fn outcomes_are_told(rt: HostRuntime) -> Result<(), Fail> {
    for (name, model, conflicts, status, answer, front, end, nogoods) in ROWS {
        let left = solved(rt.alloc(), *model, *conflicts, 0)?;
        let file = left.file.unwrap_or(Vec::new(rt.alloc()));
        assert_eq!(rt; left.result, Ok(*status), "{name}");
        assert_eq!(rt; left.answer.as_slice(), answer.as_bytes(), "{name}");
        assert!(rt; file.as_slice().starts_with(front.as_bytes()), "{name}");
        assert!(rt; file.as_slice().ends_with(end.as_bytes()), "{name}");
        assert_eq!(rt; count_lines(file.as_slice(), b"n "), *nogoods, "{name}");
    }
    Ok(())
}

/// Whether a front of the answer and of the file stands there: nothing is told before all of the file is written.
fn is_front(left: &Left, whole: &Left) -> bool {
    match (&left.file, &whole.file) {
        (Some(file), Some(all)) => {
            all.as_slice().starts_with(file.as_slice())
                && whole.answer.as_slice().starts_with(left.answer.as_slice())
                && (left.answer.is_empty() || file.as_slice() == all.as_slice())
        }
        (None, Some(_)) => left.answer.is_empty(),
        _ => false,
    }
}

#[test]
fn failing_writes_leave_fronts(rt: HostRuntime) -> Result<(), Fail> {
    let alloc = rt.alloc();
    for model in [DIFFERENT, LEAST] {
        let whole = solved(alloc, model, 1000, 0)?;
        let mut failed = 0u64;
        for call in 1..1000 {
            let left = solved(alloc, model, 1000, call)?;
            if left.result == Ok(0) {
                break;
            }
            assert_eq!(rt; left.result, Err(SolveFault::WriteFault), "{call}");
            assert!(rt; is_front(&left, &whole), "{call}");
            failed = call;
        }
        assert!(rt; 3 < failed, "{failed}");
    }
    Ok(())
}
