use crate::runs::{DIFFERENT, Left, MINIMUM, MODEL, STEPS, front, left_by};
use std::alloc::{AllocError, Global};
use std::test::Fail;
use std::thread::Threads;

// What is written behind the steps of a log that proves the model.
const END: &str = "n 8 0 1 2 3 4 5 6 7\nc UNSAT\n";

const PROCESSED: &str = "processed: 0 of 0 nogoods kept, 8 steps\n";

// Two variables that clauses leave no values, and a third that is free.
const CLAUSES: &str =
    "var bool: p;\nvar bool: q;\nvar bool: r;\nconstraint bool_clause([p,q],[]);\nconstraint bool_clause([p],[q]);\nconstraint bool_clause([q],[p]);\nconstraint bool_clause([],[p,q]);\nsolve satisfy;\n";

// The same without the last.
const OPEN: &str =
    "var bool: p;\nvar bool: q;\nvar bool: r;\nconstraint bool_clause([p,q],[]);\nconstraint bool_clause([p],[q]);\nconstraint bool_clause([q],[p]);\nsolve satisfy;\n";

// A nogood that is not needed, and one that is.
const LEARNED: &str = "a 1 [r >= 1]\na 2 [p >= 1]\nn 1 1\nn 2 2\nc UNSAT\n";

const KEPT: &str =
    "a 1 [p >= 1]\na 2 [q >= 1]\ni 1 1 0 2 c:3 l:clause\ni 2 1 2 0 c:4 l:clause\nn 3 1 0 1 2\ni 4 -1 0 2 c:1 l:clause\ni 5 -1 2 0 c:2 l:clause\nn 6 0 3 4 5\nc UNSAT\n";

// A variable without a constraint.
const FREE: &str = "var bool: p;\nsolve satisfy;\n";

// Models, scaffolds without a nogood, the logs that they become, and the steps of those.
const CLAIMS: [(&str, &str, &str, u32); 11] = [
    (
        "var 1..5: x;\nvar 6..9: y = x;\nsolve satisfy;\n",
        "c UNSAT\n",
        "n 1\nc UNSAT\n",
        1,
    ),
    (
        "var {0,2,5}: x;\nconstraint int_lin_le([1],[x],4);\nconstraint int_lin_le([-1],[x],-1);\nconstraint int_ne(x,2);\nsolve satisfy;\n",
        "c UNSAT\n",
        "a 1 [x >= 3]\ni 1 0 -1 c:1 l:linear\na 2 [x >= 2]\ni 2 0 2 c:2 l:linear\ni 3 2 -1 0 c:3 l:not_equal\nn 4 0 1 2 3\nc UNSAT\n",
        4,
    ),
    (
        "var 1..1: x;\nvar 0..2: y;\nvar bool: r;\nconstraint int_lin_eq_reif([1,1],[x,y],2,r);\nconstraint bool_clause([],[r]);\nconstraint int_le(1,y);\nconstraint int_le(y,1);\nsolve satisfy;\n",
        "c UNSAT\n",
        "a 1 [r >= 1]\ni 1 0 -1 c:2 l:clause\na 2 [y == 1]\ni 2 -1 0 -2 c:1 l:not_equal\na 3 [y >= 2]\ni 3 -2 0 3 c:3 l:linear\ni 4 3 0 c:4 l:linear\nn 5 0 1 2 3 4\nc UNSAT\n",
        5,
    ),
    (
        "var 0..3: i;\nconstraint array_var_int_element(i,[i,5,i],3);\nconstraint int_le(i,2);\nsolve satisfy;\n",
        "c UNSAT\n",
        "a 1 [i >= 3]\ni 1 0 1 c:1 l:element\ni 2 1 0 c:2 l:linear\nn 3 0 1 2\nc UNSAT\n",
        3,
    ),
    (
        "var 0..2: x;\nconstraint all_different_int([x,x]);\nsolve satisfy;\n",
        "c UNSAT\n",
        "a 1 [x >= 1]\ni 1 0 1 c:1 l:all_different\na 2 [x >= 2]\ni 2 1 0 2 c:1 l:all_different\ni 3 2 0 c:1 l:all_different\nn 4 0 1 2 3\nc UNSAT\n",
        4,
    ),
    (
        "constraint all_different_int([3,3]);\nsolve satisfy;\n",
        "c UNSAT\n",
        "i 1 0 c:1 l:all_different\nn 2 0 1\nc UNSAT\n",
        2,
    ),
    (
        "var 0..3: s;\nconstraint cumulative([s],[2],[2],1);\nsolve satisfy;\n",
        "c UNSAT\n",
        "a 1 [s >= 2]\ni 1 0 1 c:1 l:time_table\ni 2 1 0 c:1 l:time_table\nn 3 0 1 2\nc UNSAT\n",
        3,
    ),
    (
        "constraint int_lin_le([1000000000],[1000000000000000000],0);\nsolve satisfy;\n",
        "c UNSAT\n",
        "i 1 0 c:1 l:linear\nn 2 0 1\nc UNSAT\n",
        2,
    ),
    (
        "var 0..9: x;\nconstraint int_le(x,7);\nsolve maximize x;\n",
        "a 1 [x >= 8]\nc -1\n",
        "a 1 [x >= 8]\ni 1 1 0 c:1 l:linear\nn 2 1 0 1\nc -1\n",
        2,
    ),
    (
        "var 2..5: x;\nvar 3..4: y;\nvar 0..25: z;\nconstraint int_times(x,y,z);\nconstraint int_le(z,5);\nsolve satisfy;\n",
        "c UNSAT\n",
        "a 1 [z >= 6]\ni 1 0 1 c:1 l:times\ni 2 1 0 c:2 l:linear\nn 3 0 1 2\nc UNSAT\n",
        3,
    ),
    (
        "var -3..5: x;\nconstraint int_abs(x,7);\nsolve satisfy;\n",
        "c UNSAT\n",
        "i 1 0 c:1 l:absolute\nn 2 0 1\nc UNSAT\n",
        2,
    ),
];

// What is left where a scaffold of a model is processed.
fn processed<R: Threads + Sync>(
    rt: &R,
    alloc: Global,
    model: &str,
    scaffold: &str,
    piece: usize,
    failing: &[u64],
) -> Result<Left, AllocError> {
    let words = ["process", "m", "l", "o"];
    left_by(
        rt,
        alloc,
        &words,
        model,
        scaffold.as_bytes(),
        piece,
        failing,
    )
}

// Whether a scaffold of a model is refused with this answer.
fn refuses<R: Threads + Sync>(
    rt: &R,
    alloc: Global,
    model: &str,
    scaffold: &str,
    answer: &str,
) -> Result<bool, AllocError> {
    let left = processed(rt, alloc, model, scaffold, 1_000_000, &[])?;
    Ok(left.is(1, answer.as_bytes(), None))
}

// Whether a scaffold of a model becomes this log, with this answer.
fn becomes<R: Threads + Sync>(
    rt: &R,
    alloc: Global,
    model: &str,
    scaffold: &str,
    log: &str,
    answer: &str,
) -> Result<bool, AllocError> {
    let left = processed(rt, alloc, model, scaffold, 1_000_000, &[])?;
    Ok(left.is(0, answer.as_bytes(), Some(log.as_bytes())))
}

#[test]
fn a_claim_alone_is_justified(rt: HostRuntime) -> Result<(), Fail> {
    let alloc = rt.alloc();
    let log = format!(in alloc; "{STEPS}{END}")?;
    assert!(rt; becomes(&rt, alloc, MODEL, "c UNSAT\n", log.as_str(), PROCESSED)?);
    Ok(())
}

#[test]
fn nogoods_that_are_needed_are_kept(rt: HostRuntime) -> Result<(), Fail> {
    let alloc = rt.alloc();
    let answer = "processed: 1 of 2 nogoods kept, 6 steps\n";
    assert!(rt; becomes(&rt, alloc, CLAUSES, LEARNED, KEPT, answer)?);
    Ok(())
}

#[test]
fn claims_of_each_kind_are_justified(rt: HostRuntime) -> Result<(), Fail> {
    let alloc = rt.alloc();
    for (model, scaffold, log, steps) in CLAIMS {
        let answer = format!(in alloc; "processed: 0 of 0 nogoods kept, {steps} steps\n")?;
        assert!(rt;
            becomes(&rt, alloc, model, scaffold, log, answer.as_str())?,
            "{model}"
        );
    }
    Ok(())
}

const BOUNDS: [(&str, &str, &str); 2] = [
    (
        "a 1 [obj >= 7]\nc 1\n",
        "a 1 [obj >= 7]\ni 1 -1 0 c:1 l:linear\nn 2 -1 0 1\nc 1\n",
        "processed: 0 of 0 nogoods kept, 2 steps\n",
    ),
    (
        "a 1 [obj >= 0]\nc 1\n",
        "a 1 [obj >= 0]\nn 1 -1\nc 1\n",
        "processed: 0 of 0 nogoods kept, 1 steps\n",
    ),
];

#[test]
fn bounds_are_justified(rt: HostRuntime) -> Result<(), Fail> {
    let alloc = rt.alloc();
    for (scaffold, log, answer) in BOUNDS {
        assert!(rt;
            becomes(&rt, alloc, MINIMUM, scaffold, log, answer)?,
            "{scaffold}"
        );
    }
    Ok(())
}

const OPEN_NOGOODS: [(&str, &str, &str, &str); 4] = [
    (
        "a nogood",
        OPEN,
        LEARNED,
        "refused: NotFollowing 2 at line 4\n2: not ([p >= 1])\n",
    ),
    (
        "the last that fails",
        FREE,
        "a 1 [p >= 1]\nn 1 1\nn 2 -1\nc UNSAT\n",
        "refused: NotFollowing 2 at line 3\n2: not ([p <= 0])\n",
    ),
    (
        "the conclusion",
        DIFFERENT,
        "c UNSAT\n",
        "refused: NotFollowing 0 at line 1\nconclusion: UNSAT\n",
    ),
    (
        "a bound",
        MINIMUM,
        "a 1 [obj >= 8]\nc 1\n",
        "refused: NotFollowing 0 at line 2\nconclusion: [obj >= 8]\n",
    ),
];

#[test]
fn what_does_not_follow_is_told(rt: HostRuntime) -> Result<(), Fail> {
    let alloc = rt.alloc();
    for (name, model, scaffold, answer) in OPEN_NOGOODS {
        assert!(rt; refuses(&rt, alloc, model, scaffold, answer)?, "{name}");
    }
    Ok(())
}

const REFUSALS: [(&str, &str); 11] = [
    ("c UNSAT\nc  UNSAT", "AfterConclusion at line 2\nc UNSAT\n"),
    (
        "a 1 [absent>=1]\n",
        "UnknownVar at line 1\na 1 [absent >= 1]\n",
    ),
    (
        "a 1 [obj >= 7]\na 01 [obj >= 8]\n",
        "AtomTwice at line 2\na 1 [obj >= 8]\n",
    ),
    ("n 1 5\n", "UnknownAtom 5 at line 1\nn 1 5\n"),
    ("n 1 -5 4\n", "UnknownAtom -5 at line 1\nn 1 -5 4\n"),
    (
        "a 1 [obj >= 7]\nn 1 1\ni 1 1 0\n",
        "StepTwice at line 3\ni 1 1 0\n",
    ),
    ("a 1 [obj >= 7]\nc -1\n", "WrongBound at line 2\nc -1\n"),
    ("a 1 [obj >= 7]\n", "NoConclusion at line 2\n"),
    ("", "NoConclusion at line 1\n"),
    ("a 1 [obj >= 7]\nn 2 1x\n", "Form at line 2 byte 5\n"),
    ("d 1\nc UNSAT\n", "NotBuilt at line 1\n"),
];

#[test]
fn each_test_of_a_scaffold_has_its_name(rt: HostRuntime) -> Result<(), Fail> {
    let alloc = rt.alloc();
    for (scaffold, refusal) in REFUSALS {
        let answer = format!(in alloc; "refused: {refusal}")?;
        assert!(rt;
            refuses(&rt, alloc, MINIMUM, scaffold, answer.as_str())?,
            "{scaffold}"
        );
    }
    let answer = "refused: NoGoal at line 2\nc 1\n";
    assert!(rt; refuses(&rt, alloc, FREE, "a 1 [p >= 1]\nc 1\n", answer)?);
    Ok(())
}

#[test]
fn refused_models_are_told_first(rt: HostRuntime) -> Result<(), Fail> {
    let left = processed(&rt, rt.alloc(), "#", "c UNSAT\n", 1_000_000, &[5])?;
    assert!(rt; left.is(3, b"model refused: BadByte at byte 0\n", None));
    Ok(())
}

// In pieces of 16 bytes: opening the model, nine reads, opening the scaffold, and two reads.
#[test]
fn failed_reads_of_a_scaffold_are_told(rt: HostRuntime) -> Result<(), Fail> {
    let alloc = rt.alloc();
    for call in 1..14 {
        let left = processed(&rt, alloc, MODEL, "c UNSAT\n", 16, &[call])?;
        assert!(rt; left.is(5, b"read fault\n", None), "call {call} fails");
    }
    Ok(())
}

// Then opening the file, 17 writes, and three writes of the answer.
#[test]
fn failed_writes_of_a_log_are_told(rt: HostRuntime) -> Result<(), Fail> {
    let alloc = rt.alloc();
    let log = format!(in alloc; "{STEPS}{END}")?;
    let left = processed(&rt, alloc, MODEL, "c UNSAT\n", 16, &[14])?;
    assert!(rt; left.is(6, b"", None), "opening the file fails");
    for call in 15..32 {
        let left = processed(&rt, alloc, MODEL, "c UNSAT\n", 16, &[call])?;
        let file = front(log.as_bytes(), 16 * (call as usize - 15));
        assert!(rt; left.is(6, b"", Some(file)), "call {call} fails");
    }
    Ok(())
}

#[test]
fn failed_writes_behind_a_log_are_told(rt: HostRuntime) -> Result<(), Fail> {
    let alloc = rt.alloc();
    let log = format!(in alloc; "{STEPS}{END}")?;
    for (call, count) in [(32, 0), (33, 16), (34, 32)] {
        let left = processed(&rt, alloc, MODEL, "c UNSAT\n", 16, &[call])?;
        let answer = front(PROCESSED.as_bytes(), count);
        assert!(rt;
            left.is(6, answer, Some(log.as_bytes())),
            "call {call} fails"
        );
    }
    let left = processed(&rt, alloc, MODEL, "c UNSAT\n", 16, &[35])?;
    assert!(rt;
        left.is(0, PROCESSED.as_bytes(), Some(log.as_bytes())),
        "there are 34 calls"
    );
    Ok(())
}
