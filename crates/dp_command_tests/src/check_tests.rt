// Checks: logs and models with their answers, and calls that fail.
use crate::runs::{MINIMUM, MODEL, STEPS, answered, desk_of};
use dp_command::run;
use dp_desk::Out;
use dp_pool::Open;
use std::alloc::{AllocError, Global};
use std::test::Fail;
use std::thread::Threads;

const ACCEPTED: &str = "accepted: UNSAT\n";

// Checks the log of these names, and gives back the status and the answer.
fn checked<R: Threads + Sync>(
    rt: &R,
    alloc: Global,
    model: &str,
    log: &[u8],
    piece: usize,
    failing: &[u64],
) -> Result<(u8, Vec<u8>), AllocError> {
    answered(rt, alloc, &["check", "m", "l"], model, log, piece, failing)
}

const ENDS: [(&str, &str, u8, &str); 11] = [
    ("accepted", "n 8 0 1 2 3 4 5 6 7\nc UNSAT\n", 0, ACCEPTED),
    (
        "a hint is missing",
        "n 8 0 1 2 3 4 5 6\nc UNSAT\n",
        1,
        "refused: NoClash at line 14\nn 8 0 1 2 3 4 5 6\n",
    ),
    (
        "a hint without effect",
        "n 8 0 7 1 2 3 4 5 6 7\nc UNSAT\n",
        0,
        ACCEPTED,
    ),
    (
        "no step denies everything",
        "c UNSAT\n",
        1,
        "refused: NotConcluded at line 14\nc UNSAT\n",
    ),
    (
        "leading zeros are read",
        "n 08 0 1\nc UNSAT\n",
        1,
        "refused: NoClash at line 14\nn 8 0 1\n",
    ),
    (
        "no such step",
        "n 8 0 7 1 9\nc UNSAT\n",
        1,
        "refused: UnknownStep 9 at line 14\nn 8 0 7 1 9\n",
    ),
    (
        "no conclusion",
        "n 8 0 1 2 3 4 5 6 7\n",
        1,
        "refused: NoConclusion at line 15\n",
    ),
    (
        "no end of the last line",
        "n 8 0 1 2 3 4 5 6 7\r\nc UNSAT",
        0,
        ACCEPTED,
    ),
    (
        "a conclusion cut short",
        "n 8 0 1 2 3 4 5 6 7\nc UNS",
        1,
        "refused: Form at line 15 byte 3\n",
    ),
    (
        "two conclusions",
        "n 8 0 1 2 3 4 5 6 7\nc UNSAT\nc UNSAT\n",
        1,
        "refused: AfterConclusion at line 16\nc UNSAT\n",
    ),
    (
        "blank lines",
        "n 8 0 1 2 3 4 5 6 7\nc UNSAT\n\n\n\n",
        0,
        ACCEPTED,
    ),
];

#[test]
fn logs_are_judged(rt: HostRuntime) -> Result<(), Fail> {
    let alloc = rt.alloc();
    for (name, last, status, text) in ENDS {
        let log = format!(in alloc; "{STEPS}{last}")?;
        for piece in [1, 16, 1_000_000] {
            let (answered, answer) = checked(&rt, alloc, MODEL, log.as_bytes(), piece, &[])?;
            assert_eq!(rt; answered, status, "{name}");
            assert_eq!(rt; answer.as_slice(), text.as_bytes(), "{name}");
        }
    }
    Ok(())
}

const LOGS: [(&str, &str, &str, u8, &str); 9] = [
    (
        "the other constraint",
        MODEL,
        "a 1 [x >= 3]\ni 1 0 -1 c:2 l:linear\nc UNSAT\n",
        1,
        "refused: NotImplied at line 2\ni 1 0 -1 c:2 l:linear\n",
    ),
    (
        "no such constraint",
        MODEL,
        "a 1 [x >= 3]\ni 1 0 -1 c:3 l:linear\nc UNSAT\n",
        1,
        "refused: UnknownConstraint at line 2\ni 1 0 -1 c:3 l:linear\n",
    ),
    (
        "a label of another kind",
        MODEL,
        "a 1 [x >= 3]\ni 1 0 -1 l:element c:1\nc UNSAT\n",
        1,
        "refused: WrongLabel at line 2\ni 1 0 -1 c:1 l:element\n",
    ),
    (
        "an empty log",
        MODEL,
        "",
        1,
        "refused: NoConclusion at line 1\n",
    ),
    (
        "a nogood that is empty at once",
        "var bool: p;\nsolve satisfy;\n",
        "a 1 [p >= 1]\na 2 [p <= 0]\nn 1 1 2\nc UNSAT\n",
        1,
        "refused: NotConcluded at line 4\nc UNSAT\n",
    ),
    (
        "a bound without a goal",
        "var bool: p;\nsolve satisfy;\n",
        "a 1 [p >= 1]\nc 1\n",
        1,
        "refused: NoGoal at line 2\nc 1\n",
    ),
    (
        "a bound on the wrong side",
        MINIMUM,
        "a 1 [obj >= 7]\ni 1 -1 0 c:1 l:linear\nn 2 -1 0 1\na 2 [obj <= 7]\nc 2\n",
        1,
        "refused: WrongBound at line 5\nc 2\n",
    ),
    (
        "a bound",
        MINIMUM,
        "a 1 [obj >= 7]\ni 1 -1 0 c:1 l:linear\nn 2 -1 0 1\na 2 [obj <= 6]\nc -2\n",
        0,
        "accepted: [obj >= 7]\n",
    ),
    (
        "a greatest value",
        "var 0..9: x;\nconstraint int_le(x,7);\nsolve maximize x;\n",
        "a 1 [x >= 8]\ni 1 1 0 c:1 l:linear\nn 2 1 0 1\nc -1\n",
        0,
        "accepted: [x <= 7]\n",
    ),
];

#[test]
fn the_first_refusal_is_told(rt: HostRuntime) -> Result<(), Fail> {
    let alloc = rt.alloc();
    for (name, model, log, status, text) in LOGS {
        let (answered, answer) = checked(&rt, alloc, model, log.as_bytes(), 1_000_000, &[])?;
        assert_eq!(rt; answered, status, "{name}");
        assert_eq!(rt; answer.as_slice(), text.as_bytes(), "{name}");
    }
    Ok(())
}

// Opening the model, two reads, opening the log, two reads, and a write.
#[test]
fn failed_calls_are_told(rt: HostRuntime) -> Result<(), Fail> {
    let alloc = rt.alloc();
    let log = format!(in alloc; "{STEPS}n 8 0 1 2 3 4 5 6 7\nc UNSAT\n")?;
    for call in 1..7 {
        let (answered, answer) = checked(&rt, alloc, MODEL, log.as_bytes(), 1_000_000, &[call])?;
        assert_eq!(rt; answered, 5, "call {call} fails");
        assert_eq!(rt;
            answer.as_slice(),
            b"read fault\n".as_slice(),
            "call {call} fails"
        );
        let (answered, answer) = checked(
            &rt,
            alloc,
            MODEL,
            log.as_bytes(),
            1_000_000,
            &[call, call + 1],
        )?;
        assert_eq!(rt; answered, 6, "call {call} and the next fail");
        assert_eq!(rt;
            answer.as_slice(),
            b"".as_slice(),
            "call {call} and the next fail"
        );
    }
    let (answered, answer) = checked(&rt, alloc, MODEL, log.as_bytes(), 1_000_000, &[7])?;
    assert_eq!(rt; answered, 6, "the write fails");
    assert_eq!(rt; answer.as_slice(), b"".as_slice(), "the write fails");
    let (answered, answer) = checked(&rt, alloc, MODEL, log.as_bytes(), 1_000_000, &[8])?;
    assert_eq!(rt; answered, 0, "there are seven calls");
    for words in [["check", "absent", "l"], ["check", "m", "absent"]] {
        let mut desk = desk_of(alloc, MODEL, log.as_bytes(), 1_000_000, &[])?;
        assert_eq!(rt;
            run(&rt, alloc, &words, &mut desk, &Open),
            5,
            "at {words:?}"
        );
        assert_eq!(rt; desk.written(Out::Answer), Some(b"read fault\n".as_slice()));
    }
    Ok(())
}

// A log of more bytes than one read asks for: 40,000 hints without effect.
#[test]
fn long_logs_are_read_whole(rt: HostRuntime) -> Result<(), Fail> {
    let alloc = rt.alloc();
    let mut log = STEPS.as_bytes().to_vec(alloc)?;
    log.extend_from_slice(b"n 8 0")?;
    for _ in 0..40_000 {
        log.extend_from_slice(b" 1")?;
    }
    log.extend_from_slice(b" 2 3 4 5 6 7\nc UNSAT\n")?;
    let mut desk = desk_of(alloc, MODEL, log.as_slice(), 1_000_000, &[])?;
    assert_eq!(rt; run(&rt, alloc, &["check", "m", "l"], &mut desk, &Open), 0);
    assert_eq!(rt; desk.written(Out::Answer), Some(ACCEPTED.as_bytes()));
    Ok(())
}

const KINDS: [(&str, &str, &str); 16] = [
    (
        "clauses",
        "var bool: p;\nvar bool: q;\nconstraint bool_clause([p,q],[]);\nconstraint bool_clause([p],[q]);\nconstraint bool_clause([q],[p]);\nconstraint bool_clause([],[p,q]);\nsolve satisfy;\n",
        "a 1 [p >= 1]\na 2 [q >= 1]\ni 1 1 0 2 c:3 l:clause\ni 2 1 2 0 c:4 l:clause\nn 3 1 0 1 2\ni 4 -1 0 2 c:1 l:clause\ni 5 -1 2 0 c:2 l:clause\nn 6 0 3 4 5\nc UNSAT\n",
    ),
    (
        "holes",
        "var {0,2,5}: x;\nconstraint int_lin_le([1],[x],4);\nconstraint int_lin_le([-1],[x],-1);\nconstraint int_ne(x,2);\nsolve satisfy;\n",
        "a 1 [x >= 3]\ni 1 0 -1 c:1 l:linear\na 2 [x >= 2]\ni 2 0 2 c:2 l:linear\ni 3 2 -1 0 c:3 l:not_equal\nn 4 0 1 2 3\nc UNSAT\n",
    ),
    (
        "a reified equation",
        "var 1..1: x;\nvar 0..2: y;\nvar bool: r;\nconstraint int_lin_eq_reif([1,1],[x,y],2,r);\nconstraint bool_clause([],[r]);\nconstraint int_le(1,y);\nconstraint int_le(y,1);\nsolve satisfy;\n",
        "a 1 [r >= 1]\ni 1 0 -1 c:2 l:clause\na 2 [y == 1]\ni 2 -1 0 -2 c:1 l:not_equal\na 3 [y >= 2]\ni 3 -2 0 3 c:3 l:linear\ni 4 3 0 c:4 l:linear\nn 5 0 1 2 3 4\nc UNSAT\n",
    ),
    (
        "a set",
        "var 0..9: x;\nconstraint set_in(x,{1,3});\nconstraint int_le(4,x);\nsolve satisfy;\n",
        "a 1 [x >= 4]\ni 1 1 0 c:1 l:domain\ni 2 -1 0 c:2 l:linear\nn 3 0 1 2\nc UNSAT\n",
    ),
    (
        "an element",
        "var 0..3: i;\nconstraint array_var_int_element(i,[i,5,i],3);\nconstraint int_le(i,2);\nsolve satisfy;\n",
        "a 1 [i >= 3]\ni 1 0 1 c:1 l:element\ni 2 1 0 c:2 l:linear\nn 3 0 1 2\nc UNSAT\n",
    ),
    (
        "one variable twice",
        "var 0..2: x;\nconstraint all_different_int([x,x]);\nsolve satisfy;\n",
        "a 1 [x >= 1]\ni 1 0 1 c:1 l:all_different\na 2 [x >= 2]\ni 2 1 0 2 c:1 l:all_different\ni 3 2 0 c:1 l:all_different\nn 4 0 1 2 3\nc UNSAT\n",
    ),
    (
        "one number twice",
        "constraint all_different_int([3,3]);\nsolve satisfy;\n",
        "i 1 0 c:1 l:all_different\nn 2 0 1\nc UNSAT\n",
    ),
    (
        "one number twice, by the other name",
        "constraint fzn_all_different_int([3,3]);\nsolve satisfy;\n",
        "i 1 0 c:1 l:all_different\nn 2 0 1\nc UNSAT\n",
    ),
    (
        "an index above the array",
        "constraint array_int_element(3,[5,5],5);\nsolve satisfy;\n",
        "i 1 0 c:1 l:element\nn 2 0 1\nc UNSAT\n",
    ),
    (
        "an index below the array",
        "var bool: b;\nconstraint array_var_bool_element(0,[b],true);\nsolve satisfy;\n",
        "i 1 0 c:1 l:element\nn 2 0 1\nc UNSAT\n",
    ),
    (
        "an entry that fails",
        "var 1..2: i;\nconstraint array_bool_element(i,[false,true],true);\nconstraint int_le(i,1);\nsolve satisfy;\n",
        "a 1 [i >= 2]\ni 1 0 1 c:1 l:element\ni 2 1 0 c:2 l:linear\nn 3 0 1 2\nc UNSAT\n",
    ),
    (
        "a task that asks too much",
        "var 0..3: s;\nconstraint cumulative([s],[2],[2],1);\nsolve satisfy;\n",
        "a 1 [s >= 2]\ni 1 0 1 c:1 l:time_table\ni 2 1 0 c:1 l:time_table\nn 3 0 1 2\nc UNSAT\n",
    ),
    (
        "large numbers",
        "constraint int_lin_le([1000000000],[1000000000000000000],0);\nsolve satisfy;\n",
        "i 1 0 c:1 l:linear\nn 2 0 1\nc UNSAT\n",
    ),
    (
        "a wide variable",
        "var -1000000000..1000000000: x;\nconstraint int_le(x,5);\nconstraint int_le(6,x);\nsolve satisfy;\n",
        "a 1 [x >= 6]\ni 1 0 -1 c:1 l:linear\ni 2 -1 0 c:2 l:linear\nn 3 0 1 2\nc UNSAT\n",
    ),
    (
        "a reified set of a wide variable",
        "var -1000000000..1000000000: x;\nvar bool: r;\nconstraint set_in_reif(x,0..1000,r);\nconstraint int_eq(x,2000);\nconstraint bool_clause([r],[]);\nsolve satisfy;\n",
        "a 1 [r >= 1]\ni 1 0 1 c:3 l:clause\na 2 [x >= 2000]\ni 2 0 2 c:2 l:linear\ni 3 1 2 0 c:1 l:domain\nn 4 0 1 2 3\nc UNSAT\n",
    ),
    (
        "a wide variable that is not in the set",
        "var -1000000000..1000000000: x;\nvar bool: r;\nconstraint set_in_reif(x,0..1000,r);\nconstraint int_eq(x,1000);\nconstraint bool_clause([],[r]);\nsolve satisfy;\n",
        "a 1 [r >= 1]\ni 1 0 -1 c:3 l:clause\na 2 [x == 1000]\na 3 [x >= 1000]\na 4 [x <= 1000]\ni 2 0 3 c:2 l:linear\ni 3 0 4 c:2 l:linear\ni 4 -1 3 4 0 c:1 l:domain\nn 5 0 1 2 3 4\nc UNSAT\n",
    ),
];

#[test]
fn logs_of_each_kind_are_accepted(rt: HostRuntime) -> Result<(), Fail> {
    let alloc = rt.alloc();
    for (name, model, log) in KINDS {
        let (status, answer) = checked(&rt, alloc, model, log.as_bytes(), 1_000_000, &[])?;
        assert_eq!(rt; status, 0, "{name}");
        assert_eq!(rt; answer.as_slice(), ACCEPTED.as_bytes(), "{name}");
    }
    Ok(())
}

const WRONG: [(&str, &str, &str, &str); 2] = [
    (
        "three terms over two numbers with a hole",
        "var {0,2}: x;\nvar {0,2}: y;\nvar {0,2}: z;\nconstraint all_different_int([x,y,z]);\nsolve satisfy;\n",
        "i 1 0 c:1 l:all_different\nn 2 0 1\nc UNSAT\n",
        "refused: NotImplied at line 1\ni 1 0 c:1 l:all_different\n",
    ),
    (
        "a task that asks what there is",
        "var 0..3: s;\nconstraint cumulative([s],[2],[1],1);\nsolve satisfy;\n",
        "a 1 [s >= 2]\ni 1 0 1 c:1 l:time_table\n",
        "refused: NotImplied at line 2\ni 1 0 1 c:1 l:time_table\n",
    ),
];

#[test]
fn what_does_not_follow_is_refused(rt: HostRuntime) -> Result<(), Fail> {
    let alloc = rt.alloc();
    for (name, model, log, text) in WRONG {
        let (status, answer) = checked(&rt, alloc, model, log.as_bytes(), 1_000_000, &[])?;
        assert_eq!(rt; status, 1, "{name}");
        assert_eq!(rt; answer.as_slice(), text.as_bytes(), "{name}");
    }
    Ok(())
}

const REFUSED_MODELS: [(&str, &str); 11] = [
    ("#", "BadByte at byte 0"),
    ("", "Syntax at byte 0"),
    ("var 1..5: x", "Syntax at byte 11"),
    ("var float: f;", "Unsupported at byte 4"),
    ("var int: x;", "Unbounded at byte 10"),
    ("constraint int_le(1,y);", "Unknown at byte 20"),
    ("var 1..5: x; var 1..5: x;", "Declared at byte 23"),
    ("constraint int_le(1);", "Kind at byte 19"),
    ("constraint int_foo(1);", "Unsupported at byte 11"),
    ("var 1..2: x :: a(\"\\\");", "OpenString at byte 17"),
    (
        "constraint int_lin_le([1000000001],[1],0);",
        "Limit at byte 23",
    ),
];

#[test]
fn models_are_refused_at_their_place(rt: HostRuntime) -> Result<(), Fail> {
    let alloc = rt.alloc();
    for (model, refusal) in REFUSED_MODELS {
        let text = format!(in alloc; "model refused: {refusal}\n")?;
        let (status, answer) = checked(&rt, alloc, model, b"", 1_000_000, &[])?;
        assert_eq!(rt; status, 3, "{model}");
        assert_eq!(rt; answer.as_slice(), text.as_bytes(), "{model}");
    }
    Ok(())
}

// Behind two atoms, a step and a conclusion's step: each test that refuses, plain and before a later one.
const KNOWN: &str = "a 1 [obj >= 7]\na 2 [obj >= 8]\ni 1 -1 0 c:1 l:linear\nn 2 -1 0 1\n";

const REFUSED_LINES: [(&str, &str); 22] = [
    ("a 3 [absent >= 1]", "UnknownVar"),
    ("a 1 [absent >= 1]", "UnknownVar"),
    ("a 2 [obj >= 1]", "AtomTwice"),
    ("a 1 [obj == 7]", "AtomTwice"),
    ("n 3 -1 4 5", "UnknownAtom 4"),
    ("i 1 1 0 -9 c:7", "UnknownAtom -9"),
    ("i 1 1 0 -1 c:1 l:linear", "StepTwice"),
    ("n 2 -1 0 9", "StepTwice"),
    ("n 3 -1 0 1 9", "UnknownStep 9"),
    ("n 3 1 0 3", "UnknownStep 3"),
    ("i 3 -1 0 c:2", "UnknownConstraint"),
    ("i 3 1 0 c:2 l:element", "UnknownConstraint"),
    ("i 3 -1 0 c:1 l:clause", "WrongLabel"),
    ("i 3 1 0 l:linear", "WrongLabel"),
    ("i 3 1 0 c:1 l:linear", "NotImplied"),
    ("i 3 -1 0 c:1 l:initial_domain", "NotImplied"),
    ("n 3 1 0 1 2", "NoClash"),
    ("n 3 -1", "NoClash"),
    ("c 5", "UnknownAtom 5"),
    ("c -1", "WrongBound"),
    ("c 2", "NotConcluded"),
    ("c UNSAT", "NotConcluded"),
];

#[test]
fn each_test_has_its_place(rt: HostRuntime) -> Result<(), Fail> {
    let alloc = rt.alloc();
    for (line, why) in REFUSED_LINES {
        let log = format!(in alloc; "{KNOWN}{line}\n")?;
        let text = format!(in alloc; "refused: {why} at line 5\n{line}\n")?;
        let (status, answer) = checked(&rt, alloc, MINIMUM, log.as_bytes(), 1_000_000, &[])?;
        assert_eq!(rt; status, 1, "{line}");
        assert_eq!(rt; answer.as_slice(), text.as_bytes(), "{line}");
    }
    Ok(())
}
