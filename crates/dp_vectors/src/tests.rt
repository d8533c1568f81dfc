use crate::{Judgement, judge_assignment, reprint};
use dp_base::Memory;
use dp_lower::lower;
use fz_items::{ModelRefusal, read_model};
use fz_model::Model;
use std::alloc::Global;
use std::test::Fail;

// A schedule of two tasks, in the style of a compiled model.
const SCHEDULE: &[u8] =
    b"var 0..10: s1;\nvar 1..10: s2;\nvar 0..20: mk:: output_var;\nvar bool: X_INTRODUCED_1_ ::var_is_introduced :: is_defined_var;\nvar bool: X_INTRODUCED_2_ ::var_is_introduced :: is_defined_var;\narray [1..2] of var int: starts:: output_array([1..2]) = [s1,s2];\nconstraint int_lin_le([1,-1],[s1,mk],-2);\nconstraint int_lin_le([1,-1],[s2,mk],-3);\nconstraint int_lin_le_reif([1,-1],[s1,s2],-2,X_INTRODUCED_1_):: defines_var(X_INTRODUCED_1_);\nconstraint int_lin_le_reif([1,-1],[s2,s1],-3,X_INTRODUCED_2_):: defines_var(X_INTRODUCED_2_);\nconstraint bool_clause([X_INTRODUCED_1_,X_INTRODUCED_2_],[]);\nsolve :: int_search([s1,s2],input_order,indomain_min,complete) minimize mk;\n";

// The same as it is printed.
const PRINTED: &[u8] =
    b"var 0..10: s1;\nvar 1..10: s2;\nvar 0..20: mk :: output_var;\nvar bool: X_INTRODUCED_1_;\nvar bool: X_INTRODUCED_2_;\narray [1..2] of var int: starts :: output_array([1..2]) = [s1,s2];\nconstraint int_lin_le([1,-1],[s1,mk],-2);\nconstraint int_lin_le([1,-1],[s2,mk],-3);\nconstraint int_lin_le_reif([1,-1],[s1,s2],-2,X_INTRODUCED_1_);\nconstraint int_lin_le_reif([1,-1],[s2,s1],-3,X_INTRODUCED_2_);\nconstraint bool_clause([X_INTRODUCED_1_,X_INTRODUCED_2_],[]);\nsolve minimize mk;\n";

fn read(alloc: Global, text: &[u8]) -> Result<Model, ModelRefusal> {
    read_model(alloc, text)
}

// Whether the text is read and printed so.
fn prints(alloc: Global, text: &[u8], printed: &[u8]) -> bool {
    match reprint(alloc, text) {
        Ok(again) => again.bytes() == printed,
        Err(_) => false,
    }
}

// Texts, and how they are printed.
const SPELLINGS: [(&[u8], &[u8]); 6] = [
    (SCHEDULE, PRINTED),
    (PRINTED, PRINTED),
    (
        b" var bool :p; % one\n\tsolve satisfy ;",
        b"var bool: p;\nsolve satisfy;\n",
    ),
    (
        b"predicate f(var int: x); int: n = 0x1F; set of int: S = { 3 , 1 }; array [ 1 .. 0 ] of bool: e = []; solve satisfy;",
        b"int: n = 31;\nset of int: S = {3,1};\narray [1..0] of bool: e = [];\nsolve satisfy;\n",
    ),
    (
        b"var {2,1}: x :: output_var :: seen(1.5); var int: y = x; constraint set_in ( x , 3 .. 1 ) :: domain; solve :: s maximize y;",
        b"var {2,1}: x :: output_var;\nvar int: y = x;\nconstraint set_in(x,3..1);\nsolve maximize y;\n",
    ),
    (
        b"int: n = -5; set of int: S = 1 .. 3; var bool: b = true; var 0..3: x; array [1..2] of var int: a :: output_array([1..2]) = [x,n]; constraint int_le(x,3); solve minimize x;",
        b"int: n = -5;\nset of int: S = 1..3;\nvar bool: b = true;\nvar 0..3: x;\narray [1..2] of var int: a :: output_array([1..2]) = [x,n];\nconstraint int_le(x,3);\nsolve minimize x;\n",
    ),
];

#[test]
fn models_are_printed_and_read_again(rt: HostRuntime) -> Result<(), Fail> {
    let alloc = rt.alloc();
    for (place, (text, printed)) in SPELLINGS.iter().enumerate() {
        assert!(rt; prints(alloc, *text, *printed), "text {place}");
        assert!(rt; prints(alloc, *printed, *printed), "printed text {place}");
    }
    Ok(())
}

// Texts that spell no model.
const REFUSED: [(&[u8], ModelRefusal); 5] = [
    (b"", ModelRefusal::Syntax(0)),
    (b"solve satisfy; ?", ModelRefusal::BadByte(15)),
    (b"var 0..3: x; solve minimize y;", ModelRefusal::Unknown(28)),
    (b"var int: x; solve satisfy;", ModelRefusal::Unbounded(10)),
    (
        b"var 0..1: x; constraint int_le(x); solve satisfy;",
        ModelRefusal::Kind(32),
    ),
];

#[test]
fn refusals_are_handed_on(rt: HostRuntime) -> Result<(), Fail> {
    let alloc = rt.alloc();
    for (text, refusal) in &REFUSED {
        assert_eq!(rt; reprint(alloc, *text).err(), Some(*refusal));
        assert_eq!(rt; judge_assignment(alloc, *text, &[0]).err(), Some(*refusal));
    }
    Ok(())
}

// Declarations: a domain, an alias, a Boolean, a definition, and an array.
const DECLARED: &[u8] =
    b"int: n = 7; var 1..5: x; var {2,4}: y = x; var bool: b; var int: z = n; array [1..2] of var bool: a = [b,true]; solve minimize y;";

// The domain of the array reaches its element.
const CUT: &[u8] = b"var 0..9: x; array [1..1] of var 0..1: a = [x]; solve maximize x;";

// Nothing fits a definition beyond its domain.
const NEVER: &[u8] = b"var 1..3: x = 4; solve satisfy;";

// A model, a value for each variable, whether they satisfy it, and the objective.
const JUDGED: [(&[u8], &[i64], bool, Option<i64>); 17] = [
    (b"solve satisfy;", &[], true, None),
    (DECLARED, &[2, 1, 7], true, Some(2)),
    (DECLARED, &[4, 0, 7], true, Some(4)),
    (DECLARED, &[3, 0, 7], false, Some(3)),
    (DECLARED, &[6, 0, 7], false, Some(6)),
    (DECLARED, &[2, 2, 7], false, Some(2)),
    (DECLARED, &[2, 1, 8], false, Some(2)),
    (DECLARED, &[i64::MIN, 0, 7], false, Some(i64::MIN)),
    (CUT, &[1], true, Some(1)),
    (CUT, &[2], false, Some(2)),
    (CUT, &[i64::MAX], false, Some(i64::MAX)),
    (NEVER, &[3], false, None),
    (NEVER, &[4], false, None),
    (SCHEDULE, &[0, 2, 5, 1, 0], true, Some(5)),
    (SCHEDULE, &[0, 2, 5, 1, 1], false, Some(5)),
    (SCHEDULE, &[0, 2, 4, 1, 0], false, Some(4)),
    (SCHEDULE, &[0, 1, 5, 0, 0], false, Some(5)),
];

#[test]
fn assignments_are_judged(rt: HostRuntime) -> Result<(), Fail> {
    let alloc = rt.alloc();
    for (text, values, satisfied, objective) in &JUDGED {
        let judgement = Judgement::Judged {
            satisfied: *satisfied,
            objective: *objective,
        };
        let found = judge_assignment(alloc, *text, *values).ok();
        assert_eq!(rt; found, Some(judgement), "{values:?}");
    }
    Ok(())
}

// A model, another number of values than it has variables, and how many variables those are.
const MISCOUNTED: [(&[u8], &[i64], usize); 5] = [
    (b"solve satisfy;", &[0], 0),
    (DECLARED, &[], 3),
    (DECLARED, &[2, 1], 3),
    (DECLARED, &[2, 2, 1, 7], 3),
    (SCHEDULE, &[0, 2, 5, 1, 0, 0], 5),
];

#[test]
fn numbers_of_values_are_judged(rt: HostRuntime) -> Result<(), Fail> {
    let alloc = rt.alloc();
    for (text, values, count) in &MISCOUNTED {
        let found = judge_assignment(alloc, *text, *values).ok();
        assert_eq!(rt; found, Some(Judgement::WrongCount(*count)), "{values:?}");
    }
    Ok(())
}

// How many constraints and variables the problem of the text has; None where the text is refused.
fn lowered(alloc: Global, text: &[u8]) -> Result<Option<(usize, usize)>, Memory> {
    match read(alloc, text) {
        Ok(model) => {
            let problem = lower(alloc, &model)?;
            Ok(Some((problem.constraint_count(), problem.initial().len())))
        }
        Err(_) => Ok(None),
    }
}

#[test]
fn models_are_lowered(rt: HostRuntime) -> Result<(), Fail> {
    let alloc = rt.alloc();
    assert_eq!(rt; lowered(alloc, SCHEDULE)?, Some((5, 5)));
    assert_eq!(rt;
        lowered(alloc, b"var 0..3: x; var 1..2: y = x; solve satisfy;")?,
        Some((0, 1))
    );
    assert_eq!(rt; lowered(alloc, b"var 0..3: x; solve minimize y;")?, None);
    Ok(())
}
