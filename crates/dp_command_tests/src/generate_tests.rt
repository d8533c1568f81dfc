use crate::runs::desk_of;
use dp_command::run;
use dp_desk::{MemoryDesk, Out};
use dp_pool::Open;
use std::alloc::{AllocError, Global};
use std::test::Fail;

const MODEL: &str =
    "var bool: z;\nvar bool: r0;\nvar bool: q1;\nvar bool: r1;\nvar bool: q2;\nvar bool: r2;\nconstraint bool_clause([r0],[]);\nconstraint bool_clause([r1,q1],[r0]);\nconstraint bool_clause([r1],[r0,q1]);\nconstraint bool_clause([r2,q2],[r1]);\nconstraint bool_clause([r2],[r1,q2]);\nconstraint bool_clause([],[r2]);\nsolve satisfy;\n";

const SCAFFOLD: &str =
    "a 1 [z >= 1]\nn 1 1\na 2 [r0 >= 1]\na 3 [r1 >= 1]\nn 2 2 -3\na 4 [r2 >= 1]\nn 3 3 -4\nc UNSAT\n";

const SIZES: &str = "generated: 6 variables, 6 constraints, 3 nogoods\n";

// A desk with no file, over which these calls fail.
fn empty_desk(alloc: Global, piece: usize, failing: &[u64]) -> Result<MemoryDesk, AllocError> {
    desk_of(alloc, "", b"", piece, failing)
}

// Whether a desk holds these fronts of the answer, of the model and of the scaffold; none, where a file was not opened.
fn holds(desk: &MemoryDesk, answer: &str, model: Option<&str>, scaffold: Option<&str>) -> bool {
    desk.written(Out::Answer) == Some(answer.as_bytes())
        && desk.written(Out::First) == model.map(|text| text.as_bytes())
        && desk.written(Out::Second) == scaffold.map(|text| text.as_bytes())
}

#[test]
fn a_family_of_two_blocks(rt: HostRuntime) -> Result<(), Fail> {
    let alloc = rt.alloc();
    let mut desk = empty_desk(alloc, 1_000_000, &[])?;
    assert_eq!(rt;
        run(&rt, alloc, &["gen", "2", "m", "s"], &mut desk, &Open),
        0
    );
    assert!(rt; holds(&desk, SIZES, Some(MODEL), Some(SCAFFOLD)));
    Ok(())
}

// Opening and writing the model, opening and writing the scaffold, writing the answer.
#[test]
fn each_failed_call_is_told(rt: HostRuntime) -> Result<(), Fail> {
    let alloc = rt.alloc();
    let rows = [
        (1, None, None),
        (2, Some(""), None),
        (3, Some(MODEL), None),
        (4, Some(MODEL), Some("")),
        (5, Some(MODEL), Some(SCAFFOLD)),
    ];
    for (call, model, scaffold) in rows {
        let mut desk = empty_desk(alloc, 1_000_000, &[call])?;
        assert_eq!(rt;
            run(&rt, alloc, &["gen", "2", "m", "s"], &mut desk, &Open),
            6,
            "call {call} fails"
        );
        assert!(rt; holds(&desk, "", model, scaffold), "call {call} fails");
    }
    Ok(())
}
