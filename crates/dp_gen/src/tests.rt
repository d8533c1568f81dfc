use super::*;
use std::test::Fail;

const MODEL_1: &[u8] =
    b"var bool: z;\nvar bool: r0;\nvar bool: q1;\nvar bool: r1;\nconstraint bool_clause([r0],[]);\nconstraint bool_clause([r1,q1],[r0]);\nconstraint bool_clause([r1],[r0,q1]);\nconstraint bool_clause([],[r1]);\nsolve satisfy;\n";

const SCAFFOLD_1: &[u8] = b"a 1 [z >= 1]\nn 1 1\na 2 [r0 >= 1]\na 3 [r1 >= 1]\nn 2 2 -3\nc UNSAT\n";

const MODEL_2: &[u8] =
    b"var bool: z;\nvar bool: r0;\nvar bool: q1;\nvar bool: r1;\nvar bool: q2;\nvar bool: r2;\nconstraint bool_clause([r0],[]);\nconstraint bool_clause([r1,q1],[r0]);\nconstraint bool_clause([r1],[r0,q1]);\nconstraint bool_clause([r2,q2],[r1]);\nconstraint bool_clause([r2],[r1,q2]);\nconstraint bool_clause([],[r2]);\nsolve satisfy;\n";

const SCAFFOLD_2: &[u8] =
    b"a 1 [z >= 1]\nn 1 1\na 2 [r0 >= 1]\na 3 [r1 >= 1]\nn 2 2 -3\na 4 [r2 >= 1]\nn 3 3 -4\nc UNSAT\n";

// The last lines for twelve blocks.
const MODEL_12_END: &[u8] =
    b"constraint bool_clause([r12,q12],[r11]);\nconstraint bool_clause([r12],[r11,q12]);\nconstraint bool_clause([],[r12]);\nsolve satisfy;\n";

const SCAFFOLD_12_END: &[u8] =
    b"a 13 [r11 >= 1]\nn 12 12 -13\na 14 [r12 >= 1]\nn 13 13 -14\nc UNSAT\n";

#[test]
fn one_block(rt: HostRuntime) -> Result<(), Fail> {
    let alloc = rt.alloc();
    assert_eq!(rt; model_of(alloc, 1)?.bytes(), MODEL_1);
    assert_eq!(rt; scaffold_of(alloc, 1)?.bytes(), SCAFFOLD_1);
    Ok(())
}

#[test]
fn two_blocks(rt: HostRuntime) -> Result<(), Fail> {
    let alloc = rt.alloc();
    assert_eq!(rt; model_of(alloc, 2)?.bytes(), MODEL_2);
    assert_eq!(rt; scaffold_of(alloc, 2)?.bytes(), SCAFFOLD_2);
    Ok(())
}

#[test]
fn numbers_of_two_digits(rt: HostRuntime) -> Result<(), Fail> {
    let alloc = rt.alloc();
    assert!(rt; model_of(alloc, 12)?.bytes().ends_with(MODEL_12_END));
    assert!(rt; scaffold_of(alloc, 12)?.bytes().ends_with(SCAFFOLD_12_END));
    Ok(())
}
