// The constraints on Booleans, each at all values of its variables.
use crate::tried::tried;
use std::test::Fail;

const DECLARED: &str = "var bool: a; var bool: b; var bool: r;";

// A constraint, and whether it holds at 000, 001, .., 111, the values of a, b and r.
const TRUTHS: [(&str, &[u8; 8]); 43] = [
    ("bool_eq(a,b)", b"11000011"),
    ("bool_eq(a,true)", b"00001111"),
    ("bool_not(a,b)", b"00111100"),
    ("bool_not(a,false)", b"00001111"),
    ("bool_xor(a,b)", b"00111100"),
    ("bool_xor(a,a)", b"00000000"),
    ("bool_xor(a,b,r)", b"10010110"),
    ("bool_xor(a,b,false)", b"11000011"),
    ("bool_le(a,b)", b"11110011"),
    ("bool_le(a,false)", b"11110000"),
    ("bool_lt(a,b)", b"00110000"),
    ("bool_lt(false,b)", b"00110011"),
    ("bool_eq_reif(a,b,r)", b"01101001"),
    ("bool_eq_reif(a,b,true)", b"11000011"),
    ("bool_le_reif(a,b,r)", b"01011001"),
    ("bool_le_reif(a,true,r)", b"01010101"),
    ("bool_lt_reif(a,b,r)", b"10011010"),
    ("bool_lt_reif(true,b,r)", b"10101010"),
    ("bool_and(a,b,r)", b"10101001"),
    ("bool_and(a,true,r)", b"10100101"),
    ("bool_or(a,b,r)", b"10010101"),
    ("bool_or(a,b,true)", b"00111111"),
    ("array_bool_and([a,b],r)", b"10101001"),
    ("array_bool_and([a],r)", b"10100101"),
    ("array_bool_and([],r)", b"01010101"),
    ("array_bool_and([a,true],r)", b"10100101"),
    ("array_bool_and([a,false],r)", b"10101010"),
    ("array_bool_and([a,b],false)", b"11111100"),
    ("array_bool_or([a,b],r)", b"10010101"),
    ("array_bool_or([a],r)", b"10100101"),
    ("array_bool_or([],r)", b"10101010"),
    ("array_bool_or([a,false],r)", b"10100101"),
    ("array_bool_or([true,a],r)", b"01010101"),
    ("array_bool_or([a,b],false)", b"11000000"),
    ("bool_clause([a,b],[r])", b"10111111"),
    ("bool_clause([a],[])", b"00001111"),
    ("bool_clause([],[a])", b"11110000"),
    ("bool_clause([],[])", b"00000000"),
    ("bool_clause([a],[a])", b"11111111"),
    ("bool_clause_reif([a],[b],r)", b"01100101"),
    ("bool_clause_reif([],[],r)", b"10101010"),
    ("bool_clause_reif([true],[a],r)", b"01010101"),
    ("bool_clause_reif([a,b],[],true)", b"00111111"),
];

// The values of a, b and r in the order of the tables.
const ASSIGNMENTS: [[i64; 3]; 8] = [
    [0, 0, 0],
    [0, 0, 1],
    [0, 1, 0],
    [0, 1, 1],
    [1, 0, 0],
    [1, 0, 1],
    [1, 1, 0],
    [1, 1, 1],
];

#[test]
fn truth_tables(rt: HostRuntime) -> Result<(), Fail> {
    for (constraint, table) in &TRUTHS {
        for (values, expected) in ASSIGNMENTS.iter().zip(table.iter()) {
            let found = tried(rt.alloc(), DECLARED, constraint, values)?;
            assert_eq!(rt;
                found,
                Some(*expected == b'1'),
                "{constraint} of {values:?}"
            );
        }
    }
    Ok(())
}

// Values that no Boolean has.
const BEYOND: [(&str, [i64; 3]); 4] = [
    ("bool_eq(a,b)", [2, 2, 0]),
    ("bool_le(a,b)", [-1, 0, 0]),
    ("array_bool_or([a,b],r)", [0, i64::MAX, 1]),
    ("bool_clause([a],[b])", [1, i64::MIN, 0]),
];

#[test]
fn values_beyond_one_are_none(rt: HostRuntime) -> Result<(), Fail> {
    for (constraint, values) in &BEYOND {
        let found = tried(rt.alloc(), DECLARED, constraint, values)?;
        assert_eq!(rt; found, Some(false), "{constraint} of {values:?}");
    }
    Ok(())
}
