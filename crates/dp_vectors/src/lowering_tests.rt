// The table of constraints: each name with the parts that it stands for, in order.
use crate::described::push_part;
use dp_domain::Memory;
use dp_lower::lower;
use fz_items::read_model;
use std::alloc::Global;
use std::test::Fail;

// What the rows declare: three numbers and three Booleans.
const DECLARED: &str =
    "var 0..9: x; var 0..9: y; var 0..9: z; var bool: a; var bool: b; var bool: r;";

// A constraint, and its parts: sums under their conditions, nogoods of Booleans that hold or (after a `!`) fail, sets,
// elements, positions that differ, and tasks as start, duration and use.
type Row = (&'static str, &'static str);

// The parts of the constraint, each before a semicolon; None where the text is refused.
fn parts_of(alloc: Global, constraint: &str) -> Result<Option<String>, Memory> {
    let text = format!(in alloc; "{DECLARED} constraint {constraint}; solve satisfy;")?;
    let Ok(model) = read_model(alloc, text.as_bytes()) else {
        return Ok(None);
    };
    let problem = lower(alloc, &model)?;
    if problem.constraint_count() != 1 {
        return Ok(None);
    }
    let mut parts = String::new(alloc);
    for part in problem.parts_of(0) {
        push_part(&mut parts, alloc, part)?;
        parts.push_str("; ")?;
    }
    Ok(Some(parts))
}

const SUMS: [Row; 35] = [
    ("int_lin_le([2,-1],[x,y],7)", "2x -1y <= 7; "),
    ("int_lin_le([1,1,3],[x,x,4],7)", "2x <= -5; "),
    ("int_lin_le([1,-1],[x,x],7)", "<= 7; "),
    ("int_lin_eq([1,2],[y,x],3)", "2x 1y <= 3; -2x -1y <= -3; "),
    ("int_lin_ne([1,-1],[x,x],3)", "!= 3; "),
    (
        "int_lin_le_reif([1],[x],3,r)",
        "r: 1x <= 3; !r: -1x <= -4; ",
    ),
    ("int_lin_le_reif([1],[x],3,true)", "1x <= 3; "),
    ("int_lin_le_reif([1],[x],3,false)", "-1x <= -4; "),
    (
        "int_lin_eq_reif([1],[x],3,r)",
        "r: 1x <= 3; r: -1x <= -3; !r: 1x != 3; ",
    ),
    (
        "int_lin_ne_reif([1],[x],3,r)",
        "r: 1x != 3; !r: 1x <= 3; !r: -1x <= -3; ",
    ),
    ("int_le(x,3)", "1x <= 3; "),
    ("int_le(x,x)", "<= 0; "),
    ("int_lt(x,y)", "1x -1y <= -1; "),
    ("int_eq(y,x)", "-1x 1y <= 0; 1x -1y <= 0; "),
    ("int_ne(5,x)", "-1x != -5; "),
    ("int_le_reif(x,y,r)", "r: 1x -1y <= 0; !r: -1x 1y <= -1; "),
    ("int_lt_reif(x,y,r)", "r: 1x -1y <= -1; !r: -1x 1y <= 0; "),
    (
        "int_eq_reif(x,4,r)",
        "r: 1x <= 4; r: -1x <= -4; !r: 1x != 4; ",
    ),
    (
        "int_ne_reif(x,4,r)",
        "r: 1x != 4; !r: 1x <= 4; !r: -1x <= -4; ",
    ),
    ("int_ne_reif(x,4,false)", "1x <= 4; -1x <= -4; "),
    ("int_plus(x,y,7)", "1x 1y <= 7; -1x -1y <= -7; "),
    ("int_plus(x,y,z)", "1x 1y -1z <= 0; -1x -1y 1z <= 0; "),
    ("int_times(x,y,7)", "times x y 7; "),
    ("int_times(x,x,z)", "times x x z; "),
    ("int_max(x,y,z)", "maximum x y z; "),
    ("int_min(x,-3,z)", "minimum x -3 z; "),
    ("int_abs(x,y)", "absolute x y; "),
    ("bool2int(a,x)", "-1x 1a <= 0; 1x -1a <= 0; "),
    ("bool2int(true,x)", "-1x <= -1; 1x <= 1; "),
    ("set_in(x,1..5)", "x in 1..5; "),
    ("set_in(x,4..2)", "x in; "),
    (
        "set_in(x,999999999..2000000000)",
        "x in 999999999..1000000000; ",
    ),
    ("set_in(x,{5,3,1,3,4,-2000000000})", "x in 1..1 3..5; "),
    (
        "set_in_reif(x,{1,3,2,7},r)",
        "r: x in 1..3 7..7; !r: x in -1000000000..0 4..6 8..1000000000; ",
    ),
    ("set_in_reif(x,1..3,true)", "x in 1..3; "),
];

const NOGOODS: [Row; 29] = [
    ("set_in(3,1..5)", ""),
    ("set_in(6,1..5)", "ng(); "),
    ("set_in_reif(3,1..5,r)", "ng(!r); "),
    ("set_in_reif(6,1..5,r)", "ng(r); "),
    ("bool_eq(a,b)", "ng(a !b); ng(!a b); "),
    ("bool_not(a,b)", "ng(a b); ng(!a !b); "),
    ("bool_xor(a,b)", "ng(a b); ng(!a !b); "),
    ("bool_xor(a,b,true)", "ng(a b); ng(!a !b); "),
    (
        "bool_xor(a,b,r)",
        "ng(r a b); ng(r !a !b); ng(!r a !b); ng(!r !a b); ",
    ),
    ("bool_le(a,b)", "ng(a !b); "),
    ("bool_le(a,true)", ""),
    ("bool_le(a,false)", "ng(a); "),
    ("bool_lt(a,b)", "ng(a); ng(!b); "),
    (
        "bool_eq_reif(a,b,r)",
        "ng(r a !b); ng(r !a b); ng(!r a b); ng(!r !a !b); ",
    ),
    ("bool_le_reif(a,b,r)", "ng(r a !b); ng(!r !a); ng(!r b); "),
    ("bool_lt_reif(a,b,r)", "ng(r a); ng(r !b); ng(!r !a b); "),
    ("bool_and(a,b,r)", "ng(r !a); ng(r !b); ng(!r a b); "),
    ("bool_or(a,b,r)", "ng(!r a); ng(!r b); ng(r !a !b); "),
    ("bool_or(a,false,r)", "ng(!r a); ng(r !a); "),
    ("array_bool_and([a],r)", "ng(r !a); ng(!r a); "),
    ("array_bool_and([],r)", "ng(!r); "),
    ("array_bool_or([],r)", "ng(r); "),
    (
        "array_bool_or([a,b],r)",
        "ng(!r a); ng(!r b); ng(r !a !b); ",
    ),
    ("bool_clause([a,a],[b])", "ng(!a b); "),
    ("bool_clause([],[])", "ng(); "),
    ("bool_clause([true],[b])", ""),
    (
        "bool_clause_reif([a],[b],r)",
        "ng(r !a b); ng(!r a); ng(!r !b); ",
    ),
    ("bool_clause_reif([a],[],r)", "ng(r !a); ng(!r a); "),
    ("bool_clause_reif([],[],r)", "ng(r); "),
];

const GLOBALS: [Row; 8] = [
    ("array_int_element(x,[4,6],y)", "element x [ 4 6 ] y; "),
    ("array_var_int_element(x,[y,6],2)", "element x [ y 6 ] 2; "),
    (
        "array_bool_element(x,[true,false],a)",
        "element x [ 1 0 ] a; ",
    ),
    (
        "array_var_bool_element(x,[a,true],b)",
        "element x [ a 1 ] b; ",
    ),
    ("all_different_int([x,y,3])", "differ x y 3; "),
    ("fzn_all_different_int([x,x])", "differ x x; "),
    (
        "cumulative([x,y],[2,3],[1,1],1)",
        "at most 1: x:2*1 y:3*1; ",
    ),
    (
        "fzn_cumulative([x,4],[2,3],[1,2],2)",
        "at most 2: x:2*1 4:3*2; ",
    ),
];

// The first row with other parts.
fn first_other(alloc: Global, rows: &[Row]) -> Result<Option<&'static str>, Memory> {
    for (constraint, parts) in rows {
        let is_row = parts_of(alloc, *constraint)?.is_some_and(|found| found.as_str() == *parts);
        if !is_row {
            return Ok(Some(*constraint));
        }
    }
    Ok(None)
}

#[test]
fn each_name_has_its_parts(rt: HostRuntime) -> Result<(), Fail> {
    assert_eq!(rt; first_other(rt.alloc(), &SUMS)?, None);
    assert_eq!(rt; first_other(rt.alloc(), &NOGOODS)?, None);
    assert_eq!(rt; first_other(rt.alloc(), &GLOBALS)?, None);
    Ok(())
}
