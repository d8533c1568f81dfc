// The constraints on integers and their sums, by the table of their meanings.
use crate::tried::{Row, tried};
use std::test::Fail;

// The values of a row are those of x, y and r.
const DECLARED: &str =
    "set of int: S = {5,-2,5}; var -1000000000..1000000000: x; var -1000000000..1000000000: y; var bool: r;";

// The greatest value of x, and the greatest integer of a text.
const TOP: i64 = 1_000_000_000;

const COMPARISONS: [Row; 73] = [
    ("int_le(x,y)", &[2, 2, 0], true),
    ("int_le(x,y)", &[3, 2, 0], false),
    ("int_le(x,y)", &[-TOP, TOP, 0], true),
    ("int_le(x,y)", &[TOP, -TOP, 0], false),
    ("int_le(x,1000000000000000000)", &[TOP, 0, 0], true),
    ("int_le(1000000000000000000,x)", &[TOP, 0, 0], false),
    ("int_lt(x,y)", &[2, 2, 0], false),
    ("int_lt(x,y)", &[1, 2, 0], true),
    ("int_lt(x,y)", &[2, 1, 0], false),
    ("int_lt(-1000000000000000000,x)", &[-TOP, 0, 0], true),
    ("int_lt(x,-1000000000000000000)", &[-TOP, 0, 0], false),
    ("int_eq(x,y)", &[2, 2, 0], true),
    ("int_eq(x,y)", &[2, -2, 0], false),
    ("int_eq(x,1000000000000000000)", &[TOP, 0, 0], false),
    ("int_ne(x,y)", &[2, 2, 0], false),
    ("int_ne(x,y)", &[2, -2, 0], true),
    ("int_ne(x,-1000000000000000000)", &[-TOP, 0, 0], true),
    ("int_le_reif(x,y,r)", &[2, 2, 1], true),
    ("int_le_reif(x,y,r)", &[2, 2, 0], false),
    ("int_le_reif(x,y,r)", &[3, 2, 0], true),
    ("int_le_reif(x,y,r)", &[3, 2, 1], false),
    ("int_le_reif(x,y,true)", &[3, 2, 0], false),
    ("int_lt_reif(x,y,r)", &[2, 2, 0], true),
    ("int_lt_reif(x,y,r)", &[2, 2, 1], false),
    ("int_lt_reif(x,y,r)", &[1, 2, 1], true),
    ("int_lt_reif(x,y,r)", &[1, 2, 0], false),
    ("int_lt_reif(x,y,false)", &[1, 2, 0], false),
    ("int_eq_reif(x,y,r)", &[2, 2, 1], true),
    ("int_eq_reif(x,y,r)", &[2, 2, 0], false),
    ("int_eq_reif(x,y,r)", &[2, 3, 0], true),
    ("int_eq_reif(x,y,r)", &[2, 3, 1], false),
    ("int_eq_reif(x,y,false)", &[2, 3, 0], true),
    ("int_ne_reif(x,y,r)", &[2, 2, 0], true),
    ("int_ne_reif(x,y,r)", &[2, 2, 1], false),
    ("int_ne_reif(x,y,r)", &[2, 3, 1], true),
    ("int_ne_reif(x,y,r)", &[2, 3, 0], false),
    ("int_ne_reif(x,y,true)", &[2, 2, 0], false),
    ("int_plus(x,y,3)", &[1, 2, 0], true),
    ("int_plus(x,y,3)", &[1, 1, 0], false),
    ("int_plus(x,y,x)", &[5, 0, 0], true),
    ("int_plus(x,y,x)", &[5, 1, 0], false),
    ("int_plus(x,y,2000000000)", &[TOP, TOP, 0], true),
    ("int_plus(x,y,-2000000000)", &[-TOP, -TOP, 0], true),
    ("int_plus(x,x,y)", &[TOP, 0, 0], false),
    ("int_times(x,y,6)", &[2, 3, 0], true),
    ("int_times(x,y,6)", &[2, 2, 0], false),
    ("int_times(x,y,-6)", &[-2, 3, 0], true),
    ("int_times(x,x,y)", &[-3, 9, 0], true),
    ("int_times(x,y,x)", &[5, 1, 0], true),
    ("int_times(x,y,1000000000000000000)", &[TOP, TOP, 0], true),
    ("int_times(x,y,1000000000000000000)", &[-TOP, -TOP, 0], true),
    ("int_times(x,y,-1000000000000000000)", &[-TOP, TOP, 0], true),
    ("int_times(x,y,1000000000000000000)", &[-TOP, TOP, 0], false),
    ("int_max(x,y,3)", &[3, 2, 0], true),
    ("int_max(x,y,3)", &[2, 3, 0], true),
    ("int_max(x,y,2)", &[2, 3, 0], false),
    ("int_max(x,y,x)", &[2, -3, 0], true),
    ("int_min(x,y,2)", &[3, 2, 0], true),
    ("int_min(x,y,2)", &[2, 3, 0], true),
    ("int_min(x,y,3)", &[2, 3, 0], false),
    ("int_min(x,y,x)", &[-2, 3, 0], true),
    ("int_abs(x,7)", &[7, 0, 0], true),
    ("int_abs(x,7)", &[-7, 0, 0], true),
    ("int_abs(x,-7)", &[-7, 0, 0], false),
    ("int_abs(x,x)", &[0, 0, 0], true),
    ("int_abs(x,y)", &[-TOP, TOP, 0], true),
    ("bool2int(r,x)", &[1, 0, 1], true),
    ("bool2int(r,x)", &[0, 0, 0], true),
    ("bool2int(r,x)", &[1, 0, 0], false),
    ("bool2int(r,x)", &[0, 0, 1], false),
    ("bool2int(r,x)", &[2, 0, 1], false),
    ("bool2int(true,x)", &[1, 0, 0], true),
    ("bool2int(false,x)", &[1, 0, 0], false),
];

#[test]
fn comparisons(rt: HostRuntime) -> Result<(), Fail> {
    for (constraint, values, expected) in &COMPARISONS {
        let found = tried(rt.alloc(), DECLARED, constraint, *values)?;
        assert_eq!(rt; found, Some(*expected), "{constraint} of {values:?}");
    }
    Ok(())
}

const SUMS: [Row; 32] = [
    ("int_lin_le([2,-3],[x,y],5)", &[4, 1, 0], true),
    ("int_lin_le([2,-3],[x,y],4)", &[4, 1, 0], false),
    ("int_lin_le([],[],0)", &[0, 0, 0], true),
    ("int_lin_le([],[],-1)", &[0, 0, 0], false),
    ("int_lin_le([1,1],[x,x],6)", &[3, 0, 0], true),
    ("int_lin_le([1,1],[x,x],6)", &[4, 0, 0], false),
    ("int_lin_eq([2,-3],[x,y],5)", &[4, 1, 0], true),
    ("int_lin_eq([2,-3],[x,y],5)", &[4, 0, 0], false),
    ("int_lin_eq([],[],0)", &[0, 0, 0], true),
    ("int_lin_eq([1,2],[x,3],10)", &[4, 0, 0], true),
    ("int_lin_eq([1,2],[x,3],10)", &[3, 0, 0], false),
    ("int_lin_eq([0],[x],0)", &[TOP, 0, 0], true),
    ("int_lin_ne([2,-3],[x,y],5)", &[4, 0, 0], true),
    ("int_lin_ne([2,-3],[x,y],5)", &[4, 1, 0], false),
    ("int_lin_ne([],[],0)", &[0, 0, 0], false),
    ("int_lin_le_reif([2,-3],[x,y],5,r)", &[4, 1, 1], true),
    ("int_lin_le_reif([2,-3],[x,y],5,r)", &[4, 1, 0], false),
    ("int_lin_le_reif([2,-3],[x,y],5,r)", &[4, 0, 0], true),
    ("int_lin_le_reif([2,-3],[x,y],5,r)", &[4, 0, 1], false),
    ("int_lin_le_reif([2,-3],[x,y],5,false)", &[4, 0, 1], true),
    ("int_lin_eq_reif([2,-3],[x,y],5,r)", &[4, 1, 1], true),
    ("int_lin_eq_reif([2,-3],[x,y],5,r)", &[4, 1, 0], false),
    ("int_lin_eq_reif([2,-3],[x,y],5,r)", &[4, 0, 0], true),
    ("int_lin_eq_reif([2,-3],[x,y],5,r)", &[4, 0, 1], false),
    ("int_lin_eq_reif([2,-3],[x,y],5,true)", &[4, 1, 0], true),
    ("int_lin_ne_reif([2,-3],[x,y],5,r)", &[4, 1, 0], true),
    ("int_lin_ne_reif([2,-3],[x,y],5,r)", &[4, 1, 1], false),
    ("int_lin_ne_reif([2,-3],[x,y],5,r)", &[4, 0, 1], true),
    ("int_lin_ne_reif([2,-3],[x,y],5,r)", &[4, 0, 0], false),
    ("int_lin_ne_reif([2,-3],[x,y],5,true)", &[4, 1, 0], false),
    (
        "int_lin_le([1000000000],[x],1000000000000000000)",
        &[TOP, 0, 0],
        true,
    ),
    (
        "int_lin_le([-1000000000],[x],999999999999999999)",
        &[-TOP, 0, 0],
        false,
    ),
];

#[test]
fn sums(rt: HostRuntime) -> Result<(), Fail> {
    for (constraint, values, expected) in &SUMS {
        let found = tried(rt.alloc(), DECLARED, constraint, *values)?;
        assert_eq!(rt; found, Some(*expected), "{constraint} of {values:?}");
    }
    Ok(())
}

// Nineteen coefficients of 10^9, each with x, so that the sum at 10^9 is 19 * 10^18: 553255926290448384 more than 2^64.
const NINETEEN: &str =
    "array [1..19] of int: c = [1000000000,1000000000,1000000000,1000000000,1000000000,1000000000,1000000000,1000000000,1000000000,1000000000,1000000000,1000000000,1000000000,1000000000,1000000000,1000000000,1000000000,1000000000,1000000000]; var -1000000000..1000000000: x; array [1..19] of var int: a = [x,x,x,x,x,x,x,x,x,x,x,x,x,x,x,x,x,x,x];";

const WIDE_SUMS: [Row; 7] = [
    ("int_lin_le(c,a,553255926290448384)", &[TOP], false),
    ("int_lin_le(c,a,-1000000000000000000)", &[-TOP], true),
    ("int_lin_eq(c,a,553255926290448384)", &[TOP], false),
    ("int_lin_ne(c,a,553255926290448384)", &[TOP], true),
    (
        "int_lin_le_reif(c,a,553255926290448384,true)",
        &[TOP],
        false,
    ),
    (
        "int_lin_eq_reif(c,a,553255926290448384,false)",
        &[TOP],
        true,
    ),
    ("int_lin_ne_reif(c,a,553255926290448384,true)", &[TOP], true),
];

#[test]
fn sums_beyond_sixty_four_bits(rt: HostRuntime) -> Result<(), Fail> {
    for (constraint, values, expected) in &WIDE_SUMS {
        let found = tried(rt.alloc(), NINETEEN, constraint, *values)?;
        assert_eq!(rt; found, Some(*expected), "{constraint} of {values:?}");
    }
    Ok(())
}

const SETS: [Row; 23] = [
    ("set_in(x,1..3)", &[1, 0, 0], true),
    ("set_in(x,1..3)", &[3, 0, 0], true),
    ("set_in(x,1..3)", &[0, 0, 0], false),
    ("set_in(x,1..3)", &[4, 0, 0], false),
    ("set_in(x,3..1)", &[2, 0, 0], false),
    ("set_in(x,{})", &[0, 0, 0], false),
    ("set_in(x,S)", &[-2, 0, 0], true),
    ("set_in(x,S)", &[5, 0, 0], true),
    ("set_in(x,S)", &[0, 0, 0], false),
    (
        "set_in(x,-1000000000000000000..1000000000000000000)",
        &[TOP, 0, 0],
        true,
    ),
    ("set_in(x,{1000000000000000000})", &[TOP, 0, 0], false),
    (
        "set_in(1000000000000000000,{1000000000000000000})",
        &[0, 0, 0],
        true,
    ),
    ("set_in(-1000000000000000000,0..3)", &[0, 0, 0], false),
    ("set_in_reif(x,1..3,r)", &[2, 0, 1], true),
    ("set_in_reif(x,1..3,r)", &[2, 0, 0], false),
    ("set_in_reif(x,1..3,r)", &[4, 0, 0], true),
    ("set_in_reif(x,1..3,r)", &[4, 0, 1], false),
    ("set_in_reif(x,S,true)", &[5, 0, 0], true),
    ("set_in_reif(x,S,false)", &[5, 0, 0], false),
    ("set_in_reif(x,{},r)", &[0, 0, 0], true),
    ("set_in_reif(x,{},r)", &[0, 0, 1], false),
    ("set_in_reif(4,1..3,r)", &[0, 0, 0], true),
    ("set_in_reif(4,1..3,r)", &[0, 0, 1], false),
];

#[test]
fn sets(rt: HostRuntime) -> Result<(), Fail> {
    for (constraint, values, expected) in &SETS {
        let found = tried(rt.alloc(), DECLARED, constraint, *values)?;
        assert_eq!(rt; found, Some(*expected), "{constraint} of {values:?}");
    }
    Ok(())
}

// Values that x or y does not have, where the constraint by itself would hold.
const BEYOND: [Row; 5] = [
    ("int_le(x,y)", &[-TOP - 1, 0, 0], false),
    ("int_le(x,y)", &[0, TOP + 1, 0], false),
    ("int_eq(x,y)", &[i64::MAX, i64::MAX, 0], false),
    ("int_plus(x,y,0)", &[i64::MIN, i64::MIN, 0], false),
    (
        "int_lin_ne([1000000000,1],[x,y],0)",
        &[i64::MIN, i64::MAX, 0],
        false,
    ),
];

#[test]
fn values_beyond_a_domain_are_none(rt: HostRuntime) -> Result<(), Fail> {
    for (constraint, values, expected) in &BEYOND {
        let found = tried(rt.alloc(), DECLARED, constraint, *values)?;
        assert_eq!(rt; found, Some(*expected), "{constraint} of {values:?}");
    }
    Ok(())
}
