// The constraints on arrays: entries, numbers that differ, and tasks that share a capacity.
use crate::tried::{Row, tried};
use std::test::Fail;

// The values of a row are those of x, y and r.
const DECLARED: &str =
    "array [1..2] of bool: B = [true,false]; var -1000000000..1000000000: x; var -1000000000..1000000000: y; var bool: r; array [1..3] of var int: V = [x,8,y];";

const TOP: i64 = 1_000_000_000;

const ENTRIES: [Row; 29] = [
    ("array_int_element(x,[7,8,7],y)", &[1, 7, 0], true),
    ("array_int_element(x,[7,8,7],y)", &[3, 7, 0], true),
    ("array_int_element(x,[7,8,7],y)", &[2, 8, 0], true),
    ("array_int_element(x,[7,8,7],y)", &[2, 7, 0], false),
    ("array_int_element(x,[7,8,7],y)", &[0, 7, 0], false),
    ("array_int_element(x,[7,8,7],y)", &[4, 7, 0], false),
    ("array_int_element(x,[7,8,7],y)", &[-1, 7, 0], false),
    ("array_int_element(x,[7,8,7],y)", &[TOP, 7, 0], false),
    ("array_int_element(x,[7,8,7],y)", &[-TOP, 7, 0], false),
    ("array_int_element(x,[],y)", &[1, 0, 0], false),
    ("array_int_element(1,[7],y)", &[0, 7, 0], true),
    (
        "array_int_element(1000000000000000000,[7],y)",
        &[0, 7, 0],
        false,
    ),
    ("array_var_int_element(x,[x,y],2)", &[2, 2, 0], true),
    ("array_var_int_element(x,[x,y],2)", &[2, 3, 0], false),
    ("array_var_int_element(x,[x,y],2)", &[1, 2, 0], false),
    ("array_var_int_element(x,V,8)", &[2, 0, 0], true),
    ("array_var_int_element(x,V,y)", &[3, -5, 0], true),
    ("array_var_int_element(x,V,y)", &[4, -5, 0], false),
    ("array_bool_element(x,B,r)", &[1, 0, 1], true),
    ("array_bool_element(x,B,r)", &[1, 0, 0], false),
    ("array_bool_element(x,B,r)", &[2, 0, 0], true),
    ("array_bool_element(x,B,r)", &[2, 0, 1], false),
    ("array_bool_element(x,B,r)", &[3, 0, 0], false),
    ("array_bool_element(x,B,r)", &[0, 0, 0], false),
    ("array_var_bool_element(x,[r,true],r)", &[1, 0, 0], true),
    ("array_var_bool_element(x,[r,true],r)", &[2, 0, 1], true),
    ("array_var_bool_element(x,[r,true],r)", &[2, 0, 0], false),
    (
        "array_var_bool_element(x,[r,true],false)",
        &[1, 0, 1],
        false,
    ),
    ("array_var_bool_element(x,[r,true],true)", &[3, 0, 1], false),
];

#[test]
fn entries(rt: HostRuntime) -> Result<(), Fail> {
    for (constraint, values, expected) in &ENTRIES {
        let found = tried(rt.alloc(), DECLARED, constraint, *values)?;
        assert_eq!(rt; found, Some(*expected), "{constraint} of {values:?}");
    }
    Ok(())
}

const DIFFERENT: [Row; 15] = [
    ("all_different_int([])", &[0, 0, 0], true),
    ("all_different_int([x])", &[0, 0, 0], true),
    ("all_different_int([x,y])", &[1, 2, 0], true),
    ("all_different_int([x,y])", &[2, 2, 0], false),
    ("all_different_int([x,x])", &[1, 0, 0], false),
    ("all_different_int([x,y,1])", &[2, 3, 0], true),
    ("all_different_int([x,y,1])", &[2, 1, 0], false),
    ("all_different_int([x,5,y,5])", &[1, 2, 0], false),
    ("all_different_int(V)", &[-TOP, TOP, 0], true),
    ("all_different_int(V)", &[8, TOP, 0], false),
    ("fzn_all_different_int([])", &[0, 0, 0], true),
    ("fzn_all_different_int([x,y])", &[1, 2, 0], true),
    ("fzn_all_different_int([x,y])", &[2, 2, 0], false),
    ("fzn_all_different_int(V)", &[1, 1, 0], false),
    ("fzn_all_different_int([x,2,3,y])", &[1, 4, 0], true),
];

#[test]
fn different_numbers(rt: HostRuntime) -> Result<(), Fail> {
    for (constraint, values, expected) in &DIFFERENT {
        let found = tried(rt.alloc(), DECLARED, constraint, *values)?;
        assert_eq!(rt; found, Some(*expected), "{constraint} of {values:?}");
    }
    Ok(())
}

const TASKS: [Row; 24] = [
    ("cumulative([x,y],[2,3],[1,1],1)", &[0, 2, 0], true),
    ("cumulative([x,y],[2,3],[1,1],1)", &[0, 1, 0], false),
    ("cumulative([x,y],[2,3],[1,1],1)", &[3, 0, 0], true),
    ("cumulative([x,y],[2,3],[1,1],1)", &[2, 0, 0], false),
    ("cumulative([x,y],[2,3],[1,1],2)", &[0, 0, 0], true),
    ("cumulative([],[],[],0)", &[0, 0, 0], true),
    ("cumulative([x],[2],[3],2)", &[0, 0, 0], false),
    ("cumulative([x],[2],[3],3)", &[0, 0, 0], true),
    ("cumulative([x],[0],[3],2)", &[0, 0, 0], true),
    ("cumulative([x],[2],[0],0)", &[0, 0, 0], true),
    ("cumulative([x,y],[2,2],[0,5],5)", &[0, 0, 0], true),
    ("cumulative([x,y,4],[2,2,2],[1,1,1],2)", &[4, 5, 0], false),
    ("cumulative([x,y,4],[2,2,2],[1,1,1],2)", &[2, 4, 0], true),
    ("cumulative([x,x],[1,1],[2,2],3)", &[7, 0, 0], false),
    (
        "cumulative([x,y],[1000000000,1000000000],[1000000000,1000000000],1000000000)",
        &[-TOP, 0, 0],
        true,
    ),
    (
        "cumulative([x,y],[1000000000,1000000000],[1000000000,1000000000],1000000000)",
        &[-TOP, -1, 0],
        false,
    ),
    (
        "cumulative([x,y],[1000000000,1000000000],[1000000000,1000000000],1000000000)",
        &[TOP, 1, 0],
        false,
    ),
    (
        "cumulative([x,y],[1000000000,1000000000],[1000000000,1000000000],1000000000)",
        &[TOP, 0, 0],
        true,
    ),
    ("fzn_cumulative([x,y],[2,3],[1,1],1)", &[0, 2, 0], true),
    ("fzn_cumulative([x,y],[2,3],[1,1],1)", &[0, 1, 0], false),
    ("fzn_cumulative([],[],[],0)", &[0, 0, 0], true),
    ("fzn_cumulative([x],[2],[3],2)", &[0, 0, 0], false),
    ("fzn_cumulative([x],[0],[3],2)", &[0, 0, 0], true),
    ("fzn_cumulative([x,x],[1,1],[2,2],4)", &[7, 0, 0], true),
];

#[test]
fn tasks(rt: HostRuntime) -> Result<(), Fail> {
    for (constraint, values, expected) in &TASKS {
        let found = tried(rt.alloc(), DECLARED, constraint, *values)?;
        assert_eq!(rt; found, Some(*expected), "{constraint} of {values:?}");
    }
    Ok(())
}
