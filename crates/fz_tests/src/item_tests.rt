//! Texts, each with its answer: the name of the refusal and its place, or that the text is a model.

use fz_items::*;
use fz_model::{Basic, Constraint, Expr, Item, ModelGoal, VarType};
use std::alloc::Global;
use std::process::Abort;
use std::test::*;

/// A text, the name of its answer, and the place of its refusal.
type Row = (&'static [u8], &'static str, usize);

/// A text for each refusal.
const WORKED: [Row; 11] = [
    (b"#", "BadByte", 0),
    (b"var 1..5: x", "Syntax", 11),
    (b"var float: f;", "Unsupported", 4),
    (b"var int: x;", "Unbounded", 10),
    (b"constraint int_le(1,y);", "Unknown", 20),
    (b"var 1..5: x; var 1..5: x;", "Declared", 23),
    (b"constraint int_le(1);", "Kind", 19),
    (b"constraint int_foo(1);", "Unsupported", 11),
    (b"var 1..2: x :: a(\"\\\");", "OpenString", 17),
    (b"constraint int_lin_le([1000000001],[1],0);", "Limit", 23),
    (b"int: n = 0x;", "Number", 9),
];

/// Words that no production allows, or that are not supported.
const WORDS: [Row; 14] = [
    (b"", "Syntax", 0),
    (b"var 1..5: x, y;", "Syntax", 11),
    (b"var : float;", "Syntax", 4),
    (b"array [0..2] of int: a = [1,2];", "Syntax", 7),
    (b"int: n = 1.5;", "Unsupported", 9),
    (b"var set of 1..3: x;", "Unsupported", 4),
    (
        b"array [1..1] of set of int: a = [1..2];",
        "Unsupported",
        16,
    ),
    (b"int: n = 3; solve minimize n;", "Unsupported", 27),
    (b"solve satisfy; x", "Syntax", 15),
    (b"solve satisfy; float", "Unsupported", 15),
    (b"solve satisfy; #", "BadByte", 15),
    (b"var 1..2: \xc3\xa9;", "BadByte", 10),
    (b"predicate p(); constraint int_le(1,p);", "Unknown", 35),
    (b"predicate p([)]);", "Syntax", 13),
];

/// Names, definitions and arrays.
const DECLARED: [Row; 16] = [
    (b"var 1..2: z = z;", "Unknown", 14),
    (b"int: n = 1; var bool: n;", "Declared", 22),
    (b"var bool: n; int: n = 1;", "Declared", 18),
    (b"var 1..2: x = true;", "Kind", 14),
    (b"array [1..1] of var int: a = [true];", "Kind", 30),
    (b"array [1..2] of var 1..3: a = [3,4];", "Kind", 33),
    (b"array [1..2] of var {1,5}: a = [5,3];", "Kind", 34),
    (b"array [1..2] of int: a = [1];", "Kind", 27),
    (
        b"array [1..2] of var int: a :: output_array([1..3]) = [1,2];",
        "Kind",
        58,
    ),
    (
        b"array [1..2] of var int: a :: output_array = [1,2];",
        "Kind",
        50,
    ),
    (b"var bool: b; solve minimize b;", "Kind", 28),
    (
        b"array [1..1] of var int: a = [1]; solve minimize a;",
        "Kind",
        49,
    ),
    (
        b"set of int: s = 1..3; solve minimize s;",
        "Unsupported",
        37,
    ),
    (b"var 0..1000000001: x;", "Limit", 7),
    (b"array [1..1] of var 0..1000000001: a = [1];", "Limit", 23),
    (b"var 1..2: x = 1000000001;", "Limit", 14),
];

/// Arguments of constraints.
const ARGUMENTS: [Row; 12] = [
    (b"var bool: b; constraint int_le(1,b);", "Kind", 33),
    (b"constraint int_le(1,2,3);", "Kind", 22),
    (b"constraint int_le(1,2,y);", "Unknown", 22),
    (b"constraint bool_xor(true);", "Kind", 24),
    (b"constraint bool_xor(true,false,true,true);", "Kind", 36),
    (b"constraint int_lin_le([1,1],[1],2);", "Kind", 33),
    (b"var 0..5: x; constraint set_in(x,5;", "Kind", 33),
    (b"constraint int_le(1,2..;", "Kind", 20),
    (
        b"var 0..1: x; constraint int_lin_le([x],[1],3);",
        "Kind",
        36,
    ),
    (
        b"array [1..0] of bool: e = []; constraint all_different_int(e);",
        "Kind",
        59,
    ),
    (
        b"int: n = 1000000001; array [1..1] of int: a = [n]; constraint int_lin_le(a,[1],0);",
        "Limit",
        73,
    ),
    (
        b"int: n = 1000000001; constraint int_lin_le([n],[1],0);",
        "Limit",
        44,
    ),
];

/// Durations, usages and capacities.
const AMOUNTS: [Row; 6] = [
    (b"constraint cumulative([0],[1],[-1],1);", "Limit", 31),
    (b"constraint cumulative([0],1,[1],1);", "Kind", 26),
    (
        b"var bool: b; constraint cumulative([0],[b],[1],1);",
        "Kind",
        40,
    ),
    (
        b"var 1..2: d; constraint cumulative([0],[d],[1],1);",
        "Unsupported",
        40,
    ),
    (
        b"var 1..2: d; array [1..1] of var int: a = [d]; constraint cumulative([0],a,[1],1);",
        "Unsupported",
        73,
    ),
    (
        b"var 1..2: d; array [1..1] of var int: a = [d]; constraint int_lin_le(a,[1],3);",
        "Kind",
        69,
    ),
];

/// Models.
const ACCEPTED: [Row; 6] = [
    (b"solve satisfy;", "Accepted", 0),
    (
        b"predicate x(var float: y, array [int] of {1.5}); var 1..2: x; solve satisfy;",
        "Accepted",
        0,
    ),
    (
        b"array [0x1..2] of int: a = [1,2]; array [01..-5] of int: b = []; solve satisfy;",
        "Accepted",
        0,
    ),
    (
        b"array [1..1] of var int: c = [2]; constraint int_lin_le(c,[1],3); solve satisfy;",
        "Accepted",
        0,
    ),
    (
        b"constraint all_different_int([]); constraint bool_clause([],[]); solve satisfy;",
        "Accepted",
        0,
    ),
    (
        b"var 1..2: x = 5; constraint set_in(x,1..1000000000000000000); solve maximize x; % end",
        "Accepted",
        0,
    ),
];

/// The name of the refusal, and its place.
fn word(refusal: ModelRefusal) -> (&'static str, usize) {
    match refusal {
        ModelRefusal::BadByte(at) => ("BadByte", at),
        ModelRefusal::Number(at) => ("Number", at),
        ModelRefusal::OpenString(at) => ("OpenString", at),
        ModelRefusal::Unsupported(at) => ("Unsupported", at),
        ModelRefusal::Syntax(at) => ("Syntax", at),
        ModelRefusal::Unbounded(at) => ("Unbounded", at),
        ModelRefusal::Unknown(at) => ("Unknown", at),
        ModelRefusal::Declared(at) => ("Declared", at),
        ModelRefusal::Kind(at) => ("Kind", at),
        ModelRefusal::Limit(at) => ("Limit", at),
        ModelRefusal::Memory => ("Memory", 0),
    }
}

/// The name of the answer to the text, and the place of its refusal.
fn answer(alloc: Global, text: &[u8]) -> (&'static str, usize) {
    match read_model(alloc, text) {
        Ok(_) => ("Accepted", 0),
        Err(refusal) => word(refusal),
    }
}

fn check(rt: &impl Abort, alloc: Global, rows: &[Row]) {
    for (text, name, at) in rows {
        assert_eq!(rt; answer(alloc, *text), (*name, *at));
    }
}

#[test]
fn a_text_for_each_refusal(rt: HostRuntime) {
    check(&rt, rt.alloc(), &WORKED);
}

#[test]
fn words_out_of_place(rt: HostRuntime) {
    check(&rt, rt.alloc(), &WORDS);
}

#[test]
fn names_and_arrays(rt: HostRuntime) {
    check(&rt, rt.alloc(), &DECLARED);
}

#[test]
fn arguments_of_constraints(rt: HostRuntime) {
    check(&rt, rt.alloc(), &ARGUMENTS);
}

#[test]
fn amounts_of_cumulative(rt: HostRuntime) {
    check(&rt, rt.alloc(), &AMOUNTS);
}

#[test]
fn models(rt: HostRuntime) {
    check(&rt, rt.alloc(), &ACCEPTED);
}

/// Whether the item is a variable of this name and number, and is printed or not.
fn is_variable(item: &Item, wanted: &[u8], printed: bool, number: u32) -> bool {
    match item {
        Item::Var {
            name,
            output,
            var,
            ..
        } => name.bytes() == wanted && *output == printed && *var == number,
        _ => false,
    }
}

/// The range of an item's type.
fn range(item: &Item) -> Option<(i64, i64)> {
    match item {
        Item::Var {
            kind: VarType::Range(low, high),
            ..
        } => Some((*low, *high)),
        _ => None,
    }
}

/// The ranges of an array of variables for printing, if it is printed.
fn printed(item: &Item) -> &[(i64, i64)] {
    match item {
        Item::Vars {
            output: Some(ranges),
            ..
        } => ranges.as_slice(),
        _ => &[],
    }
}

/// The elements of an array of variables.
fn elements(item: &Item) -> &[Basic] {
    match item {
        Item::Vars { elements, .. } => elements.as_slice(),
        _ => &[],
    }
}

const SMALL: &[u8] = b"var bool: p;
solve satisfy;
";

#[test]
fn one_variable(rt: HostRuntime) -> Result<(), ModelRefusal> {
    let model = read_model(rt.alloc(), SMALL)?;
    assert_eq!(rt; model.items().len(), 1);
    for item in model.items() {
        assert!(rt; is_variable(item, b"p", false, 0));
    }
    assert_eq!(rt; model.constraints().len(), 0);
    assert_eq!(rt; model.goal(), ModelGoal::Satisfy);
    Ok(())
}

const COMPILED: &[u8] = b"var 0..10: s1;
var 1..10: s2;
var 0..20: mk:: output_var;
var bool: X_INTRODUCED_1_ ::var_is_introduced :: is_defined_var;
var bool: X_INTRODUCED_2_ ::var_is_introduced :: is_defined_var;
array [1..2] of var int: starts:: output_array([1..2]) = [s1,s2];
constraint int_lin_le([1,-1],[s1,mk],-2);
constraint int_lin_le([1,-1],[s2,mk],-3);
constraint int_lin_le_reif([1,-1],[s1,s2],-2,X_INTRODUCED_1_):: defines_var(X_INTRODUCED_1_);
constraint int_lin_le_reif([1,-1],[s2,s1],-3,X_INTRODUCED_2_):: defines_var(X_INTRODUCED_2_);
constraint bool_clause([X_INTRODUCED_1_,X_INTRODUCED_2_],[]);
solve :: int_search([s1,s2],input_order,indomain_min,complete) minimize mk;
";

/// The name of a variable, whether it is printed, its number, and the range of its type.
const VARIABLES: [(&[u8], bool, u32, Option<(i64, i64)>); 5] = [
    (b"s1", false, 0, Some((0, 10))),
    (b"s2", false, 1, Some((1, 10))),
    (b"mk", true, 2, Some((0, 20))),
    (b"X_INTRODUCED_1_", false, 3, None),
    (b"X_INTRODUCED_2_", false, 4, None),
];

/// The name of a constraint, and its arguments.
const CONSTRAINTS: [(&[u8], &[Wanted]); 5] = [
    (
        b"int_lin_le",
        &[
            Wanted::Array(&[Basic::Int(1), Basic::Int(-1)]),
            Wanted::Array(&[Basic::Item(0), Basic::Item(2)]),
            Wanted::Basic(Basic::Int(-2)),
        ],
    ),
    (
        b"int_lin_le",
        &[
            Wanted::Array(&[Basic::Int(1), Basic::Int(-1)]),
            Wanted::Array(&[Basic::Item(1), Basic::Item(2)]),
            Wanted::Basic(Basic::Int(-3)),
        ],
    ),
    (
        b"int_lin_le_reif",
        &[
            Wanted::Array(&[Basic::Int(1), Basic::Int(-1)]),
            Wanted::Array(&[Basic::Item(0), Basic::Item(1)]),
            Wanted::Basic(Basic::Int(-2)),
            Wanted::Basic(Basic::Item(3)),
        ],
    ),
    (
        b"int_lin_le_reif",
        &[
            Wanted::Array(&[Basic::Int(1), Basic::Int(-1)]),
            Wanted::Array(&[Basic::Item(1), Basic::Item(0)]),
            Wanted::Basic(Basic::Int(-3)),
            Wanted::Basic(Basic::Item(4)),
        ],
    ),
    (
        b"bool_clause",
        &[
            Wanted::Array(&[Basic::Item(3), Basic::Item(4)]),
            Wanted::Array(&[]),
        ],
    ),
];

/// What is wanted of an argument.
#[derive(Clone, Copy)]
enum Wanted {
    Basic(Basic),
    Array(&'static [Basic]),
}

fn is_wanted(arg: &Expr, wanted: Wanted) -> bool {
    match (arg, wanted) {
        (Expr::Basic(basic), Wanted::Basic(other)) => *basic == other,
        (Expr::Array(elements), Wanted::Array(others)) => elements.as_slice() == others,
        _ => false,
    }
}

fn check_constraint(rt: &impl Abort, constraint: &Constraint, name: &[u8], wanted: &[Wanted]) {
    assert!(rt; constraint.name.bytes() == name);
    let args = constraint.args.as_slice();
    assert_eq!(rt; args.len(), wanted.len());
    for (arg, other) in args.iter().zip(wanted) {
        assert!(rt; is_wanted(arg, *other));
    }
}

#[test]
fn variables_of_a_compiled_model(rt: HostRuntime) -> Result<(), ModelRefusal> {
    let model = read_model(rt.alloc(), COMPILED)?;
    assert_eq!(rt; model.items().len(), 6);
    for (item, (name, output, var, bounds)) in model.items().iter().zip(&VARIABLES) {
        assert!(rt; is_variable(item, *name, *output, *var));
        assert_eq!(rt; range(item), *bounds);
    }
    Ok(())
}

#[test]
fn array_and_goal_of_a_compiled_model(rt: HostRuntime) -> Result<(), ModelRefusal> {
    let model = read_model(rt.alloc(), COMPILED)?;
    let starts = model.items().get(5);
    assert_eq!(rt; starts.map_or([].as_slice(), printed), [(1, 2)].as_slice());
    assert_eq!(rt;
        starts.map_or([].as_slice(), elements),
        [Basic::Item(0), Basic::Item(1)].as_slice()
    );
    assert_eq!(rt; model.goal(), ModelGoal::Minimize(2));
    Ok(())
}

#[test]
fn constraints_of_a_compiled_model(rt: HostRuntime) -> Result<(), ModelRefusal> {
    let model = read_model(rt.alloc(), COMPILED)?;
    assert_eq!(rt; model.constraints().len(), CONSTRAINTS.len());
    for (constraint, (name, wanted)) in model.constraints().iter().zip(&CONSTRAINTS) {
        check_constraint(&rt, constraint, *name, *wanted);
    }
    Ok(())
}
