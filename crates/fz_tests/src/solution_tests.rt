use dp_base::{Assignment, Memory, Text};
use fz_items::{ModelRefusal, read_model};
use fz_model::Model;
use fz_output::solution_lines;
use std::alloc::Global;
use std::test::Fail;

// The text of a model, the numbers of its variables, and the lines of that solution.
const SOLUTIONS: [(&[u8], &[i64], &[u8]); 6] = [
    (
        b"var 0..3: x :: output_var; solve satisfy;",
        &[2],
        b"x = 2;\n",
    ),
    (
        b"var 0..10: s1; var 1..10: s2; var 0..20: mk :: output_var; array [1..2] of var int: starts :: output_array([1..2]) = [s1,s2]; solve satisfy;",
        &[0, 2, 5],
        b"mk = 5;\nstarts = array1d(1..2, [0, 2]);\n",
    ),
    (
        b"var {-7,0}: x :: output_var; var bool: p :: output_var; var bool: q; var -9..9: y :: output_var = x; var bool: r :: output_var = q; var 0..5: z :: output_var; solve satisfy;",
        &[-7, 1, 0],
        b"x = -7;\np = true;\ny = -7;\nr = false;\nz = 0;\n",
    ),
    (
        b"var -9..9: x; int: n = -12; array [1..4] of var -20..20: grid :: output_array([-1..0,1..2]) = [n,x,1,x]; solve satisfy;",
        &[3],
        b"grid = array2d(-1..0, 1..2, [-12, 3, 1, 3]);\n",
    ),
    (
        b"var bool: p; bool: t = true; array [1..3] of var bool: flags :: output_array([0..2]) = [false,t,p]; solve satisfy;",
        &[0],
        b"flags = array1d(0..2, [false, true, false]);\n",
    ),
    (
        b"array [1..0] of var int: none :: output_array([1..0]) = []; solve satisfy;",
        &[],
        b"none = array1d(1..0, []);\n",
    ),
];

// Whether the solution of these numbers has these lines; or why the text is no model.
fn prints(alloc: Global, text: &[u8], values: &[i64], lines: &[u8]) -> Result<bool, ModelRefusal> {
    let model = read_model(alloc, text)?;
    let Ok(printed) = lines_of(alloc, &model, values) else {
        return Ok(false);
    };
    Ok(printed.bytes() == lines)
}

// The lines of the solution of these numbers.
fn lines_of(alloc: Global, model: &Model, values: &[i64]) -> Result<Text, Memory> {
    solution_lines(alloc, model, &Assignment::new(values.to_vec(alloc)?))
}

#[test]
fn solutions_have_their_lines(rt: HostRuntime) -> Result<(), Fail> {
    let alloc = rt.alloc();
    for (place, (text, values, lines)) in SOLUTIONS.iter().enumerate() {
        assert_eq!(rt;
            prints(alloc, *text, *values, *lines),
            Ok(true),
            "model {place}"
        );
    }
    Ok(())
}
