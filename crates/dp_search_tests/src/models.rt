// Problems and atoms of tables: what all tests share.
use dp_base::Memory;
use dp_domain::{Atom, Op, VarId};
use dp_lower::lower;
use dp_parts::Problem;
use fz_items::read_model;
use std::alloc::Global;

/// An atom as it is written in a table: the place of its variable, a comparison and a number.
pub type Used = (u32, Op, i64);

/// Two inequalities that no x and y meet together.
pub const NONE: &str =
    "var 0..3: x:: output_var;\nvar 0..3: y;\nconstraint int_lin_le([1,1],[x,y],2);\nconstraint int_lin_le([-1,-1],[x,y],-3);\nsolve satisfy;\n";

/// Four variables that differ, over three numbers.
pub const DIFFERENT: &str =
    "var 0..2: w;\nvar 0..2: x;\nvar 0..2: y;\nvar 0..2: z;\nconstraint int_ne(w,x);\nconstraint int_ne(w,y);\nconstraint int_ne(w,z);\nconstraint int_ne(x,y);\nconstraint int_ne(x,z);\nconstraint int_ne(y,z);\nsolve satisfy;\n";

/// Two tasks that share a room of one place, of which the first stands still.
pub const TOUCHING: &str =
    "var 0..2: s:: output_var;\nconstraint cumulative([0,s],[2,2],[1,1],1);\nsolve satisfy;\n";

/// A variable of which at least 7 is asked.
pub const LEAST: &str =
    "var 0..9: cost:: output_var;\nconstraint int_le(7,cost);\nsolve minimize cost;\n";

/// A variable of which at most 4 is asked.
pub const MOST: &str =
    "var 0..9: gain:: output_var;\nconstraint int_le(gain,4);\nsolve maximize gain;\n";

/// The log of the two inequalities.
pub const NONE_LOG: &str = "a 1 [x >= 3]
i 1 0 -1 c:1 l:linear
a 2 [y >= 3]
i 2 0 -2 c:1 l:linear
a 3 [x >= 1]
i 3 -2 0 3 c:2 l:linear
a 4 [y >= 2]
i 4 3 0 -4 c:1 l:linear
a 5 [x >= 2]
i 5 -4 0 5 c:2 l:linear
a 6 [y >= 1]
i 6 5 0 -6 c:1 l:linear
i 7 -1 -6 0 c:2 l:linear
n 8 0 1 2 3 4 5 6 7
c UNSAT
";

/// The problem of the text of a model.
pub fn problem_of(alloc: Global, model: &str) -> Result<Problem, Memory> {
    problem_of_bytes(alloc, model.as_bytes())
}

/// The same of its bytes.
pub fn problem_of_bytes(alloc: Global, model: &[u8]) -> Result<Problem, Memory> {
    match read_model(alloc, model) {
        Ok(model) => lower(alloc, &model),
        Err(_) => Err(Memory),
    }
}

/// The atom of a table.
pub fn atom_of(used: Used) -> Result<Atom, Memory> {
    let (var, op, value) = used;
    Atom::new(VarId(var), op, value).ok_or(Memory)
}

/// Whether this is the atom of a table.
pub fn is_atom(atom: &Atom, used: &Used) -> bool {
    let (var, op, value) = *used;
    atom.var().0 == var && atom.op() == op && atom.value() == value
}
