// What is asked of a solution.

use dp_domain::VarId;

/// What is asked of a solution: nothing more, or the least or the greatest value of a variable.
#[derive(Clone, Copy, Debug, PartialEq, Eq)]
pub enum Goal {
    Satisfy,
    Minimize(VarId),
    Maximize(VarId),
}
