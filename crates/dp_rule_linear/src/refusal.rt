// Why a linear constraint is not made.

use thiserror::Error;

/// Why a linear constraint is not made: the first of these that applies.
#[derive(Clone, Copy, Debug, PartialEq, Eq, Error)]
pub enum LinRefusal {
    #[error("more than 2000000 terms")]
    TooMany,
    #[error("bad term at place {0}")]
    BadTerm(usize),
    #[error("right side beyond 10^36")]
    BadRhs,
    #[error("the condition's variable is also a term's")]
    BadCondition,
}
