// Products, maxima, minima and absolute values as rules.
#![tactic(auto)]

mod absolute;
mod greatest;
mod least;
mod scope;
mod span;
mod times;

pub use absolute::Absolute;
pub use dp_domain::{Atom, Found, Memory, Rule, State, Steps, Term, Test, VarId};
pub use greatest::Greatest;
pub use least::Least;
pub use times::Times;
