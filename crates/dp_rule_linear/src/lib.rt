// Linear constraints as rules: a sum of at most a number, and a sum other than a number.
#![tactic(auto)]

mod bounds;
mod condition;
mod form;
mod lin_le;
mod lin_ne;
mod refusal;
mod sums;
mod turn;
mod unequal;

pub use dp_domain::{Atom, Found, Memory, Rule, State, Steps, Test, VarId};
pub use lin_le::LinLe;
pub use lin_ne::LinNe;
pub use refusal::LinRefusal;
