// Nogoods and restrictions as rules: atoms that do not all hold, and a variable that lies in a set.
#![tactic(auto)]

mod atoms;
mod nogood;
mod reasons;
mod turns;
mod within;

pub use dp_domain::{Atom, Dom, Found, Memory, Rule, State, Steps, Test, VarId};
pub use nogood::Nogood;
pub use within::{BadCondition, Within};
