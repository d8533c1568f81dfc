// All-different constraints as rules: terms that differ at all positions.
#![tactic(auto)]

mod all_diff;
mod once;
mod spans;
mod tight;
mod turn;

pub use all_diff::AllDiff;
pub use dp_domain::{Atom, Found, Memory, Rule, State, Steps, Term, Test, VarId};
