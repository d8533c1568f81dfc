// Tasks that share a capacity, as a rule.
#![tactic(auto)]

mod bound;
mod conflict;
mod cumulative;
mod demand;
mod given;
mod profile;
mod refusal;
mod task;
mod turn;

pub use cumulative::Cumulative;
pub use dp_domain::{Atom, Found, Memory, Rule, State, Steps, Term, Test, VarId};
pub use refusal::TaskRefusal;
pub use task::Task;
