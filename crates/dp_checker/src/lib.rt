// The checker of logs, line by line.
#![tactic(auto)]

mod checker;
mod conclusion;
mod facts;
mod fault;
mod inference;
mod literals;
mod nogood;
mod refusal;
mod start;
mod steps;

pub use checker::Checker;
pub use fault::CheckFault;
pub use literals::{first_undefined, first_undefined_of, literal_atom, literal_atoms};
pub use refusal::{StepRefusal, Why};
