//! Solves a model over a desk: its scaffold goes to a file, its solution text is the answer.
#![tactic(auto)]

mod printing;
mod solving;

pub use printing::{outcome_status, outcome_text};
pub use solving::solve_model;
