//! Proves a model in memory: it is solved, the scaffold is made into a log, and the log is checked.
#![tactic(auto)]

mod checking;
mod laws;
mod proof;
mod proving;

pub use laws::reread;
pub use proof::Proof;
pub use proving::prove_model;
