//! A scaffold made into a log that is checked step by step: each nogood that the conclusion rests on, justified.
#![tactic(auto)]

mod found;
mod laws;
mod met;
mod processing;
mod refusal;
mod runs;
mod wave;
mod waves;
mod write;

pub use laws::log_passes;
pub use processing::{Processed, process};
pub use refusal::ProcessRefusal;
