//! What holds of every model: what the tests of its text have let through.
#![tactic(auto)]

mod laws;

pub use laws::facts;
