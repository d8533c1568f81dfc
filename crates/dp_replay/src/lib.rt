//! A log written step by step is accepted where each step passes the tests of a log behind those before it.
#![tactic(auto)]

mod laws;

pub use laws::replayed;
