//! The names that the items of a model declare, and what each stands for.
#![tactic(auto)]

mod names;
mod spelled;

pub use names::Names;
