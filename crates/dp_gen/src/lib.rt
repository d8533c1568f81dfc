//! A family of models that have no solution, with their scaffolds: for each number one of each.
#![tactic(auto)]

mod laws;
mod model;
mod scaffold;
#[cfg(test)]
mod tests;

pub use laws::{goes_on, no_solution, sizes};
pub use model::model_of;
pub use scaffold::scaffold_of;
