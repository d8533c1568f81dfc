//! Models printed in their canonical spelling.
#![tactic(auto)]

mod items;
mod laws;
mod literals;
mod models;

pub use laws::read_back;
pub use models::print_model;
