//! The meaning of FlatZinc models: which assignments satisfy a model, and the value of its objective.
#![tactic(auto)]

mod args;
mod booleans;
mod constraints;
mod domains;
mod element;
mod global;
mod linear;
mod models;
mod row;
mod schedule;
mod variables;
mod wide;

pub use args::{arg_elements, arg_set, arg_term, is_in_set, term_of};
pub use models::{objective, satisfies};
pub use variables::variable_count;
