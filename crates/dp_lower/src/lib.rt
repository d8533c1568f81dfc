//! From models to problems: names, initial domains and the parts of constraints.
#![tactic(auto)]

mod arithmetic;
mod booleans;
mod domains;
mod globals;
mod integers;
mod intervals;
mod literal;
mod names;
mod problem;
mod recipe;
mod rows;
mod sets;
mod sides;
mod sum;
mod terms;
mod types;

pub use problem::lower;
