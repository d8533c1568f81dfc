//! Solutions as text: what a model marks for printing, with the values of an assignment.
#![tactic(auto)]

mod arrays;
mod lines;
mod values;

pub use lines::solution_lines;
