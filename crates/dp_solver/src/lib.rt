//! Solves a problem, and writes what it learns as a scaffold: nogoods that follow, each new, and a claim.
#![tactic(auto)]

mod best;
mod decision;
mod descent;
mod outcome;
mod rest;
mod round;
mod shorten;
mod solving;
mod task;
mod writing;

pub use outcome::{Outcome, SolveFault};
pub use solving::{solve, solve_cut};
