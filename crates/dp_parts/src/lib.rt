// Parts of constraints, and problems.
#![tactic(auto)]

mod goal;
mod part;
mod problem;

pub use goal::Goal;
pub use part::{Part, Parts, label};
pub use problem::Problem;
