//! What a solver learns: when a nogood is new, how many can be, and what a scaffold of them is.
#![tactic(auto)]

mod counting;
mod laws;

pub use counting::counted;
pub use laws::learned;
