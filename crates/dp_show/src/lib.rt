// A log as a person reads it: its steps with the names of their atoms.
#![tactic(auto)]

pub mod laws;
mod named;
mod pieces;
mod show;
mod shown;
mod spell;

pub use pieces::Showing;
pub use show::show_log;
pub use shown::{Refusal, Shown};
