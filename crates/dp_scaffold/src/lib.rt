//! Scaffolds: learned nogoods in the text form of a log, and what they are to conclude.
#![tactic(auto)]

mod add;
mod answer;
mod facts;
mod fault;
mod gatherer;
mod judge;
mod pieces;
mod read;
mod refusal;
mod scaffold;

pub use answer::ScaffoldAnswer;
pub use fault::GatherFault;
pub use gatherer::Gatherer;
pub use pieces::ScaffoldReading;
pub use read::read_scaffold;
pub use refusal::{GatherWhy, ScaffoldRefusal};
pub use scaffold::Scaffold;
