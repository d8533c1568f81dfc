// Writes logs: numbers atoms and steps, and spells the lines.
#![tactic(auto)]

mod key;
mod laws;
mod numbering;
mod step;
mod writer;

pub use laws::{literals, order};
pub use writer::Writer;
