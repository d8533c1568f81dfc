//! Work on the items of a list, shared out among threads: its results are those of one thread.
#![tactic(auto)]

mod gate;
mod mapping;

pub use gate::{Gate, Open};
pub use mapping::map_all;

#[cfg(test)]
mod tests;
