// What every crate of the project speaks of: want of memory, names, texts and assignments.
#![tactic(auto)]

mod assignment;
mod bytes;
mod memory;

pub use assignment::Assignment;
pub use bytes::{Name, Text};
pub use memory::Memory;

#[cfg(test)]
mod tests;
