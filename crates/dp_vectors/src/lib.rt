//! Calls that cross crates, from the text of a model to its spelling and to what an assignment is worth, and rows that
//! cross crates, as tests.
#![tactic(auto)]

mod judgement;
mod spelling;

pub use judgement::{Judgement, judge_assignment};
pub use spelling::reprint;

#[cfg(test)]
mod boolean_tests;
#[cfg(test)]
mod described;
#[cfg(test)]
mod integer_tests;
#[cfg(test)]
mod list_tests;
#[cfg(test)]
mod lowering_tests;
#[cfg(test)]
mod tests;
#[cfg(test)]
mod tried;
