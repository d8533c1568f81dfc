// Atoms, sets of integers, states, and the trait of the rules that constraints are checked by.
#![tactic(auto)]

mod atom;
mod description;
mod dom;
mod explanation;
mod found;
mod intervals;
mod rule;
mod scratch;
mod state;
mod steps;
mod support;
mod term;
mod turn;
mod verdict;

pub use atom::{Atom, Op, VarId};
pub use dom::Dom;
pub use dp_base::{Assignment, Memory, Name, Text};
pub use explanation::search_explanation;
pub use found::Found;
pub use rule::{Rule, Test};
pub use scratch::Scratch;
pub use state::State;
pub use steps::Steps;
pub use support::supported_bound;
pub use term::{Term, term_scope};
pub use turn::search_turn;
pub use verdict::Verdict;
