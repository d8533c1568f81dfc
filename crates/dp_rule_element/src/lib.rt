// Element constraints as a rule: an entry of an array that equals a value.
#![tactic(auto)]

mod choice;
mod element;
mod entries;
mod numbers;
mod places;
mod turn;

pub use dp_domain::{Atom, Found, Memory, Rule, State, Steps, Term, Test, VarId};
pub use element::Element;
