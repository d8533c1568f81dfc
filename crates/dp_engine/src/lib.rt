// Propagation: the parts of a problem and nogoods take turns, until a clash or until all is quiet.
#![tactic(auto)]

mod change;
mod debts;
mod engine;
mod index;
mod laws;
mod occurrences;
mod part_id;
mod reach;
mod roster;
mod search;
mod trail;
mod turn;
mod woken;

pub use dp_domain::{Atom, Memory, State, Steps};
pub use dp_parts::Problem;
pub use dp_rule_clause::Nogood;
pub use engine::Engine;
pub use index::Index;
pub use laws::{runs, turns};
pub use part_id::PartId;
pub use turn::Turn;
