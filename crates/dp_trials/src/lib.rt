// Calls of rules whose conditions are tested first: what the tests of every rule share.
#![tactic(auto)]

mod answers;
mod calls;
mod states;

pub use answers::{clashes, gives, leads};
pub use calls::{clash_at, covers_scope, explanation_at, is_counted, ticks_once, turn_at};
pub use states::{LARGEST, cut_by, range, state_of};
