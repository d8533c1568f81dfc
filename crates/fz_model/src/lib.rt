//! The items of FlatZinc text, integer profile: what a model consists of, and the table of its constraints.
#![tactic(auto)]

mod constants;
mod fault;
mod kinds;
mod laws;
mod lists;
mod meant;
mod model;
mod whole;

pub use constants::{Integers, Truths};
pub use fault::Fault;
pub use kinds::{ArgKind, ConstraintKind};
pub use laws::exactness;
pub use lists::{Args, Elements, Numbers, Ranges};
pub use meant::{Meant, amount_limit, beyond_small};
pub use model::{Basic, Constraint, Expr, Item, ModelGoal, SetText, VarType};
pub use whole::Model;
