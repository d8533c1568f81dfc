//! Reads FlatZinc models of the integer profile.
#![tactic(auto)]

mod annotations;
mod any_item;
mod argument;
mod arguments;
mod arrayed;
mod arrays;
mod brackets;
mod constraint;
mod declared;
mod elements;
mod goal;
mod item;
mod items;
mod kinds;
mod laws;
mod literals;
mod marks;
mod numbering;
mod parameters;
mod places;
mod ranges;
mod refusal;
mod refused;
mod rest;
mod source;
mod stop;
mod text;
mod unsupported;
mod variables;
mod want;
mod whole;

pub use laws::exactness;
pub use refusal::ModelRefusal;
pub use whole::read_model;
