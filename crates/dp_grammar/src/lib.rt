//! Grammars over tokens of any type, as values from which a reader and its refusals follow.
//!
//! A production says of each value how it is spelled and which test refuses it first, and of each text how it is read.
//! The two directions are written apart, and the laws below join them: each way of building a production keeps them,
//! and a production that has them answers a whole text exactly. A crate with a text of its own states its productions
//! in these words, proves once that they are lawful, and cites the laws where it reads.
#![tactic(auto)]

mod laws;

pub use laws::{exactness, productions};
