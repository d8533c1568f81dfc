// What is left to do where the inputs were read and judged.

use crate::reply::Reply;
use dp_parts::Problem;
use fz_model::Model;

/// A search for what is true of a model.
#[derive(Drop)]
pub(crate) struct Search {
    /// The model.
    pub(crate) model: Model,
    /// Its problem.
    pub(crate) problem: Problem,
    /// The name of the scaffold that is written.
    pub(crate) out: String,
    /// The most nogoods that are learned.
    pub(crate) conflicts: u64,
}

/// What is left to do.
#[derive(Drop)]
pub(crate) enum Task {
    /// To say this.
    Say(Reply),
    /// To search, and to write what is found.
    Solve(Search),
}
