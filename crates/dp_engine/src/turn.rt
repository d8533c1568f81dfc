// What a step of propagation gives.

use crate::PartId;
use dp_domain::Atom;

/// A turn: the first part that has one gives an atom or clashes; or no part has one; or some variable
/// has no value left.
#[derive(Clone, Copy, Debug, PartialEq, Eq)]
pub enum Turn {
    Atom(PartId, Atom),
    Clash(PartId),
    Quiet,
    Empty,
}
