// One kept turn.

use crate::{Atoms, PartId};
use dp_domain::Atom;

/// A turn that is kept: the part that gives it, and its explanation.
#[derive(Debug, Drop)]
pub struct Kept {
    /// The part that gives the turn.
    pub source: PartId,
    /// Atoms that suffice for it at the initial domains.
    pub premises: Atoms,
    /// What follows from them. None where the part clashes.
    pub consequent: Option<Atom>,
}
