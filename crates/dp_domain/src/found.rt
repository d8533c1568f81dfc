// What one part gives at a state.

use crate::Atom;

/// The turn of one part: it clashes, or this atom follows.
#[derive(Clone, Copy, Debug, PartialEq, Eq)]
pub enum Found {
    Clash,
    Atom(Atom),
}
