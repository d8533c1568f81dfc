// What a log concludes.

use crate::Atom;

/// A conclusion.
#[derive(Clone, Copy, Debug, PartialEq, Eq)]
pub enum Verdict {
    /// No assignment satisfies the model.
    Unsat,
    /// No assignment that satisfies the model has a goal value that fails this bound.
    Bound(Atom),
}
