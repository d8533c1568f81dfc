// The lines of a log.

use crate::{Literals, Numbers};
use dp_domain::{Name, Op};

/// What a conclusion claims.
#[derive(Clone, Copy, Debug, PartialEq, Eq)]
pub enum Claim {
    /// No assignment satisfies the model.
    Unsat,
    /// No assignment beats the bound that this literal names.
    Bound(i64),
}

/// A line of a log. Numbers of atoms and numbers of steps are two separate spaces.
#[derive(Debug, Drop)]
pub enum Line {
    /// Atom `id` is `[name op value]`.
    Atom {
        id: u64,
        name: Name,
        op: Op,
        value: i64,
    },
    /// Step `id`: the premises imply the consequent, or are contradictory where there is none, by a
    /// part of the constraint with this number and label.
    Inference {
        id: u64,
        premises: Literals,
        consequent: Option<i64>,
        constraint: Option<u64>,
        label: Option<Name>,
    },
    /// Step `id`: not all of the atoms hold together, by the earlier steps in the order of the hints.
    Nogood {
        id: u64,
        atoms: Literals,
        hints: Numbers,
    },
    /// The nogood of this number is used no more.
    Delete {
        id: u64,
    },
    /// The conclusion.
    Conclude(Claim),
}
