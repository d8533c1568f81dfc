// Lists that stand in a justification, which contracts see as those lists.

ghost use Rattle.std.specs.Prelude.{◌≡◌};

use crate::Kept;
use dp_domain::Atom;
use std::marker::Model;

/// Atoms in order.
#[derive(Debug, Drop)]
pub struct Atoms {
    items: Vec<Atom>,
}

impl Model for Atoms {
    ghost use Rattle.std.specs.Prelude.{List};
    ghost use Rattle.dp_domain.specs.Atoms.{Atomic};

    ghost Value = { List Atomic };

    ghost view = { λ atoms. atoms.items.items };
}

impl Atoms {
    /// The list of these atoms.
    pub fn new(items: Vec<Atom>) -> Atoms
        ensures { result ≡ items.items }
    {
        Atoms { items }
    }

    /// The atoms.
    pub fn as_slice(&self) -> &[Atom]
        ensures { result.now ≡ self.now }
    {
        self.items.as_slice()
    }
}

/// Kept turns in order.
#[derive(Debug, Drop)]
pub struct KeptTurns {
    items: Vec<Kept>,
}

impl Model for KeptTurns {
    ghost use Rattle.std.specs.Prelude.{List};
    ghost use Rattle.dp_justify.specs.declared.kept.Kept.{Kept};

    ghost Value = { List Kept };

    ghost view = { λ turns. turns.items.items };
}

impl KeptTurns {
    /// The list of these turns.
    pub fn new(items: Vec<Kept>) -> KeptTurns
        ensures { result ≡ items.items }
    {
        KeptTurns { items }
    }

    /// The turns.
    pub fn as_slice(&self) -> &[Kept]
        ensures { result.now ≡ self.now }
    {
        self.items.as_slice()
    }
}

/// Places of nogoods in order.
#[derive(Debug, Drop)]
pub struct Places {
    items: Vec<u32>,
}

impl Model for Places {
    ghost use Rattle.std.specs.Prelude.{List, ℕ};

    ghost Value = { List ℕ };

    ghost view = { λ places. places.items.items };
}

impl Places {
    /// The list of these places.
    pub fn new(items: Vec<u32>) -> Places
        ensures { result ≡ items.items }
    {
        Places { items }
    }

    /// The places.
    pub fn as_slice(&self) -> &[u32]
        ensures { result.now ≡ self.now }
    {
        self.items.as_slice()
    }
}
