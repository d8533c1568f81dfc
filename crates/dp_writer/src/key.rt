// Atoms as keys of a table.

ghost use Rattle.std.specs.Prelude.{◌≡◌, ◌++◌};
ghost use Rattle.std.proofs.Common.{rules};
ghost use Rattle.std.specs.Cmp.{partial_equiv_from_equiv};
ghost use Rattle.std.specs.Cmp.Rules.{hashing};
ghost use Rattle.std.specs.Hash as fed;
ghost use Rattle.dp_writer.specs.Atoms.{same};
ghost use Rattle.dp_writer.specs.AtomLaws.{same_equiv};

use dp_domain::Atom;
use std::hash::{Hash, Hasher};
use std::marker::Model;

/// An atom that has a number of its own.
#[derive(Drop)]
pub struct Key {
    atom: Atom,
}

impl Model for Key {
    ghost use Rattle.dp_domain.specs.Atoms.{Atomic};

    ghost Value = { Atomic };

    ghost view = { λ k. k.atom };
}

impl Key {
    /// The key of an atom.
    pub fn new(atom: Atom) -> Key
        ensures { result ≡ atom }
    {
        Key { atom }
    }

    /// The atom.
    pub fn atom(&self) -> Atom
        ensures { result ≡ self.now }
    {
        self.atom
    }
}

impl PartialEq for Key {
    ghost eq = { same };

    ghost laws = { partial_equiv_from_equiv same_equiv };

    fn eq(&self, other: &Key) -> bool {
        self.atom == other.atom
    }
}

impl Eq for Key {
    ghost laws = { same_equiv };
}

impl Hash for Key {
    ghost hash_input = { λ a. fed.u32 a.var ++ fed.i64 a.value };

    ghost respects_eq = { Prim.search (hashing, rules) };

    fn hash<H: Hasher>(&self, state: &mut H) {
        self.atom.var().0.hash(state);
        self.atom.value().hash(state);
    }
}
