// What the lines so far have made known.

ghost use Rattle.std.specs.Prelude.{◌≡◌, ◌++◌, ◌∷◌, [], None, OnOk, OnErr};
ghost use Rattle.dp_checker.specs.Known.{found};

use crate::steps::Steps;
use dp_domain::{Atom, Memory, Verdict};
use indexmap::IndexMap;

/// The atoms by their numbers and the denials by those of their steps, both in the order of the
/// lines, and the conclusion.
#[derive(Drop)]
pub struct Facts {
    pub atoms: IndexMap<u64, Atom>,
    pub steps: Steps,
    pub conclusion: Option<Verdict>,
}

/// Adds an atom under a new number.
pub fn add_atom(atoms: &mut IndexMap<u64, Atom>, id: u64, atom: Atom) -> Result<(), Memory>
    requires { found id atoms.old.entries ≡ None }
    ensures added { OnOk result (atoms.new.entries ≡ atoms.old.entries ++ (id, atom) ∷ []) }
    ensures err { OnErr result (atoms.new.entries ≡ atoms.old.entries) }
{
    atoms.insert(id, atom)?;
    Ok(())
}
