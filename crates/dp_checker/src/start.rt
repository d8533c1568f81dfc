// Where the judging of a line starts, and what a state entails.

ghost use Rattle.std.specs.Prelude.{◌≡◌, ◌<◌, length, OnOk};
ghost use Rattle.dp_domain.specs.Atoms.{negated};
ghost use Rattle.dp_domain.specs.States.{cut, cut_all, entails_all};
ghost use Rattle.dp_checker.specs.Kept.{AreBelow};

use dp_domain::{Atom, Memory, Scratch, State};

/// Goes back to the initial state, and from there to the one that is cut by the atoms.
pub fn start_with(scratch: &mut Scratch, atoms: &[Atom]) -> Result<(), Memory>
    requires { AreBelow (length scratch.old.base) atoms.now }
    ensures base { scratch.new.base ≡ scratch.old.base }
    ensures start { OnOk result (scratch.new.present ≡ cut_all scratch.old.base atoms.now) }
{
    scratch.reset();
    cut_by(scratch, atoms)
}

/// Goes back to the initial state, and from there to the one where the atom fails.
pub fn start_beyond(scratch: &mut Scratch, atom: &Atom) -> Result<(), Memory>
    requires { atom.now.var < length scratch.old.base }
    ensures base { scratch.new.base ≡ scratch.old.base }
    ensures start { OnOk result (scratch.new.present ≡ cut scratch.old.base (negated atom.now)) }
{
    scratch.reset();
    scratch.exclude(atom.negated())?;
    Ok(())
}

fn cut_by(scratch: &mut Scratch, atoms: &[Atom]) -> Result<(), Memory>
    requires { AreBelow (length scratch.old.present) atoms.now }
    ensures base { scratch.new.base ≡ scratch.old.base }
    ensures cut { OnOk result (scratch.new.present ≡ cut_all scratch.old.present atoms.now) }
{
    for atom in atoms {
        scratch.exclude(*atom)?;
    }
    Ok(())
}

/// Whether the state entails each of the atoms.
pub fn entails_all(state: &State, atoms: &[Atom]) -> bool
    requires { AreBelow (length state.now) atoms.now }
    ensures { result ≡ entails_all state.now atoms.now }
{
    for atom in atoms {
        if !state.entails(*atom) {
            return false;
        }
    }
    true
}
