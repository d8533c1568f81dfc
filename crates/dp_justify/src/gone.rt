// The pairs of a variable and a value that have to be gone, as a set of values for each variable.

ghost use Rattle.std.specs.Prelude.{◌≡◌, ℕ, ◌<◌, ◌&&◌, ◌||◌, false, not, length, ℤ, IfOk, OnOk};
ghost use Rattle.dp_domain.specs.Explanations.{has};
ghost use Rattle.dp_domain.specs.States.{AreOf};
ghost use Rattle.dp_justify.specs.Keeping.{takes_one};
ghost use Rattle.dp_justify.specs.Pairs.{excluded, excludes, pairs_of};

use dp_domain::{Atom, Dom, Memory, State, VarId};
use std::alloc::Global;

/// No pair of this many variables.
pub(crate) fn nothing(alloc: Global, variables: usize) -> Result<Vec<Dom>, Memory>
    ensures count { IfOk result (λ gone. length gone.items ≡ variables) }
    ensures pairs { IfOk result (λ gone. (x : ℕ) → (v : ℤ) → pairs_of gone.items x v ≡ false) }
{
    let mut gone = Vec::new(alloc);
    for _ in 0..variables {
        gone.push(Dom::of(alloc, &[])?)?;
    }
    Ok(gone)
}

/// Whether the atom excludes one of the pairs that is still in the state.
pub(crate) fn takes_one(gone: &[Dom], before: &State, atom: Atom) -> Result<bool, Memory>
    requires gone { atom.var < length gone.now }
    requires state { atom.var < length before.now }
    ensures { IfOk result (λ takes. takes ≡ takes_one (pairs_of gone.now) before.now atom) }
{
    let var = atom.var();
    let mut excluded = gone[var.0 as usize].copy()?;
    excluded.exclude(atom.negated())?;
    Ok(excluded.shares(before.set(var)))
}

/// Takes out the pairs that the atom excludes.
pub(crate) fn leave(gone: &mut Vec<Dom>, atom: Atom) -> Result<(), Memory>
    requires { atom.var < length gone.old.items }
    ensures count { length gone.new.items ≡ length gone.old.items }
    ensures pairs { OnOk result ((x : ℕ) → (v : ℤ) → pairs_of gone.new.items x v ≡ (pairs_of gone.old.items x v && not (excludes atom x v))) }
{
    let set = &mut gone[atom.var().0 as usize];
    set.exclude(atom)?;
    Ok(())
}

/// Adds the pairs of the state that one of the atoms excludes.
pub(crate) fn enter(gone: &mut Vec<Dom>, initial: &State, premises: &[Atom]) -> Result<(), Memory>
    requires count { length gone.old.items ≡ length initial.now }
    requires premises { AreOf initial.now premises.now }
    ensures count { length gone.new.items ≡ length gone.old.items }
    ensures pairs { OnOk result ((x : ℕ) → (v : ℤ) → pairs_of gone.new.items x v ≡ (pairs_of gone.old.items x v || excluded initial.now premises.now x v)) }
{
    for atom in premises {
        enter_one(gone, initial, *atom)?;
    }
    Ok(())
}

/// Adds the pairs of the state that the atom excludes.
fn enter_one(gone: &mut Vec<Dom>, initial: &State, atom: Atom) -> Result<(), Memory>
    requires gone { atom.var < length gone.old.items }
    requires state { atom.var < length initial.now }
    ensures count { length gone.new.items ≡ length gone.old.items }
    ensures pairs { OnOk result ((x : ℕ) → (v : ℤ) → pairs_of gone.new.items x v ≡ (pairs_of gone.old.items x v || (pairs_of initial.now x v && excludes atom x v))) }
{
    let place = atom.var().0 as usize;
    let mut excluded = initial.set(atom.var()).copy()?;
    excluded.exclude(atom.negated())?;
    let joined = union(initial.allocator(), &gone[place], &excluded)?;
    gone[place] = joined;
    Ok(())
}

/// The numbers of both sets together.
fn union(alloc: Global, first: &Dom, second: &Dom) -> Result<Dom, Memory>
    ensures { IfOk result (λ both. (v : ℤ) → has both v ≡ (has first.now v || has second.now v)) }
{
    if first.lower().is_none() {
        return second.copy();
    }
    if second.lower().is_none() {
        return first.copy();
    }
    let mut intervals = first.intervals(alloc)?;
    let others = second.intervals(alloc)?;
    intervals.extend_from_slice(others.as_slice())?;
    Dom::of(alloc, intervals.as_slice())
}
