// Lists of atoms: each once, their variables, and whether a state entails them.

ghost use Rattle.std.specs.Prelude.{◌≡◌, ◌<◌, ◌≤◌, IfOk, IsOk, length};
ghost use Rattle.dp_base.specs.Lists.{Each};
ghost use Rattle.dp_domain.specs.declared.atom.Op.TheVariants.{Eq};
ghost use Rattle.dp_domain.specs.States.{entails_all};
ghost use Rattle.dp_rule_clause.specs.Nogoods.{each_once, has_atom, point_nogood, same_atom, scope_of, variables};

use crate::{Atom, Memory, State, VarId};
use dp_domain::Op;
use smallvec::SmallVec;
use std::alloc::Global;
use std::collections::BTreeSet;

/// The most atoms that are kept without an allocation.
const FEW: usize = 4;

/// The atoms in order, each once. It takes no memory for at most four.
pub fn each_once(alloc: Global, atoms: &[Atom]) -> Result<SmallVec<Atom, 4>, Memory>
    ensures atoms { IfOk result (λ kept. kept.items ≡ each_once atoms.now) }
    ensures few { length atoms.now ≤ 4 → IsOk result }
{
    if atoms.len() <= FEW {
        Ok(each_once_of_few(alloc, atoms))
    } else {
        each_once_of_many(alloc, atoms)
    }
}

fn each_once_of_few(alloc: Global, atoms: &[Atom]) -> SmallVec<Atom, 4>
    requires { length atoms.now ≤ 4 }
    ensures { result.items ≡ each_once atoms.now }
{
    let mut kept = SmallVec::new(alloc);
    for atom in atoms {
        if !has_atom(kept.as_slice(), *atom) {
            kept.push_reserved(*atom);
        }
    }
    kept
}

fn each_once_of_many(alloc: Global, atoms: &[Atom]) -> Result<SmallVec<Atom, 4>, Memory>
    ensures { IfOk result (λ kept. kept.items ≡ each_once atoms.now) }
{
    let mut seen = BTreeSet::new(alloc);
    let mut kept = SmallVec::new(alloc);
    for atom in atoms {
        if seen.insert(*atom)? {
            kept.push(*atom)?;
        }
    }
    Ok(kept)
}

/// Whether the atom is one of these.
fn has_atom(atoms: &[Atom], atom: Atom) -> bool
    ensures { result ≡ has_atom atoms.now atom }
{
    atoms.iter().any(|other| is_same(*other, atom))
}

/// Whether `[var == value]` is one of the atoms.
pub fn has_equation(atoms: &[Atom], var: VarId, value: i64) -> bool
    ensures { result ≡ point_nogood atoms.now var value }
{
    atoms.iter().any(|atom| is_equation(*atom, var, value))
}

/// Whether the atom is `[var == value]`.
fn is_equation(atom: Atom, var: VarId, value: i64) -> bool
    ensures { result ≡ same_atom atom (record { var = var; op = Eq; value = value }) }
{
    atom.var() == var && atom.op() == Op::Eq && atom.value() == value
}

/// Whether the atoms are one.
fn is_same(atom: Atom, other: Atom) -> bool
    ensures { result ≡ same_atom atom other }
{
    atom == other
}

/// The variables of the atoms, each once, in order of declaration. It takes no memory for at most
/// four atoms.
pub fn scope(alloc: Global, atoms: &[Atom]) -> Result<SmallVec<VarId, 4>, Memory>
    ensures scope { IfOk result (λ scope. scope.items ≡ scope_of atoms.now) }
    ensures few { length atoms.now ≤ 4 → IsOk result }
{
    let mut scope = variables(alloc, atoms)?;
    scope.sort_unstable();
    scope.dedup();
    Ok(scope)
}

/// The variable of each atom.
fn variables(alloc: Global, atoms: &[Atom]) -> Result<SmallVec<VarId, 4>, Memory>
    ensures variables { IfOk result (λ list. list.items ≡ variables atoms.now) }
    ensures few { length atoms.now ≤ 4 → IsOk result }
{
    let mut variables = SmallVec::with_capacity(alloc, atoms.len())?;
    for atom in atoms {
        variables.push_reserved(atom.var());
    }
    Ok(variables)
}

/// Whether the state entails each of the atoms.
pub fn are_entailed(atoms: &[Atom], state: &State) -> bool
    requires { Each (λ a. a.var < length state.now) atoms.now }
    ensures { result ≡ entails_all state.now atoms.now }
{
    for atom in atoms {
        if !state.entails(*atom) {
            return false;
        }
    }
    true
}
