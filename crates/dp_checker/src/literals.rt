// Literals: the atoms that they stand for.

ghost use Rattle.std.specs.Prelude.{◌≡◌, ◌++◌, [], IfOk, OnOk, option_copied};
ghost use Rattle.dp_checker.specs.Judged.{against, inference_denial, with_last};
ghost use Rattle.dp_checker.specs.Known.{cons_some, first_undefined, first_unknown, found, literal_atom, literal_atoms};

use crate::steps::Steps;
use dp_domain::{Atom, Memory};
use indexmap::IndexMap;
use smallvec::SmallVec;
use std::alloc::Global;

/// The atom of a literal.
pub fn literal_atom(atoms: &IndexMap<u64, Atom>, literal: i64) -> Option<Atom>
    ensures { result ≡ literal_atom atoms.now.entries literal }
{
    let atom = atom_of(atoms, literal.unsigned_abs())?;
    if literal < 0 {
        Some(atom.negated())
    } else {
        Some(atom)
    }
}

fn atom_of(atoms: &IndexMap<u64, Atom>, id: u64) -> Option<Atom>
    ensures { result ≡ found id atoms.now.entries }
{
    atoms.get(&id).copied()
}

/// The first literal whose atom is not defined.
pub fn first_undefined(atoms: &IndexMap<u64, Atom>, literals: &[i64]) -> Option<i64>
    ensures { result ≡ first_undefined atoms.now.entries literals.now }
{
    for literal in literals {
        if literal_atom(atoms, *literal).is_none() {
            return Some(*literal);
        }
    }
    None
}

/// The first literal of an inference whose atom is not defined: the consequent comes last.
pub fn first_undefined_of(
    atoms: &IndexMap<u64, Atom>,
    premises: &[i64],
    consequent: Option<i64>,
) -> Option<i64>
    ensures { result ≡ first_undefined atoms.now.entries (with_last premises.now consequent) }
{
    let first = first_undefined(atoms, premises);
    if first.is_some() {
        first
    } else {
        undefined_last(atoms, consequent)
    }
}

/// The consequent, if its atom is not defined.
fn undefined_last(atoms: &IndexMap<u64, Atom>, consequent: Option<i64>) -> Option<i64>
    ensures { result ≡ first_undefined atoms.now.entries (with_last [] consequent) }
{
    let literal = consequent?;
    if literal_atom(atoms, literal).is_some() {
        None
    } else {
        consequent
    }
}

/// The first hint that is no step so far.
pub fn first_unknown(steps: &Steps, hints: &[u64]) -> Option<u64>
    ensures { result ≡ first_unknown steps.now hints.now }
{
    for hint in hints {
        if !steps.contains_key(*hint) {
            return Some(*hint);
        }
    }
    None
}

fn push_some(denial: &mut SmallVec<Atom, 8>, atom: Option<Atom>) -> Result<(), Memory>
    ensures { OnOk result (denial.new.items ≡ denial.old.items ++ cons_some atom []) }
{
    if let Some(atom) = atom {
        denial.push(atom)?;
    }
    Ok(())
}

/// The atoms of literals, in their order. Up to eight take no memory.
pub fn literal_atoms(
    alloc: Global,
    atoms: &IndexMap<u64, Atom>,
    literals: &[i64],
) -> Result<SmallVec<Atom, 8>, Memory>
    ensures { IfOk result (λ denial. denial.items ≡ literal_atoms atoms.now.entries literals.now) }
{
    let mut denial = SmallVec::new(alloc);
    for literal in literals {
        push_some(&mut denial, literal_atom(atoms, *literal))?;
    }
    Ok(denial)
}

fn against(atoms: &IndexMap<u64, Atom>, consequent: Option<i64>) -> Option<Atom>
    ensures { cons_some result [] ≡ against atoms.now.entries consequent }
{
    let atom = literal_atom(atoms, consequent?)?;
    Some(atom.negated())
}

/// The atoms that an inference denies: its premises, and the negation of its consequent.
pub fn inference_denial(
    alloc: Global,
    atoms: &IndexMap<u64, Atom>,
    premises: &[i64],
    consequent: Option<i64>,
) -> Result<SmallVec<Atom, 8>, Memory>
    ensures { IfOk result (λ denial. denial.items ≡ inference_denial atoms.now.entries premises.now consequent) }
{
    let mut denial = literal_atoms(alloc, atoms, premises)?;
    push_some(&mut denial, against(atoms, consequent))?;
    Ok(denial)
}
