// The atoms that lines define, by their names.

ghost use Rattle.std.specs.Prelude.{◌≡◌, ◌++◌, ◌∷◌, [], None, OnOk, is_some};
ghost use Rattle.dp_checker.specs.Judged.{with_last};
ghost use Rattle.dp_domain.specs.Atoms.{IsNameable, beyond, opposite};
ghost use Rattle.dp_show.specs.Named as spec;

use dp_domain::{Memory, Name, Op};
use indexmap::IndexMap;
use std::marker::Model;

/// An atomic constraint on the variable of a name.
#[derive(Drop)]
pub struct NamedAtom {
    name: Name,
    op: Op,
    value: i64,
}

impl Model for NamedAtom {
    ghost use Rattle.dp_domain.specs.Atoms.{IsNameable};
    ghost use Rattle.dp_show.specs.Named.{Named};

    ghost Value = { Named };

    ghost view = { λ a. record { name = a.name; op = a.op; value = a.value } };

    ghost invariant = { λ a. IsNameable a.op a.value };
}

impl NamedAtom {
    /// The atom of this name, comparison and number.
    pub fn new(name: Name, op: Op, value: i64) -> NamedAtom
        requires { IsNameable op value }
        ensures { result ≡ record { name = name; op = op; value = value } }
    {
        NamedAtom { name, op, value }
    }

    /// The name of its variable.
    pub fn name(&self) -> &[u8]
        ensures { result.now ≡ self.now.name }
    {
        self.name.bytes()
    }

    /// Its comparison.
    pub fn op(&self) -> Op
        ensures { result ≡ self.now.op }
    {
        self.op
    }

    /// Its number.
    pub fn value(&self) -> i64
        ensures { result ≡ self.now.value }
    {
        self.value
    }

    /// The comparison of the atom that holds exactly where this one fails.
    pub fn opposite_op(&self) -> Op
        ensures { result ≡ opposite self.now.op }
    {
        match self.op {
            Op::Ge => Op::Le,
            Op::Le => Op::Ge,
            Op::Eq => Op::Ne,
            Op::Ne => Op::Eq,
        }
    }

    /// The number of the atom that holds exactly where this one fails.
    pub fn beyond(&self) -> i64
        ensures { result ≡ beyond self.now.op self.now.value }
    {
        match self.op {
            Op::Ge => self.value - 1,
            Op::Le => self.value + 1,
            Op::Eq | Op::Ne => self.value,
        }
    }
}

/// Adds an atom under a new number.
pub fn add_atom(
    atoms: &mut IndexMap<u64, NamedAtom>,
    id: u64,
    atom: NamedAtom,
) -> Result<(), Memory>
    requires { spec.found id atoms.old.entries ≡ None }
    ensures { OnOk result (atoms.new.entries ≡ atoms.old.entries ++ (id, atom) ∷ []) }
{
    atoms.insert(id, atom)?;
    Ok(())
}

/// Whether the atom of a literal is defined.
fn is_defined(atoms: &IndexMap<u64, NamedAtom>, literal: i64) -> bool
    ensures { result ≡ is_some (spec.literal_atom atoms.now.entries literal) }
{
    atoms.contains_key(&literal.unsigned_abs())
}

/// The first literal whose atom is not defined.
pub fn first_undefined(atoms: &IndexMap<u64, NamedAtom>, literals: &[i64]) -> Option<i64>
    ensures { result ≡ spec.first_undefined atoms.now.entries literals.now }
{
    for literal in literals {
        if !is_defined(atoms, *literal) {
            return Some(*literal);
        }
    }
    None
}

/// The first literal of an inference whose atom is not defined: the consequent comes last.
pub fn first_undefined_of(
    atoms: &IndexMap<u64, NamedAtom>,
    premises: &[i64],
    consequent: Option<i64>,
) -> Option<i64>
    ensures { result ≡ spec.first_undefined atoms.now.entries (with_last premises.now consequent) }
{
    let first = first_undefined(atoms, premises);
    if first.is_some() {
        first
    } else {
        undefined_last(atoms, consequent)
    }
}

/// The consequent, if its atom is not defined.
fn undefined_last(atoms: &IndexMap<u64, NamedAtom>, consequent: Option<i64>) -> Option<i64>
    ensures { result ≡ spec.first_undefined atoms.now.entries (with_last [] consequent) }
{
    let literal = consequent?;
    if is_defined(atoms, literal) {
        None
    } else {
        consequent
    }
}
