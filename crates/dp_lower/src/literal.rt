//! Literals of Booleans, and nogoods of them.

ghost use Rattle.std.specs.Prelude.{◌≡◌, ◌++◌, IfOk, OnOk};
ghost use Rattle.std.specs.List.{filter_map, list_any};
ghost use Rattle.dp_rule_clause.specs.Nogoods.{each_once};
ghost use Rattle.dp_lower.specs.Sides as spec;

use dp_domain::{Atom, Memory, Op, Term, VarId};
use dp_parts::Part;
use dp_rule_clause::Nogood;
use std::alloc::Global;

/// A Boolean term that holds, or one that fails.
#[derive(Clone, Copy, Debug, PartialEq, Eq)]
pub enum Literal {
    Holds(Term),
    Fails(Term),
}

impl Literal {
    /// Whether it is a constant's and fails.
    fn is_refuted(self) -> bool
        ensures { result ≡ spec.is_refuted self }
    {
        match self {
            Literal::Holds(term) => match term {
                Term::Const(value) => value < 1,
                Term::Var(_) => false,
            },
            Literal::Fails(term) => match term {
                Term::Const(value) => value >= 1,
                Term::Var(_) => false,
            },
        }
    }

    /// Its atom, if it is a variable's.
    fn atom(self) -> Option<Atom>
        ensures { result ≡ spec.atom_of self }
    {
        match self {
            Literal::Holds(term) => match term {
                Term::Var(var) => Some(on(var)),
                Term::Const(_) => None,
            },
            Literal::Fails(term) => match term {
                Term::Var(var) => Some(off(var)),
                Term::Const(_) => None,
            },
        }
    }
}

/// The Boolean variable holds.
pub fn on(var: VarId) -> Atom
    ensures { result ≡ spec.on var }
{
    Atom::new(var, Op::Ge, 1).unwrap()
}

/// The Boolean variable fails.
pub fn off(var: VarId) -> Atom
    ensures { result ≡ spec.off var }
{
    Atom::new(var, Op::Le, 0).unwrap()
}

/// Adds the nogood of the literals to the parts: the atoms of variables, each once; nothing where a
/// constant's literal fails.
pub fn push_nogood(parts: &mut Vec<Part>, literals: &[Literal]) -> Result<(), Memory>
    ensures { OnOk result (parts.new.items ≡ parts.old.items ++ spec.nogood literals.now) }
{
    if any_refuted(literals) {
        return Ok(());
    }
    let part = nogood_of(*parts.allocator(), literals)?;
    parts.push(Part::Nogood(part))?;
    Ok(())
}

/// Whether a constant's literal fails.
fn any_refuted(literals: &[Literal]) -> bool
    ensures { result ≡ list_any spec.is_refuted literals.now }
{
    literals.iter().any(|literal| literal.is_refuted())
}

/// The nogood of the atoms of variables among the literals, each once.
fn nogood_of(alloc: Global, literals: &[Literal]) -> Result<Nogood, Memory>
    ensures { IfOk result (λ nogood. nogood ≡ each_once (filter_map spec.atom_of literals.now)) }
{
    let atoms = atoms_of(alloc, literals)?;
    Nogood::new(alloc, &atoms)
}

/// The atoms of variables among the literals.
fn atoms_of(alloc: Global, literals: &[Literal]) -> Result<Vec<Atom>, Memory>
    ensures { IfOk result (λ atoms. atoms.items ≡ filter_map spec.atom_of literals.now) }
{
    Ok(
        literals
            .iter()
            .filter_map(|literal| literal.atom())
            .collect(alloc)?,
    )
}
