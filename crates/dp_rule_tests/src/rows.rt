// Rows of what rules answer: what the tests of every kind share.

ghost use Rattle.dp_domain.specs.Sets.{IsSmall};

use dp_domain::{Atom, Dom, Found, Memory, Op, Rule, Term, VarId};
use dp_trials::{LARGEST, clash_at, clashes, cut_by, gives, leads, state_of, turn_at};
use std::alloc::Global;

/// An atom as it is written in a table: the place of its variable, a comparison and a number.
pub type Used = (u32, Op, i64);

/// A term as it is written in a table: the variable at a place, or a number.
#[derive(Clone, Copy, Debug)]
pub enum Position {
    Var(u32),
    Number(i64),
}

use Position::{Number, Var};

/// The term of a table.
pub fn term_of(position: Position) -> Term {
    match position {
        Var(place) => Term::Var(VarId(place)),
        Number(number) => Term::Const(number),
    }
}

/// The terms of a table.
pub fn terms_of(alloc: Global, positions: &[Position]) -> Result<Vec<Term>, Memory> {
    let mut terms = Vec::new(alloc);
    for position in positions {
        terms.push(term_of(*position))?;
    }
    Ok(terms)
}

/// Where a rule is asked: the ends of each variable's numbers, what cuts these at first, and what cuts them now.
pub type Place = (&'static [(i64, i64)], &'static [Used], &'static [Used]);

/// What a rule answers there.
#[derive(Clone, Copy, Debug)]
pub enum Answer {
    /// Whether it clashes.
    Test(bool),
    /// It has no turn.
    Quiet,
    /// Its turn is a clash.
    Clash,
    /// Its turn is this atom.
    Turn(Used),
    /// Its turn is this atom, because of these.
    Gives(Used, &'static [Used]),
    /// Its turn is a clash, because of these.
    Clashes(&'static [Used]),
}

use Answer::{Clash, Clashes, Gives, Quiet, Test, Turn};

/// The atom of a table.
pub fn atom_of(used: Used) -> Result<Atom, Memory> {
    let (var, op, value) = used;
    Atom::new(VarId(var), op, value).ok_or(Memory)
}

/// The atoms of a table.
pub fn atoms_of(alloc: Global, rows: &[Used]) -> Result<Vec<Atom>, Memory> {
    let mut atoms = Vec::new(alloc);
    for used in rows {
        atoms.push(atom_of(*used)?)?;
    }
    Ok(atoms)
}

/// The atom of a table, if there is one.
pub fn condition_of(used: Option<Used>) -> Result<Option<Atom>, Memory> {
    match used {
        Some(used) => Ok(Some(atom_of(used)?)),
        None => Ok(None),
    }
}

fn small(number: i64) -> i64
    ensures { IsSmall result }
{
    number.clamp(-LARGEST, LARGEST)
}

/// An interval with no number.
pub const NONE: (i64, i64) = (1, 0);

/// The numbers of three intervals, each end moved to ±10^9 where it lies beyond.
pub fn set_of(alloc: Global, intervals: [(i64, i64); 3]) -> Result<Dom, Memory> {
    let [(a, b), (c, d), (e, f)] = intervals;
    let ends = [
        (small(a), small(b)),
        (small(c), small(d)),
        (small(e), small(f)),
    ];
    Dom::of(alloc, &ends)
}

/// Whether the rule answers so at the place.
pub fn answers<R: Rule>(
    alloc: Global,
    rule: &R,
    place: &Place,
    answer: Answer,
) -> Result<bool, Memory> {
    let (ends, holes, cuts) = *place;
    if ends.len() > 100 {
        return Err(Memory);
    }
    let holes = atoms_of(alloc, holes)?;
    let cuts = atoms_of(alloc, cuts)?;
    let initial = cut_by(&state_of(alloc, ends)?, holes.as_slice())?;
    match answer {
        Test(wanted) => {
            let now = cut_by(&initial, cuts.as_slice())?;
            Ok(clash_at(rule, &now)? == Some(wanted))
        }
        Quiet => gives(rule, &initial, cuts.as_slice(), None, None, &[]),
        Clash => {
            let now = cut_by(&initial, cuts.as_slice())?;
            Ok(turn_at(rule, &now)? == Some(Found::Clash))
        }
        Turn(atom) => {
            let now = cut_by(&initial, cuts.as_slice())?;
            Ok(turn_at(rule, &now)? == Some(Found::Atom(atom_of(atom)?)))
        }
        Gives(atom, why) => {
            let why = atoms_of(alloc, why)?;
            leads(
                rule,
                &initial,
                cuts.as_slice(),
                atom_of(atom)?,
                why.as_slice(),
            )
        }
        Clashes(why) => {
            let why = atoms_of(alloc, why)?;
            clashes(rule, &initial, cuts.as_slice(), why.as_slice())
        }
    }
}
