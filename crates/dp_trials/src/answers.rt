// Whether a rule answers as it should, where a state is cut by some atoms.

use crate::{cut_by, explanation_at, turn_at};
use dp_domain::{Atom, Found, Memory, Rule, State};

/// Whether the rule has this turn where the state is cut by these atoms, and this explanation of the target.
pub fn gives<R: Rule>(
    rule: &R,
    initial: &State,
    cuts: &[Atom],
    wanted: Option<Found>,
    target: Option<Atom>,
    why: &[Atom],
) -> Result<bool, Memory> {
    let now = cut_by(initial, cuts)?;
    if turn_at(rule, &now)? != wanted {
        return Ok(false);
    }
    match explanation_at(rule, initial, &now, target)? {
        Some(atoms) => Ok(atoms.as_slice() == why),
        None => Ok(wanted.is_none()),
    }
}

/// Whether the rule gives the atom, because of these.
pub fn leads<R: Rule>(
    rule: &R,
    initial: &State,
    cuts: &[Atom],
    atom: Atom,
    why: &[Atom],
) -> Result<bool, Memory> {
    let wanted = Some(Found::Atom(atom));
    gives(rule, initial, cuts, wanted, Some(atom), why)
}

/// Whether the rule clashes, because of these.
pub fn clashes<R: Rule>(
    rule: &R,
    initial: &State,
    cuts: &[Atom],
    why: &[Atom],
) -> Result<bool, Memory> {
    gives(rule, initial, cuts, Some(Found::Clash), None, why)
}
