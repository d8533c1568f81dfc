// The turns of nogoods and restrictions: where only one variable has values by which the part is met, it is to have one of these.

ghost use Rattle.std.specs.Prelude.{◌≡◌, ◌<◌, ◌≤◌, ◌||◌, ◌==◌, [], ◌∷◌, IfOk, drop, false, filter, length};
ghost use Rattle.dp_base.specs.Lists.{Each};
ghost use Rattle.dp_domain.specs.Conditions.{IsApart, with_condition};
ghost use Rattle.dp_domain.specs.Faces.{Covers};
ghost use Rattle.dp_domain.specs.Sets.{IsDomain, is_among};
ghost use Rattle.dp_domain.specs.States.{entails, fails_one, is_dead, values};
ghost use Rattle.dp_domain.specs.Turns.{turn_of};
ghost use Rattle.dp_rule_clause.specs.Clauses.{as_turn, given_by, open_of, open_on, taken, takes};
ghost use Rattle.dp_rule_clause.specs.Nogoods.{face_nogood};
ghost use Rattle.dp_rule_clause.specs.Nogoods.{scope_of as nogood_scope};
ghost use Rattle.dp_rule_clause.specs.Restrictions.{face_within, open_condition, scope_of, turn_against, turn_within};

use crate::{Atom, Dom, Found, Memory, State, VarId};
use dp_domain::{Op, supported_bound};

/// Where the atoms stand that a state does not entail: nowhere, on one variable, or on several.
#[derive(Clone, Copy, Debug)]
pub enum Open {
    Nowhere,
    On(VarId),
    Apart,
}

/// The turn of the nogood of these atoms.
pub fn nogood_turn(atoms: &[Atom], state: &State) -> Result<Option<Found>, Memory>
    requires covers { Covers (nogood_scope atoms.now) state.now }
    requires alive { is_dead state.now ≡ false }
    ensures { IfOk result (λ turn. turn ≡ turn_of (face_nogood atoms.now) state.now) }
{
    match open_of(atoms, state) {
        Open::Nowhere => Ok(Some(Found::Clash)),
        Open::On(var) => Ok(found(given_on(atoms, state, var)?)),
        Open::Apart => Ok(None),
    }
}

/// The atom that is given, if any, as a turn.
fn found(given: Option<Atom>) -> Option<Found>
    ensures { result ≡ as_turn given }
{
    given.map(Found::Atom)
}

/// Where the atoms stand that the state does not entail.
fn open_of(atoms: &[Atom], state: &State) -> Open
    requires { Each (λ a. a.var < length state.now) atoms.now }
    ensures { result ≡ open_of state.now atoms.now }
{
    for place in 0..atoms.len() {
        let atom = atoms[place];
        if !state.entails(atom) {
            return open_on(rest_of(atoms, place + 1), state, atom.var());
        }
    }
    Open::Nowhere
}

/// The same of these atoms and one on the variable that is not entailed.
fn open_on(atoms: &[Atom], state: &State, var: VarId) -> Open
    requires { Each (λ a. a.var < length state.now) atoms.now }
    ensures { result ≡ open_on state.now var atoms.now }
{
    for atom in atoms {
        if !is_settled(*atom, state, var) {
            return Open::Apart;
        }
    }
    Open::On(var)
}

/// Whether the atom is on the variable, or entailed.
fn is_settled(atom: Atom, state: &State, var: VarId) -> bool
    requires { atom.var < length state.now }
    ensures { result ≡ ((atom.var == var) || entails state.now atom) }
{
    atom.var() == var || state.entails(atom)
}

/// The atoms from the place on.
fn rest_of(atoms: &[Atom], place: usize) -> &[Atom]
    requires { place ≤ length atoms.now }
    ensures { result.now ≡ drop place atoms.now }
{
    &atoms[place..]
}

/// What is given on the variable where each atom on another is entailed: the bound of the values that
/// fail an atom, else the value that meets all, where it may be taken out singly.
fn given_on(atoms: &[Atom], state: &State, var: VarId) -> Result<Option<Atom>, Memory>
    requires { var < length state.now }
    ensures given { IfOk result (λ given. given ≡ given_by var atoms.now (values state.now var) (filter (fails_one var atoms.now) (values state.now var))) }
    ensures domain { IfOk result (λ given. IsDomain (values state.now var)) }
{
    let set = state.set(var);
    let mut good = values_of(state, var)?;
    good.refute(var, atoms)?;
    let bound = supported_bound(var, set, &good);
    if bound.is_some() {
        Ok(bound)
    } else {
        Ok(taken(atoms, var, set, &good))
    }
}

/// The variable's values, as a set of their own.
pub fn values_of(state: &State, var: VarId) -> Result<Dom, Memory>
    requires { var < length state.now }
    ensures values { IfOk result (λ set. set ≡ values state.now var) }
    ensures domain { IfOk result (λ set. IsDomain (values state.now var)) }
{
    let _least = state.lower(var);
    state.set(var).copy()
}

/// The first `==` on the variable with a value that is not supported, negated.
fn taken(atoms: &[Atom], var: VarId, set: &Dom, good: &Dom) -> Option<Atom>
    ensures { result ≡ taken var set.now good.now atoms.now }
{
    for atom in atoms {
        if takes(*atom, var, set, good) {
            return Some(atom.negated());
        }
    }
    None
}

/// Whether the atom is `==` on the variable, with a value that is not supported.
fn takes(atom: Atom, var: VarId, set: &Dom, good: &Dom) -> bool
    ensures { result ≡ takes var set.now good.now atom }
{
    (atom.var() == var && atom.op() == Op::Eq)
        && (is_among(set, atom.value()) && !is_among(good, atom.value()))
}

/// Whether the number is in the set.
fn is_among(set: &Dom, number: i64) -> bool
    ensures { result ≡ is_among number set.now }
{
    set.has(number)
}

/// The turn of a restriction. Where the condition is absent or entailed the variable is to lie in the
/// set; where none of its values does, the condition is to fail.
pub fn restriction_turn(
    cond: &Option<Atom>,
    var: VarId,
    set: &Dom,
    state: &State,
) -> Result<Option<Found>, Memory>
    requires apart { IsApart cond.now (var ∷ []) }
    requires covers { Covers (scope_of (record { condition = cond.now; var = var; set = set.now })) state.now }
    requires alive { is_dead state.now ≡ false }
    ensures { IfOk result (λ turn. turn ≡ turn_of (face_within (record { condition = cond.now; var = var; set = set.now })) state.now) }
{
    match open_condition(cond, state) {
        None => turn_within(var, set, state),
        Some(atom) => {
            if state.set(var).shares(set) {
                Ok(None)
            } else {
                turn_against(atom, state)
            }
        }
    }
}

/// The condition, where it is there and not entailed.
fn open_condition(cond: &Option<Atom>, state: &State) -> Option<Atom>
    requires { Covers (with_condition cond.now []) state.now }
    ensures { result ≡ open_condition state.now cond.now }
{
    match cond {
        Some(atom) if !state.entails(*atom) => Some(*atom),
        _ => None,
    }
}

/// A clash where no value lies in the set, else the bound of those that do.
fn turn_within(var: VarId, set: &Dom, state: &State) -> Result<Option<Found>, Memory>
    requires { var < length state.now }
    ensures turn { IfOk result (λ turn. turn ≡ turn_within var set.now (values state.now var)) }
    ensures domain { IfOk result (λ turn. IsDomain (filter (λ v. is_among v set.now) (values state.now var))) }
{
    let good = state.set(var).common(set)?;
    if good.is_empty() {
        Ok(Some(Found::Clash))
    } else {
        Ok(found(supported_bound(var, state.set(var), &good)))
    }
}

/// The bound of the values that fail the condition.
fn turn_against(atom: Atom, state: &State) -> Result<Option<Found>, Memory>
    requires { atom.var < length state.now }
    ensures turn { IfOk result (λ turn. turn ≡ turn_against atom (values state.now atom.var)) }
    ensures domain { IfOk result (λ turn. IsDomain (values state.now atom.var)) }
{
    let var = atom.var();
    let mut good = values_of(state, var)?;
    good.exclude(atom.negated())?;
    Ok(found(supported_bound(var, state.set(var), &good)))
}
