// Calls of a rule, each made where its conditions hold.

ghost use Rattle.std.specs.Prelude.{◌≡◌, ◌+◌, ◌<◌, [], IsTrue, IfOk, IfSome, OnOk, false, length};
ghost use Rattle.dp_domain.specs.Explanations.{IsOpen, explanation, suffices};
ghost use Rattle.dp_domain.specs.Faces.{Covers};
ghost use Rattle.dp_domain.specs.States.{IsWithin, is_dead};
ghost use Rattle.dp_domain.specs.Turns.{turn_of};

use dp_domain::{Atom, Found, Memory, Rule, Scratch, State, Steps, Test, VarId};
use std::marker::Brand;
use std::sync::ledger::{Blank, Ledger};

/// Whether the state has a set for each variable of the rule.
pub fn covers_scope<R: Test>(rule: &R, state: &State) -> bool
    ensures { IsTrue result → Covers (R.face rule.now).scope state.now }
{
    for place in 0..rule.scope_len() {
        let VarId(var) = rule.scope_at(place);
        if var as usize >= state.len() {
            return false;
        }
    }
    true
}

/// Whether the variables of the rule are 0, 1, 2 and so on, as many as there are.
pub fn is_counted<R: Test>(rule: &R, count: usize) -> bool {
    for place in 0..rule.scope_len() {
        let VarId(var) = rule.scope_at(place);
        if var as usize != place {
            return false;
        }
    }
    rule.scope_len() == count
}

/// Whether the rule clashes; None where the state lacks one of its variables.
pub fn clash_at<R: Test>(rule: &R, state: &State) -> Result<Option<bool>, Memory>
    ensures { IfOk result (λ answer. IfSome answer (λ clashes. clashes ≡ (R.face rule.now).test state.now)) }
{
    if covers_scope(rule, state) {
        Ok(Some(rule.clash(state)?))
    } else {
        Ok(None)
    }
}

/// The rule's turn; Clash also where the state is empty or lacks one of its variables.
pub fn turn_at<R: Rule>(rule: &R, state: &State) -> Result<Option<Found>, Memory> {
    if !covers_scope(rule, state) || state.dead() {
        return Ok(Some(Found::Clash));
    }
    counted::<R, Brand>(rule, state, Blank::new(1))
}

// The turn, by a counter of its own.
fn counted<R: Rule, L: Ledger>(
    rule: &R,
    state: &State,
    blank: Blank,
) -> Result<Option<Found>, Memory>
    requires covers { Covers (R.face rule.now).scope state.now }
    requires alive { is_dead state.now ≡ false }
    requires name { blank.name ≡ L.name }
    requires parts { blank.parts ≡ L.parts }
    requires some { 0 < blank.parts }
    ensures { IfOk result (λ found. found ≡ turn_of (R.face rule.now) state.now) }
{
    let mut steps = Steps::<L>::new(blank);
    rule.next(state, &mut steps)
}

/// Two turns are two ticks, for every rule.
pub fn ticks_once<R: Rule, L: Ledger>(
    rule: &R,
    state: &State,
    steps: &mut Steps<L>,
) -> Result<(), Memory>
    requires covers { Covers (R.face rule.now).scope state.now }
    requires alive { is_dead state.now ≡ false }
    ensures { OnOk result (steps.new ≡ steps.old + 2) }
{
    let _first = rule.next(state, steps)?;
    let _second = rule.next(state, steps)?;
    Ok(())
}

/// The rule's explanation of a clash or of the target; None where its conditions do not hold.
pub fn explanation_at<R: Rule>(
    rule: &R,
    initial: &State,
    now: &State,
    target: Option<Atom>,
) -> Result<Option<Vec<Atom>>, Memory>
    requires { IsWithin now.now initial.now }
    ensures { IfOk result (λ answer. IfSome answer (λ atoms. atoms.items ≡ explanation (R.face rule.now) initial.now now.now target)) }
{
    if !covers_scope(rule, now) || now.dead() || !is_open(now, &target) {
        return Ok(None);
    }
    if !follows(rule, now, &target)? {
        return Ok(None);
    }
    let mut work = Scratch::new(initial.copy()?);
    Ok(Some(rule.explain(initial, &mut work, now, target)?))
}

// Whether the state does not entail the target.
fn is_open(now: &State, target: &Option<Atom>) -> bool
    ensures { IsTrue result → IsOpen now.now target.now }
{
    match target {
        Some(atom) => {
            let VarId(var) = atom.var();
            (var as usize) < now.len() && !now.entails(*atom)
        }
        None => true,
    }
}

// Whether the rule clashes at the state where the target fails.
fn follows<R: Rule>(rule: &R, now: &State, target: &Option<Atom>) -> Result<bool, Memory>
    requires covers { Covers (R.face rule.now).scope now.now }
    requires open { IsOpen now.now target.now }
    ensures { IfOk result (λ answer. answer ≡ suffices (R.face rule.now) now.now target.now []) }
{
    match target {
        Some(atom) => {
            let mut state = now.copy()?;
            state.exclude(atom.negated())?;
            rule.clash(&state)
        }
        None => rule.clash(now),
    }
}
