// The turn of one part, by its test.

ghost use Rattle.std.specs.Prelude.{◌≡◌, ◌+◌, ◌*◌, ◌^◌, ◌<◌, ◌≤◌, ◌&&◌, ◌+ℤ◌, ◌-ℤ◌, ◌≤ℤ◌, pos, false, length, IfOk, OnOk};
ghost use Rattle.dp_domain.specs.Faces.{Covers};
ghost use Rattle.dp_domain.specs.Sets.{AreBounds, IsSmall};
ghost use Rattle.dp_domain.specs.States.{is_dead, values};
ghost use Rattle.dp_domain.specs.Turns.{IsTurn, given, given_on, gives, new_hole, new_lower, new_upper, other_than, turn_of};

use crate::{Atom, Found, Memory, Op, State, Steps, Test, VarId};
use std::sync::ledger::Ledger;

/// The turn of any part at a nonempty state, found by its test. It ticks once, also where it answers
/// `Memory`. It copies the state once; for each test it makes the set of one variable anew. It finds
/// bounds by bisection between the least value and the greatest, and tries the part's candidates for holes.
pub fn search_turn<R: Test, L: Ledger>(
    rule: &R,
    state: &State,
    steps: &mut Steps<L>,
) -> Result<Option<Found>, Memory>
    requires covers { Covers (R.face rule.now).scope state.now }
    requires alive { is_dead state.now ≡ false }
    ensures turn { IfOk result (λ turn. turn ≡ turn_of (R.face rule.now) state.now) }
    ensures meaning { IfOk result (IsTurn (R.face rule.now) state.now) }
    ensures ticked { steps.new ≡ steps.old + 1 }
{
    steps.tick();
    found(rule, state)
}

fn found<R: Test>(rule: &R, state: &State) -> Result<Option<Found>, Memory>
    requires { Covers (R.face rule.now).scope state.now }
    ensures { IfOk result (λ turn. turn ≡ turn_of (R.face rule.now) state.now) }
{
    let clash = rule.clash(state)?;
    if clash {
        return Ok(Some(Found::Clash));
    }
    let mut work = state.copy()?;
    match given(rule, state, &mut work)? {
        Some(atom) => Ok(Some(Found::Atom(atom))),
        None => Ok(None),
    }
}

/// What the part gives on the first variable that it gives something on.
fn given<R: Test>(rule: &R, state: &State, work: &mut State) -> Result<Option<Atom>, Memory>
    requires covers { Covers (R.face rule.now).scope state.now }
    requires quiet { (R.face rule.now).test state.now ≡ false }
    requires same { work.old ≡ state.now }
    ensures { IfOk result (λ atom. atom ≡ given (R.face rule.now) state.now (R.face rule.now).scope) }
{
    for place in 0..rule.scope_len() {
        let atom = given_on(rule, state, work, rule.scope_at(place))?;
        if atom.is_some() {
            return Ok(atom);
        }
    }
    Ok(None)
}

/// A lower bound, else an upper bound, else a hole.
fn given_on<R: Test>(
    rule: &R,
    state: &State,
    work: &mut State,
    var: VarId,
) -> Result<Option<Atom>, Memory>
    requires covers { Covers (R.face rule.now).scope state.now }
    requires quiet { (R.face rule.now).test state.now ≡ false }
    requires var { var < length state.now }
    requires same { work.old ≡ state.now }
    ensures given { IfOk result (λ atom. atom ≡ given_on (R.face rule.now) state.now var) }
    ensures same { OnOk result (work.new ≡ state.now) }
{
    let lower = new_lower(rule, state, work, var)?;
    if lower.is_some() {
        return Ok(lower);
    }
    let upper = new_upper(rule, state, work, var)?;
    if upper.is_some() {
        return Ok(upper);
    }
    new_hole(rule, state, work, var)
}

/// The greatest new lower bound that follows.
fn new_lower<R: Test>(
    rule: &R,
    state: &State,
    work: &mut State,
    var: VarId,
) -> Result<Option<Atom>, Memory>
    requires covers { Covers (R.face rule.now).scope state.now }
    requires quiet { (R.face rule.now).test state.now ≡ false }
    requires var { var < length state.now }
    requires same { work.old ≡ state.now }
    ensures lower { IfOk result (λ atom. atom ≡ new_lower (R.face rule.now) state.now var) }
    ensures same { OnOk result (work.new ≡ state.now) }
{
    match (state.lower(var), state.upper(var)) {
        (Some(first), Some(last)) => lower_between(rule, state, work, var, first, last),
        _ => Ok(None),
    }
}

/// The greatest new lower bound that follows, where the variable has these bounds.
fn lower_between<R: Test>(
    rule: &R,
    state: &State,
    work: &mut State,
    var: VarId,
    first: i64,
    last: i64,
) -> Result<Option<Atom>, Memory>
    requires covers { Covers (R.face rule.now).scope state.now }
    requires quiet { (R.face rule.now).test state.now ≡ false }
    requires var { var < length state.now }
    requires same { work.old ≡ state.now }
    requires bounds { AreBounds (values state.now var) first last }
    ensures lower { IfOk result (λ atom. atom ≡ new_lower (R.face rule.now) state.now var) }
    ensures same { OnOk result (work.new ≡ state.now) }
{
    let mut low = 0;
    let mut high = distance(first, last) + 1;
    while low + 1 < high {
        let middle = low + (high - low) / 2;
        let atom = Atom::small(var, Op::Ge, above(first, middle));
        let given = gives(rule, state, work, atom)?;
        if given {
            low = middle;
        } else {
            high = middle;
        }
    }
    if low == 0 {
        return Ok(None);
    }
    Ok(Some(Atom::small(var, Op::Ge, above(first, low))))
}

/// The least new upper bound that follows.
fn new_upper<R: Test>(
    rule: &R,
    state: &State,
    work: &mut State,
    var: VarId,
) -> Result<Option<Atom>, Memory>
    requires covers { Covers (R.face rule.now).scope state.now }
    requires quiet { (R.face rule.now).test state.now ≡ false }
    requires var { var < length state.now }
    requires same { work.old ≡ state.now }
    ensures upper { IfOk result (λ atom. atom ≡ new_upper (R.face rule.now) state.now var) }
    ensures same { OnOk result (work.new ≡ state.now) }
{
    match (state.lower(var), state.upper(var)) {
        (Some(first), Some(last)) => upper_between(rule, state, work, var, first, last),
        _ => Ok(None),
    }
}

/// The least new upper bound that follows, where the variable has these bounds.
fn upper_between<R: Test>(
    rule: &R,
    state: &State,
    work: &mut State,
    var: VarId,
    first: i64,
    last: i64,
) -> Result<Option<Atom>, Memory>
    requires covers { Covers (R.face rule.now).scope state.now }
    requires quiet { (R.face rule.now).test state.now ≡ false }
    requires var { var < length state.now }
    requires same { work.old ≡ state.now }
    requires bounds { AreBounds (values state.now var) first last }
    ensures upper { IfOk result (λ atom. atom ≡ new_upper (R.face rule.now) state.now var) }
    ensures same { OnOk result (work.new ≡ state.now) }
{
    let mut low = 0;
    let mut high = distance(first, last) + 1;
    while low + 1 < high {
        let middle = low + (high - low) / 2;
        let atom = Atom::small(var, Op::Le, below(last, middle));
        let given = gives(rule, state, work, atom)?;
        if given {
            low = middle;
        } else {
            high = middle;
        }
    }
    if low == 0 {
        return Ok(None);
    }
    Ok(Some(Atom::small(var, Op::Le, below(last, low))))
}

/// How far the last number is above the first.
fn distance(first: i64, last: i64) -> usize
    requires first { IsSmall first }
    requires last { IsSmall last }
    requires order { first ≤ℤ last }
    ensures sum { first +ℤ pos result ≡ last }
    ensures short { result ≤ 2 * 10 ^ 9 }
{
    (last - first) as usize
}

/// The number that is so far above the first.
fn above(first: i64, by: usize) -> i64
    requires first { IsSmall first }
    requires sum { IsSmall (first +ℤ pos by) }
    ensures sum { result ≡ first +ℤ pos by }
    ensures small { IsSmall result }
{
    first + by as i64
}

/// The number that is so far below the last.
fn below(last: i64, by: usize) -> i64
    requires last { IsSmall last }
    requires difference { IsSmall (last -ℤ pos by) }
    ensures difference { result ≡ last -ℤ pos by }
    ensures small { IsSmall result }
{
    last - by as i64
}

/// The least value that is taken out, among the part's points.
fn new_hole<R: Test>(
    rule: &R,
    state: &State,
    work: &mut State,
    var: VarId,
) -> Result<Option<Atom>, Memory>
    requires covers { Covers (R.face rule.now).scope state.now }
    requires var { var < length state.now }
    requires same { work.old ≡ state.now }
    ensures hole { IfOk result (λ atom. atom ≡ new_hole (R.face rule.now) state.now var) }
    ensures same { OnOk result (work.new ≡ state.now) }
{
    let candidates = rule.candidates(var, state)?;
    let numbers = candidates.values()?;
    let values = numbers.as_slice();
    for place in 0..values.len() {
        let value = values[place];
        let atom = Atom::small(var, Op::Ne, value);
        let takes = takes_out(rule, state, work, var, value)?;
        if takes {
            return Ok(Some(atom));
        }
    }
    Ok(None)
}

/// Whether the value is a point of the part, and that it is another follows and is new.
fn takes_out<R: Test>(
    rule: &R,
    state: &State,
    work: &mut State,
    var: VarId,
    value: i64,
) -> Result<bool, Memory>
    requires covers { Covers (R.face rule.now).scope state.now }
    requires var { var < length state.now }
    requires same { work.old ≡ state.now }
    requires small { IsSmall value }
    ensures takes { IfOk result (λ takes. takes ≡ ((R.face rule.now).point var value && gives (R.face rule.now) state.now (other_than var value))) }
    ensures same { OnOk result (work.new ≡ state.now) }
{
    if rule.is_point(var, value) {
        gives(rule, state, work, Atom::small(var, Op::Ne, value))
    } else {
        Ok(false)
    }
}

/// Whether the atom is new and follows: the state does not entail it, and the part clashes where it
/// fails. The working copy is the state again when it is known.
fn gives<R: Test>(rule: &R, state: &State, work: &mut State, atom: Atom) -> Result<bool, Memory>
    requires covers { Covers (R.face rule.now).scope state.now }
    requires var { atom.var < length state.now }
    requires same { work.old ≡ state.now }
    ensures answer { IfOk result (λ answer. answer ≡ gives (R.face rule.now) state.now atom) }
    ensures same { OnOk result (work.new ≡ state.now) }
{
    if state.entails(atom) {
        return Ok(false);
    }
    let mut set = state.set(atom.var()).copy()?;
    set.exclude(atom.negated())?;
    let old = work.replace(atom.var(), set);
    let clash = rule.clash(work)?;
    work.replace(atom.var(), old);
    Ok(clash)
}
