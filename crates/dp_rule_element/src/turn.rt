// The turn of an element constraint whose index and value stand apart.

ghost use Rattle.std.specs.Prelude.{◌≡◌, ◌<◌, ◌∷◌, false, filter, IfOk, length, true};
ghost use Rattle.dp_base.specs.Lists.{Among};
ghost use Rattle.dp_domain.specs.Faces.{Covers};
ghost use Rattle.dp_domain.specs.Sets.{IsDomain, is_among};
ghost use Rattle.dp_domain.specs.States.{is_dead, values};
ghost use Rattle.dp_domain.specs.Supports.{bound_by};
ghost use Rattle.dp_domain.specs.Terms.{AreTermsOf, IsTermOf, term_values};
ghost use Rattle.dp_domain.specs.Turns.{given, given_on, turn_of};
ghost use Rattle.dp_rule_element.specs.Choices.{IsChoiceOf, IsGivenBy, IsOffered, IsSelectable, as_turn, atom_by, selection, stand_apart};
ghost use Rattle.dp_rule_element.specs.Selections.{any_selectable, face_element, is_selectable, numbered, scope_of};

use crate::choice::{Choice, find_choice};
use crate::numbers::{numbers_of, offered, selectable, set_of};
use crate::places::is_variable;
use crate::{Atom, Found, Memory, State, Term, VarId};
use dp_domain::{Dom, Op, supported_bound};

/// The turn at a nonempty state where neither the index nor the value stands at another place too. It
/// goes over the array at most three times, whatever the scope.
pub fn found(
    index: &Term,
    array: &[Term],
    value: &Term,
    scope: &[VarId],
    state: &State,
) -> Result<Option<Found>, Memory>
    requires scope { scope.now ≡ scope_of (selection index.now array.now value.now) }
    requires covers { Covers scope.now state.now }
    requires alive { is_dead state.now ≡ false }
    requires apart { stand_apart (selection index.now array.now value.now) ≡ true }
    requires index { IsTermOf (length state.now) index.now }
    requires array { AreTermsOf (length state.now) array.now }
    requires value { IsTermOf (length state.now) value.now }
    ensures { IfOk result (λ turn. turn ≡ turn_of (face_element (selection index.now array.now value.now)) state.now) }
{
    let choice = find_choice(index, array, value, state);
    if choice.is_nothing() {
        return Ok(Some(Found::Clash));
    }
    let atom = given(index, array, value, &choice, scope, state)?;
    Ok(as_turn(atom))
}

/// The atom that is given, if any, as a turn.
fn as_turn(given: Option<Atom>) -> Option<Found>
    ensures { result ≡ as_turn given }
{
    given.map(Found::Atom)
}

/// What is given on the first variable that something is given on.
fn given(
    index: &Term,
    array: &[Term],
    value: &Term,
    choice: &Choice,
    scope: &[VarId],
    state: &State,
) -> Result<Option<Atom>, Memory>
    requires covers { Covers scope.now state.now }
    requires alive { is_dead state.now ≡ false }
    requires apart { stand_apart (selection index.now array.now value.now) ≡ true }
    requires some { any_selectable (selection index.now array.now value.now) state.now ≡ true }
    requires choice { IsChoiceOf (is_selectable state.now index.now value.now) (numbered array.now) choice.now }
    requires index { IsTermOf (length state.now) index.now }
    requires array { AreTermsOf (length state.now) array.now }
    requires value { IsTermOf (length state.now) value.now }
    ensures { IfOk result (λ atom. atom ≡ given (face_element (selection index.now array.now value.now)) state.now scope.now) }
{
    for var in scope {
        let atom = given_on(index, array, value, choice, *var, state)?;
        if atom.is_some() {
            return Ok(atom);
        }
    }
    Ok(None)
}

/// What is given on one variable.
fn given_on(
    index: &Term,
    array: &[Term],
    value: &Term,
    choice: &Choice,
    var: VarId,
    state: &State,
) -> Result<Option<Atom>, Memory>
    requires var { var < length state.now }
    requires alive { is_dead state.now ≡ false }
    requires apart { stand_apart (selection index.now array.now value.now) ≡ true }
    requires some { any_selectable (selection index.now array.now value.now) state.now ≡ true }
    requires choice { IsChoiceOf (is_selectable state.now index.now value.now) (numbered array.now) choice.now }
    requires index { IsTermOf (length state.now) index.now }
    requires array { AreTermsOf (length state.now) array.now }
    requires value { IsTermOf (length state.now) value.now }
    ensures { IfOk result (λ atom. atom ≡ given_on (face_element (selection index.now array.now value.now)) state.now var) }
{
    let set = set_of(state, var);
    if is_variable(*index, var) {
        on_index(index, array, value, var, set, state)
    } else if is_variable(*value, var) {
        on_value(index, array, var, set, state)
    } else if choice.is_only(var) {
        on_entry(value, var, set, state)
    } else {
        Ok(None)
    }
}

/// What is given on the index: it is to be the number of an entry that can be selected.
fn on_index(
    index: &Term,
    array: &[Term],
    value: &Term,
    var: VarId,
    set: &Dom,
    state: &State,
) -> Result<Option<Atom>, Memory>
    requires index { IsTermOf (length state.now) index.now }
    requires array { AreTermsOf (length state.now) array.now }
    requires value { IsTermOf (length state.now) value.now }
    requires small { IsDomain (term_values state.now index.now) }
    ensures { IfOk result (IsGivenBy (λ good. atom_by set.now good var) (IsSelectable (selection index.now array.now value.now) state.now)) }
{
    let good = selectable(index, array, value, state)?;
    bound_or_hole(var, set, &good)
}

/// The bound that the supported values give, else the least value that is not supported, taken out.
fn bound_or_hole(var: VarId, set: &Dom, good: &Dom) -> Result<Option<Atom>, Memory>
    ensures { IfOk result (λ atom. atom ≡ atom_by set.now good.now var) }
{
    let bound = supported_bound(var, set, good);
    if bound.is_some() {
        return Ok(bound);
    }
    let others = set.without(good)?;
    match others.lower() {
        Some(value) => Ok(Atom::new(var, Op::Ne, value)),
        None => Ok(None),
    }
}

/// What is given on the value: it is to be a number of an entry that the index may select.
fn on_value(
    index: &Term,
    array: &[Term],
    var: VarId,
    set: &Dom,
    state: &State,
) -> Result<Option<Atom>, Memory>
    requires index { IsTermOf (length state.now) index.now }
    requires array { AreTermsOf (length state.now) array.now }
    requires small { IsDomain set.now }
    ensures { IfOk result (IsGivenBy (λ good. bound_by set.now good var) (λ v. Among v set.now × IsOffered state.now index.now array.now v)) }
{
    let numbers = offered(index, array, state)?;
    bound_within(var, set, &numbers)
}

/// What is given on the one variable that can be selected: it is to be a number of the value.
fn on_entry(value: &Term, var: VarId, set: &Dom, state: &State) -> Result<Option<Atom>, Memory>
    requires value { IsTermOf (length state.now) value.now }
    requires small { IsDomain set.now }
    ensures { IfOk result (IsGivenBy (λ good. bound_by set.now good var) (λ v. Among v set.now × Among v (term_values state.now value.now))) }
{
    let numbers = numbers_of(value, state)?;
    bound_within(var, set, &numbers)
}

/// The bound that the values give that are among the numbers.
fn bound_within(var: VarId, set: &Dom, numbers: &Dom) -> Result<Option<Atom>, Memory>
    ensures { IfOk result (λ atom. atom ≡ bound_by set.now (filter (λ v. is_among v numbers.now) set.now) var) }
{
    let good = set.common(numbers)?;
    Ok(supported_bound(var, set, &good))
}
