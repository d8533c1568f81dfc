// The numbers of the entries that can be selected, and the numbers that entries offer.

ghost use Rattle.std.specs.Prelude.{◌≡◌, ◌↔◌, ◌+◌, ◌<◌, ◌^◌, [], ◌∷◌, ◌++◌, pos, IfOk, IsTrue, OnOk, length};
ghost use Rattle.dp_base.specs.Lists.{Among};
ghost use Rattle.dp_domain.specs.Sets.{Collects, IsDomain, IsSmall};
ghost use Rattle.dp_domain.specs.States.{values};
ghost use Rattle.dp_domain.specs.Terms.{AreTermsOf, IsTermOf, term_values};
ghost use Rattle.dp_rule_element.specs.Choices.{Gains, IsNumberOf, IsOffered, IsSelectable, IsValueOf, selection};

use crate::entries::{is_selectable, may_be_at};
use crate::{Memory, State, Term, VarId};
use dp_domain::Dom;

const LARGEST: i64 = 1_000_000_000;

/// The numbers of the entries that can be selected, where the index has small values.
pub fn selectable(index: &Term, array: &[Term], value: &Term, state: &State) -> Result<Dom, Memory>
    requires index { IsTermOf (length state.now) index.now }
    requires array { AreTermsOf (length state.now) array.now }
    requires value { IsTermOf (length state.now) value.now }
    requires small { IsDomain (term_values state.now index.now) }
    ensures domain { IfOk result IsDomain }
    ensures numbers { IfOk result (λ d. Collects d (IsSelectable (selection index.now array.now value.now) state.now)) }
{
    let mut numbers = Vec::new(state.allocator());
    for (place, entry) in array.iter().enumerate() {
        push_number(&mut numbers, index, place, entry, value, state)?;
    }
    Dom::of(state.allocator(), numbers.as_slice())
}

/// Adds the number of the entry at the place, where that can be selected.
fn push_number(
    numbers: &mut Vec<(i64, i64)>,
    index: &Term,
    place: usize,
    entry: &Term,
    value: &Term,
    state: &State,
) -> Result<(), Memory>
    requires few { place + 1 < 2 ^ 63 }
    requires index { IsTermOf (length state.now) index.now }
    requires entry { IsTermOf (length state.now) entry.now }
    requires value { IsTermOf (length state.now) value.now }
    requires small { IsDomain (term_values state.now index.now) }
    ensures { OnOk result (Gains numbers.old.items numbers.new.items (IsNumberOf state.now index.now value.now (place + 1, entry.now))) }
{
    if is_selectable(index, place, entry, value, state) {
        push_one(numbers, number_of(place))
    } else {
        Ok(())
    }
}

/// Adds the number.
fn push_one(numbers: &mut Vec<(i64, i64)>, number: i64) -> Result<(), Memory>
    ensures { OnOk result (numbers.new.items ≡ numbers.old.items ++ (number, number) ∷ []) }
{
    Ok(numbers.push((number, number))?)
}

/// The number of the entry at the place.
fn number_of(place: usize) -> i64
    requires few { place + 1 < 2 ^ 63 }
    ensures { result ≡ pos (place + 1) }
{
    place as i64 + 1
}

/// The small numbers of the entries that the index may select.
pub fn offered(index: &Term, array: &[Term], state: &State) -> Result<Dom, Memory>
    requires index { IsTermOf (length state.now) index.now }
    requires array { AreTermsOf (length state.now) array.now }
    ensures domain { IfOk result IsDomain }
    ensures numbers { IfOk result (λ d. Collects d (λ v. IsSmall v × IsOffered state.now index.now array.now v)) }
{
    let mut numbers = Vec::new(state.allocator());
    for (place, entry) in array.iter().enumerate() {
        push_offered(&mut numbers, index, place, entry, state)?;
    }
    Dom::of(state.allocator(), numbers.as_slice())
}

/// Adds the small numbers of the entry at the place, where the index may select it.
fn push_offered(
    numbers: &mut Vec<(i64, i64)>,
    index: &Term,
    place: usize,
    entry: &Term,
    state: &State,
) -> Result<(), Memory>
    requires few { place + 1 < 2 ^ 63 }
    requires index { IsTermOf (length state.now) index.now }
    requires entry { IsTermOf (length state.now) entry.now }
    ensures { OnOk result (Gains numbers.old.items numbers.new.items (IsValueOf state.now index.now (place + 1, entry.now))) }
{
    if may_be_at(*index, place, state) {
        push_numbers(numbers, entry, state)
    } else {
        Ok(())
    }
}

/// The small numbers of the term.
pub fn numbers_of(term: &Term, state: &State) -> Result<Dom, Memory>
    requires { IsTermOf (length state.now) term.now }
    ensures domain { IfOk result IsDomain }
    ensures numbers { IfOk result (λ d. Collects d (λ v. IsSmall v × Among v (term_values state.now term.now))) }
{
    let mut numbers = Vec::new(state.allocator());
    push_numbers(&mut numbers, term, state)?;
    Dom::of(state.allocator(), numbers.as_slice())
}

/// Adds the small numbers of the term.
fn push_numbers(numbers: &mut Vec<(i64, i64)>, term: &Term, state: &State) -> Result<(), Memory>
    requires { IsTermOf (length state.now) term.now }
    ensures { OnOk result (Gains numbers.old.items numbers.new.items (λ v. Among v (term_values state.now term.now))) }
{
    match term {
        Term::Var(var) => push_values(numbers, *var, state),
        Term::Const(value) => push_small(numbers, *value),
    }
}

/// Adds the values of the variable.
fn push_values(numbers: &mut Vec<(i64, i64)>, var: VarId, state: &State) -> Result<(), Memory>
    requires { var < length state.now }
    ensures { OnOk result (Gains numbers.old.items numbers.new.items (λ v. Among v (values state.now var))) }
{
    let intervals = set_of(state, var).intervals(state.allocator())?;
    push_all(numbers, intervals.as_slice())
}

/// Adds the intervals.
fn push_all(numbers: &mut Vec<(i64, i64)>, more: &[(i64, i64)]) -> Result<(), Memory>
    ensures { OnOk result (numbers.new.items ≡ numbers.old.items ++ more.now) }
{
    Ok(numbers.extend_from_slice(more)?)
}

/// Adds the number, where it is small.
fn push_small(numbers: &mut Vec<(i64, i64)>, value: i64) -> Result<(), Memory>
    ensures { OnOk result (Gains numbers.old.items numbers.new.items (λ v. Among v (value ∷ []))) }
{
    if is_small(value) {
        push_one(numbers, value)
    } else {
        Ok(())
    }
}

/// Whether the number is within ±10^9.
fn is_small(value: i64) -> bool
    ensures { IsTrue result ↔ IsSmall value }
{
    -LARGEST <= value && value <= LARGEST
}

/// The variable's values.
pub fn set_of(state: &State, var: VarId) -> &Dom
    requires { var < length state.now }
    ensures values { result.now ≡ values state.now var }
    ensures domain { IsDomain (values state.now var) }
{
    let _least = state.lower(var);
    state.set(var)
}
