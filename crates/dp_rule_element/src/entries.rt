// The terms of a selection, and whether an entry can be selected.

ghost use Rattle.std.specs.Prelude.{◌≡◌, ◌+◌, ◌<◌, ◌^◌, ◌∷◌, IfOk, length, pos};
ghost use Rattle.dp_domain.specs.Sets.{is_among};
ghost use Rattle.dp_domain.specs.Terms.{AreTermsOf, IsTermOf, term_values};
ghost use Rattle.dp_rule_element.specs.Selections.{any_selectable, is_selectable};

use crate::{Memory, State, Term};
use std::alloc::Global;

/// The index, the value and the entries as one list.
pub fn terms(alloc: Global, index: &Term, array: &[Term], value: &Term) -> Result<Vec<Term>, Memory>
    ensures { IfOk result (λ terms. terms.items ≡ index.now ∷ value.now ∷ array.now) }
{
    let mut terms = Vec::new(alloc);
    terms.push(*index)?;
    terms.push(*value)?;
    terms.extend_from_slice(array)?;
    Ok(terms)
}

/// Whether some entry can be selected: the index may be its number, and it shares a number with the value.
pub fn any_selectable(index: &Term, array: &[Term], value: &Term, state: &State) -> bool
    requires index { IsTermOf (length state.now) index.now }
    requires array { AreTermsOf (length state.now) array.now }
    requires value { IsTermOf (length state.now) value.now }
    ensures { result ≡ any_selectable (record { index = index.now; array = array.now; value = value.now }) state.now }
{
    for (place, entry) in array.iter().enumerate() {
        if is_selectable(index, place, entry, value, state) {
            return true;
        }
    }
    false
}

/// Whether the entry at the place can be selected.
pub fn is_selectable(index: &Term, place: usize, entry: &Term, value: &Term, state: &State) -> bool
    requires few { place + 1 < 2 ^ 63 }
    requires index { IsTermOf (length state.now) index.now }
    requires entry { IsTermOf (length state.now) entry.now }
    requires value { IsTermOf (length state.now) value.now }
    ensures { result ≡ is_selectable state.now index.now value.now (place + 1, entry.now) }
{
    may_be_at(*index, place, state) && entry.shares(state, *value)
}

/// Whether the index may be the number of the entry at the place.
pub fn may_be_at(index: Term, place: usize, state: &State) -> bool
    requires few { place + 1 < 2 ^ 63 }
    requires index { IsTermOf (length state.now) index }
    ensures { result ≡ is_among (pos (place + 1)) (term_values state.now index) }
{
    index.has(state, place as i64 + 1)
}
