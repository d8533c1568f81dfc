// What the entries are that can be selected.

ghost use Rattle.std.specs.Prelude.{◌≡◌, ◌+◌, ◌<◌, ◌^◌, if◌then◌else◌, length};
ghost use Rattle.dp_domain.specs.Terms.{AreTermsOf, IsTermOf};
ghost use Rattle.dp_rule_element.specs.Choices.{IsChoiceOf, choice_of, is_free, is_nothing, is_only, joined};
ghost use Rattle.dp_rule_element.specs.Selections.{is_selectable, numbered};

use crate::entries::is_selectable;
use crate::places::is_variable;
use crate::{State, Term, VarId};

/// What can be selected: nothing; one variable alone, at one place or at several; or, whatever the
/// variable, another entry too.
#[derive(Clone, Copy, Debug)]
pub enum Choice {
    Nothing,
    Only(VarId),
    Free,
}

/// What can be selected. It tests no further entry once that is free.
pub fn find_choice(index: &Term, array: &[Term], value: &Term, state: &State) -> Choice
    requires index { IsTermOf (length state.now) index.now }
    requires array { AreTermsOf (length state.now) array.now }
    requires value { IsTermOf (length state.now) value.now }
    ensures { IsChoiceOf (is_selectable state.now index.now value.now) (numbered array.now) result }
{
    let mut found = Choice::Nothing;
    for (place, entry) in array.iter().enumerate() {
        found = with_entry(&found, index, place, entry, value, state);
    }
    found
}

/// The choice with the entry at the place, where that can be selected.
fn with_entry(
    found: &Choice,
    index: &Term,
    place: usize,
    entry: &Term,
    value: &Term,
    state: &State,
) -> Choice
    requires few { place + 1 < 2 ^ 63 }
    requires index { IsTermOf (length state.now) index.now }
    requires entry { IsTermOf (length state.now) entry.now }
    requires value { IsTermOf (length state.now) value.now }
    ensures { result ≡ (if is_selectable state.now index.now value.now (place + 1, entry.now) then joined found.now entry.now else found.now) }
{
    if found.is_free() {
        return Choice::Free;
    }
    if is_selectable(index, place, entry, value, state) {
        joined(found, entry)
    } else {
        *found
    }
}

/// The choice with one entry more.
fn joined(found: &Choice, entry: &Term) -> Choice
    ensures { result ≡ joined found.now entry.now }
{
    match found {
        Choice::Nothing => choice_of(entry),
        Choice::Only(var) => {
            if is_variable(*entry, *var) {
                *found
            } else {
                Choice::Free
            }
        }
        Choice::Free => Choice::Free,
    }
}

/// The choice where one entry alone can be selected.
fn choice_of(entry: &Term) -> Choice
    ensures { result ≡ choice_of entry.now }
{
    match entry {
        Term::Var(var) => Choice::Only(*var),
        Term::Const(_) => Choice::Free,
    }
}

impl Choice {
    /// Whether nothing can be selected.
    pub fn is_nothing(&self) -> bool
        ensures { result ≡ is_nothing self.now }
    {
        match self {
            Choice::Nothing => true,
            Choice::Only(_) | Choice::Free => false,
        }
    }

    /// Whether, whatever the variable, another entry can be selected too.
    pub fn is_free(&self) -> bool
        ensures { result ≡ is_free self.now }
    {
        match self {
            Choice::Free => true,
            Choice::Nothing | Choice::Only(_) => false,
        }
    }

    /// Whether the variable alone can be selected.
    pub fn is_only(&self, var: VarId) -> bool
        ensures { result ≡ is_only self.now var }
    {
        match self {
            Choice::Only(own) => *own == var,
            Choice::Nothing | Choice::Free => false,
        }
    }
}
