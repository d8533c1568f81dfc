// An entry of an array, at an index, that equals a value.

ghost use Rattle.std.specs.Prelude.{◌≡◌, IfOk};
ghost use Rattle.dp_rule_element.specs.SelectionLaws.{element_deciding, element_exact, element_lawful, element_sound};
ghost use Rattle.dp_rule_element.specs.Selections.{ClashesElement, MeetsElement, face_element};

use crate::{Atom, Found, Memory, Rule, State, Steps, Term, Test, VarId, entries, places, turn};
use dp_domain::{Dom, Scratch, search_explanation, search_turn, term_scope};
use std::alloc::Global;
use std::marker::Model;
use std::sync::ledger::Ledger;

/// The entry of an array at an index, counted from 1, equals a value. A variable may stand at several
/// places.
#[derive(Debug, Drop)]
pub struct Element {
    index: Term,
    array: Vec<Term>,
    value: Term,
    scope: Vec<VarId>,
}

impl Model for Element {
    ghost use Rattle.std.specs.Prelude.{◌≡◌};
    ghost use Rattle.dp_rule_element.specs.Selections.{Selection, scope_of};

    ghost Value = { Selection };

    ghost view = { λ q. record { index = q.index; array = q.array.items; value = q.value } };

    ghost invariant = { λ q. q.scope.items ≡ scope_of (record { index = q.index; array = q.array.items; value = q.value }) };
}

impl Element {
    /// The constraint of this index, these entries and this value.
    pub fn new(alloc: Global, index: Term, array: Vec<Term>, value: Term) -> Result<Element, Memory>
        ensures { IfOk result (λ q. q ≡ record { index = index; array = array.items; value = value }) }
    {
        let terms = entries::terms(alloc, &index, array.as_slice(), &value)?;
        let scope = term_scope(alloc, terms.as_slice())?;
        Ok(Element {
            index,
            array,
            value,
            scope,
        })
    }

    /// Its index.
    pub fn index(&self) -> Term
        ensures { result ≡ self.now.index }
    {
        self.index
    }

    /// The entries of its array.
    pub fn array(&self) -> &[Term]
        ensures { result.now ≡ self.now.array }
    {
        self.array.as_slice()
    }

    /// Its value.
    pub fn value(&self) -> Term
        ensures { result ≡ self.now.value }
    {
        self.value
    }
}

impl Test for Element {
    ghost face = { face_element };

    ghost clashes = { ClashesElement };

    ghost meets = { MeetsElement };

    ghost exact = { element_exact };

    ghost lawful = { element_lawful };

    ghost sound = { element_sound };

    ghost deciding = { element_deciding };

    fn scope_len(&self) -> usize {
        self.scope.len()
    }

    fn scope_at(&self, place: usize) -> VarId {
        self.scope[place]
    }

    fn is_point(&self, var: VarId, _value: i64) -> bool {
        places::is_variable(self.index, var)
    }

    fn candidates(&self, var: VarId, state: &State) -> Result<Dom, Memory> {
        if places::is_variable(self.index, var) {
            state.set(var).copy()
        } else {
            Dom::range(state.allocator(), 1, 0)
        }
    }

    fn clash(&self, state: &State) -> Result<bool, Memory> {
        Ok(
            state.dead()
                || !entries::any_selectable(&self.index, self.array.as_slice(), &self.value, state),
        )
    }
}

impl Rule for Element {
    /// Where the index or the value is a variable that stands at another place too, it is found by the
    /// test; else in time near the sizes of the sets of all its terms.
    fn next<L: Ledger>(
        &self,
        state: &State,
        steps: &mut Steps<L>,
    ) -> Result<Option<Found>, Memory> {
        let (index, array, value) = (&self.index, self.array.as_slice(), &self.value);
        if !places::stand_apart(index, array, value) {
            return search_turn(self, state, steps);
        }
        steps.tick();
        turn::found(index, array, value, self.scope.as_slice(), state)
    }

    fn explain(
        &self,
        initial: &State,
        work: &mut Scratch,
        now: &State,
        target: Option<Atom>,
    ) -> Result<Vec<Atom>, Memory> {
        search_explanation(self, initial, work, now, target)
    }
}
