// A minimum.

ghost use Rattle.std.specs.Prelude.{◌≡◌};
ghost use Rattle.dp_rule_arith.specs.KindLaws.{least_deciding, least_exact, least_lawful, least_sound};
ghost use Rattle.dp_rule_arith.specs.Scopes.{listed};
ghost use Rattle.dp_rule_arith.specs.Operations.{ClashesLeast, MeetsLeast, face_least};

use crate::scope::Scope;
use crate::span::{are_apart, bounds, lesser_span};
use crate::{Atom, Found, Memory, Rule, State, Steps, Term, Test, VarId};
use dp_domain::{Dom, Scratch, search_explanation, search_turn};
use std::sync::ledger::Ledger;

/// The lesser of two terms is a third. A variable may stand at several places.
#[derive(Clone, Copy, Debug)]
pub struct Least {
    pub a: Term,
    pub b: Term,
    pub c: Term,
}

impl Least {
    /// The constraint that the lesser of `a` and `b` is `c`.
    pub fn new(a: Term, b: Term, c: Term) -> Least
        ensures { result ≡ record { a = a; b = b; c = c } }
    {
        Least { a, b, c }
    }

    /// Its variables.
    fn scope(&self) -> Scope
        ensures { listed result ≡ (face_least self.now).scope }
    {
        Scope::new(self.a, self.b, self.c)
    }
}

impl Test for Least {
    ghost face = { face_least };

    ghost clashes = { ClashesLeast };

    ghost meets = { MeetsLeast };

    ghost exact = { least_exact };

    ghost lawful = { least_lawful };

    ghost sound = { least_sound };

    ghost deciding = { least_deciding };

    fn scope_len(&self) -> usize {
        self.scope().len()
    }

    fn scope_at(&self, place: usize) -> VarId {
        self.scope().at(place)
    }

    fn is_point(&self, _var: VarId, _value: i64) -> bool {
        false
    }

    fn candidates(&self, _var: VarId, state: &State) -> Result<Dom, Memory> {
        Dom::range(state.allocator(), 1, 0)
    }

    fn clash(&self, state: &State) -> Result<bool, Memory> {
        let a = bounds(&self.a, state);
        let b = bounds(&self.b, state);
        let c = bounds(&self.c, state);
        Ok(state.dead() || are_apart(lesser_span(a, b), c))
    }
}

impl Rule for Least {
    fn next<L: Ledger>(
        &self,
        state: &State,
        steps: &mut Steps<L>,
    ) -> Result<Option<Found>, Memory> {
        search_turn(self, state, steps)
    }

    fn explain(
        &self,
        initial: &State,
        work: &mut Scratch,
        now: &State,
        target: Option<Atom>,
    ) -> Result<Vec<Atom>, Memory> {
        search_explanation(self, initial, work, now, target)
    }
}
