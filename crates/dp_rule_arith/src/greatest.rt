// A maximum.

ghost use Rattle.std.specs.Prelude.{◌≡◌};
ghost use Rattle.dp_rule_arith.specs.KindLaws.{greatest_deciding, greatest_exact, greatest_lawful, greatest_sound};
ghost use Rattle.dp_rule_arith.specs.Scopes.{listed};
ghost use Rattle.dp_rule_arith.specs.Operations.{ClashesGreatest, MeetsGreatest, face_greatest};

use crate::scope::Scope;
use crate::span::{are_apart, bounds, greater_span};
use crate::{Atom, Found, Memory, Rule, State, Steps, Term, Test, VarId};
use dp_domain::{Dom, Scratch, search_explanation, search_turn};
use std::sync::ledger::Ledger;

/// The greater of two terms is a third. A variable may stand at several places.
#[derive(Clone, Copy, Debug)]
pub struct Greatest {
    pub a: Term,
    pub b: Term,
    pub c: Term,
}

impl Greatest {
    /// The constraint that the greater of `a` and `b` is `c`.
    pub fn new(a: Term, b: Term, c: Term) -> Greatest
        ensures { result ≡ record { a = a; b = b; c = c } }
    {
        Greatest { a, b, c }
    }

    /// Its variables.
    fn scope(&self) -> Scope
        ensures { listed result ≡ (face_greatest self.now).scope }
    {
        Scope::new(self.a, self.b, self.c)
    }
}

impl Test for Greatest {
    ghost face = { face_greatest };

    ghost clashes = { ClashesGreatest };

    ghost meets = { MeetsGreatest };

    ghost exact = { greatest_exact };

    ghost lawful = { greatest_lawful };

    ghost sound = { greatest_sound };

    ghost deciding = { greatest_deciding };

    fn scope_len(&self) -> usize {
        self.scope().len()
    }

    fn scope_at(&self, place: usize) -> VarId {
        self.scope().at(place)
    }

    fn is_point(&self, _var: VarId, _value: i64) -> bool {
        false
    }

    fn candidates(&self, _var: VarId, state: &State) -> Result<Dom, Memory> {
        Dom::range(state.allocator(), 1, 0)
    }

    fn clash(&self, state: &State) -> Result<bool, Memory> {
        let a = bounds(&self.a, state);
        let b = bounds(&self.b, state);
        let c = bounds(&self.c, state);
        Ok(state.dead() || are_apart(greater_span(a, b), c))
    }
}

impl Rule for Greatest {
    fn next<L: Ledger>(
        &self,
        state: &State,
        steps: &mut Steps<L>,
    ) -> Result<Option<Found>, Memory> {
        search_turn(self, state, steps)
    }

    fn explain(
        &self,
        initial: &State,
        work: &mut Scratch,
        now: &State,
        target: Option<Atom>,
    ) -> Result<Vec<Atom>, Memory> {
        search_explanation(self, initial, work, now, target)
    }
}
