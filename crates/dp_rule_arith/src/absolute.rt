// An absolute value.

ghost use Rattle.std.specs.Prelude.{◌≡◌};
ghost use Rattle.dp_rule_arith.specs.KindLaws.{absolute_deciding, absolute_exact, absolute_lawful, absolute_sound};
ghost use Rattle.dp_rule_arith.specs.Scopes.{listed};
ghost use Rattle.dp_rule_arith.specs.Operations.{ClashesAbsolute, MeetsAbsolute, face_absolute};

use crate::scope::Scope;
use crate::span::{absolute_span, are_apart, bounds};
use crate::{Atom, Found, Memory, Rule, State, Steps, Term, Test, VarId};
use dp_domain::{Dom, Scratch, search_explanation, search_turn};
use std::sync::ledger::Ledger;

/// The absolute value of a term is another term. A variable may stand at several places.
#[derive(Clone, Copy, Debug)]
pub struct Absolute {
    pub a: Term,
    pub b: Term,
}

impl Absolute {
    /// The constraint that `a` without its sign is `b`.
    pub fn new(a: Term, b: Term) -> Absolute
        ensures { result ≡ record { a = a; b = b } }
    {
        Absolute { a, b }
    }

    /// Its variables.
    fn scope(&self) -> Scope
        ensures { listed result ≡ (face_absolute self.now).scope }
    {
        Scope::new(self.a, Term::Const(0), self.b)
    }
}

impl Test for Absolute {
    ghost face = { face_absolute };

    ghost clashes = { ClashesAbsolute };

    ghost meets = { MeetsAbsolute };

    ghost exact = { absolute_exact };

    ghost lawful = { absolute_lawful };

    ghost sound = { absolute_sound };

    ghost deciding = { absolute_deciding };

    fn scope_len(&self) -> usize {
        self.scope().len()
    }

    fn scope_at(&self, place: usize) -> VarId {
        self.scope().at(place)
    }

    fn is_point(&self, _var: VarId, _value: i64) -> bool {
        false
    }

    fn candidates(&self, _var: VarId, state: &State) -> Result<Dom, Memory> {
        Dom::range(state.allocator(), 1, 0)
    }

    fn clash(&self, state: &State) -> Result<bool, Memory> {
        let a = bounds(&self.a, state);
        let b = bounds(&self.b, state);
        Ok(state.dead() || are_apart(absolute_span(a), b))
    }
}

impl Rule for Absolute {
    fn next<L: Ledger>(
        &self,
        state: &State,
        steps: &mut Steps<L>,
    ) -> Result<Option<Found>, Memory> {
        search_turn(self, state, steps)
    }

    fn explain(
        &self,
        initial: &State,
        work: &mut Scratch,
        now: &State,
        target: Option<Atom>,
    ) -> Result<Vec<Atom>, Memory> {
        search_explanation(self, initial, work, now, target)
    }
}
