// A variable that lies in a set.

ghost use Rattle.std.specs.Prelude.{◌≡◌, ◌≢◌, ◌<◌, ◌↔◌, [], ◌∷◌, IfOk, IsOk, IsTrue, Some, length, slice_get};
ghost use Rattle.dp_base.specs.Scopes.{with_variable};
ghost use Rattle.dp_domain.specs.Conditions.{IsApart, in_force};
ghost use Rattle.dp_domain.specs.Faces.{Covers};
ghost use Rattle.dp_rule_clause.specs.RestrictionLaws.{within_deciding, within_exact, within_lawful, within_sound};
ghost use Rattle.dp_rule_clause.specs.Restrictions.{ClashesWithin, MeetsWithin, Restriction, face_within, scope_of};

use crate::{Atom, Dom, Found, Memory, Rule, State, Steps, Test, VarId, reasons, turns};
use dp_domain::Scratch;
use std::marker::Model;
use std::sync::ledger::Ledger;
use thiserror::Error;

/// Why a restriction is not made.
#[derive(Clone, Copy, Debug, PartialEq, Eq, Error)]
#[error("the condition's variable is the one that is restricted")]
pub struct BadCondition;

/// Unless its condition fails, its variable lies in its set.
#[derive(Debug, Drop)]
pub struct Within {
    cond: Option<Atom>,
    var: VarId,
    set: Dom,
}

impl Model for Within {
    ghost use Rattle.std.specs.Prelude.{[], ◌∷◌};
    ghost use Rattle.dp_domain.specs.Conditions.{IsApart};
    ghost use Rattle.dp_rule_clause.specs.Restrictions.{Restriction};

    ghost Value = { Restriction };

    ghost view = { λ q. record { condition = q.cond; var = q.var; set = q.set } };

    ghost invariant = { λ q. IsApart q.cond (q.var ∷ []) };
}

impl Within {
    /// The restriction, refused exactly where the condition's variable is the one that is restricted.
    pub fn new(cond: Option<Atom>, var: VarId, set: Dom) -> Result<Within, BadCondition>
        ensures made { IfOk result (λ q. q ≡ record { condition = cond; var = var; set = set }) }
        ensures refused { IsOk result ↔ IsApart cond (var ∷ []) }
    {
        if is_apart(&cond, var) {
            Ok(Within { cond, var, set })
        } else {
            Err(BadCondition)
        }
    }

    /// The atom that it waits for, if any.
    pub fn cond(&self) -> Option<Atom>
        ensures { result ≡ self.now.condition }
    {
        self.cond
    }

    /// Its variable.
    pub fn var(&self) -> VarId
        ensures { result ≡ self.now.var }
    {
        self.var
    }

    /// The numbers that its variable may be.
    pub fn set(&self) -> &Dom
        ensures { result.now ≡ self.now.set }
    {
        &self.set
    }

    /// Whether its condition is absent or entailed.
    fn in_force(&self, state: &State) -> bool
        requires { Covers (scope_of self.now) state.now }
        ensures { result ≡ in_force state.now self.now.condition }
    {
        match self.cond {
            Some(cond) => state.entails(cond),
            None => true,
        }
    }
}

/// Whether the condition's variable is another.
fn is_apart(cond: &Option<Atom>, var: VarId) -> bool
    ensures { IsTrue result ↔ IsApart cond.now (var ∷ []) }
{
    match cond {
        Some(cond) => cond.var() != var,
        None => true,
    }
}

/// The variable at the place among these two in order of declaration.
fn at_of_two(added: VarId, var: VarId, place: usize) -> VarId
    requires apart { added ≢ var }
    requires place { place < 2 }
    ensures { slice_get (with_variable added (var ∷ [])) place ≡ Some result }
{
    if (added < var) == (place == 0) {
        added
    } else {
        var
    }
}

impl Test for Within {
    ghost face = { face_within };

    ghost clashes = { ClashesWithin };

    ghost meets = { MeetsWithin };

    ghost exact = { within_exact };

    ghost lawful = { within_lawful };

    ghost sound = { within_sound };

    ghost deciding = { within_deciding };

    fn scope_len(&self) -> usize {
        match self.cond {
            Some(_) => 2,
            None => 1,
        }
    }

    fn scope_at(&self, place: usize) -> VarId {
        match self.cond {
            Some(cond) => at_of_two(cond.var(), self.var, place),
            None => self.var,
        }
    }

    fn is_point(&self, _var: VarId, _value: i64) -> bool {
        false
    }

    fn clash(&self, state: &State) -> Result<bool, Memory> {
        Ok(state.dead() || self.in_force(state) && !state.set(self.var).shares(&self.set))
    }
}

impl Rule for Within {
    fn next<L: Ledger>(
        &self,
        state: &State,
        steps: &mut Steps<L>,
    ) -> Result<Option<Found>, Memory> {
        steps.tick();
        turns::restriction_turn(&self.cond, self.var, &self.set, state)
    }

    fn explain(
        &self,
        initial: &State,
        _work: &mut Scratch,
        now: &State,
        target: Option<Atom>,
    ) -> Result<Vec<Atom>, Memory> {
        reasons::restriction_reasons(&self.cond, self.var, &self.set, initial, now, &target)
    }
}
