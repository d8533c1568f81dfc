// A sum of at most a number.

ghost use Rattle.std.specs.Prelude.{◌≡◌, ◌^◌, ◌-ℤ◌, IfOk, IfErr, false, true};
ghost use Rattle.dp_domain.specs.Conditions.{in_force};
ghost use Rattle.dp_domain.specs.Faces.{Covers};
ghost use Rattle.dp_domain.specs.States.{is_dead};
ghost use Rattle.dp_domain.specs.Turns.{turn_of};
ghost use Rattle.dp_rule_linear.specs.AtMost.{ClashesAtMost, MeetsAtMost, face_at_most};
ghost use Rattle.dp_rule_linear.specs.AtMostLaws.{at_most_deciding, at_most_exact, at_most_lawful, at_most_sound};
ghost use Rattle.dp_rule_linear.specs.Forms.{HaveDomains, IsBounded, IsProper, form_of, least_sum, scope_of};
ghost use Rattle.dp_rule_linear.specs.Refusals.{IsRefused};

use crate::bounds::first_bound;
use crate::condition::condition_bound;
use crate::form::Form;
use crate::turn::found;
use crate::{Atom, Found, LinRefusal, Memory, Rule, State, Steps, Test, VarId};
use dp_domain::{Scratch, search_explanation};
use std::marker::Model;
use std::sync::ledger::Ledger;

/// Unless its condition fails, the sum of its terms is at most its right side.
#[derive(Debug, Drop)]
pub struct LinLe {
    form: Form,
}

impl Model for LinLe {
    ghost use Rattle.dp_rule_linear.specs.Forms.{Linear};

    ghost Value = { Linear };

    ghost view = { λ q. q.form };
}

impl LinLe {
    /// The constraint, or the first refusal that applies: `TooMany` above 2,000,000 terms; `BadTerm` at
    /// the first term whose coefficient is zero or beyond ±10^16, or whose variable is not declared after
    /// that of the term before it; `BadRhs` beyond ±10^36; `BadCondition` where the condition's variable
    /// is also a term's.
    pub fn new(cond: Option<Atom>, terms: Vec<(i64, VarId)>, rhs: i128) -> Result<LinLe, LinRefusal>
        ensures made { IfOk result (λ q. q ≡ form_of cond terms.items rhs) }
        ensures proper { IfOk result IsProper }
        ensures refused { IfErr result (λ refusal. IsRefused refusal (form_of cond terms.items rhs)) }
    {
        let form = Form::new(cond, terms, rhs)?;
        Ok(LinLe { form })
    }

    /// The atom that it waits for, if any.
    pub fn cond(&self) -> Option<Atom>
        ensures { result ≡ self.now.condition }
    {
        self.form.condition()
    }

    /// Its coefficients and variables.
    pub fn terms(&self) -> &[(i64, VarId)]
        ensures { result.now ≡ self.now.terms }
    {
        self.form.terms()
    }

    /// Its right side.
    pub fn rhs(&self) -> i128
        ensures { result ≡ self.now.rhs }
    {
        self.form.rhs()
    }

    /// Its turn at a nonempty state, in one pass for the sum of the least values and one for the bounds.
    fn turn(&self, state: &State) -> Result<Option<Found>, Memory>
        requires covers { Covers (scope_of self.now) state.now }
        requires alive { is_dead state.now ≡ false }
        ensures { IfOk result (λ turn. turn ≡ turn_of (face_at_most self.now) state.now) }
    {
        let slack = self.form.slack(state);
        if self.form.in_force(state) {
            return Ok(self.in_force_turn(slack, state));
        }
        match self.form.condition() {
            Some(condition) if slack < 0 => Ok(found(condition_bound(condition, state)?)),
            _ => Ok(None),
        }
    }

    /// Its turn where its condition is absent or entailed and the sum of the least values is so much
    /// below the right side.
    fn in_force_turn(&self, slack: i128, state: &State) -> Option<Found>
        requires covers { Covers (scope_of self.now) state.now }
        requires alive { is_dead state.now ≡ false }
        requires in_force { in_force state.now self.now.condition ≡ true }
        requires slack { slack ≡ self.now.rhs -ℤ least_sum state.now self.now.terms }
        requires bounded { IsBounded (10 ^ 37) slack }
        requires domains { HaveDomains self.now.terms state.now }
        requires proper { IsProper self.now }
        ensures { result ≡ turn_of (face_at_most self.now) state.now }
    {
        if slack < 0 {
            return Some(Found::Clash);
        }
        found(first_bound(self.form.terms(), slack, state))
    }
}

impl Test for LinLe {
    ghost face = { face_at_most };

    ghost clashes = { ClashesAtMost };

    ghost meets = { MeetsAtMost };

    ghost exact = { at_most_exact };

    ghost lawful = { at_most_lawful };

    ghost sound = { at_most_sound };

    ghost deciding = { at_most_deciding };

    fn scope_len(&self) -> usize {
        self.form.scope_len()
    }

    fn scope_at(&self, place: usize) -> VarId {
        self.form.scope_at(place)
    }

    fn is_point(&self, _var: VarId, _value: i64) -> bool {
        false
    }

    fn clash(&self, state: &State) -> Result<bool, Memory> {
        Ok(
            state.dead()
                || self.form.in_force(state) && self.form.least_sum(state) > self.form.rhs(),
        )
    }
}

impl Rule for LinLe {
    fn next<L: Ledger>(
        &self,
        state: &State,
        steps: &mut Steps<L>,
    ) -> Result<Option<Found>, Memory> {
        steps.tick();
        self.turn(state)
    }

    fn explain(
        &self,
        initial: &State,
        work: &mut Scratch,
        now: &State,
        target: Option<Atom>,
    ) -> Result<Vec<Atom>, Memory> {
        search_explanation(self, initial, work, now, target)
    }
}
