// A sum other than a number.

ghost use Rattle.std.specs.Prelude.{◌≡◌, ◌+◌, IfOk, IfErr, false};
ghost use Rattle.dp_domain.specs.Faces.{Covers};
ghost use Rattle.dp_domain.specs.States.{is_dead};
ghost use Rattle.dp_domain.specs.Turns.{turn_of};
ghost use Rattle.dp_rule_linear.specs.Bounds.{AreSingleFrom, IsFirstOpen};
ghost use Rattle.dp_rule_linear.specs.Differs.{ClashesDiffers, MeetsDiffers, face_differs};
ghost use Rattle.dp_rule_linear.specs.DiffersLaws.{differs_deciding, differs_exact, differs_lawful, differs_sound};
ghost use Rattle.dp_rule_linear.specs.Forms.{IsProper, form_of, scope_of};
ghost use Rattle.dp_rule_linear.specs.Refusals.{IsRefused};

use crate::condition::condition_atom;
use crate::form::Form;
use crate::sums::{first_open, least_product};
use crate::turn::found;
use crate::unequal::unequal_atom;
use crate::{Atom, Found, LinRefusal, Memory, Rule, State, Steps, Test, VarId};
use dp_domain::{Scratch, search_explanation};
use std::marker::Model;
use std::sync::ledger::Ledger;

/// Unless its condition fails, the sum of its terms differs from its right side.
#[derive(Debug, Drop)]
pub struct LinNe {
    form: Form,
}

impl Model for LinNe {
    ghost use Rattle.dp_rule_linear.specs.Forms.{Linear};

    ghost Value = { Linear };

    ghost view = { λ q. q.form };
}

impl LinNe {
    /// The constraint, or the first refusal that applies: `TooMany` above 2,000,000 terms; `BadTerm` at
    /// the first term whose coefficient is zero or beyond ±10^16, or whose variable is not declared after
    /// that of the term before it; `BadRhs` beyond ±10^36; `BadCondition` where the condition's variable
    /// is also a term's.
    pub fn new(cond: Option<Atom>, terms: Vec<(i64, VarId)>, rhs: i128) -> Result<LinNe, LinRefusal>
        ensures made { IfOk result (λ q. q ≡ form_of cond terms.items rhs) }
        ensures proper { IfOk result IsProper }
        ensures refused { IfErr result (λ refusal. IsRefused refusal (form_of cond terms.items rhs)) }
    {
        let form = Form::new(cond, terms, rhs)?;
        Ok(LinNe { form })
    }

    /// The atom that it waits for, if any.
    pub fn cond(&self) -> Option<Atom>
        ensures { result ≡ self.now.condition }
    {
        self.form.condition()
    }

    /// Its coefficients and variables.
    pub fn terms(&self) -> &[(i64, VarId)]
        ensures { result.now ≡ self.now.terms }
    {
        self.form.terms()
    }

    /// Its right side.
    pub fn rhs(&self) -> i128
        ensures { result ≡ self.now.rhs }
    {
        self.form.rhs()
    }

    /// Its turn at a nonempty state, in a pass up to the second variable with several values, and
    /// where there is none in one pass more for the sum.
    fn turn(&self, state: &State) -> Result<Option<Found>, Memory>
        requires covers { Covers (scope_of self.now) state.now }
        requires alive { is_dead state.now ≡ false }
        ensures { IfOk result (λ turn. turn ≡ turn_of (face_differs self.now) state.now) }
    {
        let terms = self.form.terms();
        match first_open(terms, 0, state) {
            Some(place) => match first_open(terms, place + 1, state) {
                Some(_) => Ok(None),
                None => self.open_turn(place, state),
            },
            None => self.single_turn(state),
        }
    }

    /// Its turn where only the variable of the term at the place has several values.
    fn open_turn(&self, place: usize, state: &State) -> Result<Option<Found>, Memory>
        requires covers { Covers (scope_of self.now) state.now }
        requires alive { is_dead state.now ≡ false }
        requires first { IsFirstOpen state.now self.now.terms 0 place }
        requires rest { AreSingleFrom state.now self.now.terms (place + 1) }
        ensures { IfOk result (λ turn. turn ≡ turn_of (face_differs self.now) state.now) }
    {
        let slack = self.form.slack(state);
        if !self.form.in_force(state) {
            return Ok(None);
        }
        let (coefficient, var) = self.form.terms()[place];
        let number = slack + least_product(coefficient, var, state);
        Ok(found(unequal_atom(coefficient, var, number, state)?))
    }

    /// Its turn where each variable of the terms has one value.
    fn single_turn(&self, state: &State) -> Result<Option<Found>, Memory>
        requires covers { Covers (scope_of self.now) state.now }
        requires alive { is_dead state.now ≡ false }
        requires single { AreSingleFrom state.now self.now.terms 0 }
        ensures { IfOk result (λ turn. turn ≡ turn_of (face_differs self.now) state.now) }
    {
        if self.form.slack(state) != 0 {
            return Ok(None);
        }
        if self.form.in_force(state) {
            return Ok(Some(Found::Clash));
        }
        match self.form.condition() {
            Some(condition) => Ok(found(condition_atom(condition, state)?)),
            None => Ok(None),
        }
    }
}

impl Test for LinNe {
    ghost face = { face_differs };

    ghost clashes = { ClashesDiffers };

    ghost meets = { MeetsDiffers };

    ghost exact = { differs_exact };

    ghost lawful = { differs_lawful };

    ghost sound = { differs_sound };

    ghost deciding = { differs_deciding };

    fn scope_len(&self) -> usize {
        self.form.scope_len()
    }

    fn scope_at(&self, place: usize) -> VarId {
        self.form.scope_at(place)
    }

    fn is_point(&self, var: VarId, _value: i64) -> bool {
        self.form.has_var(var)
    }

    fn clash(&self, state: &State) -> Result<bool, Memory> {
        Ok(
            state.dead()
                || self.form.in_force(state)
                    && self.form.are_single(state)
                    && self.form.least_sum(state) == self.form.rhs(),
        )
    }
}

impl Rule for LinNe {
    fn next<L: Ledger>(
        &self,
        state: &State,
        steps: &mut Steps<L>,
    ) -> Result<Option<Found>, Memory> {
        steps.tick();
        self.turn(state)
    }

    fn explain(
        &self,
        initial: &State,
        work: &mut Scratch,
        now: &State,
        target: Option<Atom>,
    ) -> Result<Vec<Atom>, Memory> {
        search_explanation(self, initial, work, now, target)
    }
}
