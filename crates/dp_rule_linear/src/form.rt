// What the two kinds share: a condition, terms and a number.

ghost use Rattle.std.specs.Prelude.{◌≡◌, ℕ, ◌+◌, ◌<◌, ◌==◌, Some, IfOk, IfErr, length, slice_get, ◌^◌, ◌-ℤ◌};
ghost use Rattle.std.specs.List.{list_any};
ghost use Rattle.dp_base.specs.Lists.{Each};
ghost use Rattle.dp_domain.specs.Faces.{Covers};
ghost use Rattle.dp_domain.specs.Conditions.{IsApart, in_force};
ghost use Rattle.dp_rule_linear.specs.Forms.{HaveDomains, IsBounded, IsProper, Linear, form_of, least_sum, scope_of, variables};
ghost use Rattle.dp_rule_linear.specs.Differs.{are_single};
ghost use Rattle.dp_rule_linear.specs.Refusals.{IsRefused};

use crate::{Atom, LinRefusal, State, VarId, sums};
use std::marker::Model;

const MOST_TERMS: usize = 2_000_000;

const LARGEST_RHS: i128 = 1_000_000_000_000_000_000_000_000_000_000_000_000;

/// A condition, terms with their variables in order of declaration, and a number.
#[derive(Debug, Drop)]
pub struct Form {
    condition: Option<Atom>,
    terms: Vec<(i64, VarId)>,
    rhs: i128,
}

impl Model for Form {
    ghost use Rattle.dp_rule_linear.specs.Forms.{Linear, IsProper, form_of};

    ghost Value = { Linear };

    ghost view = { λ f. form_of f.condition f.terms.items f.rhs };

    ghost invariant = { λ f. IsProper (form_of f.condition f.terms.items f.rhs) };
}

impl Form {
    /// The form, or the first refusal that applies.
    pub fn new(
        condition: Option<Atom>,
        terms: Vec<(i64, VarId)>,
        rhs: i128,
    ) -> Result<Form, LinRefusal>
        ensures form { IfOk result (λ q. q ≡ form_of condition terms.items rhs) }
        ensures proper { IfOk result IsProper }
        ensures refused { IfErr result (λ refusal. IsRefused refusal (form_of condition terms.items rhs)) }
    {
        if terms.len() > MOST_TERMS {
            return Err(LinRefusal::TooMany);
        }
        if let Some(place) = sums::first_bad(&terms) {
            return Err(LinRefusal::BadTerm(place));
        }
        if rhs < -LARGEST_RHS || rhs > LARGEST_RHS {
            return Err(LinRefusal::BadRhs);
        }
        if !sums::is_apart(&condition, &terms) {
            return Err(LinRefusal::BadCondition);
        }
        Ok(Form {
            condition,
            terms,
            rhs,
        })
    }

    /// Its condition.
    pub fn condition(&self) -> Option<Atom>
        ensures { result ≡ self.now.condition }
    {
        self.condition
    }

    /// Its terms.
    pub fn terms(&self) -> &[(i64, VarId)]
        ensures terms { result.now ≡ self.now.terms }
        ensures proper { IsProper self.now }
    {
        self.terms.as_slice()
    }

    /// Its number.
    pub fn rhs(&self) -> i128
        ensures { result ≡ self.now.rhs }
    {
        self.rhs
    }

    /// The number of its variables.
    pub fn scope_len(&self) -> usize
        ensures { result ≡ length (scope_of self.now) }
    {
        match self.condition {
            Some(_) => self.terms.len() + 1,
            None => self.terms.len(),
        }
    }

    /// The variable at a place of its scope.
    pub fn scope_at(&self, place: usize) -> VarId
        requires { place < length (scope_of self.now) }
        ensures { slice_get (scope_of self.now) place ≡ Some result }
    {
        match self.condition {
            Some(condition) => sums::at_with(condition.var(), &self.terms, place),
            None => {
                let (_, var) = self.terms[place];
                var
            }
        }
    }

    /// Whether the variable is one of its own.
    pub fn has_var(&self, var: VarId) -> bool
        ensures { result ≡ list_any (λ y. var == y) (scope_of self.now) }
    {
        for place in 0..self.scope_len() {
            if self.scope_at(place) == var {
                return true;
            }
        }
        false
    }

    /// Whether its condition is absent or entailed.
    pub fn in_force(&self, state: &State) -> bool
        requires { Covers (scope_of self.now) state.now }
        ensures { result ≡ in_force state.now self.now.condition }
    {
        match self.condition {
            Some(condition) => state.entails(condition),
            None => true,
        }
    }

    /// The sum of each term's least value.
    pub fn least_sum(&self, state: &State) -> i128
        requires { Covers (scope_of self.now) state.now }
        ensures { result ≡ least_sum state.now self.now.terms }
    {
        sums::least_sum(&self.terms, state)
    }

    /// How much the sum of each term's least value is below the number.
    pub fn slack(&self, state: &State) -> i128
        requires { Covers (scope_of self.now) state.now }
        ensures slack { result ≡ self.now.rhs -ℤ least_sum state.now self.now.terms }
        ensures bounded { IsBounded (10 ^ 37) result }
        ensures domains { HaveDomains self.now.terms state.now }
        ensures proper { IsProper self.now }
    {
        self.rhs - sums::least_sum(&self.terms, state)
    }

    /// Whether each variable of its terms has one value.
    pub fn are_single(&self, state: &State) -> bool
        requires { Covers (scope_of self.now) state.now }
        ensures { result ≡ are_single state.now self.now.terms }
    {
        sums::are_single(&self.terms, state)
    }
}
