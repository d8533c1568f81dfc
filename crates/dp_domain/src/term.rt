// Terms: a variable, or a number that stands where a variable may.

ghost use Rattle.std.specs.Prelude.{◌≡◌, IfOk, IsTrue, length, ◌↔◌};
ghost use Rattle.dp_base.specs.Lists.{Among};
ghost use Rattle.dp_domain.specs.Sets.{greatest, least, share};
ghost use Rattle.dp_domain.specs.Terms.{IsTermOf, term_scope, term_values, term_variables, variable_of};

use crate::{Dom, Memory, State, VarId};
use std::alloc::Global;

/// A variable, or a number, which counts as a variable whose set is that one number.
#[derive(Clone, Copy, Debug, PartialEq, Eq)]
pub enum Term {
    Var(VarId),
    Const(i64),
}

impl Term {
    /// The least value of the term at the state; None exactly where it has none.
    pub fn lower(self, state: &State) -> Option<i64>
        requires { IsTermOf (length state.now) self }
        ensures { result ≡ least (term_values state.now self) }
    {
        match self {
            Term::Var(var) => state.lower(var),
            Term::Const(value) => Some(value),
        }
    }

    /// The greatest value of the term at the state; None exactly where it has none.
    pub fn upper(self, state: &State) -> Option<i64>
        requires { IsTermOf (length state.now) self }
        ensures { result ≡ greatest (term_values state.now self) }
    {
        match self {
            Term::Var(var) => state.upper(var),
            Term::Const(value) => Some(value),
        }
    }

    /// Whether the term may be this number at the state.
    pub fn has(self, state: &State, number: i64) -> bool
        requires { IsTermOf (length state.now) self }
        ensures { IsTrue result ↔ Among number (term_values state.now self) }
    {
        match self {
            Term::Var(var) => state.has(var, number),
            Term::Const(value) => value == number,
        }
    }

    /// Whether some number is a value of both terms at the state.
    pub fn shares(self, state: &State, other: Term) -> bool
        requires first { IsTermOf (length state.now) self }
        requires second { IsTermOf (length state.now) other }
        ensures { result ≡ share (term_values state.now self) (term_values state.now other) }
    {
        match self {
            Term::Var(var) => other.shares_with(state, state.set(var)),
            Term::Const(value) => other.has(state, value),
        }
    }

    /// Whether some value of the term at the state is in the set.
    fn shares_with(self, state: &State, set: &Dom) -> bool
        requires { IsTermOf (length state.now) self }
        ensures { result ≡ share set.now (term_values state.now self) }
    {
        match self {
            Term::Var(var) => set.shares(state.set(var)),
            Term::Const(value) => set.has(value),
        }
    }

    /// Its variable, if it is one.
    pub fn variable(self) -> Option<VarId>
        ensures { result ≡ variable_of self }
    {
        match self {
            Term::Var(var) => Some(var),
            Term::Const(_) => None,
        }
    }
}

/// The variables of the terms, each once, in order of declaration.
pub fn term_scope(alloc: Global, terms: &[Term]) -> Result<Vec<VarId>, Memory>
    ensures { IfOk result (λ scope. scope.items ≡ term_scope terms.now) }
{
    let mut scope = term_variables(alloc, terms)?;
    scope.sort_unstable();
    scope.dedup();
    Ok(scope)
}

/// The variables among the terms, as often as they stand there.
fn term_variables(alloc: Global, terms: &[Term]) -> Result<Vec<VarId>, Memory>
    ensures { IfOk result (λ list. list.items ≡ term_variables terms.now) }
{
    Ok(
        terms
            .iter()
            .filter_map(|term| term.variable())
            .collect(alloc)?,
    )
}
