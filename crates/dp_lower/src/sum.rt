//! Weighted sums in their normal form.

ghost use Rattle.std.specs.Prelude.{◌≡◌, ◌++◌, ◌∷◌, [], ◌^◌, ◌≤◌, IfOk, OnOk, length, map, neg_ℤ, pos, unwrap_or, ◌*ℤ◌};
ghost use Rattle.std.specs.BTreeMap.{get};
ghost use Rattle.std.specs.Ordering.{nat_cmp};
ghost use Rattle.dp_base.specs.Lists.{Climbs, Each};
ghost use Rattle.dp_domain.specs.Sets.{IsSmall};
ghost use Rattle.dp_rule_linear.specs.Forms.{IsBounded, variables};
ghost use Rattle.dp_lower.specs.Merged.{IsMerged, IsWord, sum_in, terms_in};
ghost use Rattle.dp_lower.specs.Sums.{nonzero, opposite, plus, sum_of, with_term};

use dp_domain::{Memory, Term, VarId};
use std::alloc::Global;
use std::collections::BTreeMap;
use std::marker::Model;

/// A weighted sum of variables, each once, in order of declaration, and a number.
#[derive(Debug, Drop)]
pub struct LinearSum {
    terms: Vec<(i64, VarId)>,
    constant: i128,
}

impl Model for LinearSum {
    ghost use Rattle.dp_lower.specs.Sums.{Sum};

    ghost Value = { Sum };

    ghost view = { λ q. record { terms = q.terms.items; constant = q.constant } };
}

impl LinearSum {
    /// The sum of multiples of these terms.
    pub fn of(alloc: Global, terms: &[(i64, Term)]) -> Result<LinearSum, Memory>
        requires few { length terms.now ≤ 2000000 }
        requires small { Each (λ t. IsSmall t.0) terms.now }
        ensures sum { IfOk result (λ q. q ≡ sum_of terms.now) }
        ensures merged { IfOk result (λ q. IsMerged 2000000 q) }
    {
        let (coefficients, constant) = summed(alloc, terms)?;
        let terms = listed(alloc, &coefficients)?;
        Ok(LinearSum { terms, constant })
    }

    /// Each coefficient and the number negated.
    pub fn negated(&self) -> Result<LinearSum, Memory>
        requires { IsMerged 2000000 self.now }
        ensures sum { IfOk result (λ q. q ≡ opposite self.now) }
        ensures merged { IfOk result (λ q. IsMerged 2000000 q) }
    {
        let terms = negated(&self.terms)?;
        Ok(LinearSum {
            terms,
            constant: -self.constant,
        })
    }

    /// The terms whose coefficient is not zero.
    pub fn nonzero(&self) -> Result<Vec<(i64, VarId)>, Memory>
        ensures { IfOk result (λ terms. terms.items ≡ nonzero self.now.terms) }
    {
        nonzero(&self.terms)
    }

    /// Its number.
    pub fn constant(&self) -> i128
        ensures { result ≡ self.now.constant }
    {
        self.constant
    }
}

/// The coefficient of each variable, and the number.
fn summed(alloc: Global, terms: &[(i64, Term)]) -> Result<(BTreeMap<u32, i64>, i128), Memory>
    requires few { length terms.now ≤ 2000000 }
    requires small { Each (λ t. IsSmall t.0) terms.now }
    ensures sum { IfOk result (λ r. sum_in r.0.entries r.1 ≡ sum_of terms.now) }
    ensures merged { IfOk result (λ r. IsMerged 2000000 (sum_in r.0.entries r.1)) }
{
    let mut coefficients = BTreeMap::new(alloc);
    let mut constant: i128 = 0;
    for (coefficient, term) in terms {
        add(&mut coefficients, &mut constant, *coefficient, *term)?;
    }
    Ok((coefficients, constant))
}

/// Adds a multiple of a term.
fn add(
    coefficients: &mut BTreeMap<u32, i64>,
    constant: &mut i128,
    coefficient: i64,
    term: Term,
) -> Result<(), Memory>
    requires merged { IsMerged 2000000 (sum_in coefficients.old.entries constant.old) }
    requires small { IsSmall coefficient }
    ensures sum { OnOk result (sum_in coefficients.new.entries constant.new ≡ plus (sum_in coefficients.old.entries constant.old) coefficient term) }
    ensures word { OnOk result (IsWord term) }
{
    match term {
        Term::Var(var) => add_variable(coefficients, coefficient, var.0),
        Term::Const(value) => {
            *constant += product(coefficient, value);
            Ok(())
        }
    }
}

/// Adds to the coefficient of a variable.
fn add_variable(
    coefficients: &mut BTreeMap<u32, i64>,
    coefficient: i64,
    var: u32,
) -> Result<(), Memory>
    requires bounded { Each (λ t. IsBounded (10 ^ 16) t.0) (terms_in coefficients.old.entries) }
    requires climbing { Climbs (variables (terms_in coefficients.old.entries)) }
    requires small { IsSmall coefficient }
    ensures { OnOk result (terms_in coefficients.new.entries ≡ with_term (coefficient, var) (terms_in coefficients.old.entries)) }
{
    let before = coefficient_of(coefficients, var);
    coefficients.insert(var, before + coefficient)?;
    Ok(())
}

/// The coefficient of a variable, 0 where it has none.
fn coefficient_of(coefficients: &BTreeMap<u32, i64>, var: u32) -> i64
    requires { Each (λ t. IsBounded (10 ^ 16) t.0) (terms_in coefficients.now.entries) }
    ensures coefficient { result ≡ unwrap_or (get nat_cmp coefficients.now var) (pos 0) }
    ensures bounded { IsBounded (10 ^ 16) result }
{
    coefficients.get(&var).copied().unwrap_or(0)
}

/// The product of a coefficient and a number.
fn product(coefficient: i64, value: i64) -> i128
    requires { IsSmall coefficient }
    ensures product { result ≡ coefficient *ℤ value }
    ensures bounded { IsBounded 10000000000000000000000000000 result }
    ensures word { IsBounded 10000000000000000000 value }
{
    i128::from(coefficient) * i128::from(value)
}

/// The terms of these coefficients, in order of declaration.
fn listed(alloc: Global, coefficients: &BTreeMap<u32, i64>) -> Result<Vec<(i64, VarId)>, Memory>
    ensures { IfOk result (λ terms. terms.items ≡ terms_in coefficients.now.entries) }
{
    Ok(
        coefficients
            .iter()
            .map(|(var, coefficient)| (*coefficient, VarId(*var)))
            .collect(alloc)?,
    )
}

/// The terms, each with its coefficient negated.
fn negated(terms: &Vec<(i64, VarId)>) -> Result<Vec<(i64, VarId)>, Memory>
    requires { Each (λ t. IsBounded (10 ^ 16) t.0) terms.now.items }
    ensures { IfOk result (λ negated. negated.items ≡ map (λ t. (neg_ℤ t.0, t.1)) terms.now.items) }
{
    let mut negated = Vec::new(*terms.allocator());
    for (coefficient, var) in terms {
        push_negated(&mut negated, *coefficient, *var)?;
    }
    Ok(negated)
}

/// The terms whose coefficient is not zero.
fn nonzero(terms: &Vec<(i64, VarId)>) -> Result<Vec<(i64, VarId)>, Memory>
    ensures { IfOk result (λ kept. kept.items ≡ nonzero terms.now.items) }
{
    let mut kept = Vec::new(*terms.allocator());
    for (coefficient, var) in terms {
        push_nonzero(&mut kept, *coefficient, *var)?;
    }
    Ok(kept)
}

/// Adds the term, its coefficient negated.
fn push_negated(terms: &mut Vec<(i64, VarId)>, coefficient: i64, var: VarId) -> Result<(), Memory>
    requires { IsBounded (10 ^ 16) coefficient }
    ensures { OnOk result (terms.new.items ≡ terms.old.items ++ (neg_ℤ coefficient, var) ∷ []) }
{
    terms.push((-coefficient, var))?;
    Ok(())
}

/// Adds the term where its coefficient is not zero.
fn push_nonzero(terms: &mut Vec<(i64, VarId)>, coefficient: i64, var: VarId) -> Result<(), Memory>
    ensures { OnOk result (terms.new.items ≡ terms.old.items ++ nonzero ((coefficient, var) ∷ [])) }
{
    if coefficient != 0 {
        terms.push((coefficient, var))?;
    }
    Ok(())
}
