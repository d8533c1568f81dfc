// Sums of terms: their variables, their least values, and whether each term may stand where it does.

ghost use Rattle.std.specs.Prelude.{◌≡◌, ℕ, ◌^◌, ◌<◌, ◌≤◌, ◌↔◌, Some, IfNone, IfSome, IsTrue, MatchOption, length, slice_get, pos, ◌*ℤ◌};
ghost use Rattle.dp_base.specs.Lists.{Among, Climbs, Each};
ghost use Rattle.dp_domain.specs.Sets.{IsDomain, IsSmall};
ghost use Rattle.dp_domain.specs.States.{values};
ghost use Rattle.dp_domain.specs.Conditions.{IsApart};
ghost use Rattle.dp_rule_linear.specs.Bounds.{AreSingleFrom, IsFirstOpen};
ghost use Rattle.dp_rule_linear.specs.Forms.{HaveDomains, IsBounded, IsGoodAt, least_product, least_sum, variables};
ghost use Rattle.dp_rule_linear.specs.Refusals.{IsFirstBad};
ghost use Rattle.dp_base.specs.Scopes.{with_variable};
ghost use Rattle.dp_rule_linear.specs.Differs.{are_single, is_single};

use crate::{Atom, State, VarId};

const LARGEST_COEFFICIENT: i64 = 10_000_000_000_000_000;

/// Whether the term at the place has a good coefficient, and a variable after that of the term before it.
fn is_good_at(terms: &[(i64, VarId)], place: usize) -> bool
    requires { place < length terms.now }
    ensures { IsTrue result ↔ IsGoodAt terms.now place }
{
    let (coefficient, var) = terms[place];
    if coefficient == 0 || coefficient < -LARGEST_COEFFICIENT || coefficient > LARGEST_COEFFICIENT {
        return false;
    }
    if place == 0 {
        return true;
    }
    let (_, previous) = terms[place - 1];
    previous < var
}

/// The place of the first term that is not good; None where each is.
pub fn first_bad(terms: &[(i64, VarId)]) -> Option<usize>
    ensures { MatchOption result ((k : ℕ) → k < length terms.now → IsGoodAt terms.now k) (IsFirstBad terms.now) }
{
    for place in 0..terms.len() {
        if !is_good_at(terms, place) {
            return Some(place);
        }
    }
    None
}

/// Whether the variable is one of the terms'.
pub fn has_variable(terms: &[(i64, VarId)], var: VarId) -> bool
    ensures { IsTrue result ↔ Among var (variables terms.now) }
{
    for (_, other) in terms {
        if *other == var {
            return true;
        }
    }
    false
}

/// The product of a coefficient and a value.
fn product(coefficient: i64, value: i64) -> i128
    requires coefficient { IsBounded (10 ^ 16) coefficient }
    requires value { IsSmall value }
    ensures product { result ≡ coefficient *ℤ value }
    ensures bounded { IsBounded (10 ^ 25) result }
{
    i128::from(coefficient) * i128::from(value)
}

/// The value of the variable at which its product with the coefficient is least; None where it has no value.
fn least_at(coefficient: i64, var: VarId, state: &State) -> Option<i64>
    requires { var < length state.now }
    ensures none { IfNone result (least_product state.now (coefficient, var) ≡ pos 0) }
    ensures least { IfSome result (λ v. coefficient *ℤ v ≡ least_product state.now (coefficient, var)) }
    ensures small { IfSome result IsSmall }
    ensures domain { IsDomain (values state.now var) }
{
    if coefficient > 0 {
        state.lower(var)
    } else {
        state.upper(var)
    }
}

/// The least value of the coefficient times the variable; 0 where the variable has no value.
pub fn least_product(coefficient: i64, var: VarId, state: &State) -> i128
    requires bounded { IsBounded (10 ^ 16) coefficient }
    requires covered { var < length state.now }
    ensures least { result ≡ least_product state.now (coefficient, var) }
    ensures bounded { IsBounded (10 ^ 25) result }
    ensures domain { IsDomain (values state.now var) }
{
    match least_at(coefficient, var, state) {
        Some(value) => product(coefficient, value),
        None => 0,
    }
}

/// The sum of each term's least value; 0 stands for that of a variable without values.
pub fn least_sum(terms: &[(i64, VarId)], state: &State) -> i128
    requires few { length terms.now ≤ 2000000 }
    requires good { (k : ℕ) → k < length terms.now → IsGoodAt terms.now k }
    requires covered { Each (λ x. x < length state.now) (variables terms.now) }
    ensures sum { result ≡ least_sum state.now terms.now }
    ensures bounded { IsBounded (10 ^ 32) result }
    ensures domains { HaveDomains terms.now state.now }
{
    let mut sum = 0;
    for (coefficient, var) in terms {
        sum += least_product(*coefficient, *var, state);
    }
    sum
}

/// Whether each variable of the terms has one value.
pub fn are_single(terms: &[(i64, VarId)], state: &State) -> bool
    requires { Each (λ x. x < length state.now) (variables terms.now) }
    ensures { result ≡ are_single state.now terms.now }
{
    for (_, var) in terms {
        if !is_single(*var, state) {
            return false;
        }
    }
    true
}

/// The place of the first term from a place on whose variable has not one value; None where each has.
pub fn first_open(terms: &[(i64, VarId)], start: usize, state: &State) -> Option<usize>
    requires { Each (λ x. x < length state.now) (variables terms.now) }
    ensures { MatchOption result (AreSingleFrom state.now terms.now start) (IsFirstOpen state.now terms.now start) }
{
    for place in start..terms.len() {
        let (_, var) = terms[place];
        if !is_single(var, state) {
            return Some(place);
        }
    }
    None
}

/// Whether the variable has one value.
pub fn is_single(var: VarId, state: &State) -> bool
    requires { var < length state.now }
    ensures single { result ≡ is_single (values state.now var) }
    ensures domain { IsDomain (values state.now var) }
{
    match (state.lower(var), state.upper(var)) {
        (Some(lower), Some(upper)) => lower == upper,
        _ => false,
    }
}

/// Whether the condition's variable is none of the terms'.
pub fn is_apart(condition: &Option<Atom>, terms: &[(i64, VarId)]) -> bool
    ensures { IsTrue result ↔ IsApart condition.now (variables terms.now) }
{
    match condition {
        Some(condition) => !has_variable(terms, condition.var()),
        None => true,
    }
}

/// The variable at the place, where the variable `added` has its place among those of the terms.
pub fn at_with(added: VarId, terms: &[(i64, VarId)], place: usize) -> VarId
    requires climbs { Climbs (variables terms.now) }
    requires apart { ¬ (Among added (variables terms.now)) }
    requires place { place ≤ length terms.now }
    ensures { slice_get (with_variable added (variables terms.now)) place ≡ Some result }
{
    if place < terms.len() {
        let (_, var) = terms[place];
        if var < added {
            return var;
        }
    }
    if place == 0 {
        return added;
    }
    let (_, var) = terms[place - 1];
    if var < added { added } else { var }
}
