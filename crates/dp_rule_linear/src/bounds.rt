// The bounds that follow from a sum of at most a number.

ghost use Rattle.std.specs.Prelude.{◌≡◌, ◌≢◌, ℕ, ◌<◌, ◌^◌, ◌≤ℤ◌, length, pos};
ghost use Rattle.dp_base.specs.Lists.{Each};
ghost use Rattle.dp_domain.specs.States.{values};
ghost use Rattle.dp_domain.specs.Supports.{bound_by};
ghost use Rattle.dp_rule_linear.specs.Bounds.{first_bound, fitting, near_greatest, near_least};
ghost use Rattle.dp_rule_linear.specs.Forms.{IsBounded, IsGoodAt, variables};

use crate::{Atom, State, VarId};
use dp_domain::Op;

/// The bound on the first of the terms' variables that gets one, where the sum of the least values is
/// so much below the number.
pub fn first_bound(terms: &[(i64, VarId)], slack: i128, state: &State) -> Option<Atom>
    requires good { (k : ℕ) → k < length terms.now → IsGoodAt terms.now k }
    requires covered { Each (λ x. x < length state.now) (variables terms.now) }
    requires slack { pos 0 ≤ℤ slack }
    requires bounded { IsBounded (10 ^ 37) slack }
    ensures { result ≡ first_bound slack state.now terms.now }
{
    for (coefficient, var) in terms {
        let bound = term_bound(*coefficient, *var, slack, state);
        if bound.is_some() {
            return bound;
        }
    }
    None
}

/// The bound that leaves the term at most so much above its least value.
fn term_bound(coefficient: i64, var: VarId, slack: i128, state: &State) -> Option<Atom>
    requires not_zero { coefficient ≢ pos 0 }
    requires bounded { IsBounded (10 ^ 16) coefficient }
    requires covered { var < length state.now }
    requires slack { pos 0 ≤ℤ slack }
    requires slack_bounded { IsBounded (10 ^ 37) slack }
    ensures { result ≡ bound_by (values state.now var) (fitting slack state.now (coefficient, var)) var }
{
    let coefficient = i128::from(coefficient);
    if coefficient > 0 {
        bound_above(var, slack / coefficient, state)
    } else {
        bound_below(var, slack / -coefficient, state)
    }
}

/// The upper bound that leaves the values at most so much above the least.
fn bound_above(var: VarId, room: i128, state: &State) -> Option<Atom>
    requires covered { var < length state.now }
    requires room { pos 0 ≤ℤ room }
    requires bounded { IsBounded (10 ^ 37) room }
    ensures { result ≡ bound_by (values state.now var) (near_least room (values state.now var)) var }
{
    let lower = state.lower(var)?;
    let upper = state.upper(var)?;
    let limit = i128::from(lower) + room;
    if limit >= i128::from(upper) {
        return None;
    }
    let last = state.set(var).greatest_to(limit as i64)?;
    Atom::new(var, Op::Le, last)
}

/// The lower bound that leaves the values at most so much below the greatest.
fn bound_below(var: VarId, room: i128, state: &State) -> Option<Atom>
    requires covered { var < length state.now }
    requires room { pos 0 ≤ℤ room }
    requires bounded { IsBounded (10 ^ 37) room }
    ensures { result ≡ bound_by (values state.now var) (near_greatest room (values state.now var)) var }
{
    let lower = state.lower(var)?;
    let upper = state.upper(var)?;
    let limit = i128::from(upper) - room;
    if limit <= i128::from(lower) {
        return None;
    }
    let first = state.set(var).least_from(limit as i64)?;
    Atom::new(var, Op::Ge, first)
}
