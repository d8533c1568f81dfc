// What follows from a sum other than a number for the one variable that has several values.

ghost use Rattle.std.specs.Prelude.{◌≡◌, ◌≢◌, ◌<◌, ◌^◌, ◌*ℤ◌, ℤ, IfOk, MatchOption, filter, length, pos};
ghost use Rattle.dp_domain.specs.Atoms.{meets};
ghost use Rattle.dp_domain.specs.Sets.{IsDomain, IsSmall};
ghost use Rattle.dp_domain.specs.States.{values};
ghost use Rattle.dp_domain.specs.Turns.{other_than};
ghost use Rattle.dp_rule_linear.specs.Bounds.{atom_by, unequal};
ghost use Rattle.dp_rule_linear.specs.Forms.{IsBounded};

use crate::{Atom, Memory, State, VarId};
use dp_domain::{Dom, Op, supported_bound};

const LARGEST_VALUE: i128 = 1_000_000_000;

/// The atom that leaves the variable the values at which the term is not the number.
pub fn unequal_atom(
    coefficient: i64,
    var: VarId,
    number: i128,
    state: &State,
) -> Result<Option<Atom>, Memory>
    requires not_zero { coefficient ≢ pos 0 }
    requires bounded { IsBounded (10 ^ 16) coefficient }
    requires covered { var < length state.now }
    requires domain { IsDomain (values state.now var) }
    requires number { IsBounded (10 ^ 38) number }
    ensures { IfOk result (λ atom. atom ≡ atom_by (values state.now var) (unequal number state.now (coefficient, var)) var) }
{
    match quotient(coefficient, number) {
        Some(value) => other_atom(var, value, state),
        None => Ok(None),
    }
}

/// The value at which its product with the coefficient is the number; None where no value of a
/// domain is that.
fn quotient(coefficient: i64, number: i128) -> Option<i64>
    requires not_zero { coefficient ≢ pos 0 }
    requires bounded { IsBounded (10 ^ 16) coefficient }
    requires number { IsBounded (10 ^ 38) number }
    ensures { MatchOption result ((v : ℤ) → IsSmall v → coefficient *ℤ v ≢ number) (λ v. IsSmall v × (coefficient *ℤ v ≡ number)) }
{
    let coefficient = i128::from(coefficient);
    let value = number / coefficient;
    if number % coefficient != 0 || value < -LARGEST_VALUE || value > LARGEST_VALUE {
        return None;
    }
    Some(value as i64)
}

/// The atom that leaves the variable the values other than this.
fn other_atom(var: VarId, value: i64, state: &State) -> Result<Option<Atom>, Memory>
    requires covered { var < length state.now }
    requires small { IsSmall value }
    ensures { IfOk result (λ atom. atom ≡ atom_by (values state.now var) (filter (meets (other_than var value)) (values state.now var)) var) }
{
    let set = state.set(var);
    match Atom::new(var, Op::Ne, value) {
        Some(atom) if !set.entails(atom) => {
            let mut good = set.copy()?;
            good.exclude(atom)?;
            supported_atom(var, set, &good)
        }
        _ => Ok(None),
    }
}

/// The bound that the supported values give, or else the least value that is not supported.
pub fn supported_atom(var: VarId, set: &Dom, good: &Dom) -> Result<Option<Atom>, Memory>
    ensures { IfOk result (λ atom. atom ≡ atom_by set.now good.now var) }
{
    let bound = supported_bound(var, set, good);
    if bound.is_some() {
        return Ok(bound);
    }
    let others = set.without(good)?;
    match others.lower() {
        Some(value) => Ok(Atom::new(var, Op::Ne, value)),
        None => Ok(None),
    }
}
