// What follows for the variable of a condition that has to fail.

ghost use Rattle.std.specs.Prelude.{◌≡◌, ◌<◌, IfOk, false, length};
ghost use Rattle.dp_domain.specs.Sets.{IsDomain};
ghost use Rattle.dp_domain.specs.States.{entails, values};
ghost use Rattle.dp_domain.specs.Supports.{bound_by};
ghost use Rattle.dp_rule_linear.specs.Bounds.{atom_by, failing_values};

use crate::unequal::supported_atom;
use crate::{Atom, Memory, State, sums};
use dp_domain::{Dom, supported_bound};

/// The bound on the condition's variable, by the values that fail the condition.
pub fn condition_bound(condition: Atom, state: &State) -> Result<Option<Atom>, Memory>
    requires covered { condition.var < length state.now }
    requires open_ { entails state.now condition ≡ false }
    ensures bound { IfOk result (λ bound. bound ≡ bound_by (values state.now condition.var) (failing_values state.now condition) condition.var) }
    ensures domain { IfOk result (λ bound. IsDomain (values state.now condition.var)) }
{
    let var = condition.var();
    if sums::is_single(var, state) {
        return Ok(None);
    }
    let failing = failing_values(condition, state)?;
    Ok(supported_bound(var, state.set(var), &failing))
}

/// The bound on the condition's variable, or else the hole, by the values that fail the condition.
pub fn condition_atom(condition: Atom, state: &State) -> Result<Option<Atom>, Memory>
    requires covered { condition.var < length state.now }
    requires open_ { entails state.now condition ≡ false }
    ensures atom { IfOk result (λ atom. atom ≡ atom_by (values state.now condition.var) (failing_values state.now condition) condition.var) }
    ensures domain { IfOk result (λ atom. IsDomain (values state.now condition.var)) }
{
    let var = condition.var();
    if sums::is_single(var, state) {
        return Ok(None);
    }
    let failing = failing_values(condition, state)?;
    supported_atom(var, state.set(var), &failing)
}

/// The values of the condition's variable that fail it.
fn failing_values(condition: Atom, state: &State) -> Result<Dom, Memory>
    requires { condition.var < length state.now }
    ensures { IfOk result (λ set. set ≡ failing_values state.now condition) }
{
    let mut set = state.set(condition.var()).copy()?;
    set.exclude(condition.negated())?;
    Ok(set)
}
