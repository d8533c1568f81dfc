// Decisions.

ghost use Rattle.std.specs.Prelude.{◌≡◌, ◌<◌, ◌∷◌, [], false, length, IfSome, IfNone};
ghost use Rattle.dp_domain.specs.States.{is_dead, values};
ghost use Rattle.dp_solver.specs.Descents.{IsFixed, IsOpenAt, lowest};

use dp_domain::{Atom, Op, State, VarId};

/// That the first variable with several values is its least; None where each has one.
pub(crate) fn decision(state: &State) -> Option<Atom>
    ensures decision { IfSome result (IsOpenAt state.now) }
    ensures none { IfNone result (is_dead state.now ≡ false → IsFixed state.now) }
{
    for place in 0..state.len() {
        let atom = decision_on(state, VarId(place as u32));
        if atom.is_some() {
            return atom;
        }
    }
    None
}

/// That the variable is its least value, where it has several.
fn decision_on(state: &State, var: VarId) -> Option<Atom>
    requires { var < length state.now }
    ensures decision { IfSome result (IsOpenAt state.now) }
    ensures none { IfNone result (is_dead state.now ≡ false → values state.now var ≡ lowest (values state.now var) ∷ []) }
{
    match (state.lower(var), state.upper(var)) {
        (Some(lower), Some(upper)) if lower < upper => Atom::new(var, Op::Le, lower),
        _ => None,
    }
}
