// States of a few variables.

ghost use Rattle.std.specs.Prelude.{◌≡◌, ◌^◌, ◌<◌, IfOk, OnOk, length};
ghost use Rattle.dp_domain.specs.States.{IsWithin};

use dp_domain::{Atom, Dom, Memory, State, VarId};
use std::alloc::Global;

/// The largest number that a domain may have.
pub const LARGEST: i64 = 1_000_000_000;

/// The numbers from the first to the last, each end moved to ±10^9 where it lies beyond.
pub fn range(alloc: Global, (first, last): (i64, i64)) -> Result<Dom, Memory> {
    Dom::range(
        alloc,
        first.clamp(-LARGEST, LARGEST),
        last.clamp(-LARGEST, LARGEST),
    )
}

/// For each pair of ends a variable with the numbers between them.
pub fn state_of(alloc: Global, ends: &[(i64, i64)]) -> Result<State, Memory>
    requires { length ends.now < 2 ^ 32 }
    ensures { IfOk result (λ state. length state ≡ length ends.now) }
{
    let mut sets = Vec::new(alloc);
    for pair in ends {
        sets.push(range(alloc, *pair)?)?;
    }
    Ok(State::new(sets))
}

/// The state cut by each of the atoms whose variable it has.
pub fn cut_by(initial: &State, atoms: &[Atom]) -> Result<State, Memory>
    ensures { IfOk result (λ now. IsWithin now initial.now) }
{
    let mut now = initial.copy()?;
    for atom in atoms {
        cut(&mut now, *atom)?;
    }
    Ok(now)
}

// Cuts the state by the atom, where its variable is there.
fn cut(state: &mut State, atom: Atom) -> Result<(), Memory>
    ensures { OnOk result (IsWithin state.new state.old) }
{
    let VarId(var) = atom.var();
    if var as usize >= state.len() {
        return Ok(());
    }
    state.exclude(atom)?;
    Ok(())
}
