// What a state says of variables beyond the initial state, as atoms.

ghost use Rattle.std.specs.Prelude.{◌≡◌, ◌<◌, ◌++◌, false, length, IfOk, OnOk, map};
ghost use Rattle.std.specs.Option.{ForSome};
ghost use Rattle.dp_domain.specs.Explanations.{Describes, bound_atom, described, description, is_less};
ghost use Rattle.dp_domain.specs.Faces.{Covers};
ghost use Rattle.dp_domain.specs.Sets.{IsDomain, IsSmall};
ghost use Rattle.dp_domain.specs.States.{IsWithin, is_dead, values};
ghost use Rattle.dp_domain.specs.Turns.{at_least, at_most, other_than};

use crate::{Atom, Dom, Memory, Op, State, VarId};

/// The atoms of the state on the variables of the scope, one after another.
pub(crate) fn describe(now: &State, initial: &State, scope: &[VarId]) -> Result<Vec<Atom>, Memory>
    requires covers { Covers scope.now now.now }
    requires alive { is_dead now.now ≡ false }
    requires within { IsWithin now.now initial.now }
    ensures atoms { IfOk result (λ atoms. atoms.items ≡ description initial.now now.now scope.now) }
    ensures meaning { IfOk result (λ atoms. Describes initial.now now.now scope.now atoms.items) }
{
    let mut atoms = Vec::new(now.allocator());
    for var in scope {
        push_described(&mut atoms, initial, now, *var)?;
    }
    Ok(atoms)
}

/// The lower bound where it rose, the upper bound where it fell, then the holes between them in ascending order.
fn push_described(
    atoms: &mut Vec<Atom>,
    initial: &State,
    now: &State,
    var: VarId,
) -> Result<(), Memory>
    requires initial { var < length initial.now }
    requires now { var < length now.now }
    ensures atoms { OnOk result (atoms.new.items ≡ atoms.old.items ++ described (values initial.now var) (values now.now var) var) }
    ensures initial { OnOk result (IsDomain (values initial.now var)) }
    ensures now { OnOk result (IsDomain (values now.now var)) }
{
    push_lower(atoms, var, initial.lower(var), now.lower(var))?;
    push_upper(atoms, var, initial.upper(var), now.upper(var))?;
    let holes = now.set(var).holes(initial.set(var))?;
    push_holes(atoms, var, &holes)
}

fn push_lower(
    atoms: &mut Vec<Atom>,
    var: VarId,
    first: Option<i64>,
    lower: Option<i64>,
) -> Result<(), Memory>
    requires { ForSome lower IsSmall }
    ensures { OnOk result (atoms.new.items ≡ atoms.old.items ++ bound_atom (at_least var) (is_less first lower) lower) }
{
    match (first, lower) {
        (Some(first), Some(lower)) if first < lower => atoms.push(Atom::small(var, Op::Ge, lower))?,
        _ => {}
    }
    Ok(())
}

fn push_upper(
    atoms: &mut Vec<Atom>,
    var: VarId,
    last: Option<i64>,
    upper: Option<i64>,
) -> Result<(), Memory>
    requires { ForSome upper IsSmall }
    ensures { OnOk result (atoms.new.items ≡ atoms.old.items ++ bound_atom (at_most var) (is_less upper last) upper) }
{
    match (last, upper) {
        (Some(last), Some(upper)) if upper < last => atoms.push(Atom::small(var, Op::Le, upper))?,
        _ => {}
    }
    Ok(())
}

fn push_holes(atoms: &mut Vec<Atom>, var: VarId, holes: &Dom) -> Result<(), Memory>
    ensures { OnOk result (atoms.new.items ≡ atoms.old.items ++ map (other_than var) holes.now) }
{
    let values = holes.values()?;
    for value in &values {
        atoms.push(Atom::small(var, Op::Ne, *value))?;
    }
    Ok(())
}
