// The turn where each variable is the start of one task alone.

ghost use Rattle.std.specs.Prelude.{◌≡◌, ◌<◌, false, length, IfOk};
ghost use Rattle.dp_domain.specs.States.{is_dead};
ghost use Rattle.dp_domain.specs.Terms.{AreTermsOf, IsTermOf, term_scope, term_variables};
ghost use Rattle.dp_domain.specs.Turns.{given, turn_of};
ghost use Rattle.dp_rule_cumulative.specs.Profiles.{AreDistinct, TakesBound, TakesOn, is_before, parts_of};
ghost use Rattle.dp_rule_cumulative.specs.Schedules.{schedule, starts};
ghost use Rattle.dp_rule_cumulative.specs.TimeTable.{face_cumulative, test_cumulative};

use crate::bound::bound;
use crate::profile::{Profile, is_exceeded, parts_of};
use crate::{Atom, Found, Memory, State, Task, Term, VarId};

/// How many tasks start at a variable.
pub fn variable_count(tasks: &[Task]) -> usize
    ensures { result ≡ length (term_variables (starts tasks.now)) }
{
    let mut count = 0;
    for task in tasks {
        if task.start.variable().is_some() {
            count += 1;
        }
    }
    count
}

/// The turn, where each variable is the start of one task.
pub fn turn(tasks: &[Task], capacity: u64, state: &State) -> Result<Option<Found>, Memory>
    requires starts { AreTermsOf (length state.now) (starts tasks.now) }
    requires alive { is_dead state.now ≡ false }
    requires distinct { AreDistinct (term_variables (starts tasks.now)) }
    ensures { IfOk result (λ turn. turn ≡ turn_of (face_cumulative (schedule tasks.now capacity)) state.now) }
{
    let parts = parts_of(tasks, state)?;
    if is_exceeded(parts.as_slice(), capacity) {
        return Ok(Some(Found::Clash));
    }
    let profile = Profile::new(parts)?;
    match first_bound(tasks, &profile, capacity, state) {
        Some(atom) => Ok(Some(Found::Atom(atom))),
        None => Ok(None),
    }
}

/// The bound on the least variable that one is given on.
fn first_bound(tasks: &[Task], profile: &Profile, capacity: u64, state: &State) -> Option<Atom>
    requires starts { AreTermsOf (length state.now) (starts tasks.now) }
    requires alive { is_dead state.now ≡ false }
    requires distinct { AreDistinct (term_variables (starts tasks.now)) }
    requires profile { profile.now ≡ parts_of state.now tasks.now }
    requires calm { test_cumulative (schedule tasks.now capacity) state.now ≡ false }
    ensures { result ≡ given (face_cumulative (schedule tasks.now capacity)) state.now (term_scope (starts tasks.now)) }
{
    let mut first = None;
    for task in tasks {
        first = with_bound(first, task, profile, capacity, state);
    }
    first
}

/// The atom, or the bound on the start of the task where it is on a lesser variable.
fn with_bound(
    first: Option<Atom>,
    task: &Task,
    profile: &Profile,
    capacity: u64,
    state: &State,
) -> Option<Atom>
    requires { IsTermOf (length state.now) task.now.start }
    ensures { TakesBound capacity profile.now state.now task.now task.now.start first result }
{
    match task.start {
        Term::Var(var) => with_bound_on(first, var, task, profile, capacity, state),
        Term::Const(_) => first,
    }
}

/// The atom, or the bound on the variable where that is lesser.
fn with_bound_on(
    first: Option<Atom>,
    var: VarId,
    task: &Task,
    profile: &Profile,
    capacity: u64,
    state: &State,
) -> Option<Atom>
    requires { var < length state.now }
    ensures { TakesOn capacity profile.now state.now task.now var (is_before var first) first result }
{
    if precedes(var, &first) {
        bound(task, var, state.set(var), profile, capacity).or(first)
    } else {
        first
    }
}

/// Whether there is no atom, or the variable is less than the atom's.
fn precedes(var: VarId, first: &Option<Atom>) -> bool
    ensures { result ≡ is_before var first.now }
{
    match first {
        Some(atom) => var.0 < atom.var().0,
        None => true,
    }
}
