// What is given on a variable that is the start of one task alone.

ghost use Rattle.std.specs.Prelude.{◌≡◌, filter, int_le, option_map, pos, ◌+ℤ◌};
ghost use Rattle.dp_domain.specs.Sets.{IsDomain, greatest, least};
ghost use Rattle.dp_domain.specs.Turns.{at_least, at_most};
ghost use Rattle.dp_rule_cumulative.specs.Profiles.{IsBound, IsLowerBound, IsTime, IsUpperBound, early_demand, first_start, last_start, late_demand};

use crate::conflict::{first_conflict, last_conflict};
use crate::demand::Demand;
use crate::profile::Profile;
use crate::{Atom, Task, VarId};
use dp_domain::{Dom, Op};

/// A lower bound of the start, else an upper bound, where the set is what the start may be.
pub fn bound(task: &Task, var: VarId, set: &Dom, profile: &Profile, capacity: u64) -> Option<Atom>
    ensures { IsBound capacity profile.now set.now task.now var result }
{
    let lower = new_lower(task, var, set, profile, capacity);
    if lower.is_some() {
        return lower;
    }
    new_upper(task, var, set, profile, capacity)
}

/// The task starts after the last time at which it does not fit, of those at which it runs if it starts early.
fn new_lower(task: &Task, var: VarId, set: &Dom, profile: &Profile, capacity: u64) -> Option<Atom>
    ensures { IsLowerBound capacity profile.now set.now task.now var result }
{
    let demand = early_demand(task, set, capacity);
    match last_conflict(&demand, profile) {
        Some(time) => at_least(var, set, (time + 1) as i64),
        None => None,
    }
}

/// The task ends before the first time at which it does not fit, of those at which it runs if it starts late.
fn new_upper(task: &Task, var: VarId, set: &Dom, profile: &Profile, capacity: u64) -> Option<Atom>
    ensures { IsUpperBound capacity profile.now set.now task.now var result }
{
    let demand = late_demand(task, set, capacity);
    match first_conflict(&demand, profile) {
        Some(time) => at_most(var, set, (time - i128::from(task.duration)) as i64),
        None => None,
    }
}

/// What the task demands before the times at which it must run, if it starts as early as it may.
fn early_demand(task: &Task, set: &Dom, capacity: u64) -> Demand
    ensures demand { result ≡ early_demand (first_start set.now) (last_start set.now) capacity task.now }
    ensures domain { IsDomain set.now }
{
    let start = first_start(set);
    Demand {
        from: start,
        last: end_after(start, task.duration).min(last_start(set)) - 1,
        usage: task.usage,
        capacity,
    }
}

/// What the task demands after the times at which it must run, if it starts as late as it may.
fn late_demand(task: &Task, set: &Dom, capacity: u64) -> Demand
    ensures demand { result ≡ late_demand (first_start set.now) (last_start set.now) capacity task.now }
    ensures domain { IsDomain set.now }
{
    let start = last_start(set);
    Demand {
        from: end_after(first_start(set), task.duration).max(start),
        last: end_after(start, task.duration) - 1,
        usage: task.usage,
        capacity,
    }
}

/// The first of the starts; 0 where there is none.
fn first_start(set: &Dom) -> i128
    ensures start { result ≡ first_start set.now }
    ensures time { IsTime 63 result }
    ensures domain { IsDomain set.now }
{
    i128::from(set.lower().unwrap_or(0))
}

/// The last of the starts; 0 where there is none.
fn last_start(set: &Dom) -> i128
    ensures start { result ≡ last_start set.now }
    ensures time { IsTime 63 result }
    ensures domain { IsDomain set.now }
{
    i128::from(set.upper().unwrap_or(0))
}

/// The time so long after the start.
fn end_after(start: i128, duration: u64) -> i128
    requires { IsTime 63 start }
    ensures end { result ≡ (start +ℤ pos duration) }
    ensures time { IsTime 65 result }
{
    start + i128::from(duration)
}

/// At least the least number of the set that is this value or more.
fn at_least(var: VarId, set: &Dom, value: i64) -> Option<Atom>
    requires { IsDomain set.now }
    ensures { result ≡ option_map (at_least var) (least (filter (int_le value) set.now)) }
{
    let number = set.least_from(value)?;
    Atom::new(var, Op::Ge, number)
}

/// At most the greatest number of the set that is this value or less.
fn at_most(var: VarId, set: &Dom, value: i64) -> Option<Atom>
    requires { IsDomain set.now }
    ensures { result ≡ option_map (at_most var) (greatest (filter (λ v. int_le v value) set.now)) }
{
    let number = set.greatest_to(value)?;
    Atom::new(var, Op::Le, number)
}
