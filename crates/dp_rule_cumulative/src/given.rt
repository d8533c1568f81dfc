// What a cumulative constraint is made of: tests, and the tasks.

ghost use Rattle.std.specs.Prelude.{◌≡◌, ◌↔◌, IfErr, IfOk, IsTrue, MatchOption, OnOk, length, map};
ghost use Rattle.std.specs.List.{zip};
ghost use Rattle.dp_rule_cumulative.specs.Refusals.{AreGood, IsAllowed, IsFirstBad, IsProper, IsRefused};
ghost use Rattle.dp_rule_cumulative.specs.Schedules.{given, task_of};

use crate::{Memory, Task, TaskRefusal, Term};
use std::alloc::Global;

const MOST_TASKS: usize = 2_000_000;

const LARGEST: i64 = 1_000_000_000;

/// Whether the number is within 0..10^9.
fn is_allowed(value: i64) -> bool
    ensures { IsTrue result ↔ IsAllowed value }
{
    0 <= value && value <= LARGEST
}

/// The first place at which the duration or the use is not within 0..10^9; None where there is none.
fn first_bad(durations: &[i64], uses: &[i64]) -> Option<usize>
    requires { length uses.now ≡ length durations.now }
    ensures { MatchOption result (AreGood durations.now uses.now) (IsFirstBad durations.now uses.now) }
{
    for place in 0..durations.len() {
        if !is_allowed(durations[place]) || !is_allowed(uses[place]) {
            return Some(place);
        }
    }
    None
}

/// The first refusal that applies, if any but want of memory does.
pub fn check(
    starts: &[Term],
    durations: &[i64],
    uses: &[i64],
    capacity: i64,
) -> Result<(), TaskRefusal>
    ensures proper { OnOk result (IsProper (given starts.now durations.now uses.now capacity)) }
    ensures refused { IfErr result (λ refusal. IsRefused refusal (given starts.now durations.now uses.now capacity)) }
{
    if durations.len() != starts.len() || uses.len() != starts.len() {
        return Err(TaskRefusal::BadLength);
    }
    if starts.len() > MOST_TASKS {
        return Err(TaskRefusal::TooMany);
    }
    if let Some(place) = first_bad(durations, uses) {
        return Err(TaskRefusal::BadTask(place));
    }
    if !is_allowed(capacity) {
        return Err(TaskRefusal::BadCapacity);
    }
    Ok(())
}

/// The tasks of these starts, durations and uses.
pub fn tasks_of(
    alloc: Global,
    starts: &[Term],
    durations: &[i64],
    uses: &[i64],
) -> Result<Vec<Task>, Memory>
    requires durations { length durations.now ≡ length starts.now }
    requires uses { length uses.now ≡ length starts.now }
    ensures { IfOk result (λ tasks. tasks.items ≡ map task_of (zip starts.now (zip durations.now uses.now))) }
{
    let mut tasks = Vec::with_capacity(alloc, starts.len())?;
    for place in 0..starts.len() {
        tasks.push(Task {
            start: starts[place],
            duration: durations[place].unsigned_abs(),
            usage: uses[place].unsigned_abs(),
        })?;
    }
    Ok(tasks)
}
