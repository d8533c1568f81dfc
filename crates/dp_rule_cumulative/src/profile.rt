// How much tasks use wherever they start.

ghost use Rattle.std.specs.Prelude.{◌≡◌, [], ◌∷◌, ◌++◌, length, map, IfOk, OnOk};
ghost use Rattle.dp_domain.specs.Terms.{AreTermsOf, IsTermOf};
ghost use Rattle.dp_rule_cumulative.specs.Profiles.{edges_of, is_exceeded, part_of, parts_of, used_at};
ghost use Rattle.dp_rule_cumulative.specs.Schedules.{starts};

use crate::{Memory, State, Task};
use std::marker::Model;

/// The times at which a task runs wherever it starts, from the first to the last, and how much it uses.
#[derive(Clone, Copy, Debug)]
pub struct Part {
    pub from: i128,
    pub last: i128,
    pub usage: u64,
}

impl Part {
    /// How much it uses at the time.
    fn used_at(&self, time: i128) -> u64
        ensures { result ≡ used_at time (self.now ∷ []) }
    {
        if self.from <= time && time <= self.last {
            self.usage
        } else {
            0
        }
    }

    /// How much the parts use together at its first time and at its last.
    fn edges(&self, parts: &[Part]) -> Edges
        ensures { result ≡ edges_of parts.now self.now }
    {
        Edges {
            start: self.from,
            at_start: used_at(parts, self.from),
            last: self.last,
            at_last: used_at(parts, self.last),
        }
    }
}

/// The first time and the last of a part, and how much all parts use together then.
#[derive(Clone, Copy, Debug)]
pub struct Edges {
    pub start: i128,
    pub at_start: u128,
    pub last: i128,
    pub at_last: u128,
}

/// The parts of the tasks at a state, seen as the list of these, with what is used at their edges.
#[derive(Debug, Drop)]
pub struct Profile {
    parts: Vec<Part>,
    edges: Vec<Edges>,
}

impl Model for Profile {
    ghost use Rattle.std.specs.Prelude.{◌≡◌, List, map};
    ghost use Rattle.dp_rule_cumulative.specs.declared.profile.Part.{Part};
    ghost use Rattle.dp_rule_cumulative.specs.Profiles.{edges_of};

    ghost Value = { List Part };

    ghost view = { λ p. p.parts.items };

    ghost invariant = { λ p. p.edges.items ≡ map (edges_of p.parts.items) p.parts.items };
}

impl Profile {
    /// The profile of these parts.
    pub fn new(parts: Vec<Part>) -> Result<Profile, Memory>
        ensures { IfOk result (λ profile. profile ≡ parts.items) }
    {
        let edges = edges_of(&parts)?;
        Ok(Profile { parts, edges })
    }

    /// Its parts.
    pub fn parts(&self) -> &[Part]
        ensures { result.now ≡ self.now }
    {
        self.parts.as_slice()
    }

    /// The edges of its parts.
    pub fn edges(&self) -> &[Edges]
        ensures { result.now ≡ map (edges_of self.now) self.now }
    {
        self.edges.as_slice()
    }
}

/// How much the parts use together at the time.
pub fn used_at(parts: &[Part], time: i128) -> u128
    ensures { result ≡ used_at time parts.now }
{
    let mut used = 0;
    for part in parts {
        used += u128::from(part.used_at(time));
    }
    used
}

/// The parts of the tasks that must run at some time.
pub fn parts_of(tasks: &[Task], state: &State) -> Result<Vec<Part>, Memory>
    requires { AreTermsOf (length state.now) (starts tasks.now) }
    ensures { IfOk result (λ parts. parts.items ≡ parts_of state.now tasks.now) }
{
    let mut parts = Vec::new(state.allocator());
    for task in tasks {
        push_part(&mut parts, task, state)?;
    }
    Ok(parts)
}

/// Adds the part of the task, if it must run at some time.
fn push_part(parts: &mut Vec<Part>, task: &Task, state: &State) -> Result<(), Memory>
    requires { IsTermOf (length state.now) task.now.start }
    ensures { OnOk result (parts.new.items ≡ parts.old.items ++ parts_of state.now (task.now ∷ [])) }
{
    let part = task.part(state);
    if part.from <= part.last {
        parts.push(part)?;
    }
    Ok(())
}

/// How much is used at the edges of each part.
fn edges_of(parts: &Vec<Part>) -> Result<Vec<Edges>, Memory>
    ensures { IfOk result (λ edges. edges.items ≡ map (edges_of parts.now.items) parts.now.items) }
{
    let mut edges = Vec::with_capacity(*parts.allocator(), parts.len())?;
    for part in parts {
        edges.push(part.edges(parts))?;
    }
    Ok(edges)
}

/// Whether more than the capacity is used at the first time of some part.
pub fn is_exceeded(parts: &[Part], capacity: u64) -> bool
    ensures { result ≡ is_exceeded capacity parts.now }
{
    parts
        .iter()
        .any(|part| used_at(parts, part.from) > u128::from(capacity))
}
