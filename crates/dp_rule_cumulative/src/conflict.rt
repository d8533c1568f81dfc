// The times at which a task does not fit.

ghost use Rattle.std.specs.Prelude.{◌≡◌, ◌++◌, [], ◌∷◌, List, ℤ};
ghost use Rattle.std.specs.Int.{int_max, int_min};
ghost use Rattle.std.specs.Option.{option_map_or};
ghost use Rattle.dp_domain.specs.Sets.{greatest, least};
ghost use Rattle.dp_rule_cumulative.specs.Profiles.{IsEarliest, IsLast, conflicts, ends_in, starts_in};

use crate::demand::Demand;
use crate::profile::{Edges, Profile, used_at};

/// The last time at which there is no room for the demand.
pub fn last_conflict(demand: &Demand, profile: &Profile) -> Option<i128>
    ensures { IsLast (conflicts demand.now profile.now) result }
{
    if demand.is_empty() {
        return None;
    }
    if demand.lacks_room(demand.last, used_at(profile.parts(), demand.last)) {
        return Some(demand.last);
    }
    last_end(demand, profile.edges())
}

/// The first time at which there is no room for the demand.
pub fn first_conflict(demand: &Demand, profile: &Profile) -> Option<i128>
    ensures { IsEarliest (conflicts demand.now profile.now) result }
{
    if demand.is_empty() {
        return None;
    }
    if demand.lacks_room(demand.from, used_at(profile.parts(), demand.from)) {
        return Some(demand.from);
    }
    first_start(demand, profile.edges())
}

/// The greatest of the last times of parts at which there is no room for the demand.
fn last_end(demand: &Demand, edges: &[Edges]) -> Option<i128>
    ensures { result ≡ greatest (ends_in demand.now edges.now) }
{
    let mut found = None;
    for edge in edges {
        found = later(found, demand, edge);
    }
    found
}

/// The time, or the last time of the part where it is later and there is no room then.
fn later(found: Option<i128>, demand: &Demand, edge: &Edges) -> Option<i128>
    ensures { (times : List ℤ) → found ≡ greatest times → result ≡ greatest (times ++ ends_in demand.now (edge.now ∷ [])) }
{
    if demand.lacks_room(edge.last, edge.at_last) {
        Some(greater(found, edge.last))
    } else {
        found
    }
}

/// The later of the two.
fn greater(found: Option<i128>, time: i128) -> i128
    ensures { result ≡ option_map_or (λ s. int_max s time) found time }
{
    match found {
        Some(other) => other.max(time),
        None => time,
    }
}

/// The least of the first times of parts at which there is no room for the demand.
fn first_start(demand: &Demand, edges: &[Edges]) -> Option<i128>
    ensures { result ≡ least (starts_in demand.now edges.now) }
{
    let mut found = None;
    for edge in edges {
        found = earlier(found, demand, edge);
    }
    found
}

/// The time, or the first time of the part where it is earlier and there is no room then.
fn earlier(found: Option<i128>, demand: &Demand, edge: &Edges) -> Option<i128>
    ensures { (times : List ℤ) → found ≡ least times → result ≡ least (times ++ starts_in demand.now (edge.now ∷ [])) }
{
    if demand.lacks_room(edge.start, edge.at_start) {
        Some(lesser(found, edge.start))
    } else {
        found
    }
}

/// The earlier of the two.
fn lesser(found: Option<i128>, time: i128) -> i128
    ensures { result ≡ option_map_or (λ s. int_min s time) found time }
{
    match found {
        Some(other) => other.min(time),
        None => time,
    }
}
