// What engines over one problem and its nogoods share.

ghost use Rattle.std.specs.Prelude.{◌≡◌, ◌^◌, ◌<◌, ◌≤◌, length, map, take, IfOk};
ghost use Rattle.dp_base.specs.Lists.{Each};
ghost use Rattle.dp_domain.specs.States.{AreOf};
ghost use Rattle.dp_parts.specs.Problems.{posed};
ghost use Rattle.dp_engine.specs.Indexes.{IsIndexed};
ghost use Rattle.dp_engine.specs.Placed.{AreSound, turn_order};
ghost use Rattle.dp_engine.specs.Rosters.{all_placed};
ghost use Rattle.dp_engine.specs.Woken.{IsIndex};

use crate::occurrences::Occurrences;
use crate::reach::Reach;
use crate::roster::{Entry, Roster, entries};
use crate::{Memory, Nogood, Problem};
use std::alloc::Global;
use std::marker::Model;

/// A problem and nogoods, with the parts on each variable. It does not change, so that engines share it.
#[derive(Drop)]
pub struct Index<'p> {
    problem: &'p Problem,
    nogoods: &'p [Nogood],
    model: Vec<Entry<'p>>,
    occurrences: Occurrences,
}

impl<'p> Model for Index<'p> {
    ghost use Rattle.std.specs.Prelude.{map};
    ghost use Rattle.dp_engine.specs.Indexes.{Indexed, IsEntered};

    ghost Value = { Indexed };

    ghost view = { λ i. record { problem = i.problem.now; nogoods = i.nogoods.now } };

    ghost invariant = { λ i. IsEntered (record { problem = i.problem.now; nogoods = i.nogoods.now }) (map (λ e. (e.id, e.part.now)) i.model.items) i.occurrences };
}

impl<'p> Index<'p> {
    /// The problem and these nogoods, each part entered on its variables.
    pub fn new(
        alloc: Global,
        problem: &'p Problem,
        nogoods: &'p [Nogood],
    ) -> Result<Index<'p>, Memory>
        requires few { length nogoods.now < 2 ^ 32 }
        requires nogoods { Each (AreOf problem.now.initial) nogoods.now }
        ensures { IfOk result (λ index. index ≡ record { problem = problem.now; nogoods = nogoods.now }) }
    {
        let model = entries(alloc, problem)?;
        let variables = problem.initial().len();
        let occurrences = all_occurrences(alloc, model.as_slice(), nogoods, variables)?;
        Ok(Index {
            problem,
            nogoods,
            model,
            occurrences,
        })
    }

    /// The problem.
    pub fn problem(&self) -> &'p Problem
        ensures problem { result.now ≡ self.now.problem }
        ensures index { IsIndexed self.now }
    {
        self.problem
    }

    /// The nogoods.
    pub fn nogoods(&self) -> &'p [Nogood]
        ensures nogoods { result.now ≡ self.now.nogoods }
        ensures index { IsIndexed self.now }
    {
        self.nogoods
    }

    /// The parts of the model and the nogoods before the place, and the places of these parts on each
    /// variable.
    pub(crate) fn before<'i>(&'i self, alloc: Global, place: usize) -> (Roster<'i, 'p>, Reach<'i>)
        requires { place ≤ length self.now.nogoods }
        ensures indexed { IsIndexed self.now }
        ensures nogoods { result.0.nogoods ≡ take place self.now.nogoods }
        ensures parts { all_placed result.0 ≡ turn_order (posed self.now.problem) (take place self.now.nogoods) }
        ensures index { IsIndex (length self.now.problem.initial) (turn_order (posed self.now.problem) (take place self.now.nogoods)) result.1 }
    {
        let roster = Roster::new(alloc, self.model.as_slice(), first(self.nogoods, place));
        let bound = roster.len();
        (roster, Reach::new(&self.occurrences, bound))
    }
}

/// The places of all these parts on each of so many variables.
fn all_occurrences(
    alloc: Global,
    model: &[Entry],
    nogoods: &[Nogood],
    variables: usize,
) -> Result<Occurrences, Memory>
    requires few { length nogoods.now < 2 ^ 32 }
    requires sound { AreSound variables (all_placed (record { model = map (λ e. (e.id, e.part.now)) model.now; nogoods = nogoods.now })) }
    ensures { IfOk result (IsIndex variables (all_placed (record { model = map (λ e. (e.id, e.part.now)) model.now; nogoods = nogoods.now }))) }
{
    let roster = Roster::new(alloc, model, nogoods);
    roster.occurrences(alloc, variables)
}

/// The first so many nogoods.
fn first(nogoods: &[Nogood], count: usize) -> &[Nogood]
    requires { count ≤ length nogoods.now }
    ensures { result.now ≡ take count nogoods.now }
{
    &nogoods[..count]
}
