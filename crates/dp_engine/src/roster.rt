// The parts of the model and the nogoods, by their places.

ghost use Rattle.std.specs.Prelude.{◌≡◌, ℕ, ◌+◌, ◌-◌, ◌^◌, ◌<◌, ◌≤◌, ◌++◌, ◌∷◌, [], false, Some, length, map, slice_get, IfOk, OnErr, OnOk};
ghost use Rattle.std.specs.Option.{option_map};
ghost use Rattle.dp_base.specs.Lists.{Each};
ghost use Rattle.dp_domain.specs.States.{is_dead};
ghost use Rattle.dp_domain.specs.Turns.{turn_of};
ghost use Rattle.dp_parts.specs.Problems.{labelled, posed};
ghost use Rattle.dp_rule_clause.specs.Nogoods.{scope_of};
ghost use Rattle.dp_engine.specs.Placed.{AreSound, Placed, of_constraint, of_constraints};
ghost use Rattle.dp_engine.specs.Rosters.{all_placed, placed_at};
ghost use Rattle.dp_engine.specs.Turns.{told};
ghost use Rattle.dp_engine.specs.Woken.{IsIndex, entered};

use crate::occurrences::Occurrences;
use crate::reach::Reach;
use crate::trail::push_reserved;
use crate::{Nogood, PartId, Problem, Turn};
use dp_domain::{Found, Memory, Rule, State, Steps};
use dp_parts::Part;
use std::alloc::Global;
use std::marker::Model;
use std::sync::ledger::Ledger;

/// A part of the model, with its place.
#[derive(Clone, Copy)]
pub struct Entry<'p> {
    id: PartId,
    part: &'p Part,
}

/// The parts of the model in order, and the nogoods: those that were given, and those that were added.
#[derive(Drop)]
pub struct Roster<'i, 'p> {
    model: &'i [Entry<'p>],
    given: &'p [Nogood],
    added: Vec<Nogood>,
}

impl<'i, 'p> Model for Roster<'i, 'p> {
    ghost use Rattle.std.specs.Prelude.{◌++◌, ◌^◌, ◌<◌, length, map};
    ghost use Rattle.dp_engine.specs.Rosters.{Listed};

    ghost Value = { Listed };

    ghost view = { λ r. record { model = map (λ e. (e.id, e.part.now)) r.model.now; nogoods = r.given.now ++ r.added.items } };

    ghost invariant = { λ r. length (r.given.now ++ r.added.items) < 2 ^ 32 };
}

impl<'i, 'p> Roster<'i, 'p> {
    /// The parts of the model, and these nogoods.
    pub fn new(alloc: Global, model: &'i [Entry<'p>], nogoods: &'p [Nogood]) -> Roster<'i, 'p>
        requires { length nogoods.now < 2 ^ 32 }
        ensures { result ≡ record { model = map (λ e. (e.id, e.part.now)) model.now; nogoods = nogoods.now } }
    {
        Roster {
            model,
            given: nogoods,
            added: Vec::new(alloc),
        }
    }

    /// The number of parts.
    pub fn len(&self) -> usize
        ensures { result ≡ length (all_placed self.now) }
    {
        self.model.len() + (self.given.len() + self.added.len())
    }

    /// Adds a nogood behind the others, and enters it among the parts on its variables. Want of memory
    /// leaves all as it was.
    pub fn add(&mut self, nogood: Nogood, occurrences: &mut Reach) -> Result<(), Memory>
        requires few { length self.old.nogoods < 2 ^ 32 - 1 }
        requires variables { Each (λ x. x < length occurrences.old) (scope_of nogood) }
        ensures model { self.new.model ≡ self.old.model }
        ensures nogoods { OnOk result (self.new.nogoods ≡ self.old.nogoods ++ nogood ∷ []) }
        ensures entered { OnOk result (occurrences.new ≡ entered occurrences.old (length (all_placed self.old)) (scope_of nogood)) }
        ensures unchanged { OnErr result (self.new.nogoods ≡ self.old.nogoods) }
        ensures none_entered { OnErr result (occurrences.new ≡ occurrences.old) }
    {
        let place = self.len();
        self.added.reserve(1)?;
        let alloc = *self.added.allocator();
        occurrences.enter(alloc, &nogood, place)?;
        push_reserved(&mut self.added, nogood);
        Ok(())
    }

    /// The turn of the part at the place, which ticks once.
    pub fn turn<L: Ledger>(
        &self,
        place: usize,
        state: &State,
        steps: &mut Steps<L>,
    ) -> Result<Option<Turn>, Memory>
        requires there { place < length (all_placed self.now) }
        requires sound { AreSound (length state.now) (all_placed self.now) }
        requires alive { is_dead state.now ≡ false }
        ensures turn { (q : Placed) → slice_get (all_placed self.now) place ≡ Some q → IfOk result (λ turn. turn ≡ option_map (told q.id) (turn_of q.face state.now)) }
        ensures ticked { steps.new ≡ steps.old + 1 }
    {
        if place < self.model.len() {
            let entry = entry_at(self.model, place);
            let found = entry.part.next(state, steps)?;
            Ok(told_if(entry.id, found))
        } else {
            let at = place - self.model.len();
            let nogood = nogood_at(self.given, self.added.as_slice(), at);
            let found = nogood.next(state, steps)?;
            Ok(told_if(PartId::Nogood(at as u32), found))
        }
    }

    /// Enters the part at the place among those on its variables.
    fn enter(&self, place: usize, occurrences: &mut Occurrences) -> Result<(), Memory>
        requires there { place < length (all_placed self.now) }
        requires sound { AreSound (length occurrences.old) (all_placed self.now) }
        ensures entered { (q : Placed) → slice_get (all_placed self.now) place ≡ Some q → OnOk result (occurrences.new ≡ entered occurrences.old place q.face.scope) }
    {
        if place < self.model.len() {
            let entry = entry_at(self.model, place);
            occurrences.enter(entry.part, place)
        } else {
            let at = place - self.model.len();
            let nogood = nogood_at(self.given, self.added.as_slice(), at);
            occurrences.enter(nogood, place)
        }
    }

    /// The places of the parts on each of so many variables.
    pub fn occurrences(&self, alloc: Global, variables: usize) -> Result<Occurrences, Memory>
        requires { AreSound variables (all_placed self.now) }
        ensures { IfOk result (IsIndex variables (all_placed self.now)) }
    {
        let mut occurrences = Occurrences::new(alloc, variables)?;
        for place in 0..self.len() {
            self.enter(place, &mut occurrences)?;
        }
        Ok(occurrences)
    }
}

/// The parts of the problem's model, with their places.
pub fn entries<'p>(alloc: Global, problem: &'p Problem) -> Result<Vec<Entry<'p>>, Memory>
    ensures { IfOk result (λ model. map placed_at (map (λ e. (e.id, e.part.now)) model.items) ≡ of_constraints 0 (posed problem.now).constraints) }
{
    let mut model = Vec::new(alloc);
    for constraint in 0..problem.constraint_count() {
        let parts = problem.parts_of(constraint);
        push_parts(&mut model, constraint as u32, parts)?;
    }
    Ok(model)
}

/// The parts of one constraint, behind those that are there.
fn push_parts<'p>(
    model: &mut Vec<Entry<'p>>,
    constraint: u32,
    parts: &'p [Part],
) -> Result<(), Memory>
    requires { length parts.now < 2 ^ 32 }
    ensures { OnOk result (map placed_at (map (λ e. (e.id, e.part.now)) model.new.items) ≡ map placed_at (map (λ e. (e.id, e.part.now)) model.old.items) ++ of_constraint constraint 0 (map labelled parts.now)) }
{
    for place in 0..parts.len() {
        let id = PartId::Model {
            constraint,
            part: place as u32,
        };
        let part = &parts[place];
        model.push(Entry { id, part })?;
    }
    Ok(())
}

/// The part of the model at a place.
fn entry_at<'p>(model: &[Entry<'p>], place: usize) -> Entry<'p>
    requires { place < length model.now }
    ensures { slice_get model.now place ≡ Some result }
{
    model[place]
}

/// The nogood at a place of both lists together.
fn nogood_at<'a>(given: &'a [Nogood], added: &'a [Nogood], place: usize) -> &'a Nogood
    requires { place < length (given.now ++ added.now) }
    ensures { slice_get (given.now ++ added.now) place ≡ Some result.now }
{
    if place < given.len() {
        &given[place]
    } else {
        &added[place - given.len()]
    }
}

/// What a part gives, if anything, told with the part's place.
fn told_if(id: PartId, found: Option<Found>) -> Option<Turn>
    ensures { result ≡ option_map (told id) found }
{
    match found {
        Some(found) => Some(told(id, found)),
        None => None,
    }
}

/// What a part gives, told with the part's place.
fn told(id: PartId, found: Found) -> Turn
    ensures { result ≡ told id found }
{
    match found {
        Found::Clash => Turn::Clash(id),
        Found::Atom(atom) => Turn::Atom(id, atom),
    }
}
