// The engine: turn after turn over a problem and nogoods, and back again.

ghost use Rattle.std.specs.Prelude.{◌≡◌, ℕ, ◌^◌, ◌+◌, ◌-◌, ◌<◌, ◌≤◌, not, List, [], ◌∷◌, ◌++◌, length, get_or, take, IfOk, MatchResult, OnOk, OnErr};
ghost use Rattle.dp_domain.specs.States.{AreOf, cut, cut_all, is_dead};
ghost use Rattle.dp_engine.specs.Engines.{Begins, Extends, HaveCount, IsEngine, KeepsParts, KeepsStates, Starts, parts_of, states};
ghost use Rattle.dp_engine.specs.Indexes.{IsOver};
ghost use Rattle.dp_engine.specs.Turns.{IsTurnAt, applied, atoms_of, turn_at};
ghost use Rattle.dp_engine.specs.Debts.{IsKept, IsTouched};
ghost use Rattle.dp_engine.specs.Placed.{Placed};
ghost use Rattle.dp_engine.specs.Trails.{all_of};
ghost use Rattle.dp_engine.specs.Woken.{ArePlaces, IsCounted, IsIndex, with_woken, woken_after};

use crate::debts::Debts;
use crate::index::Index;
use crate::reach::Reach;
use crate::roster::Roster;
use crate::search::first_turn;
use crate::trail::Trail;
use crate::{Atom, Memory, Nogood, Problem, State, Steps, Turn};
use std::alloc::Global;
use std::marker::Model;
use std::sync::ledger::Ledger;

/// An engine: a problem and nogoods, whose parts take turns, and the list of states so far, the
/// present one last. Of the parts those alone are asked that are woken: one that had no turn rests until
/// the set of one of its variables changes.
#[derive(Drop)]
pub struct Engine<'i, 'p> {
    problem: &'p Problem,
    roster: Roster<'i, 'p>,
    occurrences: Reach<'i>,
    debts: Debts,
    trail: Trail,
    dead: bool,
}

impl<'i, 'p> Model for Engine<'i, 'p> {
    ghost use Rattle.dp_engine.specs.Engines.{Propagation};
    ghost use Rattle.dp_engine.specs.Woken.{IsTracked, owed_of};

    ghost Value = { Propagation };

    ghost view = { λ e. record { problem = e.problem.now; nogoods = e.roster.nogoods; past = e.trail.past; present = e.trail.present; owed = owed_of e.debts.now } };

    ghost invariant = { λ e. IsTracked (record { problem = e.problem.now; nogoods = e.roster.nogoods; past = e.trail.past; present = e.trail.present; owed = owed_of e.debts.now }) e.roster e.occurrences e.debts e.dead };
}

impl<'i, 'p> Engine<'i, 'p> {
    /// An engine at the initial state of the index's problem, with all its nogoods.
    pub fn new(alloc: Global, index: &'i Index<'p>) -> Result<Engine<'i, 'p>, Memory>
        ensures { IfOk result (Starts index.now.problem index.now.nogoods) }
    {
        let problem = index.problem();
        let (roster, occurrences) = index.before(alloc, index.nogoods().len());
        let present = problem.initial().copy()?;
        let debts = Debts::all(alloc, roster.len())?;
        let dead = present.dead();
        Ok(Engine {
            problem,
            roster,
            occurrences,
            debts,
            trail: Trail::new(alloc, present),
            dead,
        })
    }

    /// Goes back to the initial state, where it sees the nogoods of the index before the place alone. The
    /// parts that rest and are seen go on to rest.
    pub fn go_to(&mut self, index: &'i Index<'p>, place: usize) -> Result<(), Memory>
        requires over { IsOver index.now self.old }
        requires place { place ≤ length index.now.nogoods }
        ensures starts { OnOk result (Starts index.now.problem (take place index.now.nogoods) self.new) }
        ensures unchanged { OnErr result (KeepsParts self.old self.new) }
    {
        self.undo(0);
        self.see_first(index, place)
    }

    /// Sees the nogoods of the index before the place alone.
    fn see_first(&mut self, index: &'i Index<'p>, place: usize) -> Result<(), Memory>
        requires over { IsOver index.now self.old }
        requires place { place ≤ length index.now.nogoods }
        requires start { self.old.past ≡ [] }
        ensures starts { OnOk result (Starts index.now.problem (take place index.now.nogoods) self.new) }
        ensures unchanged { OnErr result (KeepsParts self.old self.new) }
    {
        let alloc = self.trail.present().allocator();
        let (roster, occurrences) = index.before(alloc, place);
        self.debts.resize(roster.len())?;
        self.roster = roster;
        self.occurrences = occurrences;
        Ok(())
    }

    /// The present state.
    pub fn state(&self) -> &State
        ensures state { result.now ≡ self.now.present }
        ensures engine { IsEngine self.now }
    {
        self.trail.present()
    }

    /// Goes on to the state with these atoms, and answers whether each variable has a value left.
    /// Want of memory leaves the engine as it was.
    pub fn assume(&mut self, atoms: &[Atom]) -> Result<bool, Memory>
        requires { AreOf self.old.problem.initial atoms.now }
        ensures parts { KeepsParts self.old self.new }
        ensures present { OnOk result (self.new.present ≡ cut_all self.old.present atoms.now) }
        ensures states { Extends self.old self.new }
        ensures alive { IfOk result (λ alive. alive ≡ not (is_dead self.new.present)) }
        ensures unchanged { OnErr result (KeepsStates self.old self.new) }
    {
        let mark = self.trail.len();
        let cut = cut_each(&mut self.trail, &mut self.debts, &self.occurrences, atoms);
        if cut.is_err() {
            go_back(&mut self.trail, &mut self.debts, mark);
            self.dead = self.trail.present().dead();
            return Err(Memory);
        }
        self.dead = self.trail.present().dead();
        Ok(!self.dead)
    }

    /// The turn at the present state, which is then applied: Empty exactly where some variable has no
    /// value left; else what the first part gives that clashes, or from which a new atom follows; else
    /// Quiet. Want of memory leaves the engine's parts and states as they were. Only woken parts are
    /// asked, each of which ticks once.
    pub fn step<L: Ledger>(&mut self, steps: &mut Steps<L>) -> Result<Turn, Memory>
        ensures turn { IfOk result (λ turn. turn ≡ turn_at (parts_of self.old) self.old.present) }
        ensures meaning { IfOk result (IsTurnAt (parts_of self.old) self.old.present) }
        ensures parts { KeepsParts self.old self.new }
        ensures present { IfOk result (λ turn. self.new.present ≡ applied self.old.present turn) }
        ensures states { Extends self.old self.new }
        ensures unchanged { OnErr result (KeepsStates self.old self.new) }
        ensures counted { (searches : ℕ) × (steps.new ≡ steps.old + searches) × MatchResult result (IsCounted (parts_of self.old) self.old.owed searches self.new.owed) (λ e. searches + self.new.owed ≤ self.old.owed + 1) }
    {
        if self.dead {
            return Ok(Turn::Empty);
        }
        let state = self.trail.present();
        let found = first_turn(&self.roster, &mut self.debts, state, steps)?;
        match found {
            None => Ok(Turn::Quiet),
            Some((_, turn)) => {
                apply(&mut self.trail, &mut self.debts, &self.occurrences, &turn)?;
                Ok(turn)
            }
        }
    }

    /// The place of the present state in the list of states.
    pub fn mark(&self) -> usize
        ensures { result ≡ length self.now.past }
    {
        self.trail.len()
    }

    /// Goes back to the state at the mark, where those parts rest again that rested there, and those that
    /// were not touched since. Nogoods that were added since then stay, and are woken.
    pub fn undo(&mut self, mark: usize)
        requires { mark ≤ length self.old.past }
        ensures parts { KeepsParts self.old self.new }
        ensures states { states self.new ≡ take (mark + 1) (states self.old) }
    {
        go_back(&mut self.trail, &mut self.debts, mark);
        self.dead = self.trail.present().dead();
    }

    /// Adds a nogood at the next place. Want of memory leaves the engine as it was.
    pub fn add(&mut self, nogood: Nogood) -> Result<(), Memory>
        requires few { length self.old.nogoods < 2 ^ 32 - 1 }
        requires variables { AreOf self.old.problem.initial nogood }
        ensures problem { self.new.problem ≡ self.old.problem }
        ensures nogoods { OnOk result (self.new.nogoods ≡ self.old.nogoods ++ nogood ∷ []) }
        ensures states { KeepsStates self.old self.new }
        ensures unchanged { OnErr result (self.new.nogoods ≡ self.old.nogoods) }
    {
        self.debts.push()?;
        let added = self.roster.add(nogood, &mut self.occurrences);
        if added.is_err() {
            self.debts.pop();
            return Err(Memory);
        }
        Ok(())
    }
}

/// Goes on to the state that is cut by the atoms, one after the other, and wakes the parts on their
/// variables. Want of memory leaves some of them done.
fn cut_each(
    trail: &mut Trail,
    debts: &mut Debts,
    occurrences: &Reach,
    atoms: &[Atom],
) -> Result<(), Memory>
    requires atoms { AreOf trail.old.present atoms.now }
    requires lists { length occurrences.now ≡ length trail.old.present }
    requires places { ArePlaces (length debts.old.now) occurrences.now }
    ensures kept { (parts : List Placed) → IsIndex (length trail.old.present) parts occurrences.now → IsKept parts debts.old trail.old → IsKept parts debts.new trail.new }
    ensures bits { length debts.new.now ≡ length debts.old.now }
    ensures lasting { debts.new.lasting ≡ debts.old.lasting }
    ensures counts { (n : ℕ) → HaveCount n (all_of trail.old) → HaveCount n (all_of trail.new) }
    ensures states { Begins (all_of trail.old) (all_of trail.new) }
    ensures sets { length trail.new.present ≡ length trail.old.present }
    ensures present { OnOk result (trail.new.present ≡ cut_all trail.old.present atoms.now) }
{
    for atom in atoms {
        go_on(trail, debts, occurrences, *atom)?;
    }
    Ok(())
}

/// Goes on to the state that is cut by the atom, and wakes the parts on its variable. Want of memory
/// leaves all as it was.
fn go_on(
    trail: &mut Trail,
    debts: &mut Debts,
    occurrences: &Reach,
    atom: Atom,
) -> Result<(), Memory>
    requires there { atom.var < length trail.old.present }
    requires lists { length occurrences.now ≡ length trail.old.present }
    requires places { ArePlaces (length debts.old.now) occurrences.now }
    ensures kept { OnOk result ((parts : List Placed) → IsIndex (length trail.old.present) parts occurrences.now → IsKept parts debts.old trail.old → IsKept parts debts.new trail.new) }
    ensures woken { OnOk result (debts.new.now ≡ with_woken debts.old.now (get_or occurrences.now atom.var [])) }
    ensures lasting { debts.new.lasting ≡ debts.old.lasting }
    ensures counts { (n : ℕ) → HaveCount n (all_of trail.old) → HaveCount n (all_of trail.new) }
    ensures states { Begins (all_of trail.old) (all_of trail.new) }
    ensures present { OnOk result (trail.new.present ≡ cut trail.old.present atom) }
    ensures trail_stays { OnErr result (trail.new ≡ trail.old) }
    ensures debts_stay { OnErr result (debts.new ≡ debts.old) }
{
    debts.leave()?;
    let gone_on = wake_and_cut(trail, debts, occurrences, atom);
    if gone_on.is_err() {
        debts.back();
    }
    gone_on
}

/// Wakes the parts on the atom's variable and cuts the state. Want of memory leaves some parts woken, and
/// the state as it was.
fn wake_and_cut(
    trail: &mut Trail,
    debts: &mut Debts,
    occurrences: &Reach,
    atom: Atom,
) -> Result<(), Memory>
    requires there { atom.var < length trail.old.present }
    requires lists { length occurrences.now ≡ length trail.old.present }
    requires places { ArePlaces (length debts.old.now) occurrences.now }
    ensures touched { IsTouched debts.old debts.new (λ done. OnOk result (done ≡ get_or occurrences.now atom.var [])) }
    ensures counts { (n : ℕ) → HaveCount n (all_of trail.old) → HaveCount n (all_of trail.new) }
    ensures states { Begins (all_of trail.old) (all_of trail.new) }
    ensures past { OnOk result (trail.new.past ≡ trail.old.past ++ trail.old.present ∷ []) }
    ensures present { OnOk result (trail.new.present ≡ cut trail.old.present atom) }
    ensures trail_stays { OnErr result (trail.new ≡ trail.old) }
{
    occurrences.wake(atom.var(), debts)?;
    trail.cut(atom)
}

/// Goes back to the state at the mark, and to the parts that were woken there.
fn go_back(trail: &mut Trail, debts: &mut Debts, mark: usize)
    requires mark { mark ≤ length trail.old.past }
    ensures kept { (parts : List Placed) → IsKept parts debts.old trail.old → IsKept parts debts.new trail.new }
    ensures bits { length debts.new.now ≡ length debts.old.now }
    ensures lasting { debts.new.lasting ≡ debts.old.lasting }
    ensures states { all_of trail.new ≡ take (mark + 1) (all_of trail.old) }
{
    while trail.len() > mark {
        let _var = trail.back();
        debts.back();
    }
}

/// Applies the turn: an atom leads on to the state that it cuts, and the parts on its variable are woken.
/// Want of memory leaves all as it was.
fn apply(
    trail: &mut Trail,
    debts: &mut Debts,
    occurrences: &Reach,
    turn: &Turn,
) -> Result<(), Memory>
    requires atoms { AreOf trail.old.present (atoms_of turn.now) }
    requires lists { length occurrences.now ≡ length trail.old.present }
    requires places { ArePlaces (length debts.old.now) occurrences.now }
    ensures kept { OnOk result ((parts : List Placed) → IsIndex (length trail.old.present) parts occurrences.now → IsKept parts debts.old trail.old → IsKept parts debts.new trail.new) }
    ensures counts { (n : ℕ) → HaveCount n (all_of trail.old) → HaveCount n (all_of trail.new) }
    ensures present { OnOk result (trail.new.present ≡ applied trail.old.present turn.now) }
    ensures states { Begins (all_of trail.old) (all_of trail.new) }
    ensures woken { OnOk result (debts.new.now ≡ woken_after debts.old.now occurrences.now turn.now) }
    ensures lasting { debts.new.lasting ≡ debts.old.lasting }
    ensures trail_stays { OnErr result (trail.new ≡ trail.old) }
    ensures debts_stay { OnErr result (debts.new ≡ debts.old) }
{
    match turn {
        Turn::Atom(_, given) => go_on(trail, debts, occurrences, *given),
        Turn::Clash(_) | Turn::Quiet | Turn::Empty => Ok(()),
    }
}
