// States: what each variable may still be.

ghost use Rattle.std.specs.Prelude.{◌≡◌, ℕ, ◌+◌, ◌^◌, ◌<◌, ◌≤◌, ◌↔◌, false, not, cond, length, slice_set, IfOk, OnOk, OnErr, IsTrue};
ghost use Rattle.dp_base.specs.Lists.{Among};
ghost use Rattle.dp_domain.specs.Sets.{IsDomain, greatest, least};
ghost use Rattle.dp_domain.specs.States.{cut, entails, is_dead, nil_count, refuted, values, IsWithin};
ghost use Rattle.dp_domain.specs.Explanations.{Describes, description};
ghost use Rattle.dp_domain.specs.Faces.{Covers};

use crate::description::describe;
use crate::{Atom, Dom, Memory, VarId};
use std::alloc::Global;
use std::marker::Model;
use std::mem;

/// A set of values for each variable, seen as the list of these sets. How many of them are empty is
/// counted, so that whether one is takes no search.
#[derive(Debug, Drop)]
pub struct State {
    sets: Vec<Dom>,
    empty: usize,
}

impl Model for State {
    ghost use Rattle.std.specs.Prelude.{◌≡◌, List, ℤ, ◌<◌, ◌^◌, length};
    ghost use Rattle.dp_domain.specs.States.{nil_count};

    ghost Value = { List (List ℤ) };

    ghost view = { λ s. s.sets.items };

    ghost invariant = { λ s. (length s.sets.items < 2 ^ 32) × (s.empty ≡ nil_count s.sets.items) };
}

impl State {
    /// The state of these sets, one for each variable in order of declaration.
    pub fn new(sets: Vec<Dom>) -> State
        requires { length sets.items < 2 ^ 32 }
        ensures { result ≡ sets.items }
    {
        let empty = count_empty(&sets);
        State { sets, empty }
    }

    /// The number of variables.
    pub fn len(&self) -> usize
        ensures count { result ≡ length self.now }
        ensures few { result < 2 ^ 32 }
    {
        self.sets.len()
    }

    /// Whether there is no variable.
    pub fn is_empty(&self) -> bool
        ensures { IsTrue result ↔ (length self.now ≡ 0) }
    {
        self.sets.is_empty()
    }

    /// Another state of the same sets.
    pub fn copy(&self) -> Result<State, Memory>
        ensures { IfOk result (λ s. s ≡ self.now) }
    {
        Ok(State {
            sets: copies(&self.sets)?,
            empty: self.empty,
        })
    }

    /// Whether some variable has no value left.
    pub fn dead(&self) -> bool
        ensures { result ≡ is_dead self.now }
    {
        self.empty > 0
    }

    /// Whether each value of the atom's variable meets the atom.
    pub fn entails(&self, atom: Atom) -> bool
        requires { atom.var < length self.now }
        ensures { result ≡ entails self.now atom }
    {
        self.set(atom.var()).entails(atom)
    }

    /// The least value of the variable; None exactly where it has none.
    pub fn lower(&self, var: VarId) -> Option<i64>
        requires { var < length self.now }
        ensures least { result ≡ least (values self.now var) }
        ensures domain { IsDomain (values self.now var) }
    {
        self.set(var).lower()
    }

    /// The greatest value of the variable; None exactly where it has none.
    pub fn upper(&self, var: VarId) -> Option<i64>
        requires { var < length self.now }
        ensures greatest { result ≡ greatest (values self.now var) }
        ensures domain { IsDomain (values self.now var) }
    {
        self.set(var).upper()
    }

    /// Whether the variable may be this number.
    pub fn has(&self, var: VarId, number: i64) -> bool
        requires { var < length self.now }
        ensures { IsTrue result ↔ Among number (values self.now var) }
    {
        self.set(var).has(number)
    }

    /// Keeps the values that meet the atom, and answers whether the set changed. Want of memory
    /// leaves the state as it was.
    pub fn exclude(&mut self, atom: Atom) -> Result<bool, Memory>
        requires { atom.var < length self.old }
        ensures kept { OnOk result (self.new ≡ cut self.old atom) }
        ensures changed { IfOk result (λ changed. changed ≡ not (entails self.old atom)) }
        ensures err { OnErr result (self.new ≡ self.old) }
    {
        let set = &mut self.sets[atom.var().0 as usize];
        let before = set.is_empty();
        let changed = set.exclude(atom)?;
        self.empty = recounted(self.empty, before, set.is_empty());
        Ok(changed)
    }

    /// Takes out the values of the variable that meet each of the atoms on it. Want of memory leaves
    /// the state as it was.
    pub fn refute(&mut self, var: VarId, atoms: &[Atom]) -> Result<(), Memory>
        requires { var < length self.old }
        ensures kept { OnOk result (self.new ≡ refuted self.old var atoms.now) }
        ensures err { OnErr result (self.new ≡ self.old) }
    {
        let set = &mut self.sets[var.0 as usize];
        let before = set.is_empty();
        set.refute(var, atoms)?;
        self.empty = recounted(self.empty, before, set.is_empty());
        Ok(())
    }

    /// Puts another set in the place of the variable's, and hands over that one.
    pub fn replace(&mut self, var: VarId, set: Dom) -> Dom
        requires { var < length self.old }
        ensures state { self.new ≡ slice_set self.old var set }
        ensures set { result ≡ values self.old var }
    {
        let now = set.is_empty();
        let before = mem::replace(&mut self.sets[var.0 as usize], set);
        self.empty = recounted(self.empty, before.is_empty(), now);
        before
    }

    /// What the state says of the variables beyond the initial state: for each in order, its lower bound
    /// where it is above the initial one, its upper bound where it is below, and then as `!=` in ascending
    /// order the initial values strictly between them that it lacks.
    pub fn describe(&self, initial: &State, scope: &[VarId]) -> Result<Vec<Atom>, Memory>
        requires covers { Covers scope.now self.now }
        requires alive { is_dead self.now ≡ false }
        requires within { IsWithin self.now initial.now }
        ensures atoms { IfOk result (λ atoms. atoms.items ≡ description initial.now self.now scope.now) }
        ensures meaning { IfOk result (λ atoms. Describes initial.now self.now scope.now atoms.items) }
    {
        describe(self, initial, scope)
    }

    /// The allocator that it grows by.
    pub fn allocator(&self) -> Global {
        *self.sets.allocator()
    }

    /// The variable's values.
    pub fn set(&self, var: VarId) -> &Dom
        requires { var < length self.now }
        ensures { result.now ≡ values self.now var }
    {
        &self.sets[var.0 as usize]
    }
}

fn copies(sets: &Vec<Dom>) -> Result<Vec<Dom>, Memory>
    ensures { IfOk result (λ copies. copies.items ≡ sets.now.items) }
{
    let mut copies = Vec::new(*sets.allocator());
    for set in sets {
        copies.push(set.copy()?)?;
    }
    Ok(copies)
}

/// How many of the sets are empty.
fn count_empty(sets: &Vec<Dom>) -> usize
    ensures { result ≡ nil_count sets.now.items }
{
    sets.iter().filter(|set| set.is_empty()).count()
}

/// The count of empty sets after a change of one that was empty before or not, and is now or not.
fn recounted(count: usize, before: bool, now: bool) -> usize
    requires counted { cond before 1 0 ≤ count }
    requires room { count < 2 ^ 32 + 1 }
    ensures { result + cond before 1 0 ≡ count + cond now 1 0 }
{
    count - usize::from(before) + usize::from(now)
}
