// The steps so far: what each of them denies.

ghost use Rattle.std.specs.Prelude.{◌≡◌, ◌≤◌, ◌-◌, ◌++◌, ◌∷◌, [], None, Some, OnErr, OnOk, MatchOption, is_some, length, drop, take};
ghost use Rattle.std.specs.List.{list_any};
ghost use Rattle.dp_base.specs.Lists.{Each};
ghost use Rattle.dp_domain.specs.States.{entails_all};
ghost use Rattle.dp_checker.specs.Kept.{AreBelow};
ghost use Rattle.dp_checker.specs.Known.{found};
ghost use Rattle.dp_checker.specs.Stored.{AreStored, steps_of};

use crate::start::entails_all;
use dp_domain::{Atom, Memory, State};
use indexmap::IndexMap;
use std::alloc::Global;
use std::marker::Model;

/// Where the atoms of a step begin in the list of all atoms, and where they end.
#[derive(Clone, Copy, Debug, Drop)]
struct Run {
    start: usize,
    end: usize,
}

/// The atoms of each step, which no solution meets together, under the step's number and in the order
/// of the lines. The atoms of all steps lie in one list.
#[derive(Drop)]
pub struct Steps {
    atoms: Vec<Atom>,
    runs: IndexMap<u64, Run>,
}

impl Model for Steps {
    ghost use Rattle.std.specs.Prelude.{List, ℕ};
    ghost use Rattle.dp_domain.specs.Atoms.{Atomic};
    ghost use Rattle.dp_checker.specs.Stored.{AreStored, steps_of};

    ghost Value = { List (ℕ × List Atomic) };

    ghost view = { λ s. steps_of s.atoms.items s.runs.entries };

    ghost invariant = { λ s. AreStored s.atoms.items s.runs.entries };
}

impl Steps {
    /// No steps.
    pub fn new(alloc: Global) -> Steps
        ensures { result ≡ [] }
    {
        Steps {
            atoms: Vec::new(alloc),
            runs: IndexMap::new(alloc),
        }
    }

    /// The allocator that it grows by.
    pub fn allocator(&self) -> Global {
        *self.atoms.allocator()
    }

    /// Whether there is a step of this number.
    pub fn contains_key(&self, id: u64) -> bool
        ensures { result ≡ is_some (found id self.now) }
    {
        self.runs.contains_key(&id)
    }

    /// What the step of this number denies, if there is such a step.
    pub fn get(&self, id: u64) -> Option<&[Atom]>
        ensures { MatchOption result (found id self.now ≡ None) (λ denial. found id self.now ≡ Some denial.now) }
    {
        match self.runs.get(&id) {
            Some(run) => Some(run_in(self.atoms.as_slice(), run.start, run.end)),
            None => None,
        }
    }

    /// Adds what a step under a new number denies. Want of memory leaves the steps as they were.
    pub fn push(&mut self, id: u64, denial: &[Atom]) -> Result<(), Memory>
        requires { found id self.old ≡ None }
        ensures added { OnOk result (self.new ≡ self.old ++ (id, denial.now) ∷ []) }
        ensures err { OnErr result (self.new ≡ self.old) }
    {
        let start = count(&self.atoms);
        self.atoms.extend_from_slice(denial)?;
        let end = count(&self.atoms);
        add_run(&mut self.runs, id, Run { start, end })?;
        Ok(())
    }

    /// Whether the state entails all that some step denies.
    pub fn any_entailed(&self, state: &State) -> bool
        requires { Each (λ step. AreBelow (length state.now) step.1) self.now }
        ensures { result ≡ list_any (λ step. entails_all state.now step.1) self.now }
    {
        any_entailed(state, self.atoms.as_slice(), &self.runs)
    }
}

/// How many atoms there are.
fn count(atoms: &Vec<Atom>) -> usize
    ensures { result ≡ length atoms.now.items }
{
    atoms.len()
}

/// Adds where the atoms of a new step lie.
fn add_run(runs: &mut IndexMap<u64, Run>, id: u64, run: Run) -> Result<(), Memory>
    requires { found id runs.old.entries ≡ None }
    ensures added { OnOk result (runs.new.entries ≡ runs.old.entries ++ (id, run) ∷ []) }
    ensures err { OnErr result (runs.new.entries ≡ runs.old.entries) }
{
    runs.insert(id, run)?;
    Ok(())
}

/// The atoms from one place to another.
fn run_in(atoms: &[Atom], start: usize, end: usize) -> &[Atom]
    requires order { start ≤ end }
    requires within { end ≤ length atoms.now }
    ensures { result.now ≡ take (end - start) (drop start atoms.now) }
{
    &atoms[start..end]
}

fn any_entailed(state: &State, atoms: &[Atom], runs: &IndexMap<u64, Run>) -> bool
    requires stored { AreStored atoms.now runs.now.entries }
    requires below { Each (λ step. AreBelow (length state.now) step.1) (steps_of atoms.now runs.now.entries) }
    ensures { result ≡ list_any (λ step. entails_all state.now step.1) (steps_of atoms.now runs.now.entries) }
{
    for run in runs.values() {
        if entails_all(state, run_in(atoms, run.start, run.end)) {
            return true;
        }
    }
    false
}
