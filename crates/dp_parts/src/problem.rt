// Problems, as they are checked, justified and solved.

ghost use Rattle.std.specs.Prelude.{◌≡◌, ℕ, ◌<◌, ◌+◌, Some, length, slice_get, option_copied};
ghost use Rattle.dp_base.specs.Names.{named};
ghost use Rattle.dp_parts.specs.Problems.{Csp, IsProblem, LeadBack};

use crate::{Goal, Part, Parts};
use dp_domain::{Name, State, VarId};
use indexmap::IndexMap;
use std::marker::Model;

/// The names of variables, what each variable may be at first, the parts of each constraint, and a
/// goal. All that it speaks of is there.
#[derive(Drop)]
pub struct Problem {
    names: IndexMap<Name, VarId>,
    own: Vec<u32>,
    initial: State,
    parts: Vec<Parts>,
    goal: Goal,
}

impl Model for Problem {
    ghost use Rattle.dp_parts.specs.Problems.{Csp, IsProblem};

    ghost Value = { Csp };

    ghost view = { λ p. record { names = p.names.entries; own = p.own.items; initial = p.initial; parts = p.parts.items; goal = p.goal } };

    ghost invariant = { λ p. IsProblem (record { names = p.names.entries; own = p.own.items; initial = p.initial; parts = p.parts.items; goal = p.goal }) };
}

impl Problem {
    /// The problem of these names (each variable's own name and every alias, in order of declaration),
    /// the places of the variables' own names among them, initial sets, parts of each constraint, and goal.
    pub fn new(
        names: IndexMap<Name, VarId>,
        own: Vec<u32>,
        initial: State,
        parts: Vec<Parts>,
        goal: Goal,
    ) -> Problem
        requires { IsProblem (record { names = names.entries; own = own.items; initial = initial; parts = parts.items; goal = goal }) }
        ensures { result ≡ record { names = names.entries; own = own.items; initial = initial; parts = parts.items; goal = goal } }
    {
        Problem {
            names,
            own,
            initial,
            parts,
            goal,
        }
    }

    /// The variable of a name or an alias.
    pub fn variable(&self, name: &Name) -> Option<VarId>
        ensures variable { result ≡ named self.now.names name.now }
        ensures problem { IsProblem self.now }
    {
        self.names.get(name).copied()
    }

    /// The number of names, aliases included. Each leads to its own variable.
    #[tactic(auto, using(crate::proofs::NameLaws::lead_back))]
    pub fn name_count(&self) -> usize
        ensures count { result ≡ length self.now.names }
        ensures names { LeadBack self.now.names }
        ensures problem { IsProblem self.now }
    {
        self.names.len()
    }

    /// A variable's own name.
    pub fn own_name(&self, var: VarId) -> &Name
        requires { var < length self.now.initial }
        ensures { (place : ℕ) × (slice_get self.now.own var ≡ Some place) × (slice_get self.now.names place ≡ Some (result.now, var)) }
    {
        let place = self.own[var.0 as usize];
        let (name, _) = self.names.get_index(place as usize).unwrap();
        name
    }

    /// What each variable may be at first.
    pub fn initial(&self) -> &State
        ensures state { result.now ≡ self.now.initial }
        ensures problem { IsProblem self.now }
    {
        &self.initial
    }

    /// The number of constraints.
    pub fn constraint_count(&self) -> usize
        ensures { result ≡ length self.now.parts }
    {
        self.parts.len()
    }

    /// The parts of the constraint at a place from 0.
    pub fn parts_of(&self, place: usize) -> &[Part]
        requires { place < length self.now.parts }
        ensures parts { slice_get self.now.parts place ≡ Some result.now }
        ensures problem { IsProblem self.now }
    {
        self.parts[place].as_slice()
    }

    /// What is asked of a solution.
    pub fn goal(&self) -> Goal
        ensures goal { result ≡ self.now.goal }
        ensures problem { IsProblem self.now }
    {
        self.goal
    }
}
