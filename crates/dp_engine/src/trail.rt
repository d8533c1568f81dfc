// The present state, and the sets that were replaced on the way to it.

ghost use Rattle.std.specs.Prelude.{◌≡◌, ℕ, ◌<◌, [], ◌∷◌, ◌++◌, length, vec_len, vec_capacity, OnOk, OnErr};
ghost use Rattle.dp_domain.specs.States.{cut, values};
ghost use Rattle.dp_engine.specs.Engines.{Begins, HaveCount};
ghost use Rattle.dp_engine.specs.Trails.{Course, all_of, undone};

use crate::change::Change;
use dp_domain::{Atom, Memory, State, VarId};
use std::alloc::Global;
use std::marker::Model;

/// The present state, seen with the states before each change, of which only the sets that were replaced
/// are kept.
#[derive(Drop)]
pub struct Trail {
    changes: Vec<Change>,
    present: State,
}

impl Model for Trail {
    ghost use Rattle.std.specs.Prelude.{◌<◌, length};
    ghost use Rattle.dp_base.specs.Lists.{Each};
    ghost use Rattle.dp_engine.specs.Trails.{Course, past_of};

    ghost Value = { Course };

    ghost view = { λ t. record { past = past_of t.changes.items t.present; present = t.present } };

    ghost invariant = { λ t. Each (λ c. c.var < length t.present) t.changes.items };
}

impl Trail {
    /// At this state, with none before it.
    pub fn new(alloc: Global, present: State) -> Trail
        ensures past { result.past ≡ [] }
        ensures present { result.present ≡ present }
    {
        Trail {
            changes: Vec::new(alloc),
            present,
        }
    }

    /// The present state.
    pub fn present(&self) -> &State
        ensures { result.now ≡ self.now.present }
    {
        &self.present
    }

    /// The number of states before the present one.
    pub fn len(&self) -> usize
        ensures { result ≡ length self.now.past }
    {
        self.changes.len()
    }

    /// Goes on to the state that is cut by the atom. Want of memory leaves all as it was.
    pub fn cut(&mut self, atom: Atom) -> Result<(), Memory>
        requires { atom.var < length self.old.present }
        ensures states { Begins (all_of self.old) (all_of self.new) }
        ensures counts { (n : ℕ) → HaveCount n (all_of self.old) → HaveCount n (all_of self.new) }
        ensures past { OnOk result (self.new.past ≡ self.old.past ++ self.old.present ∷ []) }
        ensures present { OnOk result (self.new.present ≡ cut self.old.present atom) }
        ensures unchanged { OnErr result (self.new ≡ self.old) }
    {
        let var = atom.var();
        let set = self.present.set(var).copy()?;
        self.changes.reserve(1)?;
        self.present.exclude(atom)?;
        push_reserved(&mut self.changes, Change { var, set });
        Ok(())
    }

    /// Goes back by one change, and answers whose set that was.
    pub fn back(&mut self) -> VarId
        requires { 0 < length self.old.past }
        ensures past { self.old.past ≡ self.new.past ++ self.new.present ∷ [] }
        ensures var { result < length self.new.present }
        ensures count { length self.new.present ≡ length self.old.present }
        ensures others { (x : ℕ) → (x ≡ result → ⊥) → values self.new.present x ≡ values self.old.present x }
    {
        match self.changes.pop() {
            Some(change) => put_back(&mut self.present, change),
            None => unreachable!(),
        }
    }
}

/// Adds an item for which there is room.
pub fn push_reserved<T: Drop>(items: &mut Vec<T>, item: T)
    requires { vec_len items.old < vec_capacity items.old }
    ensures { items.new.items ≡ items.old.items ++ item ∷ [] }
{
    match items.push(item) {
        Ok(()) => {}
        Err(_) => unreachable!(),
    }
}

/// Puts back the set that was there before the change.
fn put_back(state: &mut State, change: Change) -> VarId
    requires { change.var < length state.old }
    ensures state { state.new ≡ undone change state.old }
    ensures var { result ≡ change.var }
{
    let Change { var, set } = change;
    let _later = state.replace(var, set);
    var
}
