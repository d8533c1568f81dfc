// A working state that goes back to where it began.

ghost use Rattle.std.specs.Prelude.{◌≡◌, ◌<◌, ◌++◌, ◌∷◌, [], not, length, slice_set, vec_len, vec_capacity, IfOk, OnErr, OnOk};
ghost use Rattle.dp_base.specs.Lists.{Each};
ghost use Rattle.dp_domain.specs.Scratches.{ends_with, put_back, put_back_all};
ghost use Rattle.dp_domain.specs.States.{cut, entails, refuted, values};

use crate::{Atom, Dom, Memory, State, VarId};
use std::marker::Model;

/// A variable, and the set that another one took the place of.
#[derive(Debug, Drop)]
struct Replaced {
    var: VarId,
    set: Dom,
}

/// A state to work on, seen with the state that it began as. The sets that were replaced are kept, so
/// that going back takes time by what was changed, and no memory.
#[derive(Debug, Drop)]
pub struct Scratch {
    replaced: Vec<Replaced>,
    present: State,
}

impl Model for Scratch {
    ghost use Rattle.std.specs.Prelude.{◌<◌, length};
    ghost use Rattle.dp_base.specs.Lists.{Each};
    ghost use Rattle.dp_domain.specs.Scratches.{Working, put_back_all};

    ghost Value = { Working };

    ghost view = { λ s. record { base = put_back_all s.replaced.items s.present; present = s.present } };

    ghost invariant = { λ s. Each (λ r. r.var < length s.present) s.replaced.items };
}

impl Scratch {
    /// At this state, to which it goes back.
    pub fn new(state: State) -> Scratch
        ensures base { result.base ≡ state }
        ensures present { result.present ≡ state }
    {
        Scratch {
            replaced: Vec::new(state.allocator()),
            present: state,
        }
    }

    /// The present state.
    pub fn state(&self) -> &State
        ensures present { result.now ≡ self.now.present }
        ensures count { length self.now.present ≡ length self.now.base }
    {
        &self.present
    }

    /// Keeps the values that meet the atom, and answers whether the set changed. Want of memory
    /// leaves all as it was.
    pub fn exclude(&mut self, atom: Atom) -> Result<bool, Memory>
        requires { atom.var < length self.old.present }
        ensures base { self.new.base ≡ self.old.base }
        ensures kept { OnOk result (self.new.present ≡ cut self.old.present atom) }
        ensures changed { IfOk result (λ changed. changed ≡ not (entails self.old.present atom)) }
        ensures err { OnErr result (self.new ≡ self.old) }
    {
        if self.present.entails(atom) {
            return Ok(false);
        }
        let set = self.present.set(atom.var()).meeting(atom)?;
        change(&mut self.replaced, &mut self.present, atom.var(), set)?;
        Ok(true)
    }

    /// Takes out the values of the variable that meet each of the atoms on it. Want of memory leaves
    /// all as it was.
    pub fn refute(&mut self, var: VarId, atoms: &[Atom]) -> Result<(), Memory>
        requires { var < length self.old.present }
        ensures base { self.new.base ≡ self.old.base }
        ensures kept { OnOk result (self.new.present ≡ refuted self.old.present var atoms.now) }
        ensures err { OnErr result (self.new ≡ self.old) }
    {
        let set = self.present.set(var).failing_one(var, atoms)?;
        change(&mut self.replaced, &mut self.present, var, set)
    }

    /// Gives the variable another set. Want of memory leaves all as it was.
    pub(crate) fn replace(&mut self, var: VarId, set: Dom) -> Result<(), Memory>
        requires { var < length self.old.present }
        ensures base { self.new.base ≡ self.old.base }
        ensures present { OnOk result (self.new.present ≡ slice_set self.old.present var set) }
        ensures err { OnErr result (self.new ≡ self.old) }
    {
        change(&mut self.replaced, &mut self.present, var, set)
    }

    /// Goes back to the state that it began as.
    pub fn reset(&mut self)
        ensures base { self.new.base ≡ self.old.base }
        ensures present { self.new.present ≡ self.old.base }
    {
        undo(&mut self.replaced, &mut self.present);
    }
}

/// Gives the variable another set, and keeps the one that it had, unless the last that was kept is of
/// that variable too. Want of memory leaves all as it was.
fn change(
    replaced: &mut Vec<Replaced>,
    present: &mut State,
    var: VarId,
    set: Dom,
) -> Result<(), Memory>
    requires var { var < length present.old }
    requires variables { Each (λ r. r.var < length present.old) replaced.old.items }
    ensures base { put_back_all replaced.new.items present.new ≡ put_back_all replaced.old.items present.old }
    ensures variables { Each (λ r. r.var < length present.new) replaced.new.items }
    ensures present { OnOk result (present.new ≡ slice_set present.old var set) }
    ensures state { OnErr result (present.new ≡ present.old) }
    ensures list { OnErr result (replaced.new.items ≡ replaced.old.items) }
{
    if ends_with(replaced, var) {
        present.replace(var, set);
        return Ok(());
    }
    replaced.reserve(1)?;
    let set = present.replace(var, set);
    push_reserved(replaced, Replaced { var, set });
    Ok(())
}

/// Whether the last set that was kept is of the variable.
fn ends_with(replaced: &Vec<Replaced>, var: VarId) -> bool
    ensures { result ≡ ends_with var replaced.now.items }
{
    match replaced.last() {
        Some(last) => last.var == var,
        None => false,
    }
}

/// Adds an item for which there is room.
fn push_reserved(replaced: &mut Vec<Replaced>, item: Replaced)
    requires { vec_len replaced.old < vec_capacity replaced.old }
    ensures { replaced.new.items ≡ replaced.old.items ++ item ∷ [] }
{
    match replaced.push(item) {
        Ok(()) => {}
        Err(_) => unreachable!(),
    }
}

/// Gives the variables back the sets that were replaced, the last of them first.
fn undo(replaced: &mut Vec<Replaced>, present: &mut State)
    requires { Each (λ r. r.var < length present.old) replaced.old.items }
    ensures none { replaced.new.items ≡ [] }
    ensures present { present.new ≡ put_back_all replaced.old.items present.old }
{
    while let Some(last) = replaced.pop() {
        give_back(present, last);
    }
}

/// Gives a variable back the set that it had.
fn give_back(present: &mut State, last: Replaced)
    requires { last.var < length present.old }
    ensures { present.new ≡ put_back last present.old }
{
    let Replaced { var, set } = last;
    let _later = present.replace(var, set);
}
