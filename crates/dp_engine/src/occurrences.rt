// The parts on each variable.

ghost use Rattle.std.specs.Prelude.{◌≡◌, ℕ, ◌<◌, ◌≤◌, ◌∷◌, ◌++◌, [], List, length, get_or, take, IfOk, OnErr, OnOk};
ghost use Rattle.dp_base.specs.Lists.{Each};
ghost use Rattle.dp_engine.specs.Woken.{IsIndex, entered};

use dp_domain::{Memory, Test, VarId};
use std::alloc::Global;
use std::marker::Model;

/// The places of the parts on one variable.
#[derive(Drop)]
struct Places {
    items: Vec<usize>,
}

impl Model for Places {
    ghost use Rattle.std.specs.Prelude.{ℕ, List};

    ghost Value = { List ℕ };

    ghost view = { λ places. places.items.items };
}

impl Places {
    fn new(alloc: Global) -> Places
        ensures { result ≡ [] }
    {
        Places {
            items: Vec::new(alloc),
        }
    }

    fn push(&mut self, place: usize) -> Result<(), Memory>
        ensures pushed { OnOk result (self.new ≡ self.old ++ place ∷ []) }
        ensures unchanged { OnErr result (self.new ≡ self.old) }
    {
        self.items.push(place)?;
        Ok(())
    }

    fn pop(&mut self)
        ensures { (places : List ℕ) → (place : ℕ) → self.old ≡ places ++ place ∷ [] → self.new ≡ places }
    {
        let _last = self.items.pop();
    }

    fn as_slice(&self) -> &[usize]
        ensures { result.now ≡ self.now }
    {
        self.items.as_slice()
    }
}

/// For each variable the places of the parts that have it in their scope, seen as the list of these lists.
#[derive(Drop)]
pub struct Occurrences {
    lists: Vec<Places>,
}

impl Model for Occurrences {
    ghost use Rattle.std.specs.Prelude.{ℕ, List};

    ghost Value = { List (List ℕ) };

    ghost view = { λ o. o.lists.items };
}

impl Occurrences {
    /// No part on any of so many variables.
    pub fn new(alloc: Global, variables: usize) -> Result<Occurrences, Memory>
        ensures { IfOk result (IsIndex variables []) }
    {
        let mut lists = Vec::new(alloc);
        for _ in 0..variables {
            lists.push(Places::new(alloc))?;
        }
        Ok(Occurrences { lists })
    }

    /// The number of variables.
    pub fn len(&self) -> usize
        ensures { result ≡ length self.now }
    {
        self.lists.len()
    }

    /// The places of the parts on the variable.
    pub fn on(&self, var: VarId) -> &[usize]
        requires { var < length self.now }
        ensures { result.now ≡ get_or self.now var [] }
    {
        self.lists[var.0 as usize].as_slice()
    }

    /// Enters a part at the place. Want of memory leaves all as it was.
    pub fn enter<R: Test>(&mut self, rule: &R, place: usize) -> Result<(), Memory>
        requires { Each (λ x. x < length self.old) (R.face rule.now).scope }
        ensures entered { OnOk result (self.new ≡ entered self.old place (R.face rule.now).scope) }
        ensures unchanged { OnErr result (self.new ≡ self.old) }
    {
        enter(&mut self.lists, rule, place)
    }
}

fn enter<R: Test>(lists: &mut Vec<Places>, rule: &R, place: usize) -> Result<(), Memory>
    requires { Each (λ x. x < length lists.old.items) (R.face rule.now).scope }
    ensures entered { OnOk result (lists.new.items ≡ entered lists.old.items place (R.face rule.now).scope) }
    ensures unchanged { OnErr result (lists.new.items ≡ lists.old.items) }
{
    for at in 0..rule.scope_len() {
        let VarId(var) = rule.scope_at(at);
        let pushed = lists[var as usize].push(place);
        if pushed.is_err() {
            leave(lists, rule, at);
            return Err(Memory);
        }
    }
    Ok(())
}

/// Takes back the last place of the list of each of the first variables, from the last of them on.
fn leave<R: Test>(lists: &mut Vec<Places>, rule: &R, count: usize)
    requires variables { Each (λ x. x < length lists.old.items) (R.face rule.now).scope }
    requires count { count ≤ length (R.face rule.now).scope }
    ensures { (before : List (List ℕ)) → (place : ℕ) → lists.old.items ≡ entered before place (take count (R.face rule.now).scope) → lists.new.items ≡ before }
{
    for at in (0..count).rev() {
        let VarId(var) = rule.scope_at(at);
        lists[var as usize].pop();
    }
}
