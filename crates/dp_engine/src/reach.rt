// The parts on each variable, as an engine reaches them.

ghost use Rattle.std.specs.Prelude.{◌≡◌, ℕ, ◌<◌, List, [], Some, length, get_or, IsSomeAnd, OnErr, OnOk};
ghost use Rattle.dp_base.specs.Lists.{Climbs, Each};
ghost use Rattle.dp_rule_clause.specs.Nogoods.{scope_of};
ghost use Rattle.dp_engine.specs.Reaches.{below, joined, own_lists};
ghost use Rattle.dp_engine.specs.Debts.{IsTouched};
ghost use Rattle.dp_engine.specs.Woken.{entered};

use crate::Nogood;
use crate::debts::Debts;
use crate::occurrences::Occurrences;
use dp_domain::{Memory, VarId};
use std::alloc::Global;
use std::marker::Model;

/// For each variable the places of the parts that have it in their scope: those of an index below a
/// bound, and behind them those of nogoods that were added; seen as the list of these lists.
#[derive(Drop)]
pub struct Reach<'i> {
    index: &'i Occurrences,
    bound: usize,
    own: Option<Occurrences>,
}

impl<'i> Model for Reach<'i> {
    ghost use Rattle.std.specs.Prelude.{ℕ, List};
    ghost use Rattle.dp_engine.specs.Reaches.{AreOrdered, joined, own_lists};

    ghost Value = { List (List ℕ) };

    ghost view = { λ r. joined r.bound r.index.now (own_lists r.own) };

    ghost invariant = { λ r. AreOrdered r.index.now r.own };
}

impl<'i> Reach<'i> {
    /// The places of the index below the bound.
    pub fn new(index: &'i Occurrences, bound: usize) -> Reach<'i>
        requires { (x : ℕ) → Climbs (get_or index.now x []) }
        ensures { result ≡ joined bound index.now [] }
    {
        Reach {
            index,
            bound,
            own: None,
        }
    }

    /// Wakes the parts on the variable. Want of memory leaves some of them done.
    pub fn wake(&self, var: VarId, debts: &mut Debts) -> Result<(), Memory>
        requires var { var < length self.now }
        requires places { Each (λ k. k < length debts.old.now) (get_or self.now var []) }
        ensures { IsTouched debts.old debts.new (λ done. OnOk result (done ≡ get_or self.now var [])) }
    {
        debts.touch_each(places_below(self.index.on(var), self.bound))?;
        wake_own(&self.own, var, debts)
    }

    /// Enters a nogood at the place. Want of memory leaves all as it was.
    pub fn enter(&mut self, alloc: Global, nogood: &Nogood, place: usize) -> Result<(), Memory>
        requires { Each (λ x. x < length self.old) (scope_of nogood.now) }
        ensures entered { OnOk result (self.new ≡ entered self.old place (scope_of nogood.now)) }
        ensures unchanged { OnErr result (self.new ≡ self.old) }
    {
        make_own(alloc, &mut self.own, self.index.len())?;
        enter_own(&mut self.own, nogood, place)
    }
}

/// Of places that ascend, those below the bound.
fn places_below(places: &[usize], bound: usize) -> &[usize]
    requires { Climbs places.now }
    ensures { result.now ≡ below bound places.now }
{
    let count = places.partition_point(|place| *place < bound);
    &places[..count]
}

/// Wakes the parts that are listed for the variable, if there are lists.
fn wake_own(own: &Option<Occurrences>, var: VarId, debts: &mut Debts) -> Result<(), Memory>
    requires var { (lists : List (List ℕ)) → own.now ≡ Some lists → var < length lists }
    requires places { Each (λ k. k < length debts.old.now) (get_or (own_lists own.now) var []) }
    ensures { IsTouched debts.old debts.new (λ done. OnOk result (done ≡ get_or (own_lists own.now) var [])) }
{
    match own {
        Some(own) => debts.touch_each(own.on(var)),
        None => Ok(()),
    }
}

/// Makes empty lists of so many variables, if there are no lists.
fn make_own(alloc: Global, own: &mut Option<Occurrences>, variables: usize) -> Result<(), Memory>
    requires { (lists : List (List ℕ)) → own.old ≡ Some lists → length lists ≡ variables }
    ensures there { OnOk result (IsSomeAnd own.new (λ lists. length lists ≡ variables)) }
    ensures same { (x : ℕ) → get_or (own_lists own.new) x [] ≡ get_or (own_lists own.old) x [] }
    ensures unchanged { OnErr result (own.new ≡ own.old) }
{
    if own.is_none() {
        *own = Some(Occurrences::new(alloc, variables)?);
    }
    Ok(())
}

/// Enters a nogood into the lists, which are there.
fn enter_own(own: &mut Option<Occurrences>, nogood: &Nogood, place: usize) -> Result<(), Memory>
    requires { IsSomeAnd own.old (λ lists. Each (λ x. x < length lists) (scope_of nogood.now)) }
    ensures count { IsSomeAnd own.new (λ lists. length lists ≡ length (own_lists own.old)) }
    ensures entered { OnOk result (own_lists own.new ≡ entered (own_lists own.old) place (scope_of nogood.now)) }
    ensures unchanged { OnErr result (own_lists own.new ≡ own_lists own.old) }
{
    match own {
        Some(own) => own.enter(nogood, place),
        None => unreachable!(),
    }
}
