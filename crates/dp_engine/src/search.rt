// The search for the first turn among the parts that are woken.

ghost use Rattle.std.specs.Prelude.{◌≡◌, ◌+◌, ◌≤◌, false, List, [], length, IfOk, OnErr};
ghost use Rattle.dp_domain.specs.States.{Domains, is_dead};
ghost use Rattle.dp_engine.specs.Placed.{AreSound};
ghost use Rattle.dp_engine.specs.Rosters.{all_placed};
ghost use Rattle.dp_engine.specs.Debts.{AreKept};
ghost use Rattle.dp_engine.specs.Rests.{Rest};
ghost use Rattle.dp_engine.specs.Woken.{IsSearched, owed_of};

use crate::Turn;
use crate::debts::Debts;
use crate::roster::Roster;
use dp_domain::{Memory, State, Steps};
use std::sync::ledger::Ledger;

/// The turn of the first part that has one, with the part's place. Woken parts alone are asked, in
/// order, and those without a turn are put to rest.
pub fn first_turn<L: Ledger>(
    roster: &Roster,
    debts: &mut Debts,
    state: &State,
    steps: &mut Steps<L>,
) -> Result<Option<(usize, Turn)>, Memory>
    requires count { length debts.old.now ≡ length (all_placed roster.now) }
    requires sound { AreSound (length state.now) (all_placed roster.now) }
    requires alive { is_dead state.now ≡ false }
    requires rest { Rest (all_placed roster.now) debts.old.now state.now }
    ensures count { length debts.new.now ≡ length debts.old.now }
    ensures lasting { debts.new.lasting ≡ debts.old.lasting }
    ensures rest { Rest (all_placed roster.now) debts.new.now state.now }
    ensures earlier { (past : List Domains) → AreKept (all_placed roster.now) debts.old.lasting debts.old.notes [] debts.old.now state.now past → AreKept (all_placed roster.now) debts.new.lasting debts.new.notes [] debts.new.now state.now past }
    ensures more { steps.old ≤ steps.new }
    ensures searched { IfOk result (IsSearched (all_placed roster.now) state.now debts.new.now (steps.old + owed_of debts.old.now) (steps.new + owed_of debts.new.now)) }
    ensures counted { OnErr result (steps.new + owed_of debts.new.now ≤ (steps.old + owed_of debts.old.now) + 1) }
{
    while let Some(place) = debts.first() {
        let turn = roster.turn(place, state, steps)?;
        match turn {
            Some(turn) => return Ok(Some((place, turn))),
            None => debts.rest(place)?,
        }
    }
    Ok(None)
}
