// Terms that differ at all positions.

ghost use Rattle.std.specs.Prelude.{◌≡◌, IfOk};
ghost use Rattle.dp_rule_alldiff.specs.AllDifferent.{ClashesAllDifferent, MeetsAllDifferent, face_all_different};
ghost use Rattle.dp_rule_alldiff.specs.AllDifferentLaws.{all_different_deciding, all_different_exact, all_different_lawful, all_different_sound};

use crate::{Atom, Found, Memory, Rule, State, Steps, Term, Test, VarId, once, spans, turn};
use dp_domain::{Scratch, search_explanation, search_turn, term_scope};
use std::alloc::Global;
use std::marker::Model;
use std::sync::ledger::Ledger;

/// Terms that differ at all positions, seen as their list. One variable, or one number, may stand at
/// several positions, and counts at each.
#[derive(Debug, Drop)]
pub struct AllDiff {
    terms: Vec<Term>,
    scope: Vec<VarId>,
}

impl Model for AllDiff {
    ghost use Rattle.std.specs.Prelude.{◌≡◌, List};
    ghost use Rattle.dp_domain.specs.Terms.{term_scope};
    ghost use Rattle.dp_domain.specs.declared.term.Term.{Term};

    ghost Value = { List Term };

    ghost view = { λ q. q.terms.items };

    ghost invariant = { λ q. q.scope.items ≡ term_scope q.terms.items };
}

impl AllDiff {
    /// The constraint of these terms.
    pub fn new(alloc: Global, terms: Vec<Term>) -> Result<AllDiff, Memory>
        ensures { IfOk result (λ q. q ≡ terms.items) }
    {
        let scope = term_scope(alloc, &terms)?;
        Ok(AllDiff { terms, scope })
    }

    /// Its terms by position.
    pub fn terms(&self) -> &[Term]
        ensures { result.now ≡ self.now }
    {
        self.terms.as_slice()
    }
}

impl Test for AllDiff {
    ghost face = { face_all_different };

    ghost clashes = { ClashesAllDifferent };

    ghost meets = { MeetsAllDifferent };

    ghost exact = { all_different_exact };

    ghost lawful = { all_different_lawful };

    ghost sound = { all_different_sound };

    ghost deciding = { all_different_deciding };

    fn scope_len(&self) -> usize {
        self.scope.len()
    }

    fn scope_at(&self, place: usize) -> VarId {
        self.scope[place]
    }

    fn is_point(&self, var: VarId, _value: i64) -> bool {
        spans::has_variable(&self.scope, var)
    }

    /// It takes time in the square of the number of terms.
    fn clash(&self, state: &State) -> Result<bool, Memory> {
        if state.dead() {
            return Ok(true);
        }
        let spans = spans::spans(&self.terms, state)?;
        Ok(spans::has_crowd(spans))
    }
}

impl Rule for AllDiff {
    /// It takes time in the square of the number of terms, where each variable stands at one position.
    fn next<L: Ledger>(
        &self,
        state: &State,
        steps: &mut Steps<L>,
    ) -> Result<Option<Found>, Memory> {
        if !once::stand_once(&self.terms, &self.scope) {
            return search_turn(self, state, steps);
        }
        steps.tick();
        turn::found(&self.terms, &self.scope, state)
    }

    fn explain(
        &self,
        initial: &State,
        work: &mut Scratch,
        now: &State,
        target: Option<Atom>,
    ) -> Result<Vec<Atom>, Memory> {
        search_explanation(self, initial, work, now, target)
    }
}
