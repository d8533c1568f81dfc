// Atoms that do not all hold.

ghost use Rattle.std.specs.Prelude.{◌≡◌, ◌≤◌, ◌↔◌, IfOk, IsOk, length};
ghost use Rattle.dp_base.specs.Lists.{Among};
ghost use Rattle.dp_domain.specs.Atoms.{Atomic};
ghost use Rattle.dp_rule_clause.specs.NogoodLaws.{nogood_deciding, nogood_exact, nogood_lawful, nogood_sound};
ghost use Rattle.dp_rule_clause.specs.Nogoods.{ClashesNogood, IsOnce, MeetsNogood, each_once, face_nogood};

use crate::{Atom, Found, Memory, Rule, State, Steps, Test, VarId, atoms, reasons, turns};
use dp_domain::Scratch;
use smallvec::SmallVec;
use std::alloc::Global;
use std::marker::Model;
use std::sync::ledger::Ledger;

/// Atoms of which at least one fails, seen as their list. Up to four take no memory.
#[derive(Debug, Drop)]
pub struct Nogood {
    atoms: SmallVec<Atom, 4>,
    scope: SmallVec<VarId, 4>,
}

impl Model for Nogood {
    ghost use Rattle.std.specs.Prelude.{◌≡◌, List};
    ghost use Rattle.dp_domain.specs.Atoms.{Atomic};
    ghost use Rattle.dp_rule_clause.specs.Nogoods.{scope_of};

    ghost Value = { List Atomic };

    ghost view = { λ q. q.atoms.items };

    ghost invariant = { λ q. q.scope.items ≡ scope_of q.atoms.items };
}

impl Nogood {
    /// The nogood of the atoms in order, each once, at the first of its places. It is always made of
    /// at most four.
    pub fn new(alloc: Global, atoms: &[Atom]) -> Result<Nogood, Memory>
        ensures atoms { IfOk result (λ q. q ≡ each_once atoms.now) }
        ensures once { IfOk result IsOnce }
        ensures same { IfOk result (λ q. (a : Atomic) → Among a q ↔ Among a atoms.now) }
        ensures few { length atoms.now ≤ 4 → IsOk result }
    {
        let atoms = atoms::each_once(alloc, atoms)?;
        let scope = atoms::scope(alloc, atoms.as_slice())?;
        Ok(Nogood { atoms, scope })
    }

    /// Its atoms.
    pub fn atoms(&self) -> &[Atom]
        ensures { result.now ≡ self.now }
    {
        self.atoms.as_slice()
    }
}

impl Test for Nogood {
    ghost face = { face_nogood };

    ghost clashes = { ClashesNogood };

    ghost meets = { MeetsNogood };

    ghost exact = { nogood_exact };

    ghost lawful = { nogood_lawful };

    ghost sound = { nogood_sound };

    ghost deciding = { nogood_deciding };

    fn scope_len(&self) -> usize {
        self.scope.len()
    }

    fn scope_at(&self, place: usize) -> VarId {
        self.scope.as_slice()[place]
    }

    fn is_point(&self, var: VarId, value: i64) -> bool {
        atoms::has_equation(self.atoms.as_slice(), var, value)
    }

    fn clash(&self, state: &State) -> Result<bool, Memory> {
        Ok(state.dead() || atoms::are_entailed(self.atoms.as_slice(), state))
    }
}

impl Rule for Nogood {
    fn next<L: Ledger>(
        &self,
        state: &State,
        steps: &mut Steps<L>,
    ) -> Result<Option<Found>, Memory> {
        steps.tick();
        turns::nogood_turn(self.atoms.as_slice(), state)
    }

    fn explain(
        &self,
        initial: &State,
        _work: &mut Scratch,
        now: &State,
        target: Option<Atom>,
    ) -> Result<Vec<Atom>, Memory> {
        let (atoms, scope) = (self.atoms.as_slice(), self.scope.as_slice());
        reasons::nogood_reasons(atoms, scope, initial, now, &target)
    }
}
