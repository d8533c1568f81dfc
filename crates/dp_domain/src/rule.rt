// The trait of the rules that constraints are checked by.

ghost use Rattle.std.specs.Prelude.{◌≡◌, ℕ, ◌+◌, ◌<◌, ◌↔◌, Bool, true, false, Some, [], List, length, slice_get, ℤ, IfOk};
ghost use Rattle.dp_domain.specs.Explanations.{IsOpen, explanation, suffices};
ghost use Rattle.dp_domain.specs.Faces.{Covers, Face, Fixes, IsLawful};
ghost use Rattle.dp_domain.specs.States.{Domains, IsWithin, LiesIn, is_dead};
ghost use Rattle.dp_domain.specs.Turns.{HoldsHoles, turn_of};

use crate::{Atom, Dom, Found, Memory, Scratch, State, Steps, VarId};
use std::sync::ledger::Ledger;

/// A part of a constraint: which assignments meet it, and a test that says where no assignment can.
pub trait Test {
    /// Its variables, its test and its points.
    ghost face: { Self → Face };

    /// Where it clashes, in the words of its kind.
    ghost clashes: { Self → Domains → Type 0 };

    /// Which assignments meet it.
    ghost meets: { Self → (ℕ → ℤ) → Type 0 };

    /// The number of its variables.
    fn scope_len(&self) -> usize
        ensures { result ≡ length (face self.now).scope };

    /// The variable at a place of its scope. The scope has each variable once, in order of declaration.
    fn scope_at(&self, place: usize) -> VarId
        requires { place < length (face self.now).scope }
        ensures { slice_get (face self.now).scope place ≡ Some result };

    /// Whether it may take the value out of the variable singly, where both bounds stay.
    fn is_point(&self, var: VarId, value: i64) -> bool
        ensures { result ≡ (face self.now).point var value };

    /// Numbers among which all are that it newly takes out of the variable at the state.
    fn candidates(&self, var: VarId, state: &State) -> Result<Dom, Memory>
        requires { var < length state.now }
        ensures { IfOk result (λ numbers. HoldsHoles (face self.now) state.now var numbers) }
    {
        state.set(var).copy()
    }

    /// Whether it clashes at the state.
    fn clash(&self, state: &State) -> Result<bool, Memory>
        requires { Covers (face self.now).scope state.now }
        ensures { IfOk result (λ answer. answer ≡ (face self.now).test state.now) };

    /// The test is true exactly where it clashes.
    ghost exact: { (q : Self) (d : Domains) → (face q).test d ≡ true ↔ clashes q d };

    /// What runs need of every test.
    ghost lawful: { (q : Self) → IsLawful (face q) };

    /// An assignment within the state that meets the part shows that it does not clash there.
    ghost sound: { (q : Self) (d : Domains) (s : ℕ → ℤ) → Covers (face q).scope d → LiesIn s d → meets q s → (face q).test d ≡ false };

    /// Where each variable of the scope has one value, it clashes exactly where that assignment fails it.
    ghost deciding: { (q : Self) (d : Domains) (s : ℕ → ℤ) → is_dead d ≡ false → Fixes (face q).scope s d → ((face q).test d ≡ true) ↔ (meets q s → ⊥) };
}

/// A part that also gives its turn at a state, and explains it. `search_turn` and `search_explanation`
/// are bodies that serve every part, by its test alone.
pub trait Rule: Test {
    /// Its turn at a nonempty state: Clash where it clashes; else, on its first variable with an atom that
    /// is new and follows, the greatest `>=`, else the least `<=`, else the least `!=` at a point. None
    /// exactly where there is no such atom. It ticks once, also where it answers `Memory`.
    fn next<L: Ledger>(&self, state: &State, steps: &mut Steps<L>) -> Result<Option<Found>, Memory>
        requires covers { Covers (Self.face self.now).scope state.now }
        requires alive { is_dead state.now ≡ false }
        ensures turn { IfOk result (λ turn. turn ≡ turn_of (Self.face self.now) state.now) }
        ensures ticked { steps.new ≡ steps.old + 1 };

    /// Why it clashes at the state `now` where the target fails, or at `now` itself where there is no
    /// target: atoms that hold at `now` and suffice at the initial state, of which none can be left out.
    /// It may change what is present in the working state, which goes back to the initial state.
    fn explain(
        &self,
        initial: &State,
        work: &mut Scratch,
        now: &State,
        target: Option<Atom>,
    ) -> Result<Vec<Atom>, Memory>
        requires covers { Covers (Self.face self.now).scope now.now }
        requires alive { is_dead now.now ≡ false }
        requires within { IsWithin now.now initial.now }
        requires open { IsOpen now.now target }
        requires clash { suffices (Self.face self.now) now.now target [] ≡ true }
        requires base { work.old.base ≡ initial.now }
        ensures base { work.new.base ≡ initial.now }
        ensures explanation { IfOk result (λ atoms. atoms.items ≡ explanation (Self.face self.now) initial.now now.now target) };
}
