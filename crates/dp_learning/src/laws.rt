// Laws of learned nogoods, as contracts of functions that do nothing.

ghost use Rattle.std.specs.Prelude.{◌≡◌, ℕ, ◌<◌, true, false, [], ◌∷◌, ◌++◌, List, length, ℤ};
ghost use Rattle.dp_base.specs.Lists.{Each};
ghost use Rattle.dp_domain.specs.Atoms.{Atomic, negated};
ghost use Rattle.dp_domain.specs.States.{AreOf, Domains, IsWithin, entails, entails_all, values};
ghost use Rattle.dp_engine.specs.Placed.{AreSound, Placed, turn_order};
ghost use Rattle.dp_engine.specs.Runs.{fails};
ghost use Rattle.dp_parts.specs.Posed.{IsSoundlyPosed, Posed};
ghost use Rattle.dp_parts.specs.Problems.{Csp, IsProblem, IsSolution, posed};
ghost use Rattle.dp_learning.specs.Learning.{AreLearned, IsAtRest, IsLearned, IsNew};

/// A nogood is new wherever propagation rests at a state that entails its other atoms, and leaves a value
/// that meets its last. A run fails where propagation rests at no state within its start. What is learned
/// behind learned nogoods is learned. A state at rest that leaves each variable one value is a solution.
pub fn learned()
    ensures new { (p : Posed) → (before : List (List Atomic)) → (others : List Atomic) → (last : Atomic) → (d : Domains) → IsSoundlyPosed p → AreSound (length p.initial) (turn_order p before)
        → IsAtRest (turn_order p before) d → IsWithin d p.initial → entails_all d others ≡ true → entails d (negated last) ≡ false → IsNew p before (others ++ last ∷ []) }
    ensures fails { (n : ℕ) → (parts : List Placed) → (d : Domains) → AreSound n parts → length d ≡ n → ((e : Domains) → IsAtRest parts e → IsWithin e d → ⊥) → fails parts d ≡ true }
    ensures more { (p : Posed) → (nogoods : List (List Atomic)) → (nogood : List Atomic) → AreLearned p nogoods → IsLearned p nogoods nogood → AreLearned p (nogoods ++ nogood ∷ []) }
    ensures solves { (p : Csp) → (nogoods : List (List Atomic)) → (d : Domains) → (s : ℕ → ℤ) → IsProblem p → Each (AreOf p.initial) nogoods
        → IsAtRest (turn_order (posed p) nogoods) d → IsWithin d p.initial → ((x : ℕ) → x < length p.initial → values d x ≡ s x ∷ []) → IsSolution s p }
{}
