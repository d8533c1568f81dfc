// Laws of turns and runs, as contracts of functions that do nothing.

ghost use Rattle.std.specs.Prelude.{◌≡◌, ℕ, ◌<◌, ◌++◌, false, true, List, Some, length};
ghost use Rattle.dp_base.specs.Lists.{Among, Each};
ghost use Rattle.dp_domain.specs.Atoms.{Atomic};
ghost use Rattle.dp_domain.specs.States.{AreOf, Domains, IsWithin, cut, is_dead, total};
ghost use Rattle.dp_parts.specs.Problems.{Csp, IsProblem, posed};
ghost use Rattle.dp_parts.specs.Posed.{Posed};
ghost use Rattle.dp_engine.specs.Placed.{AreSound, Placed, face_at, turn_order};
ghost use Rattle.dp_engine.specs.Runs.{IsEnd, IsRun, IsTakenIn, fails, run, run_end};
ghost use Rattle.dp_engine.specs.Turns.{IsTurnAt, Taken, turn_at};
ghost use Rattle.dp_engine.specs.declared.part_id.PartId.{PartId};
ghost use Rattle.dp_engine.specs.declared.turn.Turn.TheVariants.{Atom, Empty};

/// The parts of a problem and of nogoods on its variables are sound, and each stands where its place
/// says. A turn is that of the first part that has one; its atom takes out some value, and leaves each
/// variable one.
pub fn turns()
    ensures sound { (p : Csp) → (nogoods : List (List Atomic)) → IsProblem p → Each (AreOf p.initial) nogoods → AreSound (length p.initial) (turn_order (posed p) nogoods) }
    ensures place { (p : Posed) → (nogoods : List (List Atomic)) → (q : Placed) → Among q (turn_order p nogoods) → face_at p nogoods q.id ≡ Some q.face }
    ensures meaning { (n : ℕ) → (parts : List Placed) → (d : Domains) → AreSound n parts → IsTurnAt parts d (turn_at parts d) }
    ensures less { (n : ℕ) → (parts : List Placed) → (d : Domains) → (id : PartId) → (a : Atomic) → AreSound n parts → turn_at parts d ≡ Atom id a → total (cut d a) < total d }
    ensures alive { (n : ℕ) → (parts : List Placed) → (d : Domains) → (id : PartId) → (a : Atomic) → AreSound n parts → turn_at parts d ≡ Atom id a → is_dead (cut d a) ≡ false }
{}

/// The run from a state is the one list of turns that stand first, each at the state that the one
/// before it leaves, up to a clash or a state at which no part has a turn. It ends in a clash or
/// Quiet, and Empty only from a state that is dead. A run that fails still fails from a smaller state
/// and with more parts, as with nogoods behind those that there were.
pub fn runs()
    ensures run { (n : ℕ) → (parts : List Placed) → (d : Domains) → AreSound n parts → IsRun parts d (run parts d) }
    ensures only { (n : ℕ) → (parts : List Placed) → (d : Domains) → (ts : List Taken) → AreSound n parts → IsRun parts d ts → ts ≡ run parts d }
    ensures taken { (n : ℕ) → (parts : List Placed) → (d : Domains) → AreSound n parts → Each (IsTakenIn parts d) (run parts d) }
    ensures end { (n : ℕ) → (parts : List Placed) → (d : Domains) → AreSound n parts → IsEnd (run_end parts d) }
    ensures empty { (n : ℕ) → (parts : List Placed) → (d : Domains) → AreSound n parts → is_dead d ≡ false → run_end parts d ≡ Empty → ⊥ }
    ensures failing { (n : ℕ) → (parts : List Placed) → (more : List Placed) → (d : Domains) → (e : Domains) → AreSound n parts → AreSound n more → ((q : Placed) → Among q parts → Among q more) → length d ≡ n → IsWithin e d → fails parts d ≡ true → fails more e ≡ true }
    ensures longer { (p : Posed) → (ns : List (List Atomic)) → (ms : List (List Atomic)) → (q : Placed) → Among q (turn_order p ns) → Among q (turn_order p (ns ++ ms)) }
{}
