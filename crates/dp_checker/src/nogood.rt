// Nogoods: the start state, cut hint by hint, becomes empty or entails a hint's whole denial.

ghost use Rattle.std.specs.Prelude.{◌≡◌, ◌||◌, ◌==◌, ◌∷◌, true, false, None, Some, List, length, IfOk, IfSome, OnOk, MatchOption};
ghost use Rattle.std.specs.List.{list_all};
ghost use Rattle.dp_base.specs.Lists.{Among, Each};
ghost use Rattle.dp_domain.specs.Atoms.{Atomic};
ghost use Rattle.dp_domain.specs.States.{entails, entails_all};
ghost use Rattle.dp_parts.specs.Problems.{posed};
ghost use Rattle.dp_checker.specs.Answers.{IfRefused, known_of};
ghost use Rattle.dp_checker.specs.Judged.{nogood_refusal};
ghost use Rattle.dp_checker.specs.Kept.{AreBelow, IsKept};
ghost use Rattle.dp_checker.specs.Known.{cons_some, denials, found, literal_atoms};
ghost use Rattle.dp_parts.specs.Rules.{proves};

use crate::Why;
use crate::facts::Facts;
use crate::fault::Fault;
use crate::literals::{first_undefined, first_unknown, literal_atoms};
use crate::start::start_with;
use crate::steps::Steps;
use dp_domain::{Atom, Memory, Scratch, State, VarId};
use dp_parts::Problem;
use smallvec::SmallVec;

/// The denial of a nogood that its hints prove, or the first test that it fails.
pub fn judge_nogood(
    problem: &Problem,
    facts: &Facts,
    scratch: &mut Scratch,
    id: u64,
    atoms: &[i64],
    hints: &[u64],
) -> Result<SmallVec<Atom, 8>, Fault>
    requires kept { IsKept problem.now (known_of facts.now) }
    requires base { scratch.old.base ≡ problem.now.initial }
    ensures base { scratch.new.base ≡ scratch.old.base }
    ensures accepted { OnOk result (nogood_refusal (posed problem.now) (known_of facts.now) id atoms.now hints.now ≡ None) }
    ensures denial { IfOk result (λ denial. denial.items ≡ literal_atoms facts.now.atoms.entries atoms.now) }
    ensures refused { IfRefused result (λ why. nogood_refusal (posed problem.now) (known_of facts.now) id atoms.now hints.now ≡ Some why) }
{
    if let Some(literal) = first_undefined(&facts.atoms, atoms) {
        return Err(Fault::Refused(Why::UnknownAtom(literal)));
    }
    if facts.steps.contains_key(id) {
        return Err(Fault::Refused(Why::StepTwice));
    }
    if let Some(hint) = first_unknown(&facts.steps, hints) {
        return Err(Fault::Refused(Why::UnknownStep(hint)));
    }
    let alloc = facts.steps.allocator();
    let denial = literal_atoms(alloc, &facts.atoms, atoms)?;
    start_with(scratch, denial.as_slice())?;
    if !prove(scratch, &facts.steps, hints)? {
        return Err(Fault::Refused(Why::NoClash));
    }
    Ok(denial)
}

/// Whether the hints prove that nothing in the start state is left.
fn prove(scratch: &mut Scratch, steps: &Steps, hints: &[u64]) -> Result<bool, Memory>
    requires { Each (λ step. AreBelow (length scratch.old.present) step.1) steps.now }
    ensures base { scratch.new.base ≡ scratch.old.base }
    ensures proved { IfOk result (λ proved. proved ≡ proves scratch.old.present (denials steps.now hints.now)) }
{
    for hint in hints {
        if take_step(scratch, steps, *hint)? {
            return Ok(true);
        }
    }
    Ok(scratch.state().dead())
}

/// Takes the hint of this number, if there is such a step, and answers whether it proves the nogood.
fn take_step(scratch: &mut Scratch, steps: &Steps, hint: u64) -> Result<bool, Memory>
    requires { Each (λ step. AreBelow (length scratch.old.present) step.1) steps.now }
    ensures base { scratch.new.base ≡ scratch.old.base }
    ensures count { length scratch.new.present ≡ length scratch.old.present }
    ensures turn { IfOk result (λ proved. (hints : List (List Atomic)) → proves scratch.old.present (cons_some (found hint steps.now) hints) ≡ (proved || proves scratch.new.present hints)) }
{
    match steps.get(hint) {
        Some(denial) => take_hint(scratch, denial),
        None => Ok(false),
    }
}

/// Cuts the state by the hint, or answers that it proves the nogood.
fn take_hint(scratch: &mut Scratch, denial: &[Atom]) -> Result<bool, Memory>
    requires { AreBelow (length scratch.old.present) denial.now }
    ensures base { scratch.new.base ≡ scratch.old.base }
    ensures count { length scratch.new.present ≡ length scratch.old.present }
    ensures turn { IfOk result (λ proved. (hints : List (List Atomic)) → proves scratch.old.present (denial.now ∷ hints) ≡ (proved || proves scratch.new.present hints)) }
{
    let state = scratch.state();
    if state.dead() {
        return Ok(true);
    }
    let Some(open) = first_open(state, denial) else {
        return Ok(true);
    };
    if rests_on(state, denial, open.var()) {
        scratch.refute(open.var(), denial)?;
    }
    Ok(false)
}

/// The first atom that the state does not entail.
fn first_open(state: &State, denial: &[Atom]) -> Option<Atom>
    requires { AreBelow (length state.now) denial.now }
    ensures none { MatchOption result (entails_all state.now denial.now ≡ true) (λ _. entails_all state.now denial.now ≡ false) }
    ensures open { IfSome result (λ a. Among a denial.now × (entails state.now a ≡ false)) }
{
    for atom in denial {
        if !state.entails(*atom) {
            return Some(*atom);
        }
    }
    None
}

/// Whether the state entails each of the atoms on other variables.
fn rests_on(state: &State, denial: &[Atom], var: VarId) -> bool
    requires { AreBelow (length state.now) denial.now }
    ensures { result ≡ list_all (λ a. (a.var == var) || entails state.now a) denial.now }
{
    for atom in denial {
        if atom.var() != var && !state.entails(*atom) {
            return false;
        }
    }
    true
}
