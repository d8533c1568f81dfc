// Why one part clashes or gives an atom, by its test: atom by atom.

ghost use Rattle.std.specs.Prelude.{◌≡◌, ◌<◌, ◌≤◌, false, true, not, [], ◌∷◌, ◌++◌, length, drop, filter, slice_set, IfOk, OnOk, if◌then◌else◌};
ghost use Rattle.dp_domain.specs.Explanations.{Explains, IsOpen, explanation, failing, needed, suffices};
ghost use Rattle.dp_domain.specs.Faces.{Covers};
ghost use Rattle.dp_domain.specs.States.{AreOf, IsWithin, cut_all, fails_one, is_dead, values};

use crate::{Atom, Dom, Memory, Scratch, State, Test, VarId};
use std::alloc::Global;

/// The explanation of any part, found by its test: the description of the state `now` beyond the
/// initial one, with each atom dropped in turn where those kept and those to come suffice without it.
/// It works on a working state of the initial one, and copies no state; for each test it makes the set
/// of one variable anew.
pub fn search_explanation<R: Test>(
    rule: &R,
    initial: &State,
    work: &mut Scratch,
    now: &State,
    target: Option<Atom>,
) -> Result<Vec<Atom>, Memory>
    requires covers { Covers (R.face rule.now).scope now.now }
    requires alive { is_dead now.now ≡ false }
    requires within { IsWithin now.now initial.now }
    requires open { IsOpen now.now target }
    requires clash { suffices (R.face rule.now) now.now target [] ≡ true }
    requires base { work.old.base ≡ initial.now }
    ensures base { work.new.base ≡ initial.now }
    ensures explanation { IfOk result (λ atoms. atoms.items ≡ explanation (R.face rule.now) initial.now now.now target) }
    ensures meaning { IfOk result (λ atoms. Explains (R.face rule.now) initial.now now.now target atoms.items) }
{
    let scope = scope_of(rule, now.allocator())?;
    let description = now.describe(initial, scope.as_slice())?;
    needed(rule, initial, work, &target, description.as_slice())
}

/// The part's variables.
fn scope_of<R: Test>(rule: &R, alloc: Global) -> Result<Vec<VarId>, Memory>
    ensures { IfOk result (λ scope. scope.items ≡ (R.face rule.now).scope) }
{
    let mut scope = Vec::new(alloc);
    for place in 0..rule.scope_len() {
        scope.push(rule.scope_at(place))?;
    }
    Ok(scope)
}

/// The atoms without which the others do not suffice, from the first on. The working state is the
/// initial state cut by the atoms kept and those to come, and by the target's failing.
fn needed<R: Test>(
    rule: &R,
    initial: &State,
    work: &mut Scratch,
    target: &Option<Atom>,
    atoms: &[Atom],
) -> Result<Vec<Atom>, Memory>
    requires covers { Covers (R.face rule.now).scope initial.now }
    requires atoms { AreOf initial.now atoms.now }
    requires target { AreOf initial.now (failing target.now) }
    requires base { work.old.base ≡ initial.now }
    ensures base { work.new.base ≡ initial.now }
    ensures kept { IfOk result (λ kept. kept.items ≡ needed (R.face rule.now) initial.now target.now [] atoms.now) }
{
    cut_anew(work, target, atoms)?;
    let mut kept = Vec::new(initial.allocator());
    for place in 0..atoms.len() {
        let rest = rest_of(atoms, place + 1);
        keep_needed(rule, initial, work, target, &mut kept, atoms[place], rest)?;
    }
    Ok(kept)
}

/// Keeps the atom where those kept and those to come do not suffice without it. Else the state loses
/// the atom's cut.
fn keep_needed<R: Test>(
    rule: &R,
    initial: &State,
    work: &mut Scratch,
    target: &Option<Atom>,
    kept: &mut Vec<Atom>,
    atom: Atom,
    rest: &[Atom],
) -> Result<(), Memory>
    requires covers { Covers (R.face rule.now).scope initial.now }
    requires var { atom.var < length initial.now }
    requires base { work.old.base ≡ initial.now }
    requires state { work.old.present ≡ cut_all initial.now ((kept.old.items ++ atom ∷ rest.now) ++ failing target.now) }
    ensures base { work.new.base ≡ initial.now }
    ensures kept { OnOk result (kept.new.items ≡ (if suffices (R.face rule.now) initial.now target.now (kept.old.items ++ rest.now) then kept.old.items else kept.old.items ++ atom ∷ [])) }
    ensures state { OnOk result (work.new.present ≡ cut_all initial.now ((kept.new.items ++ rest.now) ++ failing target.now)) }
{
    let set = set_by(initial, target, atom.var(), kept.as_slice(), rest)?;
    let old = work.state().set(atom.var()).copy()?;
    work.replace(atom.var(), set)?;
    let enough = rule.clash(work.state())?;
    if !enough {
        keep(work, kept, atom, old)?;
    }
    Ok(())
}

/// Keeps the atom, and puts the old set of its variable back.
fn keep(work: &mut Scratch, kept: &mut Vec<Atom>, atom: Atom, old: Dom) -> Result<(), Memory>
    requires { atom.var < length work.old.present }
    ensures base { work.new.base ≡ work.old.base }
    ensures kept { OnOk result (kept.new.items ≡ kept.old.items ++ atom ∷ []) }
    ensures state { OnOk result (work.new.present ≡ slice_set work.old.present atom.var old) }
{
    work.replace(atom.var(), old)?;
    Ok(kept.push(atom)?)
}

/// Goes back to the base, and cuts it by the atoms and by the negation of the target.
fn cut_anew(work: &mut Scratch, target: &Option<Atom>, atoms: &[Atom]) -> Result<(), Memory>
    requires atoms { AreOf work.old.base atoms.now }
    requires target { AreOf work.old.base (failing target.now) }
    ensures base { work.new.base ≡ work.old.base }
    ensures state { OnOk result (work.new.present ≡ cut_all work.old.base (atoms.now ++ failing target.now)) }
{
    work.reset();
    cut_by(work, atoms)?;
    cut_target(work, target)
}

/// The variable's set in the state cut by these atoms, and by the negation of the target.
fn set_by(
    initial: &State,
    target: &Option<Atom>,
    var: VarId,
    kept: &[Atom],
    rest: &[Atom],
) -> Result<Dom, Memory>
    requires { var < length initial.now }
    ensures { IfOk result (λ set. set ≡ values (cut_all initial.now ((kept.now ++ rest.now) ++ failing target.now)) var) }
{
    let by_kept = meeting(initial.set(var), var, kept)?;
    let by_rest = meeting(&by_kept, var, rest)?;
    missing(by_rest, var, target)
}

/// The numbers that fail the target, where there is one on the variable.
fn missing(set: Dom, var: VarId, target: &Option<Atom>) -> Result<Dom, Memory>
    ensures { IfOk result (λ left. left ≡ filter (λ v. not (fails_one var (failing target.now) v)) set) }
{
    match target {
        Some(atom) => meeting(&set, var, &[atom.negated()]),
        None => Ok(set),
    }
}

/// The numbers that, as the variable's value, meet each of the atoms on it.
fn meeting(set: &Dom, var: VarId, atoms: &[Atom]) -> Result<Dom, Memory>
    ensures { IfOk result (λ left. left ≡ filter (λ v. not (fails_one var atoms.now v)) set.now) }
{
    let mut refuted = set.copy()?;
    refuted.refute(var, atoms)?;
    set.without(&refuted)
}

/// Cuts the present state by the negation of the target, where there is one.
fn cut_target(work: &mut Scratch, target: &Option<Atom>) -> Result<(), Memory>
    requires { AreOf work.old.present (failing target.now) }
    ensures base { work.new.base ≡ work.old.base }
    ensures state { OnOk result (work.new.present ≡ cut_all work.old.present (failing target.now)) }
{
    match target {
        Some(atom) => {
            work.exclude(atom.negated())?;
            Ok(())
        }
        None => Ok(()),
    }
}

/// Cuts the present state by each of the atoms.
fn cut_by(work: &mut Scratch, atoms: &[Atom]) -> Result<(), Memory>
    requires { AreOf work.old.present atoms.now }
    ensures base { work.new.base ≡ work.old.base }
    ensures state { OnOk result (work.new.present ≡ cut_all work.old.present atoms.now) }
{
    for atom in atoms {
        work.exclude(*atom)?;
    }
    Ok(())
}

/// The atoms from the place on.
fn rest_of(atoms: &[Atom], place: usize) -> &[Atom]
    requires { place ≤ length atoms.now }
    ensures { result.now ≡ drop place atoms.now }
{
    &atoms[place..]
}
