// Inferences: a start state is empty, or a part of the named constraint clashes there.

ghost use Rattle.std.specs.Prelude.{◌≡◌, ◌&&◌, None, Some, [], map, length, IfOk, IfSome, OnOk, MatchOption};
ghost use Rattle.std.specs.List.{list_any};
ghost use Rattle.std.specs.Str.{bytes_eq};
ghost use Rattle.dp_base.specs.Lists.{Each};
ghost use Rattle.dp_domain.specs.Faces.{Covers};
ghost use Rattle.dp_parts.specs.Parts.{face_of};
ghost use Rattle.dp_parts.specs.Problems.{labelled, posed};
ghost use Rattle.dp_checker.specs.Answers.{IfRefused, known_of};
ghost use Rattle.dp_checker.specs.Judged.{grounds, inference_denial, inference_refusal, initial_domain, is_constraint, is_fitting, parts_of};
ghost use Rattle.dp_checker.specs.Kept.{IsKept};
ghost use Rattle.dp_parts.specs.Rules.{implies, is_labelled};

use crate::Why;
use crate::facts::Facts;
use crate::fault::Fault;
use crate::literals::{first_undefined_of, inference_denial};
use crate::start::start_with;
use dp_domain::{Atom, Memory, Name, Scratch, State, Test};
use dp_parts::{Part, Problem};
use smallvec::SmallVec;

/// The denial of an inference that holds, or the first test that it fails.
pub fn judge_inference(
    problem: &Problem,
    facts: &Facts,
    scratch: &mut Scratch,
    id: u64,
    premises: &[i64],
    consequent: Option<i64>,
    constraint: Option<u64>,
    label: &Option<Name>,
) -> Result<SmallVec<Atom, 8>, Fault>
    requires kept { IsKept problem.now (known_of facts.now) }
    requires base { scratch.old.base ≡ problem.now.initial }
    ensures base { scratch.new.base ≡ scratch.old.base }
    ensures accepted { OnOk result (inference_refusal (posed problem.now) (known_of facts.now) id premises.now consequent constraint label.now ≡ None) }
    ensures denial { IfOk result (λ denial. denial.items ≡ inference_denial facts.now.atoms.entries premises.now consequent) }
    ensures refused { IfRefused result (λ why. inference_refusal (posed problem.now) (known_of facts.now) id premises.now consequent constraint label.now ≡ Some why) }
{
    if let Some(literal) = first_undefined_of(&facts.atoms, premises, consequent) {
        return Err(Fault::Refused(Why::UnknownAtom(literal)));
    }
    if facts.steps.contains_key(id) {
        return Err(Fault::Refused(Why::StepTwice));
    }
    if !is_constraint(problem, constraint) {
        return Err(Fault::Refused(Why::UnknownConstraint));
    }
    if !is_fitting(problem, constraint, label) {
        return Err(Fault::Refused(Why::WrongLabel));
    }
    let alloc = facts.steps.allocator();
    let denial = inference_denial(alloc, &facts.atoms, premises, consequent)?;
    start_with(scratch, denial.as_slice())?;
    if !holds(problem, scratch.state(), constraint, label)? {
        return Err(Fault::Refused(Why::NotImplied));
    }
    Ok(denial)
}

/// Whether the number is a constraint's, where one is given.
fn is_constraint(problem: &Problem, constraint: Option<u64>) -> bool
    ensures { result ≡ is_constraint (posed problem.now) constraint }
{
    match constraint {
        Some(number) => 0 < number && number - 1 < problem.constraint_count() as u64,
        None => true,
    }
}

fn is_initial_domain(label: &Name) -> bool
    ensures { result ≡ bytes_eq label.now initial_domain }
{
    label.bytes() == b"initial_domain".as_slice()
}

/// Whether no label is given, or it is the part's.
fn is_labelled(label: &Option<Name>, part: &Part) -> bool
    ensures { result ≡ is_labelled label.now (labelled part.now) }
{
    match label {
        Some(label) => label.bytes() == dp_parts::label(part).as_bytes(),
        None => true,
    }
}

/// The parts of the constraint with this number, from 1.
fn parts_of<'p>(problem: &'p Problem, constraint: Option<u64>) -> Option<&'p [Part]>
    ensures parts { MatchOption result (parts_of (posed problem.now) constraint ≡ []) (λ parts. map labelled parts.now ≡ parts_of (posed problem.now) constraint) }
    ensures covered { IfSome result (λ parts. Each (λ q. Covers (face_of q).scope problem.now.initial) parts.now) }
{
    let place = constraint?.saturating_sub(1) as usize;
    if place < problem.constraint_count() {
        Some(problem.parts_of(place))
    } else {
        None
    }
}

/// The parts that an inference may rest on.
fn grounds<'p>(
    problem: &'p Problem,
    constraint: Option<u64>,
    label: &Option<Name>,
) -> Option<&'p [Part]>
    ensures parts { MatchOption result (grounds (posed problem.now) constraint label.now ≡ []) (λ parts. map labelled parts.now ≡ grounds (posed problem.now) constraint label.now) }
    ensures covered { IfSome result (λ parts. Each (λ q. Covers (face_of q).scope problem.now.initial) parts.now) }
{
    if let Some(label) = label {
        if is_initial_domain(label) {
            return None;
        }
    }
    parts_of(problem, constraint)
}

fn has_label(parts: &[Part], label: &Option<Name>) -> bool
    ensures { result ≡ list_any (is_labelled label.now) (map labelled parts.now) }
{
    for part in parts {
        if is_labelled(label, part) {
            return true;
        }
    }
    false
}

/// Whether the label is not given, is `initial_domain`, or is that of a part of the constraint.
fn is_fitting(problem: &Problem, constraint: Option<u64>, label: &Option<Name>) -> bool
    ensures { result ≡ is_fitting (posed problem.now) constraint label.now }
{
    let Some(name) = label else {
        return true;
    };
    if is_initial_domain(name) {
        return true;
    }
    match parts_of(problem, constraint) {
        Some(parts) => has_label(parts, label),
        None => false,
    }
}

fn any_clash(start: &State, parts: &[Part], label: &Option<Name>) -> Result<bool, Memory>
    requires { Each (λ q. Covers (face_of q).scope start.now) parts.now }
    ensures { IfOk result (λ any. any ≡ list_any (λ part. is_labelled label.now part && part.face.test start.now) (map labelled parts.now)) }
{
    for part in parts {
        if is_labelled(label, part) && part.clash(start)? {
            return Ok(true);
        }
    }
    Ok(false)
}

/// Whether the start state is empty, or a part that the inference may rest on clashes there.
fn holds(
    problem: &Problem,
    start: &State,
    constraint: Option<u64>,
    label: &Option<Name>,
) -> Result<bool, Memory>
    requires { length start.now ≡ length problem.now.initial }
    ensures { IfOk result (λ answer. answer ≡ implies start.now (grounds (posed problem.now) constraint label.now) label.now) }
{
    if start.dead() {
        return Ok(true);
    }
    match grounds(problem, constraint, label) {
        Some(parts) => any_clash(start, parts, label),
        None => Ok(false),
    }
}
