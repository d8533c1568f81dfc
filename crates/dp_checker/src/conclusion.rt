// Conclusions: the start state is empty, or entails a step's whole denial.

ghost use Rattle.std.specs.Prelude.{◌≡◌, None, Some, length, IfOk, OnOk};
ghost use Rattle.dp_base.specs.Lists.{Each};
ghost use Rattle.dp_parts.specs.Problems.{posed};
ghost use Rattle.dp_checker.specs.Answers.{IfRefused, known_of};
ghost use Rattle.dp_checker.specs.Judged.{concluded, conclusion_refusal, has_goal, is_at_least, is_at_most, is_bound};
ghost use Rattle.dp_checker.specs.Kept.{AreBelow, IsKept};
ghost use Rattle.dp_parts.specs.Rules.{concludes};
ghost use Rattle.dp_lines.specs.declared.line.Claim.TheVariants.{Unsat, Bound};

use crate::Why;
use crate::facts::Facts;
use crate::fault::Fault;
use crate::literals::literal_atom;
use crate::start::start_beyond;
use crate::steps::Steps;
use dp_domain::{Atom, Op, Scratch, State, Verdict};
use dp_lines::Claim;
use dp_parts::{Goal, Problem};

/// What a claim that holds concludes, or the first test that it fails.
pub fn judge_claim(
    problem: &Problem,
    facts: &Facts,
    scratch: &mut Scratch,
    claim: Claim,
) -> Result<Verdict, Fault>
    requires kept { IsKept problem.now (known_of facts.now) }
    requires base { scratch.old.base ≡ problem.now.initial }
    ensures base { scratch.new.base ≡ scratch.old.base }
    ensures accepted { OnOk result (conclusion_refusal (posed problem.now) (known_of facts.now) claim ≡ None) }
    ensures verdict { IfOk result (λ verdict. concluded (known_of facts.now) claim ≡ Some verdict) }
    ensures refused { IfRefused result (λ why. conclusion_refusal (posed problem.now) (known_of facts.now) claim ≡ Some why) }
{
    match claim {
        Claim::Unsat => judge_unsat(problem, facts),
        Claim::Bound(literal) => judge_bound(problem, facts, scratch, literal),
    }
}

fn judge_unsat(problem: &Problem, facts: &Facts) -> Result<Verdict, Fault>
    requires { IsKept problem.now (known_of facts.now) }
    ensures accepted { OnOk result (conclusion_refusal (posed problem.now) (known_of facts.now) Unsat ≡ None) }
    ensures verdict { IfOk result (λ verdict. concluded (known_of facts.now) Unsat ≡ Some verdict) }
    ensures refused { IfRefused result (λ why. conclusion_refusal (posed problem.now) (known_of facts.now) Unsat ≡ Some why) }
{
    if !concludes(problem.initial(), &facts.steps) {
        return Err(Fault::Refused(Why::NotConcluded));
    }
    Ok(Verdict::Unsat)
}

fn judge_bound(
    problem: &Problem,
    facts: &Facts,
    scratch: &mut Scratch,
    literal: i64,
) -> Result<Verdict, Fault>
    requires kept { IsKept problem.now (known_of facts.now) }
    requires base { scratch.old.base ≡ problem.now.initial }
    ensures base { scratch.new.base ≡ scratch.old.base }
    ensures accepted { OnOk result (conclusion_refusal (posed problem.now) (known_of facts.now) (Bound literal) ≡ None) }
    ensures verdict { IfOk result (λ verdict. concluded (known_of facts.now) (Bound literal) ≡ Some verdict) }
    ensures refused { IfRefused result (λ why. conclusion_refusal (posed problem.now) (known_of facts.now) (Bound literal) ≡ Some why) }
{
    let Some(atom) = literal_atom(&facts.atoms, literal) else {
        return Err(Fault::Refused(Why::UnknownAtom(literal)));
    };
    let goal = problem.goal();
    if !has_goal(&goal) {
        return Err(Fault::Refused(Why::NoGoal));
    }
    if !is_bound(&goal, &atom) {
        return Err(Fault::Refused(Why::WrongBound));
    }
    start_beyond(scratch, &atom)?;
    if !concludes(scratch.state(), &facts.steps) {
        return Err(Fault::Refused(Why::NotConcluded));
    }
    Ok(Verdict::Bound(atom))
}

/// Whether a solution is to be best in some way.
fn has_goal(goal: &Goal) -> bool
    ensures { result ≡ has_goal goal.now }
{
    match goal {
        Goal::Satisfy => false,
        Goal::Minimize(_) | Goal::Maximize(_) => true,
    }
}

/// Whether the atom is a bound on the goal's variable, on the goal's side.
fn is_bound(goal: &Goal, atom: &Atom) -> bool
    ensures { result ≡ is_bound goal.now atom.now }
{
    match goal {
        Goal::Satisfy => false,
        Goal::Minimize(var) => atom.var() == *var && is_at_least(atom.op()),
        Goal::Maximize(var) => atom.var() == *var && is_at_most(atom.op()),
    }
}

fn is_at_least(op: Op) -> bool
    ensures { result ≡ is_at_least op }
{
    match op {
        Op::Ge => true,
        Op::Le | Op::Eq | Op::Ne => false,
    }
}

fn is_at_most(op: Op) -> bool
    ensures { result ≡ is_at_most op }
{
    match op {
        Op::Le => true,
        Op::Ge | Op::Eq | Op::Ne => false,
    }
}

/// Whether the state is empty, or entails all that some step denies.
fn concludes(start: &State, steps: &Steps) -> bool
    requires { Each (λ step. AreBelow (length start.now) step.1) steps.now }
    ensures { result ≡ concludes start.now steps.now }
{
    start.dead() || steps.any_entailed(start)
}
