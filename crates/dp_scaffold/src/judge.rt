//! The tests of a line.

ghost use Rattle.std.specs.Prelude.{◌≡◌, ◌≤◌, length, nat_eq, not, is_none, is_some};
ghost use Rattle.std.specs.List.{list_any};
ghost use Rattle.std.specs.Option.{option_map};
ghost use Rattle.dp_base.specs.Names.{named};
ghost use Rattle.dp_checker.specs.Known.{found};
ghost use Rattle.dp_checker.specs.Judged.{has_goal, is_at_least, is_at_most, is_bound, or_else};
ghost use Rattle.dp_lines.specs.declared.line.Claim.TheVariants.{Bound};
ghost use Rattle.dp_parts.specs.Problems.{posed};
ghost use Rattle.dp_scaffold.specs.Answers.{gathered_of};
ghost use Rattle.dp_scaffold.specs.Gathering.{claim_refusal, first_refusal, has_room, line_refusal, most_literals, step_refusal, unless};
ghost use Rattle.dp_scaffold.specs.declared.refusal.GatherWhy.TheVariants.{AtomTwice, StepTwice, TooMany, UnknownAtom, UnknownVar};

use crate::GatherWhy;
use crate::facts::Facts;
use dp_checker::{first_undefined, first_undefined_of, literal_atom};
use dp_domain::{Atom, Name, Op};
use dp_lines::{Claim, Line};
use dp_parts::{Goal, Problem};

/// The most nogoods before the conclusion's.
const MOST_NOGOODS: usize = 1_000_000;

/// The most literals that the lines of nogoods have together.
const MOST_LITERALS: usize = 20_000_000;

/// The first test that refuses the line: nothing may follow a conclusion.
pub fn first_refusal(problem: &Problem, facts: &Facts, line: &Line) -> Option<GatherWhy>
    requires { facts.now.literals ≤ most_literals }
    ensures { result ≡ first_refusal (posed problem.now) (gathered_of facts.now) line.now }
{
    if facts.claim.is_some() {
        return Some(GatherWhy::AfterConclusion);
    }
    line_refusal(problem, facts, line)
}

fn line_refusal(problem: &Problem, facts: &Facts, line: &Line) -> Option<GatherWhy>
    requires { facts.now.literals ≤ most_literals }
    ensures { result ≡ line_refusal (posed problem.now) (gathered_of facts.now) line.now }
{
    match line {
        Line::Atom {
            id,
            name,
            op: _,
            value: _,
        } => atom_refusal(problem, facts, *id, name),
        Line::Inference {
            id,
            premises,
            consequent,
            constraint: _,
            label: _,
        } => {
            let undefined = first_undefined_of(&facts.atoms, premises.as_slice(), *consequent);
            step_refusal(facts, *id, undefined)
        }
        Line::Nogood {
            id,
            atoms,
            hints: _,
        } => nogood_refusal(facts, *id, atoms.as_slice()),
        Line::Delete { id: _ } => None,
        Line::Conclude(claim) => claim_refusal(problem, facts, *claim),
    }
}

fn atom_refusal(problem: &Problem, facts: &Facts, id: u64, name: &Name) -> Option<GatherWhy>
    ensures { result ≡ or_else (unless (is_some (named problem.now.names name.now)) UnknownVar) (unless (is_none (found id facts.now.atoms.entries)) AtomTwice) }
{
    if problem.variable(name).is_none() {
        return Some(GatherWhy::UnknownVar);
    }
    if facts.atoms.contains_key(&id) {
        return Some(GatherWhy::AtomTwice);
    }
    None
}

/// The first test that refuses a step of this number, where its first undefined literal is known.
fn step_refusal(facts: &Facts, id: u64, undefined: Option<i64>) -> Option<GatherWhy>
    ensures { result ≡ or_else (option_map UnknownAtom undefined) (unless (not (list_any (nat_eq id) facts.now.steps.keys)) StepTwice) }
{
    if let Some(literal) = undefined {
        return Some(GatherWhy::UnknownAtom(literal));
    }
    if facts.steps.contains(&id) {
        return Some(GatherWhy::StepTwice);
    }
    None
}

fn nogood_refusal(facts: &Facts, id: u64, atoms: &[i64]) -> Option<GatherWhy>
    requires { facts.now.literals ≤ most_literals }
    ensures { result ≡ or_else (step_refusal (gathered_of facts.now) id atoms.now) (unless (has_room (gathered_of facts.now) (length atoms.now)) TooMany) }
{
    let undefined = first_undefined(&facts.atoms, atoms);
    if let Some(why) = step_refusal(facts, id, undefined) {
        return Some(why);
    }
    if !has_room(facts, atoms.len()) {
        return Some(GatherWhy::TooMany);
    }
    None
}

/// Whether there is room for one more nogood of so many literals.
fn has_room(facts: &Facts, literals: usize) -> bool
    requires { facts.now.literals ≤ most_literals }
    ensures { result ≡ has_room (gathered_of facts.now) literals }
{
    facts.nogoods.len() < MOST_NOGOODS && literals <= MOST_LITERALS - facts.literals
}

fn claim_refusal(problem: &Problem, facts: &Facts, claim: Claim) -> Option<GatherWhy>
    ensures { result ≡ claim_refusal (posed problem.now) (gathered_of facts.now) claim }
{
    match claim {
        Claim::Unsat => None,
        Claim::Bound(literal) => bound_refusal(problem, facts, literal),
    }
}

fn bound_refusal(problem: &Problem, facts: &Facts, literal: i64) -> Option<GatherWhy>
    ensures { result ≡ claim_refusal (posed problem.now) (gathered_of facts.now) (Bound literal) }
{
    let Some(atom) = literal_atom(&facts.atoms, literal) else {
        return Some(GatherWhy::UnknownAtom(literal));
    };
    let goal = problem.goal();
    if !has_goal(&goal) {
        return Some(GatherWhy::NoGoal);
    }
    if !is_bound(&goal, &atom) {
        return Some(GatherWhy::WrongBound);
    }
    None
}

/// Whether a solution is to be best in some way.
fn has_goal(goal: &Goal) -> bool
    ensures { result ≡ has_goal goal.now }
{
    match goal {
        Goal::Satisfy => false,
        Goal::Minimize(_) | Goal::Maximize(_) => true,
    }
}

/// Whether the atom is a bound on the goal's variable, on the goal's side.
fn is_bound(goal: &Goal, atom: &Atom) -> bool
    ensures { result ≡ is_bound goal.now atom.now }
{
    match goal {
        Goal::Satisfy => false,
        Goal::Minimize(var) => atom.var() == *var && is_at_least(atom.op()),
        Goal::Maximize(var) => atom.var() == *var && is_at_most(atom.op()),
    }
}

fn is_at_least(op: Op) -> bool
    ensures { result ≡ is_at_least op }
{
    match op {
        Op::Ge => true,
        Op::Le | Op::Eq | Op::Ne => false,
    }
}

fn is_at_most(op: Op) -> bool
    ensures { result ≡ is_at_most op }
{
    match op {
        Op::Le => true,
        Op::Ge | Op::Eq | Op::Ne => false,
    }
}
