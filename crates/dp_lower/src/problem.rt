//! The problem of a model.

ghost use Rattle.std.specs.Prelude.{◌≡◌, ◌↔◌, ℕ, ℤ, IfOk, map};
ghost use Rattle.dp_base.specs.Lists.{Each};
ghost use Rattle.dp_parts.specs.Problems.{IsSolution};
ghost use Rattle.fz_facts.specs.Facts.{IsFitted, IsPaired, IsWellFormed};
ghost use Rattle.fz_model.specs.declared.model.Basic.TheVariants as basic;
ghost use Rattle.fz_sat.specs.Args.{term_of};
ghost use Rattle.fz_sat.specs.Satisfies.{Satisfies};
ghost use Rattle.dp_lower.specs.Problem as spec;

use crate::domains::domains_of;
use crate::names::{Names, names_of};
use crate::recipe::parts_of;
use dp_domain::{Memory, State, Term, VarId};
use dp_parts::{Goal, Part, Parts, Problem};
use fz_model::{Basic, Constraint, ConstraintKind, Item, Model, ModelGoal};
use fz_sat::term_of;
use std::alloc::Global;

/// The problem of the model: the names of its variables, what each may be at first, the parts of each
/// constraint in order, and the goal. Its solutions are the assignments that satisfy the model.
pub fn lower(alloc: Global, model: &Model) -> Result<Problem, Memory>
    ensures problem { IfOk result (λ p. p ≡ spec.problem_of model.now) }
    ensures same { IfOk result (λ p. (s : ℕ → ℤ) → Satisfies model.now s ↔ IsSolution s p) }
{
    problem_of(alloc, model.items(), model.constraints(), model.goal())
}

/// The problem of these items, constraints and goal.
fn problem_of(
    alloc: Global,
    items: &[Item],
    constraints: &[Constraint],
    goal: ModelGoal,
) -> Result<Problem, Memory>
    requires { IsWellFormed (record { items = items.now; constraints = constraints.now; goal = goal }) }
    ensures { IfOk result (λ p. p ≡ spec.problem_of (record { items = items.now; constraints = constraints.now; goal = goal })) }
{
    let Names { names, own } = names_of(alloc, items)?;
    let sets = domains_of(alloc, items)?;
    let parts = all_parts(alloc, items, constraints)?;
    let goal = goal_of(items, goal);
    Ok(Problem::new(names, own, State::new(sets), parts, goal))
}

/// The parts of each constraint.
fn all_parts(
    alloc: Global,
    items: &[Item],
    constraints: &[Constraint],
) -> Result<Vec<Parts>, Memory>
    requires fitted { Each (IsFitted items.now) constraints.now }
    requires paired { Each (IsPaired items.now) constraints.now }
    ensures { IfOk result (λ parts. parts.items ≡ map (spec.parts_of items.now) constraints.now) }
{
    let mut parts = Vec::new(alloc);
    for constraint in constraints {
        parts.push(Parts::new(constraint_parts(alloc, items, constraint)?))?;
    }
    Ok(parts)
}

/// The parts of a constraint.
fn constraint_parts(
    alloc: Global,
    items: &[Item],
    constraint: &Constraint,
) -> Result<Vec<Part>, Memory>
    requires fitted { IsFitted items.now constraint.now }
    requires paired { IsPaired items.now constraint.now }
    ensures { IfOk result (λ parts. parts.items ≡ spec.parts_of items.now constraint.now) }
{
    match ConstraintKind::named(constraint.name.bytes()) {
        Some(kind) => parts_of(alloc, items, kind, constraint.args.as_slice()),
        None => Ok(Vec::new(alloc)),
    }
}

/// What is asked for, by the variable.
fn goal_of(items: &[Item], goal: ModelGoal) -> Goal
    ensures { result ≡ spec.goal_in items.now goal }
{
    match goal {
        ModelGoal::Satisfy => Goal::Satisfy,
        ModelGoal::Minimize(place) => Goal::Minimize(variable_at(items, place)),
        ModelGoal::Maximize(place) => Goal::Maximize(variable_at(items, place)),
    }
}

/// The variable of the item at the place; the first where it is none.
fn variable_at(items: &[Item], place: u32) -> VarId
    ensures { result ≡ spec.variable_in (term_of items.now (basic.Item place)) }
{
    match term_of(items, Basic::Item(place)) {
        Term::Var(var) => var,
        Term::Const(_) => VarId(0),
    }
}
