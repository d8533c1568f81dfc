// Solutions, and what is still to be shown where one is the best.

ghost use Rattle.std.specs.Prelude.{◌≡◌, ◌<◌, length, map, IfOk, IfSome, IfNone};
ghost use Rattle.dp_domain.specs.Sets.{IsSmall};
ghost use Rattle.dp_domain.specs.States.{values};
ghost use Rattle.dp_domain.specs.declared.verdict.Verdict.TheVariants.{Bound as Bounded};
ghost use Rattle.dp_learning.specs.Learning.{denial_of};
ghost use Rattle.dp_learning.specs.Solutions.{best_claim};
ghost use Rattle.dp_parts.specs.Problems.{IsGoalOf};
ghost use Rattle.dp_solver.specs.Descents.{lowest};
ghost use Rattle.dp_solver.specs.Rounds.{claim_of, decided as decided_with, undecided as undecided_with};

use crate::Outcome;
use crate::task::{Best, Task};
use dp_base::{Assignment, Memory};
use dp_domain::{Atom, Op, State, VarId, Verdict};
use dp_parts::Goal;

/// What is still to be shown.
pub(crate) fn open_claim(best: &Option<Best>) -> Verdict
    ensures { result ≡ claim_of best.now }
{
    match best {
        None => Verdict::Unsat,
        Some(best) => Verdict::Bound(best.bound),
    }
}

/// The atoms that deny what is still to be shown: the search goes on under them.
pub(crate) fn denial(task: &Task, best: &Option<Best>) -> Result<Vec<Atom>, Memory>
    ensures { IfOk result (λ atoms. atoms.items ≡ denial_of (claim_of best.now)) }
{
    let mut atoms = Vec::new(task.alloc);
    match best {
        None => {}
        Some(best) => atoms.push(best.bound.negated())?,
    }
    Ok(atoms)
}

/// The outcome where what is still to be shown has been claimed.
pub(crate) fn decided(best: Option<Best>) -> Outcome
    ensures { result ≡ decided_with best }
{
    match best {
        None => Outcome::Unsat,
        Some(best) => Outcome::Optimal(best.numbers, best.bound),
    }
}

/// The outcome where the most nogoods were learned.
pub(crate) fn undecided(best: Option<Best>) -> Outcome
    ensures { result ≡ undecided_with best }
{
    match best {
        None => Outcome::Unknown(None),
        Some(best) => Outcome::Unknown(Some(best.numbers)),
    }
}

/// The number of each variable, where each has one value left.
pub(crate) fn numbers(task: &Task, state: &State) -> Result<Assignment, Memory>
    ensures { IfOk result (λ numbers. numbers ≡ map lowest state.now) }
{
    let mut numbers = Vec::new(task.alloc);
    for place in 0..state.len() {
        numbers.push(number(state, VarId(place as u32)))?;
    }
    Ok(Assignment::new(numbers))
}

/// The least value of the variable; 0 where it has none.
fn number(state: &State, var: VarId) -> i64
    requires { var < length state.now }
    ensures least { result ≡ lowest (values state.now var) }
    ensures small { IsSmall result }
{
    state.lower(var).unwrap_or(0)
}

/// The bound at the least value of the goal's variable; None where there is no goal.
pub(crate) fn bound(goal: Goal, state: &State) -> Option<Atom>
    requires { IsGoalOf (length state.now) goal }
    ensures bound { IfSome result (λ bound. best_claim goal (map lowest state.now) ≡ Bounded bound) }
    ensures none { IfNone result (goal ≡ Goal.Satisfy) }
{
    match goal {
        Goal::Satisfy => None,
        Goal::Minimize(var) => Atom::new(var, Op::Ge, number(state, var)),
        Goal::Maximize(var) => Atom::new(var, Op::Le, number(state, var)),
    }
}
