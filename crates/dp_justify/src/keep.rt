// The turns that are kept, from the last one back.

ghost use Rattle.std.specs.Prelude.{◌≡◌, ℕ, ◌<◌, ◌&&◌, not, length, map, ℤ, IfOk, OnOk};
ghost use Rattle.dp_base.specs.Lists.{Each};
ghost use Rattle.dp_domain.specs.States.{AreOf};
ghost use Rattle.dp_engine.specs.Engines.{KeepsParts, states};
ghost use Rattle.dp_parts.specs.Problems.{posed};
ghost use Rattle.dp_justify.specs.Keeping.{before_turn, is_kept, kept, without};
ghost use Rattle.dp_justify.specs.Pairs.{pairs_of};
ghost use Rattle.dp_justify.specs.Pieces.{step_of};
ghost use Rattle.dp_justify.specs.Taking.{IsBelow, IsRunTurn, IsTrail, explained_of, found_of, kept_step, seen_among, seen_at, with_some};

use crate::explain::explain;
use crate::gone::{enter, leave, nothing, takes_one};
use crate::turns::RunTurn;
use crate::{Atoms, Kept};
use dp_domain::{Atom, Dom, Memory, Scratch, State};
use dp_engine::Engine;
use dp_parts::Problem;
use dp_rule_clause::Nogood;

/// The kept turns of a run that ended in a clash, each explained, in their order. The engine goes back
/// over the run, to the state before each turn.
pub(crate) fn kept_turns(
    problem: &Problem,
    nogoods: &[Nogood],
    engine: &mut Engine,
    mut turns: Vec<RunTurn>,
) -> Result<Vec<Kept>, Memory>
    requires trail { IsTrail (states engine.old) turns.items }
    requires turns { Each (IsRunTurn (posed problem.now) nogoods.now) (map (seen_among (states engine.old)) turns.items) }
    ensures parts { KeepsParts engine.old engine.new }
    ensures kept { IfOk result (λ steps. steps.items ≡ map step_of (kept problem.now.initial (map (explained_of (posed problem.now) nogoods.now) (map (seen_among (states engine.old)) turns.items)))) }
{
    let initial = problem.initial();
    let mut gone = nothing(initial.allocator(), initial.len())?;
    let mut steps = Vec::new(initial.allocator());
    let mut work = Scratch::new(initial.copy()?);
    while let Some(turn) = turns.pop() {
        engine.undo(turn.mark);
        let step = keep(
            problem,
            nogoods,
            &mut gone,
            &mut work,
            engine.state(),
            &turn,
        )?;
        push_some(&mut steps, step)?;
    }
    steps.reverse();
    Ok(steps)
}

/// One kept turn more, where there is one.
fn push_some(steps: &mut Vec<Kept>, step: Option<Kept>) -> Result<(), Memory>
    ensures { OnOk result (steps.new.items ≡ with_some steps.old.items step) }
{
    if let Some(step) = step {
        steps.push(step)?;
    }
    Ok(())
}

/// The turn as it is kept, if it is: then what its atom excludes has to be gone no more, and what its
/// premises exclude has to be gone.
fn keep(
    problem: &Problem,
    nogoods: &[Nogood],
    gone: &mut Vec<Dom>,
    work: &mut Scratch,
    before: &State,
    turn: &RunTurn,
) -> Result<Option<Kept>, Memory>
    requires turn { IsRunTurn (posed problem.now) nogoods.now (seen_at before.now turn.now) }
    requires count { length gone.old.items ≡ length problem.now.initial }
    requires base { work.old.base ≡ problem.now.initial }
    ensures base { work.new.base ≡ problem.now.initial }
    ensures count { length gone.new.items ≡ length gone.old.items }
    ensures kept { IfOk result (λ step. step ≡ kept_step (pairs_of gone.old.items) (explained_of (posed problem.now) nogoods.now (seen_at before.now turn.now))) }
    ensures pairs { OnOk result ((x : ℕ) → (v : ℤ) → pairs_of gone.new.items x v ≡ before_turn problem.now.initial (pairs_of gone.old.items) (explained_of (posed problem.now) nogoods.now (seen_at before.now turn.now)) x v) }
{
    if !is_kept(gone.as_slice(), before, turn.target)? {
        return Ok(None);
    }
    let premises = explain(problem, nogoods, work, before, turn)?;
    take_out(gone, turn.target)?;
    enter(gone, problem.initial(), premises.as_slice())?;
    Ok(Some(Kept {
        source: turn.source,
        premises: Atoms::new(premises),
        consequent: turn.target,
    }))
}

/// Whether a turn at the state is kept: it is a clash, or its atom excludes a pair that has to be gone and
/// is still in the state.
fn is_kept(gone: &[Dom], before: &State, target: Option<Atom>) -> Result<bool, Memory>
    requires gone { IsBelow (length gone.now) target }
    requires before { IsBelow (length before.now) target }
    ensures { IfOk result (λ keeps. keeps ≡ is_kept (pairs_of gone.now) before.now (found_of target)) }
{
    match target {
        Some(atom) => takes_one(gone, before, atom),
        None => Ok(true),
    }
}

/// Takes out the pairs that the turn's atom excludes.
fn take_out(gone: &mut Vec<Dom>, target: Option<Atom>) -> Result<(), Memory>
    requires { IsBelow (length gone.old.items) target }
    ensures count { length gone.new.items ≡ length gone.old.items }
    ensures pairs { OnOk result ((x : ℕ) → (v : ℤ) → pairs_of gone.new.items x v ≡ without (pairs_of gone.old.items) (found_of target) x v) }
{
    match target {
        Some(atom) => leave(gone, atom),
        None => Ok(()),
    }
}
