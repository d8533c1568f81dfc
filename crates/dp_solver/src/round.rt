// A round of the search: from the initial domains down to a conflict, a solution, or a refutation.

ghost use Rattle.std.specs.Prelude.{◌≡◌, ◌+◌, ◌<◌, ◌≤◌, IfOk, IfSome, OnErr, OnOk, length};
ghost use Rattle.dp_desk.specs.Channel.{Channel};
ghost use Rattle.dp_desk.specs.Sight.{output, with_output};
ghost use Rattle.dp_learning.specs.Learning.{Concludes, denial_of};
ghost use Rattle.dp_parts.specs.Problems.{IsGoalOf, posed};
ghost use Rattle.dp_solver.specs.Descents.{IsConflict, IsLearnable, IsReached};
ghost use Rattle.dp_solver.specs.Outcomes.{HasWriteCause, SolvesInPart};
ghost use Rattle.dp_solver.specs.Marks.{asked};
ghost use Rattle.dp_solver.specs.Rounds.{IsBest, IsRound, IsSearching, IsSolutionAt, claim_of, work};

use crate::best::{bound, decided, numbers, open_claim, undecided};
use crate::descent::{Descent, descend};
use crate::shorten::shorten;
use crate::task::{Best, Search, Task};
use crate::writing::{write_claim, write_nogood};
use crate::{Outcome, SolveFault};
use dp_base::Memory;
use dp_desk::{Desk, Out};
use dp_domain::{Atom, State};
use dp_engine::Nogood;

/// How a round ends.
#[derive(Drop)]
pub(crate) enum Round {
    /// With the outcome of the search.
    Ended(Outcome),
    /// The search goes on, with the best solution that is known.
    Open(Option<Best>),
}

/// A round.
pub(crate) fn one_round<D: Desk>(
    task: &Task,
    search: &mut Search,
    best: Option<Best>,
    desk: &mut D,
    out: Out,
) -> Result<Round, SolveFault>
    ghost was: { Channel }
    requires few { task.now.most ≤ 4000000000 }
    requires search { IsSearching (asked task.now) task.now.most was (output out (D.sight desk.old)) search.old }
    requires best { IfSome best (IsBest (asked task.now)) }
    ensures round { IfOk result (IsRound (asked task.now) task.now.most was (output out (D.sight desk.new)) (work (asked task.now) task.now.most search.old best) search.new) }
    ensures part { OnErr result (SolvesInPart (asked task.now) task.now.most was (output out (D.sight desk.new))) }
    ensures cause { HasWriteCause (D.faults_out desk.old) (D.faults_out desk.new) result }
    ensures rest { D.sight desk.new ≡ with_output out (output out (D.sight desk.new)) (D.sight desk.old) }
    ensures other { D.faults_in desk.new ≡ D.faults_in desk.old }
{
    let descent = descend(task, &mut search.engine, search.root, &best)?;
    match descent {
        Descent::Refuted => conclude(task, search, best, desk, out),
        Descent::Fixed => Ok(found(task, search.engine.state())?),
        Descent::Conflict(atoms) => learn(task, search, best, atoms, desk, out),
    }
}

/// Claims what is still to be shown.
fn conclude<D: Desk>(
    task: &Task,
    search: &mut Search,
    best: Option<Best>,
    desk: &mut D,
    out: Out,
) -> Result<Round, SolveFault>
    ghost was: { Channel }
    requires search { IsSearching (asked task.now) task.now.most was (output out (D.sight desk.old)) search.old }
    requires best { IfSome best (IsBest (asked task.now)) }
    requires follows { Concludes (posed (asked task.now)) search.old.engine.nogoods (claim_of best) }
    ensures round { IfOk result (IsRound (asked task.now) task.now.most was (output out (D.sight desk.new)) (work (asked task.now) task.now.most search.old best) search.new) }
    ensures part { OnErr result (SolvesInPart (asked task.now) task.now.most was (output out (D.sight desk.new))) }
    ensures cause { HasWriteCause (D.faults_out desk.old) (D.faults_out desk.new) result }
    ensures rest { D.sight desk.new ≡ with_output out (output out (D.sight desk.new)) (D.sight desk.old) }
    ensures other { D.faults_in desk.new ≡ D.faults_in desk.old }
{
    write_claim(task, &mut search.writer, open_claim(&best), desk, out)?;
    Ok(Round::Ended(decided(best)))
}

/// The solution where each variable has one value left: the answer, or the best from now on.
fn found(task: &Task, state: &State) -> Result<Round, Memory>
    requires { IsGoalOf (length state.now) task.now.goal }
    ensures { IfOk result (IsSolutionAt (asked task.now) state.now) }
{
    let numbers = numbers(task, state)?;
    match bound(task.goal, state) {
        None => Ok(Round::Ended(Outcome::Solution(numbers))),
        Some(bound) => Ok(Round::Open(Some(Best { numbers, bound }))),
    }
}

/// Learns a nogood from the atoms of a conflict, where one more may be learned.
fn learn<D: Desk>(
    task: &Task,
    search: &mut Search,
    best: Option<Best>,
    atoms: Vec<Atom>,
    desk: &mut D,
    out: Out,
) -> Result<Round, SolveFault>
    ghost was: { Channel }
    requires few { task.now.most ≤ 4000000000 }
    requires search { IsSearching (asked task.now) task.now.most was (output out (D.sight desk.old)) search.old }
    requires best { IfSome best (IsBest (asked task.now)) }
    requires conflict { IsConflict (asked task.now) search.old.engine.nogoods (denial_of (claim_of best)) atoms.items }
    ensures round { IfOk result (IsRound (asked task.now) task.now.most was (output out (D.sight desk.new)) (work (asked task.now) task.now.most search.old best) search.new) }
    ensures part { OnErr result (SolvesInPart (asked task.now) task.now.most was (output out (D.sight desk.new))) }
    ensures cause { HasWriteCause (D.faults_out desk.old) (D.faults_out desk.new) result }
    ensures rest { D.sight desk.new ≡ with_output out (output out (D.sight desk.new)) (D.sight desk.old) }
    ensures other { D.faults_in desk.new ≡ D.faults_in desk.old }
{
    if search.learned < task.most {
        let atoms = shorten(task, &mut search.engine, search.root, atoms)?;
        add(task, search, atoms, desk, out)?;
        Ok(Round::Open(best))
    } else {
        Ok(Round::Ended(undecided(best)))
    }
}

/// Writes a nogood, and adds it to the engine.
fn add<D: Desk>(
    task: &Task,
    search: &mut Search,
    atoms: Vec<Atom>,
    desk: &mut D,
    out: Out,
) -> Result<(), SolveFault>
    ghost was: { Channel }
    requires few { task.now.most ≤ 4000000000 }
    requires search { IsSearching (asked task.now) task.now.most was (output out (D.sight desk.old)) search.old }
    requires room { search.old.learned < task.now.most }
    requires atoms { IsLearnable (asked task.now) search.old.engine.nogoods atoms.items }
    ensures search { OnOk result (IsSearching (asked task.now) task.now.most was (output out (D.sight desk.new)) search.new) }
    ensures count { OnOk result (search.new.learned ≡ search.old.learned + 1) }
    ensures part { OnErr result (SolvesInPart (asked task.now) task.now.most was (output out (D.sight desk.new))) }
    ensures cause { HasWriteCause (D.faults_out desk.old) (D.faults_out desk.new) result }
    ensures rest { D.sight desk.new ≡ with_output out (output out (D.sight desk.new)) (D.sight desk.old) }
    ensures other { D.faults_in desk.new ≡ D.faults_in desk.old }
{
    let nogood = Nogood::new(task.alloc, atoms.as_slice())?;
    write_nogood(task, &mut search.writer, nogood.atoms(), desk, out)?;
    search.engine.add(nogood)?;
    search.learned += 1;
    Ok(())
}
