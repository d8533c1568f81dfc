// Solving a problem.

ghost use Rattle.std.specs.Prelude.{◌≡◌, ◌≤◌, ◌^◌, [], IfOk, OnErr, length};
ghost use Rattle.dp_desk.specs.Channel.{Channel, IsOpen};
ghost use Rattle.dp_desk.specs.Sight.{output, with_output};
ghost use Rattle.dp_domain.specs.States.{AreOf, cut_all};
ghost use Rattle.dp_learning.specs.Solutions.{cut_problem};
ghost use Rattle.dp_learning.specs.Sorts.{sort_count};
ghost use Rattle.dp_parts.specs.Problems.{IsGoalOf};
ghost use Rattle.dp_solver.specs.Marks.{asked};
ghost use Rattle.dp_solver.specs.Rounds.{IsFresh, IsSearching};
ghost use Rattle.dp_solver.specs.Outcomes.{HasWriteCause, IsDecided, Solves, SolvesInPart};

use crate::round::{Round, one_round};
use crate::task::{Search, Task};
use crate::{Outcome, SolveFault};
use dp_base::Memory;
use dp_desk::{Desk, Out};
use dp_domain::Atom;
use dp_engine::{Engine, Index};
use dp_parts::{Goal, Problem};
use dp_writer::Writer;
use std::alloc::Global;

/// Solves a problem by its own goal, as `solve_cut` does without atoms.
pub fn solve<D: Desk>(
    alloc: Global,
    problem: &Problem,
    conflicts: u64,
    desk: &mut D,
    out: Out,
) -> Result<Outcome, SolveFault>
    requires opened { IsOpen (output out (D.sight desk.old)) }
    requires some { 1 ≤ conflicts }
    requires few { conflicts ≤ 4000000000 }
    ensures solved { IfOk result (Solves problem.now conflicts (output out (D.sight desk.old)) (output out (D.sight desk.new))) }
    ensures decided { 2 ^ sort_count problem.now.initial ≤ conflicts → IfOk result IsDecided }
    ensures part { OnErr result (SolvesInPart problem.now conflicts (output out (D.sight desk.old)) (output out (D.sight desk.new))) }
    ensures cause { HasWriteCause (D.faults_out desk.old) (D.faults_out desk.new) result }
    ensures rest { D.sight desk.new ≡ with_output out (output out (D.sight desk.new)) (D.sight desk.old) }
    ensures other { D.faults_in desk.new ≡ D.faults_in desk.old }
{
    solve_cut(alloc, problem, &[], problem.goal(), conflicts, desk, out)
}

/// Solves the problem whose initial domains are cut by the atoms and whose goal is the one given. It learns
/// nogoods, at most so many, each of which follows from the problem and those before it and is new, and
/// writes them in order to the output, with what it claims in the end.
///
/// A solution or the best one is within the domains and meets every part. What is claimed follows from the
/// nogoods: UNSAT, or the bound at the best solution. The answer is Unknown only where so many nogoods were
/// written, and what is still to be shown does not follow from them; with at least two to the number of
/// sorts of atoms it never is. After a fault the output holds a front of such a scaffold.
pub fn solve_cut<D: Desk>(
    alloc: Global,
    problem: &Problem,
    atoms: &[Atom],
    goal: Goal,
    conflicts: u64,
    desk: &mut D,
    out: Out,
) -> Result<Outcome, SolveFault>
    requires atoms { AreOf problem.now.initial atoms.now }
    requires goal { IsGoalOf (length problem.now.initial) goal }
    requires opened { IsOpen (output out (D.sight desk.old)) }
    requires some { 1 ≤ conflicts }
    requires few { conflicts ≤ 4000000000 }
    ensures solved { IfOk result (Solves (cut_problem problem.now atoms.now goal) conflicts (output out (D.sight desk.old)) (output out (D.sight desk.new))) }
    ensures decided { 2 ^ sort_count (cut_all problem.now.initial atoms.now) ≤ conflicts → IfOk result IsDecided }
    ensures part { OnErr result (SolvesInPart (cut_problem problem.now atoms.now goal) conflicts (output out (D.sight desk.old)) (output out (D.sight desk.new))) }
    ensures cause { HasWriteCause (D.faults_out desk.old) (D.faults_out desk.new) result }
    ensures rest { D.sight desk.new ≡ with_output out (output out (D.sight desk.new)) (D.sight desk.old) }
    ensures other { D.faults_in desk.new ≡ D.faults_in desk.old }
{
    let task = Task {
        alloc,
        problem,
        atoms,
        goal,
        most: conflicts,
    };
    let index = Index::new(alloc, problem, &[])?;
    let mut search = start(&task, &index)?;
    search_on(&task, &mut search, desk, out)
}

/// A search that stands at the initial domains.
fn start<'i, 'p>(task: &Task<'p>, index: &'i Index<'p>) -> Result<Search<'i, 'p>, Memory>
    requires index { index.now ≡ record { problem = task.now.problem.now; nogoods = [] } }
    requires atoms { AreOf task.now.problem.now.initial task.now.atoms.now }
    requires goal { IsGoalOf (length task.now.problem.now.initial) task.now.goal }
    ensures { IfOk result (IsFresh (asked task.now)) }
{
    // What a problem keeps is known by a look at it.
    let _goal = task.problem.goal();
    let mut engine = Engine::new(task.alloc, index)?;
    engine.assume(task.atoms)?;
    let root = engine.mark();
    Ok(Search {
        engine,
        root,
        writer: Writer::new(task.alloc),
        learned: 0,
    })
}

/// Searches round after round, until the outcome is known.
fn search_on<D: Desk>(
    task: &Task,
    search: &mut Search,
    desk: &mut D,
    out: Out,
) -> Result<Outcome, SolveFault>
    ghost was: { Channel }
    requires few { task.now.most ≤ 4000000000 }
    requires search { IsSearching (asked task.now) task.now.most was (output out (D.sight desk.old)) search.old }
    ensures solved { IfOk result (Solves (asked task.now) task.now.most was (output out (D.sight desk.new))) }
    ensures part { OnErr result (SolvesInPart (asked task.now) task.now.most was (output out (D.sight desk.new))) }
    ensures cause { HasWriteCause (D.faults_out desk.old) (D.faults_out desk.new) result }
    ensures rest { D.sight desk.new ≡ with_output out (output out (D.sight desk.new)) (D.sight desk.old) }
    ensures other { D.faults_in desk.new ≡ D.faults_in desk.old }
{
    let mut best = None;
    loop {
        let end = one_round(task, search, best, desk, out)?;
        match end {
            Round::Ended(outcome) => return Ok(outcome),
            Round::Open(found) => best = found,
        }
    }
}
