// The command that solves a model.

ghost use Rattle.std.specs.Prelude.{◌≡◌, ◌↔◌, ◌≤◌, ℕ, ℤ, IfOk};
ghost use Rattle.dp_desk.specs.Sight.{with_input, with_output};
ghost use Rattle.dp_lower.specs.Problem.{problem_of};
ghost use Rattle.dp_parts.specs.Problems.{IsSolution};
ghost use Rattle.fz_sat.specs.Satisfies.{Satisfies};
ghost use Rattle.dp_command.specs.Due.{AreAtEnd};
ghost use Rattle.dp_command.specs.Inputs.{HasReadCause};
ghost use Rattle.dp_command.specs.Tasks.{IfGood, IsSearched, IsTaskTo, LeavesUnreadBy};
ghost use Rattle.dp_command.specs.Words.{Solve};

use crate::finding::{Found, read_problem};
use crate::reply::Reply;
use crate::task::{Search, Task};
use crate::{OUT_OF_MEMORY, Trouble, WRITE_FAULT};
use dp_desk::{Desk, In, Out};
use dp_solver::SolveFault;
use fz_solve::solve_model;
use std::alloc::Global;

/// Reads a model that is to be solved with at most so many nogoods, and writes nothing. The model alone is opened.
pub(crate) fn solve<D: Desk>(
    alloc: Global,
    model: &str,
    out: &str,
    conflicts: u64,
    desk: &mut D,
) -> Result<Task, Trouble>
    ensures due { IfOk result (IsTaskTo (D.sight desk.old).names (Solve model.now out.now conflicts)) }
    ensures ended { IfOk result (λ task. IfGood task (AreAtEnd (Solve model.now out.now conflicts) (D.sight desk.new))) }
    ensures unread { IfOk result (λ task. LeavesUnreadBy task (D.sight desk.old) (D.sight desk.new)) }
    ensures rest { D.sight desk.new ≡ with_input In.Model (D.sight desk.new).model (D.sight desk.old) }
    ensures cause { HasReadCause (D.faults_in desk.old) (D.faults_in desk.new) result }
    ensures other { D.faults_out desk.new ≡ D.faults_out desk.old }
{
    match read_problem(alloc, model, desk)? {
        Found::Problem(model, problem) => {
            let out = String::from_str(alloc, out)?;
            Ok(Task::Solve(Search {
                model,
                problem,
                out,
                conflicts,
            }))
        }
        Found::Refusal(refusal) => Ok(Task::Say(Reply::ModelRefused(refusal))),
    }
}

/// Searches, writes the scaffold to its file and the text of the outcome as the answer, and gives back the outcome's
/// status; after a failed write 6, and for want of memory 7, and nothing more is written.
pub(crate) fn search<D: Desk>(alloc: Global, search: &Search, desk: &mut D) -> u8
    requires problem { search.now.problem ≡ problem_of search.now.model }
    requires same { (s : ℕ → ℤ) → Satisfies search.now.model s ↔ IsSolution s search.now.problem }
    requires some { 1 ≤ search.now.conflicts }
    requires few { search.now.conflicts ≤ 4000000000 }
    ensures searched { IsSearched search.now result (D.sight desk.old) (D.sight desk.new) (D.faults_out desk.old) (D.faults_out desk.new) }
    ensures rest { D.sight desk.new ≡ with_output Out.Answer (D.sight desk.new).answer (with_output Out.First (D.sight desk.new).first (D.sight desk.old)) }
    ensures counted { D.faults_out desk.old ≤ D.faults_out desk.new }
    ensures other { D.faults_in desk.new ≡ D.faults_in desk.old }
{
    match solve_model(
        alloc,
        &search.model,
        &search.problem,
        search.out.as_str(),
        search.conflicts,
        desk,
    ) {
        Ok(status) => status,
        Err(SolveFault::WriteFault) => WRITE_FAULT,
        Err(SolveFault::Memory) => OUT_OF_MEMORY,
    }
}
