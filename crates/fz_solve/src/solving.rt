// Solving a model.

ghost use Rattle.std.specs.Prelude.{◌≡◌, ◌↔◌, ◌≤◌, ℕ, ℤ, IfOk, OnOk, OnErr, IsErrOf};
ghost use Rattle.dp_desk.specs.Channel.{Grows, GrowsByPart};
ghost use Rattle.dp_desk.specs.Sight.{with_output};
ghost use Rattle.dp_lower.specs.Problem.{problem_of};
ghost use Rattle.dp_parts.specs.Problems.{IsSolution};
ghost use Rattle.dp_solver.specs.Outcomes.{HasWriteCause};
ghost use Rattle.dp_solver.specs.declared.outcome.SolveFault.TheVariants.{Memory as want_of_memory};
ghost use Rattle.fz_sat.specs.Satisfies.{Satisfies};
ghost use Rattle.fz_solve.specs.Printed as spec;
ghost use Rattle.fz_solve.specs.Solved.{FilesFront, HoldsAll, Solved, SolvesFront};

use crate::printing::{outcome_status, outcome_text};
use dp_desk::{Desk, Out, write_all};
use dp_parts::Problem;
use dp_solver::{Outcome, SolveFault, solve};
use fz_model::Model;
use std::alloc::Global;

/// Solves the problem of a model, with at most so many nogoods, and answers the status: 0, or 4 where so many were
/// learned. The file of this name is opened, and the scaffold is written to it while the model is solved; then the
/// text of the outcome is the answer. After a failed write nothing more is written; for want of memory nothing is
/// answered.
pub fn solve_model<D: Desk>(
    alloc: Global,
    model: &Model,
    problem: &Problem,
    name: &str,
    conflicts: u64,
    desk: &mut D,
) -> Result<u8, SolveFault>
    requires problem { problem.now ≡ problem_of model.now }
    requires same { (s : ℕ → ℤ) → Satisfies model.now s ↔ IsSolution s problem.now }
    requires some { 1 ≤ conflicts }
    requires few { conflicts ≤ 4000000000 }
    ensures solved { IfOk result (λ status. Solved model.now problem.now conflicts status (D.sight desk.old) (D.sight desk.new)) }
    ensures front { OnErr result (SolvesFront model.now problem.now conflicts (D.sight desk.old) (D.sight desk.new)) }
    ensures nothing { IsErrOf result want_of_memory → (D.sight desk.new).answer ≡ (D.sight desk.old).answer }
    ensures cause { HasWriteCause (D.faults_out desk.old) (D.faults_out desk.new) result }
    ensures rest { D.sight desk.new ≡ with_output Out.Answer (D.sight desk.new).answer (with_output Out.First (D.sight desk.new).first (D.sight desk.old)) }
    ensures other { D.faults_in desk.new ≡ D.faults_in desk.old }
{
    let _asked = model.goal();
    let _posed = problem.goal();
    let outcome = solve_to_file(alloc, problem, name, conflicts, desk)?;
    tell(alloc, model, &outcome, desk)
}

// Opens the first file by a name, and solves the problem, whose scaffold is written to it.
fn solve_to_file<D: Desk>(
    alloc: Global,
    problem: &Problem,
    name: &str,
    conflicts: u64,
    desk: &mut D,
) -> Result<Outcome, SolveFault>
    requires some { 1 ≤ conflicts }
    requires few { conflicts ≤ 4000000000 }
    ensures whole { IfOk result (HoldsAll problem.now conflicts (D.sight desk.new).first) }
    ensures front { OnErr result (FilesFront problem.now conflicts (D.sight desk.old).first (D.sight desk.new).first) }
    ensures rest { D.sight desk.new ≡ with_output Out.First (D.sight desk.new).first (D.sight desk.old) }
    ensures cause { HasWriteCause (D.faults_out desk.old) (D.faults_out desk.new) result }
    ensures other { D.faults_in desk.new ≡ D.faults_in desk.old }
{
    desk.open_out(Out::First, name)?;
    solve(alloc, problem, conflicts, desk, Out::First)
}

// Writes the text of an outcome as the answer, and gives back its status.
fn tell<D: Desk>(
    alloc: Global,
    model: &Model,
    outcome: &Outcome,
    desk: &mut D,
) -> Result<u8, SolveFault>
    ensures told { OnOk result (Grows (D.sight desk.old).answer (D.sight desk.new).answer (spec.outcome_text model.now outcome.now)) }
    ensures status { IfOk result (λ status. status ≡ spec.outcome_status outcome.now) }
    ensures part { OnErr result (GrowsByPart (D.sight desk.old).answer (D.sight desk.new).answer (spec.outcome_text model.now outcome.now)) }
    ensures nothing { IsErrOf result want_of_memory → (D.sight desk.new).answer ≡ (D.sight desk.old).answer }
    ensures rest { D.sight desk.new ≡ with_output Out.Answer (D.sight desk.new).answer (D.sight desk.old) }
    ensures cause { HasWriteCause (D.faults_out desk.old) (D.faults_out desk.new) result }
    ensures other { D.faults_in desk.new ≡ D.faults_in desk.old }
{
    let text = outcome_text(alloc, model, outcome)?;
    write_all(desk, Out::Answer, text.as_slice())?;
    Ok(outcome_status(outcome))
}
