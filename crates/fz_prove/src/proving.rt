// Proving a model.

ghost use Rattle.std.specs.Prelude.{◌≡◌, ◌↔◌, ◌≤◌, ℕ, ℤ, IfOk};
ghost use Rattle.dp_desk.specs.InMemory.{told};
ghost use Rattle.dp_lower.specs.Problem.{problem_of};
ghost use Rattle.dp_parts.specs.Problems.{IsSolution};
ghost use Rattle.fz_prove.specs.Checks.{IsSearched, IsTold};
ghost use Rattle.fz_prove.specs.Proofs.{Proves};
ghost use Rattle.fz_sat.specs.Satisfies.{Satisfies};

use crate::Proof;
use crate::checking::check_bytes;
use dp_base::{Memory, Text};
use dp_desk::{Desk, MemoryDesk, Out};
use dp_parts::Problem;
use dp_pool::Gate;
use dp_solver::{Outcome, solve};
use fz_model::Model;
use fz_solve::outcome_text;
use std::alloc::Global;
use std::thread::Threads;

/// Solves the problem of a model with at most so many nogoods, makes the scaffold into a log, and checks that, all in
/// memory. The limits of scaffolds and logs are those of their readers. So many workers make the log, and the gate is
/// told of what they take; the answer is the same for any number and any gate.
pub fn prove_model<R: Threads + Sync, G: Gate>(
    rt: &R,
    alloc: Global,
    model: &Model,
    problem: &Problem,
    conflicts: u64,
    workers: usize,
    gate: &G,
) -> Result<Proof, Memory>
    requires problem { problem.now ≡ problem_of model.now }
    requires same { (s : ℕ → ℤ) → Satisfies model.now s ↔ IsSolution s problem.now }
    requires some { 1 ≤ conflicts }
    requires few { conflicts ≤ 4000000000 }
    requires some_workers { 1 ≤ workers }
    requires few_workers { workers ≤ 64 }
    ensures { IfOk result (Proves model.now problem.now conflicts) }
{
    // What a model and a problem keep, and that names lead back, is known by a look at them.
    let _asked = model.goal();
    let _names = problem.name_count();
    let mut desk = MemoryDesk::new(alloc, Vec::new(alloc), usize::MAX, Vec::new(alloc));
    let outcome = search(alloc, problem, conflicts, &mut desk)?;
    match desk.written(Out::First) {
        Some(scaffold) => {
            let proof = tell(rt, alloc, model, problem, &outcome, scaffold, workers, gate)?;
            Ok(proof)
        }
        None => Err(Memory),
    }
}

// Solves a problem; the first output of the desk takes its scaffold. In memory a write fails only for want of it.
fn search(
    alloc: Global,
    problem: &Problem,
    conflicts: u64,
    desk: &mut MemoryDesk,
) -> Result<Outcome, Memory>
    requires some { 1 ≤ conflicts }
    requires few { conflicts ≤ 4000000000 }
    ensures { IfOk result (IsSearched problem.now conflicts (told desk.new).first) }
{
    if desk.open_out(Out::First, "").is_err() {
        return Err(Memory);
    }
    match solve(alloc, problem, conflicts, desk, Out::First) {
        Ok(outcome) => Ok(outcome),
        Err(_) => Err(Memory),
    }
}

// The end of an outcome, whose scaffold has these bytes.
fn tell<R: Threads + Sync, G: Gate>(
    rt: &R,
    alloc: Global,
    model: &Model,
    problem: &Problem,
    outcome: &Outcome,
    scaffold: &[u8],
    workers: usize,
    gate: &G,
) -> Result<Proof, Memory>
    requires some_workers { 1 ≤ workers }
    requires few_workers { workers ≤ 64 }
    ensures { IfOk result (IsTold model.now problem.now scaffold.now outcome.now) }
{
    let text = Text::new(outcome_text(alloc, model, outcome)?);
    match outcome {
        Outcome::Unsat | Outcome::Optimal(..) => {
            check_bytes(rt, alloc, problem, text, scaffold, workers, gate)
        }
        Outcome::Solution(_) => Ok(Proof::Solved(text)),
        Outcome::Unknown(_) => Ok(Proof::Unknown(text)),
    }
}
