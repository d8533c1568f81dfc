// The command that proves a model.

ghost use Rattle.std.specs.Prelude.{◌≡◌, ◌≤◌, IfOk};
ghost use Rattle.dp_desk.specs.Sight.{with_input};
ghost use Rattle.dp_command.specs.Due.{AreAtEnd, LeavesUnread};
ghost use Rattle.dp_command.specs.Found.{IsProblemOf};
ghost use Rattle.dp_command.specs.Inputs.{HasReadCause};
ghost use Rattle.dp_command.specs.Proving.{IsAimed, IsProving, proving_of};
ghost use Rattle.dp_command.specs.Replies.{RepliesTo};
ghost use Rattle.dp_command.specs.Texts.{status_of};
ghost use Rattle.dp_command.specs.Words.{Prove};

use crate::Trouble;
use crate::finding::{Found, read_problem};
use crate::naming::claim_of;
use crate::proving::Proving;
use crate::reply::Reply;
use dp_base::Memory;
use dp_desk::{Desk, In};
use dp_parts::Problem;
use dp_pool::Gate;
use fz_model::Model;
use fz_prove::{Proof, prove_model};
use std::alloc::Global;
use std::thread::Threads;

/// Proves a model with at most so many nogoods, and writes nothing. The model alone is opened.
pub(crate) fn prove<R: Threads + Sync, D: Desk, G: Gate>(
    rt: &R,
    alloc: Global,
    model: &str,
    workers: u32,
    conflicts: u64,
    desk: &mut D,
    gate: &G,
) -> Result<Reply, Trouble>
    requires some_workers { 1 ≤ workers }
    requires few_workers { workers ≤ 64 }
    requires some { 1 ≤ conflicts }
    requires few { conflicts ≤ 4000000000 }
    ensures due { IfOk result (λ reply. RepliesTo (D.sight desk.old).names (Prove model.now workers conflicts) reply) }
    ensures ended { IfOk result (λ reply. status_of reply ≡ 0 → AreAtEnd (Prove model.now workers conflicts) (D.sight desk.new)) }
    ensures unread { IfOk result (λ reply. LeavesUnread reply (D.sight desk.old) (D.sight desk.new)) }
    ensures rest { D.sight desk.new ≡ with_input In.Model (D.sight desk.new).model (D.sight desk.old) }
    ensures cause { HasReadCause (D.faults_in desk.old) (D.faults_in desk.new) result }
    ensures other { D.faults_out desk.new ≡ D.faults_out desk.old }
{
    match read_problem(alloc, model, desk)? {
        Found::Problem(model, problem) => {
            let proving = prove_problem(rt, alloc, &model, &problem, conflicts, workers, gate)?;
            Ok(Reply::Proved(proving))
        }
        Found::Refusal(refusal) => Ok(Reply::ModelRefused(refusal)),
    }
}

// Proves a model, whose problem this is.
fn prove_problem<R: Threads + Sync, G: Gate>(
    rt: &R,
    alloc: Global,
    model: &Model,
    problem: &Problem,
    conflicts: u64,
    workers: u32,
    gate: &G,
) -> Result<Proving, Memory>
    requires problem { IsProblemOf model.now problem.now }
    requires some { 1 ≤ conflicts }
    requires few { conflicts ≤ 4000000000 }
    requires some_workers { 1 ≤ workers }
    requires few_workers { workers ≤ 64 }
    ensures { IfOk result (IsProving model.now problem.now conflicts) }
{
    // What a problem keeps is known by a look at it.
    let _goal = problem.goal();
    let proof = prove_model(rt, alloc, model, problem, conflicts, workers as usize, gate)?;
    let proving = proving_of(alloc, problem, proof)?;
    Ok(proving)
}

// What a proof of the problem ends with.
fn proving_of(alloc: Global, problem: &Problem, proof: Proof) -> Result<Proving, Memory>
    requires { IsAimed problem.now proof }
    ensures { IfOk result (λ proving. proving ≡ proving_of problem.now proof) }
{
    match proof {
        Proof::Solved(text) => Ok(Proving::Solved(text)),
        Proof::Unknown(text) => Ok(Proving::Unknown(text)),
        Proof::Accepted(text, verdict) => {
            let claim = claim_of(alloc, problem, verdict)?;
            Ok(Proving::Accepted(text, claim))
        }
        Proof::ScaffoldUnread(refusal) => Ok(Proving::Unread(refusal)),
        Proof::ScaffoldRefused(refusal, text) => Ok(Proving::ScaffoldRefused(refusal, text)),
        Proof::NotFollowing(_place, line, id) => Ok(Proving::NotFollowing(line, id)),
        Proof::LogUnread(refusal) => Ok(Proving::Unread(refusal)),
        Proof::LogRefused(refusal, text) => Ok(Proving::LogRefused(refusal, text)),
    }
}
