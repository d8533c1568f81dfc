// Checking a scaffold: it is made into a log, and the log is judged.

ghost use Rattle.std.specs.Prelude.{◌≡◌, ◌≤◌, ◌^◌, IfOk, length};
ghost use Rattle.dp_judge.specs.Logs.{judged_log};
ghost use Rattle.dp_parts.specs.Problems.{posed};
ghost use Rattle.dp_scaffold.specs.Scaffolds.{IsScaffoldOf};
ghost use Rattle.fz_prove.specs.Checks.{IsChecked, IsLimitedOf, IsPassedOf};
ghost use Rattle.fz_prove.specs.Proofs.{IsEndOf, log_end};

use crate::Proof;
use dp_base::{Memory, Text};
use dp_judge::{LogAnswer, judge_log};
use dp_parts::Problem;
use dp_pool::Gate;
use dp_process::{ProcessRefusal, process};
use dp_scaffold::{Scaffold, ScaffoldAnswer, read_scaffold};
use std::alloc::Global;
use std::thread::Threads;

// The most bytes that are looked at; no memory holds more.
const MOST: usize = 1 << 62;

/// The end of a scaffold's bytes, behind the text of their outcome.
pub(crate) fn check_bytes<R: Threads + Sync, G: Gate>(
    rt: &R,
    alloc: Global,
    problem: &Problem,
    text: Text,
    bytes: &[u8],
    workers: usize,
    gate: &G,
) -> Result<Proof, Memory>
    requires some_workers { 1 ≤ workers }
    requires few_workers { workers ≤ 64 }
    ensures { IfOk result (IsChecked problem.now text bytes.now) }
{
    if bytes.len() > MOST {
        return Err(Memory);
    }
    match read_scaffold(alloc, problem, bytes)? {
        ScaffoldAnswer::Given(scaffold) => check_scaffold(
            rt, alloc, problem, text, &scaffold, workers, gate,
        ),
        ScaffoldAnswer::Unread(refusal) => Ok(Proof::ScaffoldUnread(refusal)),
        ScaffoldAnswer::Refused(refusal, line) => Ok(Proof::ScaffoldRefused(refusal, line)),
    }
}

// The end of a scaffold.
fn check_scaffold<R: Threads + Sync, G: Gate>(
    rt: &R,
    alloc: Global,
    problem: &Problem,
    text: Text,
    scaffold: &Scaffold,
    workers: usize,
    gate: &G,
) -> Result<Proof, Memory>
    requires scaffold { IsScaffoldOf problem.now scaffold.now }
    requires some_workers { 1 ≤ workers }
    requires few_workers { workers ≤ 64 }
    ensures ending { IfOk result (IsEndOf problem.now text scaffold.now) }
    ensures passed { IfOk result (IsPassedOf problem.now text scaffold.now) }
    ensures limited { IfOk result (IsLimitedOf problem.now text scaffold.now) }
{
    match process(rt, alloc, problem, scaffold, workers, gate) {
        Ok(processed) => {
            let proof = check_log(alloc, problem, text, processed.text.bytes())?;
            Ok(proof)
        }
        Err(ProcessRefusal::NotFollowing { place, line, id }) => {
            Ok(Proof::NotFollowing(place, line, id))
        }
        Err(ProcessRefusal::Memory) => Err(Memory),
    }
}

// The end of a log.
fn check_log(alloc: Global, problem: &Problem, text: Text, log: &[u8]) -> Result<Proof, Memory>
    ensures { IfOk result (λ proof. proof ≡ log_end text (judged_log (posed problem.now) log.now)) }
{
    if log.len() > MOST {
        return Err(Memory);
    }
    match judge_log(alloc, problem, log)? {
        LogAnswer::Accepted(verdict) => Ok(Proof::Accepted(text, verdict)),
        LogAnswer::Unread(refusal) => Ok(Proof::LogUnread(refusal)),
        LogAnswer::Refused(refusal, line) => Ok(Proof::LogRefused(refusal, line)),
    }
}
