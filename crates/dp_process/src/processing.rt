// The processed log of a scaffold.

ghost use Rattle.std.specs.Prelude.{◌≡◌, IfOk, ◌<◌, ◌≤◌, length};
ghost use Rattle.dp_base.specs.Lists.{Each};
ghost use Rattle.dp_lines.specs.Allowed.{IsAllowed};
ghost use Rattle.dp_judge.specs.Logs.{judged_log};
ghost use Rattle.dp_judge.specs.declared.answer.LogAnswer.TheVariants.{Accepted};
ghost use Rattle.dp_checker.specs.Kept.{IsRight};
ghost use Rattle.dp_parts.specs.Problems.{posed};
ghost use Rattle.dp_replay.specs.Accepting.{AreShort, IsAccepted};
ghost use Rattle.dp_scaffold.specs.Scaffolds.{IsScaffoldOf};
ghost use Rattle.dp_writer.specs.Steps.{count_of, lines, text_of};
ghost use Rattle.dp_process.specs.Answers.{NamesFailing};
ghost use Rattle.dp_process.specs.Met.{EachMetFollows};
ghost use Rattle.dp_process.specs.Processed.{kept_count, log_of};
ghost use Rattle.dp_process.specs.Writing.{IsRefusalAt};

use crate::ProcessRefusal;
use crate::met::{Justified, justify_met};
use crate::write::write_log;
use dp_base::Text;
use dp_parts::Problem;
use dp_pool::Gate;
use dp_scaffold::Scaffold;
use std::alloc::Global;
use std::thread::Threads;

/// A processed log.
#[derive(Debug, Drop)]
pub struct Processed {
    /// Its bytes.
    pub text: Text,
    /// How many nogoods of the scaffold stand in it, without the conclusion's.
    pub kept: u64,
    /// How many of its steps have numbers.
    pub steps: u64,
}

/// The log of the scaffold's nogoods that its conclusion rests on: each is derived by the kept turns of
/// its run, which stand before it. A nogood that does not follow is refused: of those that the
/// conclusion rests on, the last. No test of a log refuses a line of the answer, and what it concludes,
/// which is the scaffold's claim, is right of the problem. So many workers look for justifications at once,
/// and the gate is told of each that they look for; the answer is the same for any number and any gate.
pub fn process<R: Threads + Sync, G: Gate>(
    rt: &R,
    alloc: Global,
    problem: &Problem,
    scaffold: &Scaffold,
    workers: usize,
    gate: &G,
) -> Result<Processed, ProcessRefusal>
    requires scaffold { IsScaffoldOf problem.now scaffold.now }
    requires some_workers { 1 ≤ workers }
    requires few_workers { workers ≤ 64 }
    ensures follows { IfOk result (λ _. EachMetFollows (posed problem.now) scaffold.now.nogoods) }
    ensures failing { NamesFailing problem.now scaffold.now result }
    ensures text { IfOk result (λ done. done.text ≡ text_of (log_of problem.now scaffold.now)) }
    ensures allowed { IfOk result (λ _. Each IsAllowed (lines (log_of problem.now scaffold.now))) }
    ensures kept { IfOk result (λ done. done.kept ≡ kept_count problem.now scaffold.now) }
    ensures steps { IfOk result (λ done. done.steps ≡ count_of (log_of problem.now scaffold.now)) }
    ensures accepted { IfOk result (λ _. IsAccepted (posed problem.now) (lines (log_of problem.now scaffold.now)) scaffold.now.claim) }
    ensures checked { IfOk result (λ done. AreShort (lines (log_of problem.now scaffold.now)) done.text → judged_log (posed problem.now) done.text ≡ Accepted scaffold.now.claim) }
    ensures right { IfOk result (λ _. IsRight problem.now scaffold.now.claim) }
{
    // That names lead back, and what a scaffold keeps, is known by a look at them.
    let _names = problem.name_count();
    let _nogoods = scaffold.nogoods();
    let done = process_met(rt, alloc, problem, scaffold, workers, gate)?;
    Ok(done)
}

/// Justifies the nogoods that are met, and writes the log of those.
fn process_met<R: Threads + Sync, G: Gate>(
    rt: &R,
    alloc: Global,
    problem: &Problem,
    scaffold: &Scaffold,
    workers: usize,
    gate: &G,
) -> Result<Processed, ProcessRefusal>
    requires scaffold { IsScaffoldOf problem.now scaffold.now }
    requires some_workers { 1 ≤ workers }
    requires few_workers { workers ≤ 64 }
    ensures follows { IfOk result (λ _. EachMetFollows (posed problem.now) scaffold.now.nogoods) }
    ensures failing { NamesFailing problem.now scaffold.now result }
    ensures text { IfOk result (λ done. done.text ≡ text_of (log_of problem.now scaffold.now)) }
    ensures allowed { IfOk result (λ _. Each IsAllowed (lines (log_of problem.now scaffold.now))) }
    ensures kept { IfOk result (λ done. done.kept ≡ kept_count problem.now scaffold.now) }
    ensures steps { IfOk result (λ done. done.steps ≡ count_of (log_of problem.now scaffold.now)) }
{
    // What a problem keeps is known by a look at it.
    let _initial = problem.initial();
    match justify_met(rt, alloc, problem, scaffold.nogoods(), workers, gate)? {
        Justified::All(pieces) => Ok(write_log(alloc, problem, scaffold, pieces)?),
        Justified::Failing(place) => Err(not_following(scaffold, place)),
    }
}

/// The refusal that names the nogood at the place.
fn not_following(scaffold: &Scaffold, place: usize) -> ProcessRefusal
    requires { place < length scaffold.now.nogoods }
    ensures { IsRefusalAt scaffold.now place result }
{
    ProcessRefusal::NotFollowing {
        place,
        line: scaffold.line_at(place),
        id: scaffold.id_at(place),
    }
}
