// The command that processes a scaffold of a model.

ghost use Rattle.std.specs.Prelude.{◌≡◌, ◌<◌, ◌≤◌, ◌-◌, IfOk, IsErrOf, length};
ghost use Rattle.dp_desk.specs.Channel.{IsAtEnd};
ghost use Rattle.dp_desk.specs.Sight.{with_input};
ghost use Rattle.dp_domain.specs.States.{AreOf};
ghost use Rattle.dp_judge.specs.Logs.{IsOfGoal};
ghost use Rattle.dp_parts.specs.Problems.{posed};
ghost use Rattle.dp_process.specs.Answers.{IsFailingAt};
ghost use Rattle.dp_scaffold.specs.Scaffolds.{IsScaffoldOf};
ghost use Rattle.dp_scaffold.specs.Texts.{IsScaffoldAnswer, has_no_refusal};
ghost use Rattle.dp_command.specs.Inputs.{HasReadCause};
ghost use Rattle.dp_command.specs.Due.{AreAtEnd, ChangesInputs, LeavesUnread};
ghost use Rattle.dp_command.specs.Outcomes.{IsDone, IsFailingOf, IsOutcome, IsOutcomeOf, claim_line, nogood_line, told_at};
ghost use Rattle.dp_command.specs.Patience.{HasPatience};
ghost use Rattle.dp_command.specs.Pieces.{IsPatient};
ghost use Rattle.dp_command.specs.Replies.{IsProcessed, RepliesTo};
ghost use Rattle.dp_command.specs.Texts.{outcome_status, status_of};
ghost use Rattle.dp_command.specs.Words.{Process};
ghost use Rattle.dp_command.specs.declared.trouble.Trouble.TheVariants.{ReadFault};

use crate::Trouble;
use crate::finding::{Found, read_problem};
use crate::judging::judge_read;
use crate::naming::{claim_of, push_conjunction};
use crate::outcome::{Done, Failing, File, Outcome};
use crate::reading::MOST_OF_LOG;
use crate::reply::{Reply, push_claim};
use dp_base::{Memory, Text};
use dp_desk::{Desk, In};
use dp_domain::{Atom, Verdict};
use dp_parts::Problem;
use dp_pool::Gate;
use dp_process::ProcessRefusal;
use dp_scaffold::{Scaffold, ScaffoldAnswer, ScaffoldReading};
use std::alloc::Global;
use std::thread::Threads;

/// Processes a scaffold of a model, and writes nothing. The scaffold is opened where the model is not refused.
pub(crate) fn process<R: Threads + Sync, D: Desk, G: Gate>(
    rt: &R,
    alloc: Global,
    model: &str,
    scaffold: &str,
    out: &str,
    workers: u32,
    desk: &mut D,
    gate: &G,
) -> Result<Reply, Trouble>
    requires some_workers { 1 ≤ workers }
    requires few_workers { workers ≤ 64 }
    ensures due { IfOk result (λ reply. RepliesTo (D.sight desk.old).names (Process model.now scaffold.now out.now workers) reply) }
    ensures ended { IfOk result (λ reply. status_of reply ≡ 0 → AreAtEnd (Process model.now scaffold.now out.now workers) (D.sight desk.new)) }
    ensures patient { IsErrOf result ReadFault → HasPatience (D.sight desk.old).names (Process model.now scaffold.now out.now workers) (D.sight desk.old).log (D.sight desk.new).log }
    ensures unread { IfOk result (λ reply. LeavesUnread reply (D.sight desk.old) (D.sight desk.new)) }
    ensures rest { ChangesInputs (D.sight desk.old) (D.sight desk.new) }
    ensures cause { HasReadCause (D.faults_in desk.old) (D.faults_in desk.new) result }
    ensures other { D.faults_out desk.new ≡ D.faults_out desk.old }
{
    match read_problem(alloc, model, desk)? {
        Found::Problem(_model, problem) => {
            let outcome = process_input(rt, alloc, &problem, scaffold, out, workers, desk, gate)?;
            Ok(Reply::Processed(outcome))
        }
        Found::Refusal(refusal) => Ok(Reply::ModelRefused(refusal)),
    }
}

// Judges a scaffold while it is read, and processes it.
fn process_input<R: Threads + Sync, D: Desk, G: Gate>(
    rt: &R,
    alloc: Global,
    problem: &Problem,
    name: &str,
    out: &str,
    workers: u32,
    desk: &mut D,
    gate: &G,
) -> Result<Outcome, Trouble>
    requires some_workers { 1 ≤ workers }
    requires few_workers { workers ≤ 64 }
    ensures outcome { IfOk result (IsProcessed (D.sight desk.old).names name.now out.now problem.now) }
    ensures ended { IfOk result (λ outcome. outcome_status outcome ≡ 0 → IsAtEnd (D.sight desk.new).log) }
    ensures patient { IsErrOf result ReadFault → IsPatient (has_no_refusal (posed problem.now)) (D.sight desk.old).names name.now (D.sight desk.old).log (D.sight desk.new).log }
    ensures rest { D.sight desk.new ≡ with_input In.Log (D.sight desk.new).log (D.sight desk.old) }
    ensures cause { HasReadCause (D.faults_in desk.old) (D.faults_in desk.new) result }
    ensures other { D.faults_out desk.new ≡ D.faults_out desk.old }
{
    let reading = ScaffoldReading::new(alloc, problem)?;
    let answer = judge_read(alloc, desk, In::Log, name, MOST_OF_LOG, reading)?;
    Ok(outcome_of(rt, alloc, problem, answer, out, workers, gate)?)
}

// What becomes of what is answered for a scaffold's bytes.
fn outcome_of<R: Threads + Sync, G: Gate>(
    rt: &R,
    alloc: Global,
    problem: &Problem,
    answer: ScaffoldAnswer,
    out: &str,
    workers: u32,
    gate: &G,
) -> Result<Outcome, Memory>
    requires answer { IsScaffoldAnswer problem.now answer }
    requires some_workers { 1 ≤ workers }
    requires few_workers { workers ≤ 64 }
    ensures { IfOk result (IsOutcome problem.now out.now answer) }
{
    match answer {
        ScaffoldAnswer::Given(scaffold) => process_scaffold(
            rt, alloc, problem, &scaffold, out, workers, gate,
        ),
        ScaffoldAnswer::Unread(refusal) => Ok(Outcome::Unread(refusal)),
        ScaffoldAnswer::Refused(refusal, text) => Ok(Outcome::Refused(refusal, text)),
    }
}

// What becomes of a scaffold.
fn process_scaffold<R: Threads + Sync, G: Gate>(
    rt: &R,
    alloc: Global,
    problem: &Problem,
    scaffold: &Scaffold,
    out: &str,
    workers: u32,
    gate: &G,
) -> Result<Outcome, Memory>
    requires scaffold { IsScaffoldOf problem.now scaffold.now }
    requires some_workers { 1 ≤ workers }
    requires few_workers { workers ≤ 64 }
    ensures { IfOk result (IsOutcomeOf problem.now out.now scaffold.now) }
{
    match dp_process::process(rt, alloc, problem, scaffold, workers as usize, gate) {
        Ok(processed) => {
            let done = Done {
                log: File {
                    name: String::from_str(alloc, out)?,
                    text: processed.text,
                },
                kept: processed.kept,
                nogoods: nogood_count(scaffold),
                steps: processed.steps,
            };
            Ok(Outcome::Done(done))
        }
        Err(ProcessRefusal::NotFollowing { place, line, id }) => {
            let failing = failing_at(alloc, problem, scaffold, place, line, id)?;
            Ok(Outcome::NotFollowing(failing))
        }
        Err(ProcessRefusal::Memory) => Err(Memory),
    }
}

// How many nogoods there are, without the conclusion.
fn nogood_count(scaffold: &Scaffold) -> u64
    ensures { result ≡ length scaffold.now.nogoods - 1 }
{
    scaffold.nogoods().len() as u64 - 1
}

// The nogood at the place, which does not follow.
fn failing_at(
    alloc: Global,
    problem: &Problem,
    scaffold: &Scaffold,
    place: usize,
    line: u64,
    id: u64,
) -> Result<Failing, Memory>
    requires scaffold { IsScaffoldOf problem.now scaffold.now }
    requires failing { IsFailingAt problem.now scaffold.now place line id }
    ensures { IfOk result (IsFailingOf problem.now scaffold.now) }
{
    let text = told_at(alloc, problem, scaffold, place, id)?;
    Ok(Failing {
        line,
        id,
        text: Text::new(text),
    })
}

// The line that tells the nogood at the place; the last is told as the claim.
fn told_at(
    alloc: Global,
    problem: &Problem,
    scaffold: &Scaffold,
    place: usize,
    id: u64,
) -> Result<Vec<u8>, Memory>
    requires scaffold { IsScaffoldOf problem.now scaffold.now }
    requires stands { place < length scaffold.now.nogoods }
    ensures { IfOk result (λ text. text.items ≡ told_at problem.now scaffold.now place id) }
{
    let nogoods = scaffold.nogoods();
    if place + 1 == nogoods.len() {
        claim_line(alloc, problem, scaffold.claim())
    } else {
        nogood_line(alloc, problem, id, nogoods[place].atoms())
    }
}

// The line that tells a claim.
fn claim_line(alloc: Global, problem: &Problem, claim: Verdict) -> Result<Vec<u8>, Memory>
    requires { IsOfGoal problem.now claim }
    ensures { IfOk result (λ text. text.items ≡ claim_line problem.now claim) }
{
    let claim = claim_of(alloc, problem, claim)?;
    let mut text = b"conclusion: ".to_vec(alloc)?;
    push_claim(&mut text, &claim)?;
    text.push(b'\n')?;
    Ok(text)
}

// The line that tells a nogood.
fn nogood_line(alloc: Global, problem: &Problem, id: u64, atoms: &[Atom]) -> Result<Vec<u8>, Memory>
    requires { AreOf problem.now.initial atoms.now }
    ensures { IfOk result (λ text. text.items ≡ nogood_line problem.now id atoms.now) }
{
    let mut text = format!(in alloc; "{id}: not (")?.into_bytes();
    push_conjunction(&mut text, problem, atoms)?;
    text.extend_from_slice(b")\n")?;
    Ok(text)
}
