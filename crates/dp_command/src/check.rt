// The command that judges a log of a model.

ghost use Rattle.std.specs.Prelude.{◌≡◌, IfOk, IsErrOf};
ghost use Rattle.dp_desk.specs.Channel.{IsAtEnd};
ghost use Rattle.dp_desk.specs.Sight.{with_input};
ghost use Rattle.dp_judge.specs.Logs.{IsGoalAnswer, has_no_refusal};
ghost use Rattle.dp_parts.specs.Problems.{posed};
ghost use Rattle.dp_command.specs.Inputs.{HasReadCause};
ghost use Rattle.dp_command.specs.Due.{AreAtEnd, ChangesInputs, LeavesUnread};
ghost use Rattle.dp_command.specs.Patience.{HasPatience};
ghost use Rattle.dp_command.specs.Pieces.{IsPatient};
ghost use Rattle.dp_command.specs.Replies.{IsJudged, RepliesTo, reply_of};
ghost use Rattle.dp_command.specs.Texts.{status_of};
ghost use Rattle.dp_command.specs.Words.{Check};
ghost use Rattle.dp_command.specs.declared.trouble.Trouble.TheVariants.{ReadFault};

use crate::Trouble;
use crate::finding::{Found, read_problem};
use crate::judging::judge_read;
use crate::naming::claim_of;
use crate::reading::MOST_OF_LOG;
use crate::reply::Reply;
use dp_base::Memory;
use dp_desk::{Desk, In};
use dp_judge::{Judging, LogAnswer};
use dp_parts::Problem;
use std::alloc::Global;

/// Judges a log of a model while it is read, and writes nothing. The log is opened where the model is not refused.
pub(crate) fn check<D: Desk>(
    alloc: Global,
    model: &str,
    log: &str,
    desk: &mut D,
) -> Result<Reply, Trouble>
    ensures due { IfOk result (λ reply. RepliesTo (D.sight desk.old).names (Check model.now log.now) reply) }
    ensures ended { IfOk result (λ reply. status_of reply ≡ 0 → AreAtEnd (Check model.now log.now) (D.sight desk.new)) }
    ensures patient { IsErrOf result ReadFault → HasPatience (D.sight desk.old).names (Check model.now log.now) (D.sight desk.old).log (D.sight desk.new).log }
    ensures unread { IfOk result (λ reply. LeavesUnread reply (D.sight desk.old) (D.sight desk.new)) }
    ensures rest { ChangesInputs (D.sight desk.old) (D.sight desk.new) }
    ensures cause { HasReadCause (D.faults_in desk.old) (D.faults_in desk.new) result }
    ensures other { D.faults_out desk.new ≡ D.faults_out desk.old }
{
    match read_problem(alloc, model, desk)? {
        Found::Problem(_model, problem) => judge_input(alloc, &problem, log, desk),
        Found::Refusal(refusal) => Ok(Reply::ModelRefused(refusal)),
    }
}

// Judges a log while it is read.
fn judge_input<D: Desk>(
    alloc: Global,
    problem: &Problem,
    name: &str,
    desk: &mut D,
) -> Result<Reply, Trouble>
    ensures reply { IfOk result (IsJudged (D.sight desk.old).names name.now problem.now) }
    ensures ended { IfOk result (λ reply. status_of reply ≡ 0 → IsAtEnd (D.sight desk.new).log) }
    ensures patient { IsErrOf result ReadFault → IsPatient (has_no_refusal (posed problem.now)) (D.sight desk.old).names name.now (D.sight desk.old).log (D.sight desk.new).log }
    ensures rest { D.sight desk.new ≡ with_input In.Log (D.sight desk.new).log (D.sight desk.old) }
    ensures cause { HasReadCause (D.faults_in desk.old) (D.faults_in desk.new) result }
    ensures other { D.faults_out desk.new ≡ D.faults_out desk.old }
{
    let judging = Judging::new(alloc, problem)?;
    let answer = judge_read(alloc, desk, In::Log, name, MOST_OF_LOG, judging)?;
    Ok(reply_of(alloc, problem, answer)?)
}

// The reply that an answer becomes.
fn reply_of(alloc: Global, problem: &Problem, answer: LogAnswer) -> Result<Reply, Memory>
    requires { IsGoalAnswer problem.now answer }
    ensures { IfOk result (λ reply. reply ≡ reply_of problem.now answer) }
{
    match answer {
        LogAnswer::Accepted(verdict) => Ok(Reply::Accepted(claim_of(alloc, problem, verdict)?)),
        LogAnswer::Unread(refusal) => Ok(Reply::Unread(refusal)),
        LogAnswer::Refused(refusal, text) => Ok(Reply::Refused(refusal, text)),
    }
}
