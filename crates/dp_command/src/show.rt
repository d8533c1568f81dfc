// The command that shows a log.

ghost use Rattle.std.specs.Prelude.{◌≡◌, IfOk, IsErrOf};
ghost use Rattle.dp_desk.specs.Sight.{with_input};
ghost use Rattle.dp_command.specs.Inputs.{HasReadCause};
ghost use Rattle.dp_command.specs.Due.{AreAtEnd, LeavesUnread};
ghost use Rattle.dp_command.specs.Pieces.{IsPatient};
ghost use Rattle.dp_command.specs.Replies.{RepliesTo};
ghost use Rattle.dp_command.specs.Texts.{status_of};
ghost use Rattle.dp_command.specs.Words.{Show};
ghost use Rattle.dp_command.specs.declared.trouble.Trouble.TheVariants.{ReadFault};
ghost use Rattle.dp_show.specs.Logs.{has_no_refusal};

use crate::Trouble;
use crate::judging::judge_read;
use crate::reading::MOST_OF_LOG;
use crate::reply::Reply;
use dp_desk::{Desk, In};
use dp_show::Showing;
use std::alloc::Global;

/// Shows a log while it is read, and writes nothing. The log alone is opened.
pub(crate) fn show<D: Desk>(alloc: Global, log: &str, desk: &mut D) -> Result<Reply, Trouble>
    ensures due { IfOk result (λ reply. RepliesTo (D.sight desk.old).names (Show log.now) reply) }
    ensures ended { IfOk result (λ reply. status_of reply ≡ 0 → AreAtEnd (Show log.now) (D.sight desk.new)) }
    ensures patient { IsErrOf result ReadFault → IsPatient has_no_refusal (D.sight desk.old).names log.now (D.sight desk.old).log (D.sight desk.new).log }
    ensures unread { IfOk result (λ reply. LeavesUnread reply (D.sight desk.old) (D.sight desk.new)) }
    ensures rest { D.sight desk.new ≡ with_input In.Log (D.sight desk.new).log (D.sight desk.old) }
    ensures cause { HasReadCause (D.faults_in desk.old) (D.faults_in desk.new) result }
    ensures other { D.faults_out desk.new ≡ D.faults_out desk.old }
{
    let showing = Showing::new(alloc)?;
    let shown = judge_read(alloc, desk, In::Log, log, MOST_OF_LOG, showing)?;
    Ok(Reply::Shown(shown))
}
