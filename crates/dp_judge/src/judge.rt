//! Judging a log that has come.

ghost use Rattle.std.specs.Prelude.{◌≡◌, ◌≤◌, ◌^◌, IfOk, length};
ghost use Rattle.dp_parts.specs.Problems.{posed};
ghost use Rattle.dp_judge.specs.Logs.{IsGoalAnswer, IsRightAnswer, IsSmallAnswer, judged_log};

use crate::{Judging, LogAnswer};
use dp_domain::Memory;
use dp_lines::judge_text;
use dp_parts::Problem;
use std::alloc::Global;

/// Judges a log of the problem: its lines in order, up to the first that cannot be read or that a test refuses.
pub fn judge_log(alloc: Global, problem: &Problem, log: &[u8]) -> Result<LogAnswer, Memory>
    requires { length log.now ≤ 2 ^ 62 }
    ensures answer { IfOk result (λ answer. answer ≡ judged_log (posed problem.now) log.now) }
    ensures right { IfOk result (IsRightAnswer problem.now) }
    ensures goal { IfOk result (IsGoalAnswer problem.now) }
    ensures small { IfOk result (IsSmallAnswer log.now) }
{
    judge_text(Judging::new(alloc, problem)?, log)
}
