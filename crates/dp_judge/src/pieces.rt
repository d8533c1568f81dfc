//! Judging a log that comes in pieces.

ghost use Rattle.std.specs.Prelude.{◌≡◌, ◌≤◌, ◌^◌, [], IfOk};
ghost use Rattle.dp_checker.specs.Judged.{verdict};
ghost use Rattle.dp_judge.specs.Logs.{IsRightAnswer, conclude};
ghost use Rattle.dp_judge.specs.Pieces.{HasJudged, IsBehind, IsDue, IsUnrefused, Refuses, quiet};

use crate::LogAnswer;
use dp_checker::{CheckFault, Checker};
use dp_domain::Memory;
use dp_lines::{InPieces, Line, LineRefusal, LineTaker, line_text};
use dp_parts::Problem;
use std::alloc::Global;
use std::marker::Model;

/// A log of a problem that is judged line by line.
#[derive(Drop)]
pub struct Judging<'p> {
    alloc: Global,
    checker: Checker<'p>,
}

impl<'p> Model for Judging<'p> {
    ghost use Rattle.dp_checker.specs.Answers.{Checking};

    ghost Value = { Checking };

    ghost view = { λ j. j.checker };
}

impl<'p> Judging<'p> {
    /// A log that is judged while it comes, and of which nothing has come.
    pub fn new(alloc: Global, problem: &'p Problem) -> Result<InPieces<Judging<'p>>, Memory>
        ensures behind { IfOk result (λ judging. IsBehind judging []) }
        ensures problem { IfOk result (λ judging. judging.taker.problem ≡ problem.now) }
    {
        let _goal = problem.goal();
        let checker = Checker::new(alloc, problem)?;
        Ok(InPieces::new(alloc, Judging { alloc, checker }))
    }
}

impl<'p> LineTaker for Judging<'p> {
    type Answer = LogAnswer;

    ghost took = { HasJudged };

    ghost due = { IsDue };

    ghost refuses = { Refuses };

    ghost unrefused = { IsUnrefused };

    fn take(&mut self, number: u64, line: Line) -> Result<Option<LogAnswer>, Memory> {
        match self.checker.take(number, &line) {
            Ok(()) => Ok(None),
            Err(CheckFault::Refused(refusal)) => {
                let text = line_text(self.alloc, &line)?;
                Ok(Some(LogAnswer::Refused(refusal, Some(text))))
            }
            Err(CheckFault::Memory) => Err(Memory),
        }
    }

    fn unread(&mut self, refusal: LineRefusal) -> LogAnswer {
        LogAnswer::Unread(refusal)
    }

    fn finish(self, count: u64) -> LogAnswer {
        concluded(self.checker, count)
    }

    ghost quiet = { λ j given front h e. quiet j given front h e };
}

/// The answer behind the last line.
fn concluded(checker: Checker, count: u64) -> LogAnswer
    requires few { count ≤ 2 ^ 62 }
    ensures answer { result ≡ conclude (verdict checker.entry.progress count) }
    ensures right { IsRightAnswer checker.entry.problem result }
{
    match checker.finish(count) {
        Ok(verdict) => LogAnswer::Accepted(verdict),
        Err(refusal) => LogAnswer::Refused(refusal, None),
    }
}
