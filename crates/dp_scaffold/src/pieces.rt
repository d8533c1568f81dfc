//! Reading the text of a scaffold that comes in pieces.

ghost use Rattle.std.specs.Prelude.{◌≡◌, ◌≤◌, ◌^◌, [], IfOk};
ghost use Rattle.dp_scaffold.specs.Gathering.{scaffold_of};
ghost use Rattle.dp_scaffold.specs.Pieces.{HasGathered, IsBehind, IsDue, IsUnrefused, Refuses, quiet};
ghost use Rattle.dp_scaffold.specs.Texts.{IsScaffoldAnswer, give};

use crate::{GatherFault, Gatherer, ScaffoldAnswer};
use dp_domain::Memory;
use dp_lines::{InPieces, Line, LineRefusal, LineTaker, line_text};
use dp_parts::Problem;
use std::alloc::Global;
use std::marker::Model;

/// The text of a scaffold of a problem that is read line by line.
#[derive(Drop)]
pub struct ScaffoldReading<'p> {
    alloc: Global,
    gatherer: Gatherer<'p>,
}

impl<'p> Model for ScaffoldReading<'p> {
    ghost use Rattle.dp_scaffold.specs.Answers.{Standing};

    ghost Value = { Standing };

    ghost view = { λ j. j.gatherer };
}

impl<'p> ScaffoldReading<'p> {
    /// A text that is read while it comes, and of which nothing has come.
    pub fn new(alloc: Global, problem: &'p Problem) -> Result<InPieces<ScaffoldReading<'p>>, Memory>
        ensures behind { IfOk result (λ reading. IsBehind reading []) }
        ensures problem { IfOk result (λ reading. reading.taker.problem ≡ problem.now) }
    {
        let gatherer = Gatherer::new(alloc, problem)?;
        Ok(InPieces::new(alloc, ScaffoldReading { alloc, gatherer }))
    }
}

impl<'p> LineTaker for ScaffoldReading<'p> {
    type Answer = ScaffoldAnswer;

    ghost took = { HasGathered };

    ghost due = { IsDue };

    ghost refuses = { Refuses };

    ghost unrefused = { IsUnrefused };

    fn take(&mut self, number: u64, line: Line) -> Result<Option<ScaffoldAnswer>, Memory> {
        match self.gatherer.take(number, &line) {
            Ok(()) => Ok(None),
            Err(GatherFault::Refused(refusal)) => {
                let text = line_text(self.alloc, &line)?;
                Ok(Some(ScaffoldAnswer::Refused(refusal, Some(text))))
            }
            Err(GatherFault::Memory) => Err(Memory),
        }
    }

    fn unread(&mut self, refusal: LineRefusal) -> ScaffoldAnswer {
        ScaffoldAnswer::Unread(refusal)
    }

    fn finish(self, count: u64) -> ScaffoldAnswer {
        claimed(self.gatherer, count)
    }

    ghost quiet = { λ j given front h e. quiet j given front h e };
}

/// The answer behind the last line.
fn claimed(gatherer: Gatherer, count: u64) -> ScaffoldAnswer
    requires few { count ≤ 2 ^ 62 }
    ensures answer { result ≡ give (scaffold_of gatherer.entry.progress count) }
    ensures scaffold { IsScaffoldAnswer gatherer.entry.problem result }
{
    match gatherer.finish(count) {
        Ok(scaffold) => ScaffoldAnswer::Given(scaffold),
        Err(refusal) => ScaffoldAnswer::Refused(refusal, None),
    }
}
