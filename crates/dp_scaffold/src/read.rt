//! Reading the text of a scaffold that has come.

ghost use Rattle.std.specs.Prelude.{◌≡◌, ◌≤◌, ◌^◌, IfOk, length};
ghost use Rattle.dp_parts.specs.Problems.{posed};
ghost use Rattle.dp_scaffold.specs.Texts.{IsScaffoldAnswer, scaffold_text};

use crate::{ScaffoldAnswer, ScaffoldReading};
use dp_domain::Memory;
use dp_lines::judge_text;
use dp_parts::Problem;
use std::alloc::Global;

/// Reads a scaffold of the problem: its lines in order, up to the first that cannot be read or that a test refuses.
pub fn read_scaffold(
    alloc: Global,
    problem: &Problem,
    text: &[u8],
) -> Result<ScaffoldAnswer, Memory>
    requires { length text.now ≤ 2 ^ 62 }
    ensures answer { IfOk result (λ answer. answer ≡ scaffold_text (posed problem.now) text.now) }
    ensures scaffold { IfOk result (IsScaffoldAnswer problem.now) }
{
    judge_text(ScaffoldReading::new(alloc, problem)?, text)
}
