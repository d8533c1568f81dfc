// What a solver answers.

ghost use Rattle.std.specs.Prelude.{◌≡◌};
ghost use Rattle.dp_solver.specs.declared.outcome.SolveFault.TheVariants.{Memory as no_memory, WriteFault as no_write};

use dp_base::{Assignment, Memory};
use dp_desk::Failed;
use dp_domain::Atom;
use thiserror::Error;

/// What a search ends with.
#[derive(Debug, Drop)]
pub enum Outcome {
    /// A solution, where nothing more is asked.
    Solution(Assignment),
    /// There is no solution.
    Unsat,
    /// A solution that no other beats, and the bound at its value of the goal's variable.
    Optimal(Assignment, Atom),
    /// The most nogoods were learned; with the best solution that was found, where a best one is asked.
    Unknown(Option<Assignment>),
}

/// Why there is no answer.
#[derive(Clone, Copy, Debug, PartialEq, Eq, Error)]
pub enum SolveFault {
    /// The scaffold could not be written.
    #[error("a write failed")]
    WriteFault,
    /// An allocation was refused.
    #[error("want of memory")]
    Memory,
}

impl From<Memory> for SolveFault {
    ghost from_gives = { λ _ e. e ≡ no_memory };

    fn from(_memory: Memory) -> SolveFault {
        SolveFault::Memory
    }
}

impl From<Failed> for SolveFault {
    ghost from_gives = { λ _ e. e ≡ no_write };

    fn from(_failed: Failed) -> SolveFault {
        SolveFault::WriteFault
    }
}
