//! Why a line is not taken: a refusal, or want of memory.

ghost use Rattle.std.specs.Prelude.{◌≡◌};
ghost use Rattle.dp_scaffold.specs.declared.fault.GatherFault.TheVariants.{Memory as gather_memory, Refused as gather_refused};

use crate::ScaffoldRefusal;
use dp_domain::Memory;

/// Why a line was not taken.
#[derive(Clone, Copy, Debug, PartialEq, Eq)]
pub enum GatherFault {
    /// This line is refused, or an earlier one was.
    Refused(ScaffoldRefusal),
    /// An allocation was refused.
    Memory,
}

impl From<ScaffoldRefusal> for GatherFault {
    ghost from_gives = { λ refusal e. e ≡ gather_refused refusal };

    fn from(refusal: ScaffoldRefusal) -> GatherFault {
        GatherFault::Refused(refusal)
    }
}

impl From<Memory> for GatherFault {
    ghost from_gives = { λ _ e. e ≡ gather_memory };

    fn from(_memory: Memory) -> GatherFault {
        GatherFault::Memory
    }
}
