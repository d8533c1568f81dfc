// Faults: a refusal, or want of memory.

ghost use Rattle.std.specs.Prelude.{◌≡◌};
ghost use Rattle.dp_checker.specs.declared.fault.CheckFault.TheVariants.{Memory as check_memory, Refused as check_refused};
ghost use Rattle.dp_checker.specs.declared.fault.Fault.TheVariants.{Memory as fault_memory};

use crate::{StepRefusal, Why};
use dp_domain::Memory;
use std::alloc::AllocFailed;

/// Why a line was not taken.
#[derive(Clone, Copy, Debug, PartialEq, Eq)]
pub enum CheckFault {
    /// This line is refused, or an earlier one was.
    Refused(StepRefusal),
    /// An allocation was refused.
    Memory,
}

impl From<StepRefusal> for CheckFault {
    ghost from_gives = { λ refusal e. e ≡ check_refused refusal };

    fn from(refusal: StepRefusal) -> CheckFault {
        CheckFault::Refused(refusal)
    }
}

impl From<Memory> for CheckFault {
    ghost from_gives = { λ _ e. e ≡ check_memory };

    fn from(_memory: Memory) -> CheckFault {
        CheckFault::Memory
    }
}

/// Why a line is not judged to the end, or is refused.
#[derive(Clone, Copy, Debug, PartialEq, Eq)]
pub enum Fault {
    /// The first test that the line fails.
    Refused(Why),
    /// An allocation was refused.
    Memory,
}

impl From<Memory> for Fault {
    ghost from_gives = { λ _ e. e ≡ fault_memory };

    fn from(_memory: Memory) -> Fault {
        Fault::Memory
    }
}

impl<T: Drop> From<AllocFailed<T>> for Fault {
    ghost from_gives = { λ _ e. e ≡ fault_memory };

    fn from(_refused: AllocFailed<T>) -> Fault {
        Fault::Memory
    }
}
