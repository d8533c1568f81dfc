//! Why reading stops.

use dp_base::Memory;
use fz_model::Fault;
use std::alloc::{AllocError, AllocFailed};

/// Why a word is refused: no production has it there, or a test does not let it pass.
#[derive(Clone, Copy, Debug, PartialEq, Eq)]
pub enum Cause {
    Syntax,
    Test(Fault),
}

/// A word is refused, or memory is wanting.
#[derive(Clone, Copy, Debug, PartialEq, Eq)]
pub enum Stop {
    Refused(Cause),
    Memory,
}

impl From<Cause> for Stop {
    ghost use Rattle.std.specs.Prelude.{◌≡◌};
    ghost use Rattle.fz_items.specs.Stops.{refused};

    ghost from_gives = { λ cause stop. stop ≡ refused cause };

    fn from(cause: Cause) -> Stop {
        Stop::Refused(cause)
    }
}

impl From<Memory> for Stop {
    ghost use Rattle.std.specs.Prelude.{◌≡◌};
    ghost use Rattle.fz_items.specs.Stops.{wanting};

    ghost from_gives = { λ _ stop. stop ≡ wanting };

    fn from(_memory: Memory) -> Stop {
        Stop::Memory
    }
}

impl From<AllocError> for Stop {
    ghost use Rattle.std.specs.Prelude.{◌≡◌};
    ghost use Rattle.fz_items.specs.Stops.{wanting};

    ghost from_gives = { λ _ stop. stop ≡ wanting };

    fn from(_failed: AllocError) -> Stop {
        Stop::Memory
    }
}

impl<T: Drop> From<AllocFailed<T>> for Stop {
    ghost use Rattle.std.specs.Prelude.{◌≡◌};
    ghost use Rattle.fz_items.specs.Stops.{wanting};

    ghost from_gives = { λ _ stop. stop ≡ wanting };

    fn from(_failed: AllocFailed<T>) -> Stop {
        Stop::Memory
    }
}
