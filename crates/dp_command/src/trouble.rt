// What keeps an answer from coming.

ghost use Rattle.std.specs.Prelude.{◌≡◌};
ghost use Rattle.dp_command.specs.declared.trouble.Trouble.TheVariants.{ReadFault, Memory};

use dp_base::Memory;
use dp_desk::Failed;
use std::alloc::{AllocError, AllocFailed};
use thiserror::Error;

/// Why there is no reply.
#[derive(Clone, Copy, Debug, PartialEq, Eq, Error)]
pub(crate) enum Trouble {
    /// Opening or reading an input failed.
    #[error("an input failed")]
    ReadFault,
    /// An allocation was refused.
    #[error("out of memory")]
    Memory,
}

impl From<Failed> for Trouble {
    ghost from_gives = { λ _ trouble. trouble ≡ ReadFault };

    fn from(_failed: Failed) -> Trouble {
        Trouble::ReadFault
    }
}

impl From<Memory> for Trouble {
    ghost from_gives = { λ _ trouble. trouble ≡ Memory };

    fn from(_refused: Memory) -> Trouble {
        Trouble::Memory
    }
}

impl From<AllocError> for Trouble {
    ghost from_gives = { λ _ trouble. trouble ≡ Memory };

    fn from(_refused: AllocError) -> Trouble {
        Trouble::Memory
    }
}

impl<T: Drop> From<AllocFailed<T>> for Trouble {
    ghost from_gives = { λ _ trouble. trouble ≡ Memory };

    fn from(_refused: AllocFailed<T>) -> Trouble {
        Trouble::Memory
    }
}
