// Why a scaffold is not processed.

ghost use Rattle.std.specs.Prelude.{◌≡◌};
ghost use Rattle.dp_process.specs.declared.refusal.ProcessRefusal.TheVariants.{Memory as process_memory};

use dp_base::Memory;

/// Why there is no processed log.
#[derive(Clone, Copy, Debug, PartialEq, Eq)]
pub enum ProcessRefusal {
    /// The conclusion rests on a nogood that does not follow from the model and the nogoods before it.
    /// It has this place, from 0, this line, and this number, which is 0 for the conclusion's own.
    NotFollowing { place: usize, line: u64, id: u64 },
    /// An allocation was refused.
    Memory,
}

impl From<Memory> for ProcessRefusal {
    ghost from_gives = { λ _ e. e ≡ process_memory };

    fn from(_memory: Memory) -> ProcessRefusal {
        ProcessRefusal::Memory
    }
}
