// Why a cumulative constraint is not made.

ghost use Rattle.std.specs.Prelude.{◌≡◌};
ghost use Rattle.dp_rule_cumulative.specs.declared.refusal.TaskRefusal.TheVariants.{Memory as wanting};

use dp_domain::Memory;
use thiserror::Error;

/// Why a cumulative constraint is not made: the first of these that applies.
#[derive(Clone, Copy, Debug, PartialEq, Eq, Error)]
pub enum TaskRefusal {
    #[error("starts, durations and uses differ in number")]
    BadLength,
    #[error("more than 2000000 tasks")]
    TooMany,
    #[error("bad task at place {0}")]
    BadTask(usize),
    #[error("capacity outside 0..10^9")]
    BadCapacity,
    #[error("{0}")]
    Memory(Memory),
}

impl From<Memory> for TaskRefusal {
    ghost from_gives = { λ memory refusal. refusal ≡ wanting memory };

    fn from(memory: Memory) -> TaskRefusal {
        TaskRefusal::Memory(memory)
    }
}
