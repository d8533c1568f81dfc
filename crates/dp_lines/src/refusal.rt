// Why a line is refused, and what stands for want of memory beside it.

ghost use Rattle.std.specs.Prelude.{◌≡◌};
ghost use Rattle.dp_lines.specs.declared.refusal.Fault.TheVariants.{Flawed, Memory as Wanting};
ghost use Rattle.dp_lines.specs.declared.refusal.LineFault.TheVariants.{Memory as WantingLine};

use dp_domain::Memory;
use std::alloc::{AllocError, AllocFailed};
use thiserror::Error;

/// The most bytes of a line before its line feed, and of a log.
#[derive(Clone, Copy, Debug, PartialEq, Eq)]
pub struct Limits {
    pub line: u64,
    pub total: u64,
}

/// Why a line is refused: the line's number from 1, then the byte's place in the line from 1.
#[derive(Clone, Copy, Debug, PartialEq, Eq, Error)]
pub enum LineRefusal {
    /// A field or a token in brackets does not fit, or is missing.
    #[error("line {0}, byte {1}: this does not fit")]
    Form(u64, u64),
    /// A number is out of its range.
    #[error("line {0}, byte {1}: this number is out of its range")]
    Number(u64, u64),
    /// The line has more bytes than a line may have.
    #[error("line {0} is too long")]
    TooLong(u64),
    /// The line holds the first byte that the log has too many.
    #[error("line {0} makes the log too long")]
    LogTooLong(u64),
    /// Deletions are not built.
    #[error("line {0} is a deletion")]
    NotBuilt(u64),
}

/// Why a reader gives no line.
#[derive(Clone, Copy, Debug, PartialEq, Eq, Error)]
pub enum LineFault {
    /// The next line is refused, or an earlier one was.
    #[error("{0}")]
    Refused(LineRefusal),
    /// An allocation was refused.
    #[error("out of memory")]
    Memory,
}

impl From<Memory> for LineFault {
    ghost from_gives = { λ _ fault. fault ≡ WantingLine };

    fn from(_refused: Memory) -> LineFault {
        LineFault::Memory
    }
}

/// What is wrong with a line, and at which byte.
#[derive(Clone, Copy, Debug, PartialEq, Eq)]
pub enum Flaw {
    Form(u64),
    Number(u64),
    NotBuilt,
}

/// Why no line is made of words.
#[derive(Clone, Copy, Debug, PartialEq, Eq)]
pub enum Fault {
    Flawed(Flaw),
    Memory,
}

impl From<Flaw> for Fault {
    ghost from_gives = { λ flaw fault. fault ≡ Flawed flaw };

    fn from(flaw: Flaw) -> Fault {
        Fault::Flawed(flaw)
    }
}

impl From<AllocError> for Fault {
    ghost from_gives = { λ _ fault. fault ≡ Wanting };

    fn from(_refused: AllocError) -> Fault {
        Fault::Memory
    }
}

impl<T: Drop> From<AllocFailed<T>> for Fault {
    ghost from_gives = { λ _ fault. fault ≡ Wanting };

    fn from(_refused: AllocFailed<T>) -> Fault {
        Fault::Memory
    }
}
