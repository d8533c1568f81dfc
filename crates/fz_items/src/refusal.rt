//! Why a text is no model, and why a word is refused.

use thiserror::Error;

/// The first refusal of a text, and its place in bytes from 0. Of several at one place the first of these counts,
/// but what is `Unsupported` comes before `Syntax`.
#[derive(Clone, Copy, Debug, PartialEq, Eq, Error)]
pub enum ModelRefusal {
    /// No token begins with the byte there.
    #[error("byte {0}: no token begins here")]
    BadByte(usize),
    /// An integer begins there that is beyond 10^18, or has no digit after `0x` or `0o`.
    #[error("byte {0}: the integer is too large or has no digits")]
    Number(usize),
    /// The quote there opens a string that its line does not close.
    #[error("byte {0}: the string is not closed on its line")]
    OpenString(usize),
    /// The token there is not of the integer profile, or names a constraint or a goal that has no meaning there.
    #[error("byte {0}: this is not supported")]
    Unsupported(usize),
    /// No model has the token there, or the text ends too early.
    #[error("byte {0}: no model has this here")]
    Syntax(usize),
    /// The `;` there ends an integer variable without bounds and without a definition.
    #[error("byte {0}: the variable has no bounds")]
    Unbounded(usize),
    /// The name there is not declared.
    #[error("byte {0}: the name is not declared")]
    Unknown(usize),
    /// The name there is declared a second time.
    #[error("byte {0}: the name is declared twice")]
    Declared(usize),
    /// What stands there is of another kind or size than is wanted.
    #[error("byte {0}: this is of another kind or size than is wanted")]
    Kind(usize),
    /// What stands there is beyond a limit.
    #[error("byte {0}: this is beyond a limit")]
    Limit(usize),
    /// There was no memory to read on.
    #[error("out of memory")]
    Memory,
}
