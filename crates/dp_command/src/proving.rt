// What proving a model ends with, with its texts.

ghost use Rattle.std.specs.Prelude.{◌≡◌, ◌++◌, IfOk};
ghost use Rattle.dp_command.specs.Texts as texts;

use crate::outcome::{self, failing_line};
use crate::reply::{self, Claim, accepted, unread};
use dp_base::{Memory, Text};
use dp_checker::StepRefusal;
use dp_lines::LineRefusal;
use dp_scaffold::ScaffoldRefusal;
use std::alloc::Global;

/// What proving a model ends with.
#[derive(Debug, Drop)]
pub(crate) enum Proving {
    /// This is the text of an outcome that claims nothing.
    Solved(Text),
    /// This is the text where the most nogoods were learned.
    Unknown(Text),
    /// This is the text of an outcome, and this of what it claims is accepted.
    Accepted(Text, Claim),
    /// A line of the scaffold or of the log could not be read.
    Unread(LineRefusal),
    /// A test refuses a line of the scaffold, which is spelled so.
    ScaffoldRefused(ScaffoldRefusal, Option<Text>),
    /// The nogood on this line with this number does not follow.
    NotFollowing(u64, u64),
    /// A test refuses a line of the log, which is spelled so.
    LogRefused(StepRefusal, Option<Text>),
}

impl Proving {
    /// The status that the program ends with.
    pub(crate) fn status(&self) -> u8
        ensures { result ≡ texts.proving_status self.now }
    {
        match self {
            Proving::Solved(_) | Proving::Accepted(..) => 0,
            Proving::Unknown(_) => 4,
            Proving::Unread(_)
            | Proving::ScaffoldRefused(..)
            | Proving::NotFollowing(..)
            | Proving::LogRefused(..) => 1,
        }
    }

    /// The text that is printed.
    pub(crate) fn text(&self, alloc: Global) -> Result<Vec<u8>, Memory>
        ensures { IfOk result (λ text. text.items ≡ texts.proving_text self.now) }
    {
        match self {
            Proving::Solved(text) | Proving::Unknown(text) => Ok(text.bytes().to_vec(alloc)?),
            Proving::Accepted(text, claim) => accepted_behind(alloc, text, claim),
            Proving::Unread(refusal) => unread(alloc, *refusal),
            Proving::ScaffoldRefused(refusal, text) => outcome::refused(alloc, *refusal, text),
            Proving::NotFollowing(line, id) => failing_line(alloc, *id, *line),
            Proving::LogRefused(refusal, text) => reply::refused(alloc, *refusal, text),
        }
    }
}

// The text of an outcome, and the line of what is accepted.
fn accepted_behind(alloc: Global, text: &Text, claim: &Claim) -> Result<Vec<u8>, Memory>
    ensures { IfOk result (λ told. told.items ≡ text.now ++ texts.accepted_line claim.now) }
{
    let mut told = text.bytes().to_vec(alloc)?;
    let line = accepted(alloc, claim)?;
    told.extend_from_slice(line.as_slice())?;
    Ok(told)
}
