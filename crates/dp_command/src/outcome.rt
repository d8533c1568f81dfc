// What becomes of a scaffold, with its texts.

ghost use Rattle.std.specs.Prelude.{◌≡◌, ◌++◌, IfOk, OnOk, Some, codes};
ghost use Rattle.std.specs.Fmt.{decimal};
ghost use Rattle.std.specs.Option.{option_map};
ghost use Rattle.dp_command.specs.Texts as texts;

use crate::reply::{refused_line, unread};
use dp_base::{Memory, Text};
use dp_lines::LineRefusal;
use dp_scaffold::{GatherWhy, ScaffoldRefusal};
use std::alloc::Global;

/// A text that is to be written to a file.
#[derive(Debug, Drop)]
pub(crate) struct File {
    /// The name of the file.
    pub(crate) name: String,
    /// What is to be written.
    pub(crate) text: Text,
}

/// A processed log that is to be written to a file.
#[derive(Debug, Drop)]
pub(crate) struct Done {
    /// The log.
    pub(crate) log: File,
    /// How many of the nogoods are kept.
    pub(crate) kept: u64,
    /// How many nogoods there are, without the conclusion.
    pub(crate) nogoods: u64,
    /// How many steps are written.
    pub(crate) steps: u64,
}

/// A nogood that does not follow.
#[derive(Debug, Drop)]
pub(crate) struct Failing {
    /// The line that it stands on.
    pub(crate) line: u64,
    /// Its number; 0 for the conclusion.
    pub(crate) id: u64,
    /// The line that tells it.
    pub(crate) text: Text,
}

/// What becomes of a scaffold.
#[derive(Debug, Drop)]
pub(crate) enum Outcome {
    /// It is processed.
    Done(Done),
    /// A line could not be read.
    Unread(LineRefusal),
    /// A test refuses a line, which is spelled so; or there is no conclusion.
    Refused(ScaffoldRefusal, Option<Text>),
    /// This does not follow.
    NotFollowing(Failing),
}

impl Outcome {
    /// The status that the program ends with.
    pub(crate) fn status(&self) -> u8
        ensures { result ≡ texts.outcome_status self.now }
    {
        match self {
            Outcome::Done(_) => 0,
            Outcome::Unread(_) | Outcome::Refused(..) | Outcome::NotFollowing(_) => 1,
        }
    }

    /// The text that is printed.
    pub(crate) fn text(&self, alloc: Global) -> Result<Vec<u8>, Memory>
        ensures { IfOk result (λ text. text.items ≡ texts.outcome_text self.now) }
    {
        match self {
            Outcome::Done(done) => done_text(alloc, done),
            Outcome::Unread(refusal) => unread(alloc, *refusal),
            Outcome::Refused(refusal, text) => refused(alloc, *refusal, text),
            Outcome::NotFollowing(failing) => failing_text(alloc, failing),
        }
    }

    /// What is to be written to a file.
    pub(crate) fn file(&self) -> Option<&File>
        ensures { option_map (λ file. file.now.text) result ≡ texts.outcome_file self.now }
    {
        match self {
            Outcome::Done(done) => Some(&done.log),
            Outcome::Unread(_) | Outcome::Refused(..) | Outcome::NotFollowing(_) => None,
        }
    }
}

// The line that counts what was done.
fn done_text(alloc: Global, done: &Done) -> Result<Vec<u8>, Memory>
    ensures { IfOk result (λ text. text.items ≡ texts.done_text done.now) }
{
    let mut text = kept_text(alloc, done.kept, done.nogoods)?;
    let steps = done.steps;
    let end = format!(in alloc; " nogoods kept, {steps} steps")?;
    text.extend_from_slice(end.as_bytes())?;
    text.push(b'\n')?;
    Ok(text)
}

fn kept_text(alloc: Global, kept: u64, nogoods: u64) -> Result<Vec<u8>, Memory>
    ensures { IfOk result (λ text. text.items ≡ codes "processed: " ++ decimal kept ++ codes " of " ++ decimal nogoods) }
{
    let mut text = b"processed: ".to_vec(alloc)?;
    push_number(&mut text, kept)?;
    text.extend_from_slice(b" of ")?;
    push_number(&mut text, nogoods)?;
    Ok(text)
}

/// The number's digits at the end of a text.
pub(crate) fn push_number(text: &mut Vec<u8>, number: u64) -> Result<(), Memory>
    ensures { OnOk result (text.new.items ≡ text.old.items ++ decimal number) }
{
    let digits = format!(in *text.allocator(); "{number}")?;
    text.extend_from_slice(digits.as_bytes())?;
    Ok(())
}

/// The text where a test refuses a line, or where there is no conclusion.
pub(crate) fn refused(
    alloc: Global,
    refusal: ScaffoldRefusal,
    told: &Option<Text>,
) -> Result<Vec<u8>, Memory>
    ensures { IfOk result (λ text. text.items ≡ texts.scaffold_refused refusal told.now) }
{
    match told {
        Some(line) => refused_with(alloc, refusal, line),
        None => refusal_line(alloc, refusal),
    }
}

// The text where a test refuses a line, with the line behind it.
fn refused_with(alloc: Global, refusal: ScaffoldRefusal, line: &Text) -> Result<Vec<u8>, Memory>
    ensures { IfOk result (λ text. text.items ≡ texts.scaffold_refused refusal (Some line.now)) }
{
    let mut text = refusal_line(alloc, refusal)?;
    text.extend_from_slice(line.bytes())?;
    Ok(text)
}

// The line that tells which test refuses which line.
fn refusal_line(alloc: Global, refusal: ScaffoldRefusal) -> Result<Vec<u8>, Memory>
    ensures { IfOk result (λ text. text.items ≡ texts.line (texts.refused_words (texts.gather_words refusal.why) refusal.line)) }
{
    let line = refusal.line;
    match refusal.why {
        GatherWhy::UnknownAtom(literal) => {
            let text = format!(in alloc; "refused: UnknownAtom {literal} at line {line}\n")?;
            Ok(text.into_bytes())
        }
        GatherWhy::AfterConclusion => refused_line(alloc, "AfterConclusion", line),
        GatherWhy::UnknownVar => refused_line(alloc, "UnknownVar", line),
        GatherWhy::AtomTwice => refused_line(alloc, "AtomTwice", line),
        GatherWhy::StepTwice => refused_line(alloc, "StepTwice", line),
        GatherWhy::NoGoal => refused_line(alloc, "NoGoal", line),
        GatherWhy::WrongBound => refused_line(alloc, "WrongBound", line),
        GatherWhy::NoConclusion => refused_line(alloc, "NoConclusion", line),
        GatherWhy::TooMany => refused_line(alloc, "TooMany", line),
    }
}

// The text where a nogood does not follow.
fn failing_text(alloc: Global, failing: &Failing) -> Result<Vec<u8>, Memory>
    ensures { IfOk result (λ text. text.items ≡ texts.failing_text failing.now) }
{
    let mut text = failing_line(alloc, failing.id, failing.line)?;
    text.extend_from_slice(failing.text.bytes())?;
    Ok(text)
}

/// The line that tells by its number which nogood does not follow.
pub(crate) fn failing_line(alloc: Global, id: u64, line: u64) -> Result<Vec<u8>, Memory>
    ensures { IfOk result (λ text. text.items ≡ texts.line (texts.refused_words (texts.not_following id) line)) }
{
    let name = format!(in alloc; "NotFollowing {id}")?;
    refused_line(alloc, name.as_str(), line)
}
