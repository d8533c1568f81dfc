// Replies, with their texts and statuses.

ghost use Rattle.std.specs.Prelude.{◌≡◌, ◌++◌, ◌∷◌, [], IfOk, OnOk, Some, codes};
ghost use Rattle.std.specs.Fmt.{decimal};
ghost use Rattle.fz_items.specs.Answers.{place_of};
ghost use Rattle.dp_command.specs.Texts as texts;
ghost use Rattle.std.specs.Option.{option_map};

use crate::generate::{Family, family_text};
use crate::outcome::{File, Outcome};
use crate::proving::Proving;
use dp_base::{Memory, Name, Text};
use dp_checker::{StepRefusal, Why};
use dp_domain::Op;
use dp_lines::{LineRefusal, push_atom_text};
use dp_show::{Refusal, Shown};
use fz_items::ModelRefusal;
use std::alloc::Global;

/// What an accepted log concludes.
#[derive(Debug, Drop)]
pub(crate) enum Claim {
    /// No assignment satisfies the model.
    Unsat,
    /// No assignment beats this bound on the goal's variable.
    Bound { name: Name, op: Op, value: i64 },
}

/// What the program says where nothing fails.
#[derive(Debug, Drop)]
pub(crate) enum Reply {
    /// The words are no command.
    NoCommand,
    /// The text of the model is refused.
    ModelRefused(ModelRefusal),
    /// The log is accepted, and concludes this.
    Accepted(Claim),
    /// A line of the log could not be read.
    Unread(LineRefusal),
    /// A test refuses a line of the log, which is spelled so; or the log has no conclusion.
    Refused(StepRefusal, Option<Text>),
    /// This is shown of the log.
    Shown(Shown),
    /// This becomes of the scaffold.
    Processed(Outcome),
    /// Proving the model ends so.
    Proved(Proving),
    /// This is generated.
    Generated(Family),
}

impl Reply {
    /// The status that the program ends with.
    pub(crate) fn status(&self) -> u8
        ensures { result ≡ texts.status_of self.now }
    {
        match self {
            Reply::NoCommand => 2,
            Reply::ModelRefused(_) => 3,
            Reply::Accepted(_) | Reply::Generated(_) => 0,
            Reply::Unread(_) | Reply::Refused(..) => 1,
            Reply::Shown(shown) => shown_status(shown),
            Reply::Processed(outcome) => outcome.status(),
            Reply::Proved(proving) => proving.status(),
        }
    }

    /// The text that is printed.
    pub(crate) fn text(&self, alloc: Global) -> Result<Vec<u8>, Memory>
        ensures { IfOk result (λ text. text.items ≡ texts.text_of self.now) }
    {
        match self {
            Reply::NoCommand => Ok(b"words not understood\n".to_vec(alloc)?),
            Reply::ModelRefused(refusal) => model_refusal(alloc, *refusal),
            Reply::Accepted(claim) => accepted(alloc, claim),
            Reply::Unread(refusal) => unread(alloc, *refusal),
            Reply::Refused(refusal, text) => refused(alloc, *refusal, text),
            Reply::Shown(shown) => shown_text(alloc, shown),
            Reply::Processed(outcome) => outcome.text(alloc),
            Reply::Proved(proving) => proving.text(alloc),
            Reply::Generated(family) => family_text(alloc, family),
        }
    }

    /// What is to be written to the first file.
    pub(crate) fn first(&self) -> Option<&File>
        ensures { option_map (λ file. file.now.text) result ≡ texts.first_of self.now }
    {
        match self {
            Reply::NoCommand
            | Reply::ModelRefused(_)
            | Reply::Accepted(_)
            | Reply::Unread(_)
            | Reply::Refused(..)
            | Reply::Shown(_)
            | Reply::Proved(_) => None,
            Reply::Processed(outcome) => outcome.file(),
            Reply::Generated(family) => Some(&family.model),
        }
    }

    /// What is to be written to the second file.
    pub(crate) fn second(&self) -> Option<&File>
        ensures { option_map (λ file. file.now.text) result ≡ texts.second_of self.now }
    {
        match self {
            Reply::NoCommand
            | Reply::ModelRefused(_)
            | Reply::Accepted(_)
            | Reply::Unread(_)
            | Reply::Refused(..)
            | Reply::Shown(_)
            | Reply::Processed(_)
            | Reply::Proved(_) => None,
            Reply::Generated(family) => Some(&family.scaffold),
        }
    }
}

// The line that tells a refused model.
fn model_refusal(alloc: Global, refusal: ModelRefusal) -> Result<Vec<u8>, Memory>
    ensures { IfOk result (λ text. text.items ≡ texts.model_refusal refusal) }
{
    model_refused(alloc, model_word(refusal), place_of(refusal))
}

fn model_refused(alloc: Global, word: &str, at: usize) -> Result<Vec<u8>, Memory>
    ensures { IfOk result (λ text. text.items ≡ texts.model_refused word.now at) }
{
    let mut text = b"model refused: ".to_vec(alloc)?;
    push_place(&mut text, word, at)?;
    Ok(text)
}

// The name and the place of a refusal of a model.
fn push_place(text: &mut Vec<u8>, word: &str, at: usize) -> Result<(), Memory>
    ensures { OnOk result (text.new.items ≡ text.old.items ++ (word.now ++ (codes " at byte " ++ (decimal at ++ 10 ∷ [])))) }
{
    let alloc = *text.allocator();
    let place = format!(in alloc; "{word} at byte {at}\n")?;
    text.extend_from_slice(place.as_bytes())?;
    Ok(())
}

// The name of a refusal of a model.
fn model_word(refusal: ModelRefusal) -> &'static str
    ensures { result.now ≡ texts.model_word refusal }
{
    match refusal {
        ModelRefusal::BadByte(_) => "BadByte",
        ModelRefusal::Number(_) => "Number",
        ModelRefusal::OpenString(_) => "OpenString",
        ModelRefusal::Unsupported(_) => "Unsupported",
        ModelRefusal::Syntax(_) => "Syntax",
        ModelRefusal::Unbounded(_) => "Unbounded",
        ModelRefusal::Unknown(_) => "Unknown",
        ModelRefusal::Declared(_) => "Declared",
        ModelRefusal::Kind(_) => "Kind",
        ModelRefusal::Limit(_) => "Limit",
        ModelRefusal::Memory => "",
    }
}

// The place of a refusal of a model.
fn place_of(refusal: ModelRefusal) -> usize
    ensures { result ≡ place_of refusal }
{
    match refusal {
        ModelRefusal::BadByte(at)
        | ModelRefusal::Number(at)
        | ModelRefusal::OpenString(at)
        | ModelRefusal::Unsupported(at)
        | ModelRefusal::Syntax(at)
        | ModelRefusal::Unbounded(at)
        | ModelRefusal::Unknown(at)
        | ModelRefusal::Declared(at)
        | ModelRefusal::Kind(at)
        | ModelRefusal::Limit(at) => at,
        ModelRefusal::Memory => 0,
    }
}

/// The line that tells an accepted log.
pub(crate) fn accepted(alloc: Global, claim: &Claim) -> Result<Vec<u8>, Memory>
    ensures { IfOk result (λ text. text.items ≡ texts.accepted_line claim.now) }
{
    let mut text = b"accepted: ".to_vec(alloc)?;
    push_claim(&mut text, claim)?;
    text.push(b'\n')?;
    Ok(text)
}

/// Appends what is concluded.
pub(crate) fn push_claim(text: &mut Vec<u8>, claim: &Claim) -> Result<(), Memory>
    ensures { OnOk result (text.new.items ≡ text.old.items ++ texts.claim_words claim.now) }
{
    match claim {
        Claim::Unsat => {
            text.extend_from_slice(b"UNSAT")?;
            Ok(())
        }
        Claim::Bound { name, op, value } => push_atom_text(text, name.bytes(), *op, *value),
    }
}

/// The line that tells a line that could not be read.
pub(crate) fn unread(alloc: Global, refusal: LineRefusal) -> Result<Vec<u8>, Memory>
    ensures { IfOk result (λ text. text.items ≡ texts.unread_text refusal) }
{
    match refusal {
        LineRefusal::Form(line, byte) => refused_at(alloc, "Form", line, byte),
        LineRefusal::Number(line, byte) => refused_at(alloc, "Number", line, byte),
        LineRefusal::TooLong(line) => refused_line(alloc, "TooLong", line),
        LineRefusal::LogTooLong(line) => refused_line(alloc, "LogTooLong", line),
        LineRefusal::NotBuilt(line) => refused_line(alloc, "NotBuilt", line),
    }
}

fn refused_at(alloc: Global, name: &str, line: u64, byte: u64) -> Result<Vec<u8>, Memory>
    ensures { IfOk result (λ text. text.items ≡ texts.refused_at name.now line byte) }
{
    let text = format!(in alloc; "refused: {name} at line {line} byte {byte}\n")?;
    Ok(text.into_bytes())
}

/// The line that tells a refusal by its name, and the number of the refused line.
pub(crate) fn refused_line(alloc: Global, name: &str, line: u64) -> Result<Vec<u8>, Memory>
    ensures { IfOk result (λ text. text.items ≡ texts.line (texts.refused_words name.now line)) }
{
    let text = format!(in alloc; "refused: {name} at line {line}\n")?;
    Ok(text.into_bytes())
}

/// The text where a test refuses a line, or where there is no conclusion.
pub(crate) fn refused(
    alloc: Global,
    refusal: StepRefusal,
    told: &Option<Text>,
) -> Result<Vec<u8>, Memory>
    ensures { IfOk result (λ text. text.items ≡ texts.refused_text refusal told.now) }
{
    match told {
        Some(line) => refused_with(alloc, refusal, line),
        None => refusal_line(alloc, refusal),
    }
}

// The text where a test refuses a line, with the line behind it.
fn refused_with(alloc: Global, refusal: StepRefusal, line: &Text) -> Result<Vec<u8>, Memory>
    ensures { IfOk result (λ text. text.items ≡ texts.refused_text refusal (Some line.now)) }
{
    let mut text = refusal_line(alloc, refusal)?;
    text.extend_from_slice(line.bytes())?;
    Ok(text)
}

// The line that tells which test refuses which line.
fn refusal_line(alloc: Global, refusal: StepRefusal) -> Result<Vec<u8>, Memory>
    ensures { IfOk result (λ text. text.items ≡ texts.line (texts.refused_words (texts.why_words refusal.why) refusal.line)) }
{
    let line = refusal.line;
    match refusal.why {
        Why::UnknownAtom(literal) => {
            let text = format!(in alloc; "refused: UnknownAtom {literal} at line {line}\n")?;
            Ok(text.into_bytes())
        }
        Why::UnknownStep(hint) => {
            let text = format!(in alloc; "refused: UnknownStep {hint} at line {line}\n")?;
            Ok(text.into_bytes())
        }
        Why::AfterConclusion => refused_line(alloc, "AfterConclusion", line),
        Why::UnknownVar => refused_line(alloc, "UnknownVar", line),
        Why::AtomTwice => refused_line(alloc, "AtomTwice", line),
        Why::StepTwice => refused_line(alloc, "StepTwice", line),
        Why::UnknownConstraint => refused_line(alloc, "UnknownConstraint", line),
        Why::WrongLabel => refused_line(alloc, "WrongLabel", line),
        Why::NotImplied => refused_line(alloc, "NotImplied", line),
        Why::NoClash => refused_line(alloc, "NoClash", line),
        Why::NoGoal => refused_line(alloc, "NoGoal", line),
        Why::WrongBound => refused_line(alloc, "WrongBound", line),
        Why::NotConcluded => refused_line(alloc, "NotConcluded", line),
        Why::NoConclusion => refused_line(alloc, "NoConclusion", line),
    }
}

// Whether all of a log is shown.
fn shown_status(shown: &Shown) -> u8
    ensures { result ≡ texts.shown_status shown.now.refusal }
{
    match shown.refusal {
        None => 0,
        Some(_) => 1,
    }
}

// The steps that are shown, and the refusal that ends them.
fn shown_text(alloc: Global, shown: &Shown) -> Result<Vec<u8>, Memory>
    ensures { IfOk result (λ text. text.items ≡ texts.shown_text shown.now) }
{
    let mut text = shown.steps.bytes().to_vec(alloc)?;
    if let Some(refusal) = &shown.refusal {
        let end = shown_refusal(alloc, refusal)?;
        text.extend_from_slice(end.as_slice())?;
    }
    Ok(text)
}

// The text of the refusal that ends what is shown.
fn shown_refusal(alloc: Global, refusal: &Refusal) -> Result<Vec<u8>, Memory>
    ensures { IfOk result (λ text. text.items ≡ texts.shown_refusal (Some refusal.now)) }
{
    match refusal {
        Refusal::Unread(refusal) => unread(alloc, *refusal),
        Refusal::Refused(refusal, line) => refused_with(alloc, *refusal, line),
    }
}
