//! Whole models.

ghost use Rattle.std.specs.Prelude.{◌≡◌, length};
ghost use Rattle.dp_grammar.specs.Chain.{mapped};
ghost use Rattle.fz_token.specs.Stream.{stream};
ghost use Rattle.fz_model.specs.Models.{model_of};
ghost use Rattle.fz_model.specs.ModelText.{model, model_words};
ghost use Rattle.fz_model.specs.Words.{words};
ghost use Rattle.fz_items.specs.Answers as answers;
ghost use Rattle.fz_items.specs.Answers.{Answers, answered, place_of};
ghost use Rattle.fz_items.specs.Gives.{Gives};
ghost use Rattle.fz_items.specs.Wholes.{plan_of};

use crate::items::items;
use crate::refusal::ModelRefusal;
use crate::refused::token_refusal;
use crate::rest::constraints_and_goal;
use crate::source::Source;
use crate::stop::{Cause, Stop};
use fz_model::{Constraint, Item, Model, ModelGoal};
use std::alloc::Global;

/// The most bytes of a text.
const MAX_BYTES: usize = 67_108_864;

/// What is declared, what is required, and what is asked for.
#[derive(Debug, Drop)]
pub struct Parts {
    pub items: Vec<Item>,
    pub constraints: Vec<Constraint>,
    pub goal: ModelGoal,
}

/// The parts of the model that comes.
fn read_parts(alloc: Global, source: &mut Source) -> Result<Parts, Stop>
    ensures reads { Gives plan_of (mapped model_of (model.read source.old.left)) result source.new.left }
    ensures text { source.new.text ≡ source.old.text }
{
    let (mut names, items) = items(alloc, source)?.into_parts();
    let (constraints, goal) = constraints_and_goal(alloc, source, &mut names)?;
    Ok(Parts {
        items,
        constraints,
        goal,
    })
}

/// The model of a text of any length, or its first refusal.
fn whole(alloc: Global, text: &[u8]) -> Result<Model, ModelRefusal>
    ensures { answers.Gives (answered (length text.now) (stream text.now) (model_words (words text.now (stream text.now).tokens))) result }
{
    let mut source = Source::new(text);
    match read_parts(alloc, &mut source) {
        Ok(parts) => {
            if source.word().is_some() {
                return Err(source.refusal(Cause::Syntax));
            }
            match source.place() {
                Ok(_) => Ok(Model::new(parts.items, parts.constraints, parts.goal)),
                Err(refusal) => Err(token_refusal(refusal)),
            }
        }
        Err(Stop::Refused(cause)) => Err(source.refusal(cause)),
        Err(Stop::Memory) => Err(ModelRefusal::Memory),
    }
}

impl ModelRefusal {
    /// The place of the refusal in bytes from 0.
    fn place(self) -> usize
        ensures { result ≡ place_of self }
    {
        match self {
            ModelRefusal::BadByte(at)
            | ModelRefusal::Number(at)
            | ModelRefusal::OpenString(at)
            | ModelRefusal::Unsupported(at)
            | ModelRefusal::Syntax(at)
            | ModelRefusal::Unbounded(at)
            | ModelRefusal::Unknown(at)
            | ModelRefusal::Declared(at)
            | ModelRefusal::Kind(at)
            | ModelRefusal::Limit(at) => at,
            ModelRefusal::Memory => 0,
        }
    }
}

/// The model of the text, or its first refusal. A text of more than 64 MiB is refused at the first byte too many, unless
/// it is refused before.
pub fn read_model(alloc: Global, text: &[u8]) -> Result<Model, ModelRefusal>
    ensures { Answers text.now result }
{
    let answer = whole(alloc, text);
    if text.len() <= MAX_BYTES {
        return answer;
    }
    match answer {
        Err(ModelRefusal::Memory) => Err(ModelRefusal::Memory),
        Err(refusal) if refusal.place() <= MAX_BYTES => Err(refusal),
        _ => Err(ModelRefusal::Limit(MAX_BYTES)),
    }
}
