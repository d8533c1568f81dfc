//! Assignments judged by the text of a model.

ghost use Rattle.std.specs.Prelude.{◌≡◌};
ghost use Rattle.dp_vectors.specs.Judgements.{Judges, JudgesText};

use dp_base::Assignment;
use fz_items::{ModelRefusal, read_model};
use fz_model::Model;
use fz_sat::{objective, satisfies, variable_count};
use std::alloc::Global;

/// What an assignment is to a model.
#[derive(Clone, Copy, Debug, PartialEq, Eq)]
pub enum Judgement {
    /// The model has so many variables, and the assignment has another number of values.
    WrongCount(usize),
    /// Whether the assignment satisfies the model, and the value of the objective, if the model has one.
    Judged {
        satisfied: bool,
        objective: Option<i64>,
    },
}

/// What these values, one for each variable that is not an alias, in order of declaration, are to the model that the text
/// spells, or the first refusal of the text.
pub fn judge_assignment(
    alloc: Global,
    text: &[u8],
    values: &[i64],
) -> Result<Judgement, ModelRefusal>
    ensures { JudgesText text.now values.now result }
{
    let model = read_model(alloc, text)?;
    let Ok(values) = values.to_vec(alloc) else {
        return Err(ModelRefusal::Memory);
    };
    Ok(judged(&model, &Assignment::new(values)))
}

/// What the assignment is to the model.
fn judged(model: &Model, assignment: &Assignment) -> Judgement
    ensures { Judges model.now assignment.now result }
{
    let count = variable_count(model);
    if assignment.values().len() != count {
        return Judgement::WrongCount(count);
    }
    Judgement::Judged {
        satisfied: satisfies(model, assignment),
        objective: objective(model, assignment),
    }
}
