// Reading a model and making its problem.

ghost use Rattle.std.specs.Prelude.{◌≡◌, IfOk};
ghost use Rattle.dp_desk.specs.Channel.{IsAtEnd};
ghost use Rattle.dp_desk.specs.Sight.{with_input};
ghost use Rattle.dp_command.specs.Inputs.{HasReadCause};
ghost use Rattle.dp_command.specs.Found.{IsFound, IsFoundIn, IsProblemFound, IsProblemOf};

use crate::Trouble;
use crate::reading::{MOST_OF_MODEL, read_whole};
use dp_base::Memory;
use dp_desk::{Desk, In};
use dp_lower::lower;
use dp_parts::Problem;
use fz_items::{ModelRefusal, read_model};
use fz_model::Model;
use std::alloc::Global;

/// What is found where a model is read.
#[derive(Drop)]
pub(crate) enum Found {
    /// The model and its problem.
    Problem(Model, Problem),
    /// Its text is refused.
    Refusal(ModelRefusal),
}

/// Reads a model, and makes its problem.
pub(crate) fn read_problem<D: Desk>(
    alloc: Global,
    name: &str,
    desk: &mut D,
) -> Result<Found, Trouble>
    ensures read { IfOk result (IsFound (D.sight desk.old).names name.now) }
    ensures ended { IfOk result (λ found. IsProblemFound found → IsAtEnd (D.sight desk.new).model) }
    ensures rest { D.sight desk.new ≡ with_input In.Model (D.sight desk.new).model (D.sight desk.old) }
    ensures cause { HasReadCause (D.faults_in desk.old) (D.faults_in desk.new) result }
    ensures other { D.faults_out desk.new ≡ D.faults_out desk.old }
{
    let text = read_whole(alloc, desk, In::Model, name, MOST_OF_MODEL)?;
    Ok(find_problem(alloc, text.as_slice())?)
}

// The model that the text spells, with its problem.
fn find_problem(alloc: Global, text: &[u8]) -> Result<Found, Memory>
    ensures found { IfOk result (IsFoundIn text.now) }
{
    match read_model(alloc, text) {
        Ok(model) => {
            let problem = problem_of(alloc, &model)?;
            Ok(Found::Problem(model, problem))
        }
        Err(ModelRefusal::Memory) => Err(Memory),
        Err(refusal) => Ok(Found::Refusal(refusal)),
    }
}

// The problem of the model, and what it says of the model.
fn problem_of(alloc: Global, model: &Model) -> Result<Problem, Memory>
    ensures { IfOk result (IsProblemOf model.now) }
{
    // What a model and a problem keep is known by a look at them.
    let _goal = model.goal();
    let problem = lower(alloc, model)?;
    let _aim = problem.goal();
    Ok(problem)
}
