// What is printed of an outcome.

ghost use Rattle.std.specs.Prelude.{◌≡◌, ◌++◌, IfOk};
ghost use Rattle.dp_solver.specs.declared.outcome.Outcome.TheVariants.{Unknown};
ghost use Rattle.fz_output.specs.Output as lines;
ghost use Rattle.fz_sat.specs.Satisfies.{valuation};
ghost use Rattle.fz_solve.specs.Printed as spec;

use dp_base::{Assignment, Memory};
use dp_solver::Outcome;
use fz_model::Model;
use fz_output::solution_lines;
use std::alloc::Global;

/// The text of an outcome of the model.
pub fn outcome_text(alloc: Global, model: &Model, outcome: &Outcome) -> Result<Vec<u8>, Memory>
    ensures { IfOk result (λ text. text.items ≡ spec.outcome_text model.now outcome.now) }
{
    match outcome {
        Outcome::Solution(values) => solution_text(alloc, model, values, b"----------\n"),
        Outcome::Unsat => Ok(b"=====UNSATISFIABLE=====\n".to_vec(alloc)?),
        Outcome::Optimal(values, _) => {
            solution_text(alloc, model, values, b"----------\n==========\n")
        }
        Outcome::Unknown(best) => unknown_text(alloc, model, best),
    }
}

// The text where the most nogoods were learned.
fn unknown_text(alloc: Global, model: &Model, best: &Option<Assignment>) -> Result<Vec<u8>, Memory>
    ensures { IfOk result (λ text. text.items ≡ spec.outcome_text model.now (Unknown best.now)) }
{
    match best {
        Some(values) => solution_text(alloc, model, values, b"----------\n"),
        None => Ok(b"=====UNKNOWN=====\n".to_vec(alloc)?),
    }
}

// The lines of a solution, and the marks behind them.
fn solution_text(
    alloc: Global,
    model: &Model,
    values: &Assignment,
    marks: &[u8],
) -> Result<Vec<u8>, Memory>
    ensures { IfOk result (λ text. text.items ≡ lines.solution_lines model.now (valuation values.now) ++ marks.now) }
{
    let lines = solution_lines(alloc, model, values)?;
    let mut text = lines.bytes().to_vec(alloc)?;
    text.extend_from_slice(marks)?;
    Ok(text)
}

/// The status of an outcome: 4 where the most nogoods were learned.
pub fn outcome_status(outcome: &Outcome) -> u8
    ensures { result ≡ spec.outcome_status outcome.now }
{
    match outcome {
        Outcome::Solution(_) | Outcome::Unsat | Outcome::Optimal(..) => 0,
        Outcome::Unknown(_) => 4,
    }
}
