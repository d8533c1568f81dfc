// The way down: decisions until a conflict, or until each variable has one value.

ghost use Rattle.std.specs.Prelude.{◌≡◌, IfOk, OnOk, IfSome};
ghost use Rattle.dp_engine.specs.Engines.{Extends, KeepsParts};
ghost use Rattle.dp_learning.specs.Learning.{denial_of};
ghost use Rattle.dp_parts.specs.Problems.{Csp};
ghost use Rattle.dp_solver.specs.Descents.{IsDescending, IsDescent, IsLess, IsLevel};
ghost use Rattle.dp_solver.specs.Rounds.{IsBest, claim_of};
ghost use Rattle.dp_solver.specs.Marks.{IsOn, asked};

use crate::best::denial;
use crate::decision::decision;
use crate::rest::{propagate, run_to_rest};
use crate::task::{Best, Task};
use dp_base::Memory;
use dp_domain::Atom;
use dp_engine::Engine;

/// Where the way down ends.
#[derive(Drop)]
pub(crate) enum Descent {
    /// Propagation fails before the first decision.
    Refuted,
    /// Propagation rests, and each variable has one value.
    Fixed,
    /// Propagation fails under these atoms, of which the last is the last decision.
    Conflict(Vec<Atom>),
}

/// Where one decision leads.
#[derive(Drop)]
pub(crate) enum Level {
    /// There is none: each variable has one value.
    Fixed,
    /// Propagation fails.
    Failed,
    /// Propagation rests.
    Rests,
}

/// Goes down from the initial domains, under the denial of what is still to be shown.
pub(crate) fn descend(
    task: &Task,
    engine: &mut Engine,
    root: usize,
    best: &Option<Best>,
) -> Result<Descent, Memory>
    requires engine { IsOn (asked task.now) root engine.old }
    requires best { IfSome best.now (IsBest (asked task.now)) }
    ensures descent { IfOk result (IsDescent (asked task.now) engine.old.nogoods (denial_of (claim_of best.now)) engine.new.present) }
    ensures engine { OnOk result (IsOn (asked task.now) root engine.new) }
    ensures nogoods { engine.new.nogoods ≡ engine.old.nogoods }
{
    let under = denial(task, best)?;
    if propagate(engine, root, under.as_slice())? {
        Ok(Descent::Refuted)
    } else {
        go_down(engine, under)
    }
}

/// Decides until the way down ends.
fn go_down(engine: &mut Engine, mut atoms: Vec<Atom>) -> Result<Descent, Memory>
    ensures descent { (p : Csp) → IsDescending p atoms.items engine.old → IfOk result (IsDescent p engine.old.nogoods atoms.items engine.new.present) }
    ensures parts { KeepsParts engine.old engine.new }
    ensures states { Extends engine.old engine.new }
{
    loop {
        let level = decide(engine, &mut atoms)?;
        match level {
            Level::Fixed => return Ok(Descent::Fixed),
            Level::Failed => return Ok(Descent::Conflict(atoms)),
            Level::Rests => {}
        }
    }
}

/// One decision more.
fn decide(engine: &mut Engine, atoms: &mut Vec<Atom>) -> Result<Level, Memory>
    ensures level { (p : Csp) → IsDescending p atoms.old.items engine.old → IfOk result (IsLevel p engine.old atoms.new.items engine.new) }
    ensures less { IfOk result (IsLess engine.old.present engine.new.present) }
    ensures parts { KeepsParts engine.old engine.new }
    ensures states { Extends engine.old engine.new }
{
    match decision(engine.state()) {
        None => Ok(Level::Fixed),
        Some(atom) => {
            atoms.push(atom)?;
            engine.assume(&[atom])?;
            if run_to_rest(engine)? {
                Ok(Level::Failed)
            } else {
                Ok(Level::Rests)
            }
        }
    }
}
