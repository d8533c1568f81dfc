// The turns of a run, as the engine takes them, and the marks of the states before them.

ghost use Rattle.std.specs.Prelude.{◌≡◌, ◌++◌, ◌<◌, length, map, IfOk, OnOk};
ghost use Rattle.dp_engine.specs.Engines.{Extends, KeepsParts, parts_of, states};
ghost use Rattle.dp_engine.specs.Runs.{run, run_end};
ghost use Rattle.dp_engine.specs.Turns.{applied, turn_at};
ghost use Rattle.dp_parts.specs.Problems.{IsProblem};
ghost use Rattle.dp_justify.specs.Taking.{IsTrail, end_of_run, noted, seen, seen_among};

use crate::PartId;
use dp_domain::{Atom, Memory, Steps};
use dp_engine::{Engine, Turn};
use std::marker::Brand;
use std::sync::ledger::{Blank, Ledger};

/// A turn of a run: the engine's mark of the state before it, the part that gives it, and its atom; none
/// where the part clashes.
#[derive(Debug, Drop)]
pub struct RunTurn {
    pub mark: usize,
    pub source: PartId,
    pub target: Option<Atom>,
}

/// The turns of the run from the engine's state, and the turn at its end. The engine keeps the state
/// before each turn on its trail.
pub(crate) fn run_turns(engine: &mut Engine) -> Result<(Vec<RunTurn>, Turn), Memory>
    requires { IsProblem engine.old.problem }
    ensures parts { KeepsParts engine.old engine.new }
    ensures turns { IfOk result (λ found. map (seen_among (states engine.new)) found.0.items ≡ map seen (run (parts_of engine.old) engine.old.present)) }
    ensures trail { IfOk result (λ found. IsTrail (states engine.new) found.0.items) }
    ensures end { IfOk result (λ found. found.1 ≡ run_end (parts_of engine.old) engine.old.present) }
{
    counted_turns::<Brand>(engine, Blank::new(1))
}

/// The same, by a counter of this ledger.
fn counted_turns<L: Ledger>(
    engine: &mut Engine,
    blank: Blank,
) -> Result<(Vec<RunTurn>, Turn), Memory>
    requires problem { IsProblem engine.old.problem }
    requires name { blank.name ≡ L.name }
    requires parts { blank.parts ≡ L.parts }
    requires some { 0 < blank.parts }
    ensures parts { KeepsParts engine.old engine.new }
    ensures turns { IfOk result (λ found. map (seen_among (states engine.new)) found.0.items ≡ map seen (run (parts_of engine.old) engine.old.present)) }
    ensures trail { IfOk result (λ found. IsTrail (states engine.new) found.0.items) }
    ensures end { IfOk result (λ found. found.1 ≡ run_end (parts_of engine.old) engine.old.present) }
{
    let mut steps = Steps::<L>::new(blank);
    let mut turns = Vec::new(engine.state().allocator());
    loop {
        let end = take_turn(engine, &mut turns, &mut steps)?;
        match end {
            Some(end) => return Ok((turns, end)),
            None => {}
        }
    }
}

/// One turn more; it is answered where the run ends with it.
fn take_turn<L: Ledger>(
    engine: &mut Engine,
    turns: &mut Vec<RunTurn>,
    steps: &mut Steps<L>,
) -> Result<Option<Turn>, Memory>
    ensures parts { KeepsParts engine.old engine.new }
    ensures present { OnOk result (engine.new.present ≡ applied engine.old.present (turn_at (parts_of engine.old) engine.old.present)) }
    ensures states { Extends engine.old engine.new }
    ensures turns { OnOk result (turns.new.items ≡ turns.old.items ++ noted (length engine.old.past) (turn_at (parts_of engine.old) engine.old.present)) }
    ensures end { IfOk result (λ end. end ≡ end_of_run (turn_at (parts_of engine.old) engine.old.present)) }
{
    let mark = engine.mark();
    let turn = engine.step(steps)?;
    push_turn(turns, mark, &turn)?;
    Ok(end_of_run(turn))
}

/// The turn, where a run ends with it.
fn end_of_run(turn: Turn) -> Option<Turn>
    ensures { result ≡ end_of_run turn }
{
    match turn {
        Turn::Atom(_, _) => None,
        Turn::Clash(source) => Some(Turn::Clash(source)),
        Turn::Quiet => Some(Turn::Quiet),
        Turn::Empty => Some(Turn::Empty),
    }
}

/// The turn that was taken at the state at the mark, after those before it.
fn push_turn(turns: &mut Vec<RunTurn>, mark: usize, turn: &Turn) -> Result<(), Memory>
    ensures { OnOk result (turns.new.items ≡ turns.old.items ++ noted mark turn.now) }
{
    match turn {
        Turn::Atom(source, atom) => {
            turns.push(RunTurn {
                mark,
                source: *source,
                target: Some(*atom),
            })?;
            Ok(())
        }
        Turn::Clash(source) => {
            turns.push(RunTurn {
                mark,
                source: *source,
                target: None,
            })?;
            Ok(())
        }
        Turn::Quiet | Turn::Empty => Ok(()),
    }
}
