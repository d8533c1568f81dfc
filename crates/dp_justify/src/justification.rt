// The justification of one nogood.

ghost use Rattle.std.specs.Prelude.{◌≡◌, ◌++◌, ◌<◌, ◌≤◌, ◌↔◌, true, None, length, map, take, IfOk, IfSome, OnOk};
ghost use Rattle.std.specs.List.{flat_map};
ghost use Rattle.dp_base.specs.Lists.{Each};
ghost use Rattle.dp_domain.specs.States.{AreOf};
ghost use Rattle.dp_engine.specs.Engines.{KeepsParts, Starts};
ghost use Rattle.dp_engine.specs.Indexes.{IsOver};
ghost use Rattle.dp_engine.specs.declared.turn.Turn.TheVariants.{Quiet};
ghost use Rattle.dp_parts.specs.Problems.{IsProblem, posed};
ghost use Rattle.dp_parts.specs.Rules.{proves};
ghost use Rattle.dp_justify.specs.Pieces.{denial_of, end_of, justification, piece_of, place_of, start_of, uses_of};
ghost use Rattle.dp_justify.specs.Replay.{Holds, SpeaksOf};

use crate::keep::kept_turns;
use crate::turns::run_turns;
use crate::{Kept, KeptTurns, PartId, Piece, Places};
use dp_domain::Memory;
use dp_engine::{Engine, Index, Turn};
use dp_parts::Problem;
use dp_rule_clause::Nogood;
use std::alloc::Global;

/// The kept turns of the run of the index's nogood at the place, by the parts of the model and the
/// nogoods before it, each with its explanation. None exactly where the run ends Quiet: then the nogood
/// does not follow. Where the run ends Empty there is nothing to keep. The engine, which is of the same
/// index, goes to the place first.
pub fn justify<'i, 'p>(
    index: &'i Index<'p>,
    engine: &mut Engine<'i, 'p>,
    place: usize,
) -> Result<Option<Piece>, Memory>
    requires over { IsOver index.now engine.old }
    requires place { place < length index.now.nogoods }
    ensures over { IsOver index.now engine.new }
    ensures justification { IfOk result (λ answer. answer ≡ justification (posed index.now.problem) index.now.nogoods place) }
    ensures quiet { IfOk result (λ answer. answer ≡ None ↔ end_of (posed index.now.problem) index.now.nogoods place ≡ Quiet) }
    ensures steps { IfOk result (λ answer. IfSome answer (λ piece. Each (Holds (posed index.now.problem) place) piece.steps)) }
    ensures variables { IfOk result (λ answer. IfSome answer (λ piece. Each (SpeaksOf index.now.problem.initial) piece.steps)) }
    ensures replay { IfOk result (λ answer. IfSome answer (λ piece. proves (start_of (posed index.now.problem) index.now.nogoods place) (map (denial_of index.now.nogoods) piece.steps) ≡ true)) }
{
    engine.go_to(index, place)?;
    justify_next(index.problem(), index.nogoods(), place, engine)
}

/// The same by an engine that starts with the nogoods before the place.
fn justify_next(
    problem: &Problem,
    nogoods: &[Nogood],
    place: usize,
    engine: &mut Engine,
) -> Result<Option<Piece>, Memory>
    requires problem { IsProblem problem.now }
    requires starts { Starts problem.now (take place nogoods.now) engine.old }
    requires place { place < length nogoods.now }
    requires nogoods { Each (AreOf problem.now.initial) nogoods.now }
    ensures parts { KeepsParts engine.old engine.new }
    ensures justification { IfOk result (λ answer. answer ≡ justification (posed problem.now) nogoods.now place) }
    ensures quiet { IfOk result (λ answer. answer ≡ None ↔ end_of (posed problem.now) nogoods.now place ≡ Quiet) }
    ensures steps { IfOk result (λ answer. IfSome answer (λ piece. Each (Holds (posed problem.now) place) piece.steps)) }
    ensures variables { IfOk result (λ answer. IfSome answer (λ piece. Each (SpeaksOf problem.now.initial) piece.steps)) }
    ensures replay { IfOk result (λ answer. IfSome answer (λ piece. proves (start_of (posed problem.now) nogoods.now place) (map (denial_of nogoods.now) piece.steps) ≡ true)) }
{
    let earlier = before(nogoods, place);
    let alloc = problem.initial().allocator();
    engine.assume(nogoods[place].atoms())?;
    let (turns, end) = run_turns(engine)?;
    match end {
        Turn::Clash(_) => {
            let steps = kept_turns(problem, earlier, engine, turns)?;
            Ok(Some(piece(alloc, steps)?))
        }
        Turn::Empty => Ok(Some(piece(alloc, Vec::new(alloc))?)),
        Turn::Atom(_, _) | Turn::Quiet => Ok(None),
    }
}

/// The nogoods before the place.
fn before(nogoods: &[Nogood], place: usize) -> &[Nogood]
    requires { place ≤ length nogoods.now }
    ensures { result.now ≡ take place nogoods.now }
{
    &nogoods[..place]
}

/// These steps, with the nogoods that they use.
fn piece(alloc: Global, steps: Vec<Kept>) -> Result<Piece, Memory>
    ensures { IfOk result (λ piece. piece ≡ piece_of steps.items) }
{
    let uses = uses(alloc, steps.as_slice())?;
    Ok(Piece {
        steps: KeptTurns::new(steps),
        uses: Places::new(uses),
    })
}

/// The places of the nogoods among the sources, ascending, each once.
fn uses(alloc: Global, steps: &[Kept]) -> Result<Vec<u32>, Memory>
    ensures { IfOk result (λ uses. uses.items ≡ uses_of steps.now) }
{
    let mut uses = places(alloc, steps)?;
    uses.sort_unstable();
    uses.dedup();
    Ok(uses)
}

/// The places of the nogoods among the sources.
fn places(alloc: Global, steps: &[Kept]) -> Result<Vec<u32>, Memory>
    ensures { IfOk result (λ places. places.items ≡ flat_map (λ k. place_of k.source) steps.now) }
{
    let mut places = Vec::new(alloc);
    for step in steps {
        push_place(&mut places, step.source)?;
    }
    Ok(places)
}

/// The place, where the part is a nogood.
fn push_place(places: &mut Vec<u32>, source: PartId) -> Result<(), Memory>
    ensures { OnOk result (places.new.items ≡ places.old.items ++ place_of source) }
{
    if let PartId::Nogood(place) = source {
        places.push(place)?;
    }
    Ok(())
}
