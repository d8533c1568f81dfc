// The nogoods that the conclusion rests on, found and justified: by one worker from the last one back.

ghost use Rattle.std.specs.Prelude.{◌≡◌, ◌^◌, ◌<◌, ◌≤◌, ◌||◌, ◌&&◌, false, nat_eq, length, slice_index_or, IfOk, OnOk};
ghost use Rattle.std.specs.List.{list_any};
ghost use Rattle.dp_base.specs.Lists.{Each};
ghost use Rattle.dp_domain.specs.States.{AreOf};
ghost use Rattle.dp_engine.specs.Indexes.{IsOver};
ghost use Rattle.dp_justify.specs.Pieces.{justification};
ghost use Rattle.dp_parts.specs.Problems.{posed};
ghost use Rattle.dp_process.specs.Met.{uses_at};
ghost use Rattle.dp_process.specs.Marks.{AreMarked, IsJustified, outcome_of};

use crate::found::{first_marks, mark};
use crate::waves::justify_in_waves;
use dp_base::Memory;
use dp_engine::{Engine, Index};
use dp_justify::{Piece, justify};
use dp_parts::Problem;
use dp_pool::Gate;
use dp_rule_clause::Nogood;
use std::alloc::Global;
use std::thread::Threads;

/// What is found of the nogoods that are met.
#[derive(Drop)]
pub(crate) enum Justified {
    /// For each place, from the last one down, the nogood's justification, and none where it is not met.
    All(Vec<Option<Piece>>),
    /// The place of the last one that does not follow.
    Failing(usize),
}

/// What is found of one nogood.
#[derive(Drop)]
pub(crate) enum Outcome {
    /// Its justification, and none where it is not met.
    Passes(Option<Piece>),
    /// It is met, and does not follow.
    Fails,
}

/// Justifies each nogood that is met once: by one worker from the conclusion back, by several in waves.
pub(crate) fn justify_met<R: Threads + Sync, G: Gate>(
    rt: &R,
    alloc: Global,
    problem: &Problem,
    nogoods: &[Nogood],
    workers: usize,
    gate: &G,
) -> Result<Justified, Memory>
    requires some_workers { 1 ≤ workers }
    requires few_workers { workers ≤ 64 }
    requires some { 0 < length nogoods.now }
    requires few { length nogoods.now < 2 ^ 32 }
    requires nogoods { Each (AreOf problem.now.initial) nogoods.now }
    ensures { IfOk result (IsJustified (posed problem.now) nogoods.now) }
{
    if workers == 1 {
        justify_down(alloc, problem, nogoods)
    } else {
        justify_in_waves(rt, alloc, problem, nogoods, workers, gate)
    }
}

/// Justifies each nogood that is met, from the conclusion back, until one does not follow.
fn justify_down(alloc: Global, problem: &Problem, nogoods: &[Nogood]) -> Result<Justified, Memory>
    requires some { 0 < length nogoods.now }
    requires few { length nogoods.now < 2 ^ 32 }
    requires nogoods { Each (AreOf problem.now.initial) nogoods.now }
    ensures { IfOk result (IsJustified (posed problem.now) nogoods.now) }
{
    // What a problem keeps is known by a look at it.
    let _initial = problem.initial();
    let count = nogoods.len();
    let index = Index::new(alloc, problem, nogoods)?;
    let mut engine = Engine::new(alloc, &index)?;
    let mut marks = first_marks(alloc, count)?;
    let mut pieces = Vec::new(alloc);
    for above in 0..count {
        let place = count - 1 - above;
        match justify_place(&index, &mut engine, &mut marks, place)? {
            Outcome::Passes(piece) => pieces.push(piece)?,
            Outcome::Fails => return Ok(Justified::Failing(place)),
        }
    }
    Ok(Justified::All(pieces))
}

/// Justifies the nogood at the place, where it is marked, and marks those that its justification uses.
fn justify_place<'i, 'p>(
    index: &'i Index<'p>,
    engine: &mut Engine<'i, 'p>,
    marks: &mut Vec<bool>,
    place: usize,
) -> Result<Outcome, Memory>
    requires over { IsOver index.now engine.old }
    requires place { place < length index.now.nogoods }
    requires marks { length marks.old.items ≡ length index.now.nogoods }
    ensures over { IsOver index.now engine.new }
    ensures count { length marks.new.items ≡ length marks.old.items }
    ensures outcome { IfOk result (λ outcome. outcome ≡ outcome_of (slice_index_or marks.old.items place false) (justification (posed index.now.problem) index.now.nogoods place)) }
    ensures marks { OnOk result (AreMarked marks.new.items (λ i. slice_index_or marks.old.items i false || (slice_index_or marks.old.items place false && list_any (nat_eq i) (uses_at (posed index.now.problem) index.now.nogoods place)))) }
{
    // What an index keeps is known by a look at it.
    let _problem = index.problem();
    if !marks[place] {
        return Ok(Outcome::Passes(None));
    }
    match justify(index, engine, place)? {
        Some(piece) => {
            mark(marks, piece.uses.as_slice());
            Ok(Outcome::Passes(Some(piece)))
        }
        None => Ok(Outcome::Fails),
    }
}
