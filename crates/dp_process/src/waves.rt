// The nogoods that the conclusion rests on, justified wave by wave.

ghost use Rattle.std.specs.Prelude.{◌≡◌, ◌^◌, ◌<◌, ◌≤◌, length, IfOk, OnOk};
ghost use Rattle.dp_base.specs.Lists.{Each};
ghost use Rattle.dp_domain.specs.States.{AreOf};
ghost use Rattle.dp_engine.specs.Indexes.{IsOver};
ghost use Rattle.dp_parts.specs.Problems.{posed};
ghost use Rattle.dp_process.specs.Marks.{IsJustified};
ghost use Rattle.dp_process.specs.Waves.{IsFound, Tells, left, wave};

use crate::found::{Found, nothing_found, settle};
use crate::met::Justified;
use crate::runs::answers_of;
use crate::wave::next_wave;
use crate::write::take_last;
use dp_base::Memory;
use dp_engine::{Engine, Index};
use dp_parts::Problem;
use dp_pool::Gate;
use dp_rule_clause::Nogood;
use std::alloc::Global;
use std::thread::Threads;

/// Justifies each nogood that is met once, wave by wave: a wave has those that are known to be met and
/// have no justification yet. Of those that do not follow the last is told; what stands below it is not
/// asked for then.
pub(crate) fn justify_in_waves<R: Threads + Sync, G: Gate>(
    rt: &R,
    alloc: Global,
    problem: &Problem,
    nogoods: &[Nogood],
    workers: usize,
    gate: &G,
) -> Result<Justified, Memory>
    requires some_workers { 1 ≤ workers }
    requires few_workers { workers ≤ 64 }
    requires some { 0 < length nogoods.now }
    requires few { length nogoods.now < 2 ^ 32 }
    requires nogoods { Each (AreOf problem.now.initial) nogoods.now }
    ensures { IfOk result (IsJustified (posed problem.now) nogoods.now) }
{
    let index = Index::new(alloc, problem, nogoods)?;
    let mut engine = Engine::new(alloc, &index)?;
    go_on(rt, &index, &mut engine, workers, gate)
}

/// Goes on with waves until no place is pending.
fn go_on<'i, 'p, R: Threads + Sync, G: Gate>(
    rt: &R,
    index: &'i Index<'p>,
    engine: &mut Engine<'i, 'p>,
    workers: usize,
    gate: &G,
) -> Result<Justified, Memory>
    requires some_workers { 1 ≤ workers }
    requires few_workers { workers ≤ 64 }
    requires over { IsOver index.now engine.old }
    requires some { 0 < length index.now.nogoods }
    ensures { IfOk result (IsJustified (posed index.now.problem) index.now.nogoods) }
{
    let alloc = index.problem().initial().allocator();
    let mut found = nothing_found(alloc, index.nogoods().len())?;
    let mut places = next_wave(alloc, &found)?;
    'waves: while !places.is_empty() {
        justify_wave(rt, index, engine, &mut found, places, workers, gate)?;
        places = next_wave(alloc, &found)?;
    }
    Ok(in_all(found))
}

/// Justifies the nogoods of a wave, each by itself, and takes in what is found of them.
fn justify_wave<'i, 'p, R: Threads + Sync, G: Gate>(
    rt: &R,
    index: &'i Index<'p>,
    engine: &mut Engine<'i, 'p>,
    found: &mut Found,
    mut places: Vec<usize>,
    workers: usize,
    gate: &G,
) -> Result<(), Memory>
    requires some_workers { 1 ≤ workers }
    requires few_workers { workers ≤ 64 }
    requires over { IsOver index.now engine.old }
    requires found { IsFound (posed index.now.problem) index.now.nogoods found.old }
    requires some { 0 < length places.items }
    requires wave { places.items ≡ wave found.old (length index.now.nogoods) }
    ensures over { OnOk result (IsOver index.now engine.new) }
    ensures found { OnOk result (IsFound (posed index.now.problem) index.now.nogoods found.new) }
    ensures fewer { OnOk result (left found.new < left found.old) }
{
    // What an index keeps is known by a look at it.
    let _problem = index.problem();
    let mut answers = answers_of(rt, index, engine, places.as_slice(), workers, gate)?;
    while let Some(place) = places.pop() {
        let answer = take_last(&mut answers);
        settle(found, place, answer);
    }
    Ok(())
}

/// What is told when no place is pending.
fn in_all(found: Found) -> Justified
    ensures { Tells found result }
{
    let Found {
        marks: _,
        mut pieces,
        from,
    } = found;
    if from > 0 {
        return Justified::Failing(from - 1);
    }
    pieces.reverse();
    Justified::All(pieces)
}
