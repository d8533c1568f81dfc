// The justifications of a wave: runs of its places go to the workers, each with an engine of its own.

ghost use Rattle.std.specs.Prelude.{◌≡◌, ◌<◌, ◌≤◌, length, map, IfOk, OnOk};
ghost use Rattle.std.specs.List.{AllZip, flat_map};
ghost use Rattle.dp_base.specs.Lists.{Each};
ghost use Rattle.dp_engine.specs.Indexes.{IsOver};
ghost use Rattle.dp_justify.specs.Pieces.{justification};
ghost use Rattle.dp_parts.specs.Problems.{posed};

use dp_base::Memory;
use dp_engine::{Engine, Index};
use dp_justify::{Piece, justify};
use dp_pool::{Gate, map_all};
use std::alloc::Global;
use std::thread::Threads;

/// The justifications of the index's nogoods at the places, in their order. Where there is one place
/// alone this engine looks for it; else the workers take runs of the places, which go on at once.
pub(crate) fn answers_of<'i, 'p, R: Threads + Sync, G: Gate>(
    rt: &R,
    index: &'i Index<'p>,
    engine: &mut Engine<'i, 'p>,
    places: &[usize],
    workers: usize,
    gate: &G,
) -> Result<Vec<Option<Piece>>, Memory>
    requires some_workers { 1 ≤ workers }
    requires few_workers { workers ≤ 64 }
    requires over { IsOver index.now engine.old }
    requires places { Each (λ place. place < length index.now.nogoods) places.now }
    ensures over { IsOver index.now engine.new }
    ensures answers { IfOk result (λ answers. answers.items ≡ map (justification (posed index.now.problem) index.now.nogoods) places.now) }
{
    if places.len() == 1 {
        return justify_run(index, engine, places);
    }
    answers_by(rt, index, places, workers, gate)
}

/// The same by workers.
fn answers_by<R: Threads + Sync, G: Gate>(
    rt: &R,
    index: &Index,
    places: &[usize],
    workers: usize,
    gate: &G,
) -> Result<Vec<Option<Piece>>, Memory>
    requires some_workers { 1 ≤ workers }
    requires few_workers { workers ≤ 64 }
    requires places { Each (λ place. place < length index.now.nogoods) places.now }
    ensures { IfOk result (λ answers. answers.items ≡ map (justification (posed index.now.problem) index.now.nogoods) places.now) }
{
    let alloc = index.problem().initial().allocator();
    let runs = runs_of(alloc, places, workers)?;
    let answers = answers_apart(rt, alloc, index, runs.as_slice(), workers, gate)?;
    joined(alloc, answers)
}

/// The places cut into runs, one for a worker at most.
fn runs_of<'a>(
    alloc: Global,
    places: &'a [usize],
    workers: usize,
) -> Result<Vec<&'a [usize]>, Memory>
    requires { 1 ≤ workers }
    ensures { IfOk result (λ runs. flat_map (λ run. run.now) runs.items ≡ places.now) }
{
    let size = places.len() / workers + 1;
    let mut runs = Vec::new(alloc);
    let mut rest = places;
    'cuts: while rest.len() > size {
        let (front, back) = rest.split_at(size);
        runs.push(front)?;
        rest = back;
    }
    runs.push(rest)?;
    Ok(runs)
}

/// The justifications of the places of each run.
fn answers_apart<R: Threads + Sync, G: Gate>(
    rt: &R,
    alloc: Global,
    index: &Index,
    runs: &[&[usize]],
    workers: usize,
    gate: &G,
) -> Result<Vec<Vec<Option<Piece>>>, Memory>
    requires some_workers { 1 ≤ workers }
    requires few_workers { workers ≤ 64 }
    requires places { Each (λ run. Each (λ place. place < length index.now.nogoods) run.now) runs.now }
    ensures { IfOk result (λ answers. AllZip (λ run found. found.items ≡ map (justification (posed index.now.problem) index.now.nogoods) run.now) runs.now answers.items) }
{
    let apart = |run: &&[usize]| -> Result<Vec<Option<Piece>>, Memory>
        requires { Each (λ place. place < length index.now.nogoods) run.now.now }
        ensures { IfOk result (λ found. found.items ≡ map (justification (posed index.entry.now.problem) index.entry.now.nogoods) run.entry.now.now) }
    { justify_apart(index, run) };
    map_all(rt, alloc, runs, workers, &apart, gate)
}

/// The justifications of a run, by an engine of its own.
fn justify_apart(index: &Index, places: &[usize]) -> Result<Vec<Option<Piece>>, Memory>
    requires { Each (λ place. place < length index.now.nogoods) places.now }
    ensures { IfOk result (λ answers. answers.items ≡ map (justification (posed index.now.problem) index.now.nogoods) places.now) }
{
    let alloc = index.problem().initial().allocator();
    let mut engine = Engine::new(alloc, index)?;
    justify_run(index, &mut engine, places)
}

/// The justifications of a run, one after another.
fn justify_run<'i, 'p>(
    index: &'i Index<'p>,
    engine: &mut Engine<'i, 'p>,
    places: &[usize],
) -> Result<Vec<Option<Piece>>, Memory>
    requires over { IsOver index.now engine.old }
    requires places { Each (λ place. place < length index.now.nogoods) places.now }
    ensures over { IsOver index.now engine.new }
    ensures answers { IfOk result (λ answers. answers.items ≡ map (justification (posed index.now.problem) index.now.nogoods) places.now) }
{
    let mut answers = Vec::new(index.problem().initial().allocator());
    for place in places {
        let answer = justify(index, engine, *place)?;
        answers.push(answer)?;
    }
    Ok(answers)
}

/// The lists one after another.
fn joined(alloc: Global, runs: Vec<Vec<Option<Piece>>>) -> Result<Vec<Option<Piece>>, Memory>
    ensures { IfOk result (λ answers. answers.items ≡ flat_map (λ run. run.items) runs.items) }
{
    let mut answers = Vec::new(alloc);
    for mut run in runs {
        answers.append(&mut run)?;
    }
    Ok(answers)
}
