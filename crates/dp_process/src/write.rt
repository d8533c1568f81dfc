// The justified nogoods as a log.

ghost use Rattle.std.specs.Prelude.{◌≡◌, ◌+◌, ◌^◌, ◌<◌, ◌++◌, ◌∷◌, [], length, IfOk, IfSome, OnOk};
ghost use Rattle.dp_base.specs.Lists.{Each};
ghost use Rattle.dp_domain.specs.States.{AreOf};
ghost use Rattle.dp_justify.specs.Replay.{Holds, SpeaksOf};
ghost use Rattle.dp_lines.specs.Allowed.{IsAllowed};
ghost use Rattle.dp_parts.specs.Problems.{IsProblem, posed};
ghost use Rattle.dp_scaffold.specs.Scaffolds.{IsScaffoldOf};
ghost use Rattle.dp_writer.specs.Steps.{count_of, lines, text_of};
ghost use Rattle.dp_writer.specs.Written.{Adds, IsAnswered, StandsFor, inference, nogood as nogood_step};
ghost use Rattle.dp_process.specs.Marks.{AreJustified, pieces_down};
ghost use Rattle.dp_process.specs.Processed.{after_turn, hint_of, hints_of, inferences, kept_count, label_at, log_of, met_below, steps_below, written_of};
ghost use Rattle.dp_process.specs.Writing.{AddsAll, IsPartAt, IsWritable, count_from, numbered, steps_from};

use crate::Processed;
use dp_base::Memory;
use dp_justify::{Kept, PartId, Piece};
use dp_parts::{Problem, label};
use dp_rule_clause::Nogood;
use dp_scaffold::Scaffold;
use dp_writer::Writer;
use std::alloc::Global;

/// The log of the scaffold, whose nogoods have these justifications, from the last place down.
pub(crate) fn write_log(
    alloc: Global,
    problem: &Problem,
    scaffold: &Scaffold,
    pieces: Vec<Option<Piece>>,
) -> Result<Processed, Memory>
    requires scaffold { IsScaffoldOf problem.now scaffold.now }
    requires justified { AreJustified (posed problem.now) scaffold.now.nogoods 0 }
    requires pieces { pieces.items ≡ pieces_down (posed problem.now) scaffold.now.nogoods (length scaffold.now.nogoods) }
    ensures text { IfOk result (λ done. done.text ≡ text_of (log_of problem.now scaffold.now)) }
    ensures allowed { IfOk result (λ _. Each IsAllowed (lines (log_of problem.now scaffold.now))) }
    ensures kept { IfOk result (λ done. done.kept ≡ kept_count problem.now scaffold.now) }
    ensures steps { IfOk result (λ done. done.steps ≡ count_of (log_of problem.now scaffold.now)) }
{
    // What a problem keeps is known by a look at it.
    let _initial = problem.initial();
    let mut writer = Writer::new(alloc);
    let counts = write_nogoods(alloc, &mut writer, problem, scaffold.nogoods(), pieces)?;
    writer.conclude(problem, scaffold.claim())?;
    Ok(Processed {
        text: writer.drain(),
        kept: counts.nogoods - 1,
        steps: counts.steps,
    })
}

/// How much is written.
#[derive(Drop)]
struct Counts {
    /// The nogoods.
    nogoods: u64,
    /// All steps.
    steps: u64,
}

/// Writes the nogoods that have justifications, which stand from the last place down, in their order.
fn write_nogoods(
    alloc: Global,
    writer: &mut Writer,
    problem: &Problem,
    nogoods: &[Nogood],
    mut pieces: Vec<Option<Piece>>,
) -> Result<Counts, Memory>
    requires empty { StandsFor writer.old [] [] }
    requires problem { IsProblem problem.now }
    requires few { length nogoods.now < 2 ^ 32 }
    requires nogoods { Each (AreOf problem.now.initial) nogoods.now }
    requires justified { AreJustified (posed problem.now) nogoods.now 0 }
    requires pieces { pieces.items ≡ pieces_down (posed problem.now) nogoods.now (length nogoods.now) }
    ensures written { OnOk result (StandsFor writer.new (steps_below problem.now nogoods.now (length nogoods.now)) []) }
    ensures nogoods { IfOk result (λ counts. counts.nogoods ≡ met_below problem.now nogoods.now (length nogoods.now)) }
    ensures steps { IfOk result (λ counts. writer.new.count ≡ counts.steps) }
{
    let mut numbers = Vec::new(alloc);
    let mut counts = Counts {
        nogoods: 0,
        steps: 0,
    };
    for place in 0..nogoods.len() {
        let piece = take_last(&mut pieces);
        counts.nogoods += u64::from(piece.is_some());
        let steps = write_piece(
            alloc,
            writer,
            problem,
            &nogoods[place],
            numbers.as_slice(),
            counts.steps,
            piece,
        )?;
        numbers.push(steps)?;
        counts.steps = steps;
    }
    Ok(counts)
}

/// Takes the last of the pieces.
pub(crate) fn take_last(pieces: &mut Vec<Option<Piece>>) -> Option<Piece>
    requires { 0 < length pieces.old.items }
    ensures { pieces.old.items ≡ pieces.new.items ++ result ∷ [] }
{
    pieces.pop().unwrap()
}

/// Writes the nogood after so many steps, where it has a justification. Answers how many steps there
/// are then.
fn write_piece(
    alloc: Global,
    writer: &mut Writer,
    problem: &Problem,
    nogood: &Nogood,
    numbers: &[u64],
    steps: u64,
    piece: Option<Piece>,
) -> Result<u64, Memory>
    requires count { writer.old.count ≡ steps }
    requires nogood { AreOf problem.now.initial nogood.now }
    requires piece { IfSome piece (λ q. Each (IsWritable problem.now numbers.now steps) q.steps) }
    ensures written { OnOk result (AddsAll writer.old (steps_from problem.now (numbered numbers.now) steps nogood.now piece) writer.new) }
    ensures count { IfOk result (λ count. writer.new.count ≡ count) }
    ensures steps { IfOk result (λ count. count ≡ count_from problem.now steps piece) }
{
    match piece {
        None => Ok(steps),
        Some(piece) => write_nogood(
            alloc,
            writer,
            problem,
            nogood,
            numbers,
            piece.steps.as_slice(),
        ),
    }
}

/// Writes the kept turns of a nogood, then the nogood. Answers its number.
fn write_nogood(
    alloc: Global,
    writer: &mut Writer,
    problem: &Problem,
    nogood: &Nogood,
    numbers: &[u64],
    turns: &[Kept],
) -> Result<u64, Memory>
    requires nogood { AreOf problem.now.initial nogood.now }
    requires turns { Each (IsWritable problem.now numbers.now writer.old.count) turns.now }
    ensures written { OnOk result (AddsAll writer.old (inferences problem.now turns.now ++ nogood_step problem.now nogood.now (hints_of (numbered numbers.now) writer.old.count turns.now) ∷ []) writer.new) }
    ensures number { IfOk result (λ number. number ≡ writer.old.count + (length (inferences problem.now turns.now) + 1)) }
    ensures count { IfOk result (λ number. writer.new.count ≡ number) }
{
    let hints = write_turns(alloc, writer, problem, numbers, turns)?;
    writer.nogood(problem, nogood.atoms(), hints.as_slice())
}

/// Writes the kept turns of one nogood. Answers the numbers of their steps.
fn write_turns(
    alloc: Global,
    writer: &mut Writer,
    problem: &Problem,
    numbers: &[u64],
    turns: &[Kept],
) -> Result<Vec<u64>, Memory>
    requires { Each (IsWritable problem.now numbers.now writer.old.count) turns.now }
    ensures written { OnOk result (AddsAll writer.old (inferences problem.now turns.now) writer.new) }
    ensures hints { IfOk result (λ hints. hints.items ≡ hints_of (numbered numbers.now) writer.old.count turns.now) }
    ensures answered { IfOk result (λ hints. Each (IsAnswered writer.new) hints.items) }
    ensures count { OnOk result (writer.new.count ≡ writer.old.count + length (inferences problem.now turns.now)) }
{
    let mut hints = Vec::new(alloc);
    for turn in turns {
        let hint = write_turn(writer, problem, numbers, turn)?;
        hints.push(hint)?;
    }
    Ok(hints)
}

/// Writes the kept turn as an inference, unless a nogood gives it, which stands already. Answers the
/// number of its step.
fn write_turn(
    writer: &mut Writer,
    problem: &Problem,
    numbers: &[u64],
    turn: &Kept,
) -> Result<u64, Memory>
    requires holds { Holds (posed problem.now) (length numbers.now) turn.now }
    requires speaks { SpeaksOf problem.now.initial turn.now }
    ensures written { OnOk result (AddsAll writer.old (written_of problem.now turn.now.source turn.now.premises turn.now.consequent) writer.new) }
    ensures hint { IfOk result (λ hint. hint ≡ hint_of (numbered numbers.now) writer.old.count turn.now.source) }
    ensures count { OnOk result (writer.new.count ≡ after_turn writer.old.count turn.now.source) }
{
    match turn.source {
        PartId::Model { constraint, part } => {
            write_inference(writer, problem, turn, constraint as usize, part as usize)
        }
        PartId::Nogood(place) => Ok(numbers[place as usize]),
    }
}

/// Writes the kept turn as an inference by the part of the constraint at this place.
fn write_inference(
    writer: &mut Writer,
    problem: &Problem,
    turn: &Kept,
    constraint: usize,
    part: usize,
) -> Result<u64, Memory>
    requires part { IsPartAt problem.now constraint part }
    requires speaks { SpeaksOf problem.now.initial turn.now }
    ensures written { OnOk result (Adds writer.old (inference problem.now turn.now.premises turn.now.consequent (constraint + 1) (label_at problem.now constraint part)) writer.new) }
    ensures number { IfOk result (λ number. number ≡ writer.old.count + 1) }
    ensures count { OnOk result (writer.new.count ≡ writer.old.count + 1) }
{
    let label = label(&problem.parts_of(constraint)[part]);
    writer.inference(
        problem,
        turn.premises.as_slice(),
        turn.consequent,
        constraint as u64 + 1,
        label,
    )
}
