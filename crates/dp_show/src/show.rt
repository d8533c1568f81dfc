// Showing a log that has come, and each of its lines.

ghost use Rattle.std.specs.Prelude.{◌≡◌, ◌≤◌, ◌^◌, [], None, IfOk, OnOk, is_none, length};
ghost use Rattle.dp_lines.specs.Allowed.{IsAllowed};
ghost use Rattle.dp_checker.specs.Judged.{naming, unless};
ghost use Rattle.dp_checker.specs.declared.refusal.Why.TheVariants.{AtomTwice, UnknownAtom};
ghost use Rattle.dp_show.specs.Logs.{shown_log};
ghost use Rattle.dp_show.specs.Named.{found};
ghost use Rattle.dp_show.specs.Pieces.{IsTaken};
ghost use Rattle.dp_show.specs.Showing as spec;

use crate::named::{NamedAtom, add_atom, first_undefined, first_undefined_of};
use crate::spell::push_line;
use crate::{Refusal, Showing, Shown};
use dp_checker::{StepRefusal, Why};
use dp_domain::Memory;
use dp_lines::{Claim, Line, judge_text, line_text};
use indexmap::IndexMap;
use std::alloc::Global;

/// What is shown of a log: its steps in order, up to its end or the first line that cannot be read, defines the atom of a
/// number twice, or names an atom that is not defined.
pub fn show_log(alloc: Global, log: &[u8]) -> Result<Shown, Memory>
    requires { length log.now ≤ 2 ^ 62 }
    ensures shown { IfOk result (λ shown. shown ≡ shown_log log.now) }
{
    judge_text(Showing::new(alloc)?, log)
}

/// Shows a line, unless a test refuses it.
pub fn show_line(
    alloc: Global,
    atoms: &mut IndexMap<u64, NamedAtom>,
    text: &mut Vec<u8>,
    number: u64,
    line: Line,
) -> Result<Option<Refusal>, Memory>
    requires { IsAllowed line }
    ensures { IfOk result (λ refusal. IsTaken refusal atoms.old.entries text.old.items (number, line) atoms.new.entries text.new.items) }
{
    if let Some(why) = refusal_of(atoms, &line) {
        let refusal = StepRefusal { line: number, why };
        return Ok(Some(Refusal::Refused(refusal, line_text(alloc, &line)?)));
    }
    push_line(text, atoms, &line)?;
    define(atoms, line)?;
    Ok(None)
}

/// Why a line is refused, if it is.
fn refusal_of(atoms: &IndexMap<u64, NamedAtom>, line: &Line) -> Option<Why>
    ensures { result ≡ spec.refusal atoms.now.entries line.now }
{
    match line {
        Line::Atom { id, .. } => taken(atoms, *id),
        Line::Inference {
            premises,
            consequent,
            ..
        } => unknown(first_undefined_of(atoms, premises.as_slice(), *consequent)),
        Line::Nogood {
            atoms: literals,
            ..
        } => unknown(first_undefined(atoms, literals.as_slice())),
        Line::Delete { .. } => None,
        Line::Conclude(Claim::Unsat) => None,
        Line::Conclude(Claim::Bound(literal)) => unknown(first_undefined(atoms, &[*literal])),
    }
}

/// Whether an atom has the number already.
fn taken(atoms: &IndexMap<u64, NamedAtom>, id: u64) -> Option<Why>
    ensures { result ≡ unless (is_none (found id atoms.now.entries)) AtomTwice }
{
    if atoms.contains_key(&id) {
        Some(Why::AtomTwice)
    } else {
        None
    }
}

/// The refusal that names a literal.
fn unknown(literal: Option<i64>) -> Option<Why>
    ensures { result ≡ naming UnknownAtom literal }
{
    let literal = literal?;
    Some(Why::UnknownAtom(literal))
}

/// Adds the atom that a line defines, if it defines one.
fn define(atoms: &mut IndexMap<u64, NamedAtom>, line: Line) -> Result<(), Memory>
    requires allowed { IsAllowed line }
    requires passed { spec.refusal atoms.old.entries line ≡ None }
    ensures { OnOk result (atoms.new.entries ≡ spec.after atoms.old.entries line) }
{
    match line {
        Line::Atom {
            id,
            name,
            op,
            value,
        } => add_atom(atoms, id, NamedAtom::new(name, op, value)),
        _ => Ok(()),
    }
}
