// How lines are shown.

ghost use Rattle.std.specs.Prelude.{◌≡◌, ◌++◌, None, OnOk, Some, codes};
ghost use Rattle.std.specs.List.{flat_map};
ghost use Rattle.std.specs.Fmt.{decimal};
ghost use Rattle.dp_lines.specs.Spelling as spelling;
ghost use Rattle.dp_lines.specs.declared.line.Line.TheVariants.{Inference, Nogood, Conclude};
ghost use Rattle.dp_show.specs.Named as named;
ghost use Rattle.dp_show.specs.Showing as spec;

use crate::named::NamedAtom;
use dp_domain::{Memory, Name, Op};
use dp_lines::{Claim, Line};
use indexmap::IndexMap;

/// The text of a line, where these atoms are defined.
pub fn push_line(
    text: &mut Vec<u8>,
    atoms: &IndexMap<u64, NamedAtom>,
    line: &Line,
) -> Result<(), Memory>
    ensures { OnOk result (text.new.items ≡ text.old.items ++ spec.shown_line atoms.now.entries line.now) }
{
    match line {
        Line::Inference {
            id,
            premises,
            consequent,
            constraint,
            label,
        } => push_inference(
            text,
            atoms,
            *id,
            premises.as_slice(),
            *consequent,
            *constraint,
            label,
        ),
        Line::Nogood {
            id,
            atoms: literals,
            hints,
        } => push_nogood(text, atoms, *id, literals.as_slice(), hints.as_slice()),
        Line::Conclude(claim) => push_conclusion(text, atoms, *claim),
        Line::Atom { .. } | Line::Delete { .. } => Ok(()),
    }
}

fn push_inference(
    text: &mut Vec<u8>,
    atoms: &IndexMap<u64, NamedAtom>,
    id: u64,
    premises: &[i64],
    consequent: Option<i64>,
    constraint: Option<u64>,
    label: &Option<Name>,
) -> Result<(), Memory>
    ensures { OnOk result (text.new.items ≡ text.old.items ++ spec.shown_line atoms.now.entries (Inference id premises.now consequent constraint label.now)) }
{
    push_number(text, id)?;
    text.extend_from_slice(b": ")?;
    push_conjunction(text, atoms, premises)?;
    text.extend_from_slice(b" -> ")?;
    push_consequence(text, atoms, consequent)?;
    push_grounds(text, constraint, label)?;
    text.push(b'\n')?;
    Ok(())
}

fn push_nogood(
    text: &mut Vec<u8>,
    atoms: &IndexMap<u64, NamedAtom>,
    id: u64,
    literals: &[i64],
    hints: &[u64],
) -> Result<(), Memory>
    ensures { OnOk result (text.new.items ≡ text.old.items ++ spec.shown_line atoms.now.entries (Nogood id literals.now hints.now)) }
{
    push_number(text, id)?;
    text.extend_from_slice(b": not (")?;
    push_conjunction(text, atoms, literals)?;
    text.push(b')')?;
    push_hints(text, hints)?;
    text.push(b'\n')?;
    Ok(())
}

fn push_conclusion(
    text: &mut Vec<u8>,
    atoms: &IndexMap<u64, NamedAtom>,
    claim: Claim,
) -> Result<(), Memory>
    ensures { OnOk result (text.new.items ≡ text.old.items ++ spec.shown_line atoms.now.entries (Conclude claim)) }
{
    text.extend_from_slice(b"conclusion: ")?;
    push_claim(text, atoms, claim)?;
    text.push(b'\n')?;
    Ok(())
}

fn push_claim(
    text: &mut Vec<u8>,
    atoms: &IndexMap<u64, NamedAtom>,
    claim: Claim,
) -> Result<(), Memory>
    ensures { OnOk result (text.new.items ≡ text.old.items ++ spec.claim_text atoms.now.entries claim) }
{
    match claim {
        Claim::Unsat => text.extend_from_slice(b"UNSAT")?,
        Claim::Bound(literal) => push_literal(text, atoms, literal)?,
    }
    Ok(())
}

// The atoms of the literals together.
fn push_conjunction(
    text: &mut Vec<u8>,
    atoms: &IndexMap<u64, NamedAtom>,
    literals: &[i64],
) -> Result<(), Memory>
    ensures { OnOk result (text.new.items ≡ text.old.items ++ spec.conjunction atoms.now.entries literals.now) }
{
    match literals.split_first() {
        None => {
            text.extend_from_slice(b"true")?;
            Ok(())
        }
        Some((first, others)) => {
            push_literal(text, atoms, *first)?;
            push_others(text, atoms, others)
        }
    }
}

// The atoms behind the first.
fn push_others(
    text: &mut Vec<u8>,
    atoms: &IndexMap<u64, NamedAtom>,
    literals: &[i64],
) -> Result<(), Memory>
    ensures { OnOk result (text.new.items ≡ text.old.items ++ flat_map (λ m. codes " & " ++ named.literal_text atoms.now.entries m) literals.now) }
{
    for literal in literals {
        push_other(text, atoms, *literal)?;
    }
    Ok(())
}

fn push_other(
    text: &mut Vec<u8>,
    atoms: &IndexMap<u64, NamedAtom>,
    literal: i64,
) -> Result<(), Memory>
    ensures { OnOk result (text.new.items ≡ text.old.items ++ (codes " & " ++ named.literal_text atoms.now.entries literal)) }
{
    text.extend_from_slice(b" & ")?;
    push_literal(text, atoms, literal)
}

fn push_consequence(
    text: &mut Vec<u8>,
    atoms: &IndexMap<u64, NamedAtom>,
    consequent: Option<i64>,
) -> Result<(), Memory>
    ensures { OnOk result (text.new.items ≡ text.old.items ++ spec.consequence atoms.now.entries consequent) }
{
    match consequent {
        Some(literal) => push_literal(text, atoms, literal)?,
        None => text.extend_from_slice(b"false")?,
    }
    Ok(())
}

// A literal, as its atom is written.
fn push_literal(
    text: &mut Vec<u8>,
    atoms: &IndexMap<u64, NamedAtom>,
    literal: i64,
) -> Result<(), Memory>
    ensures { OnOk result (text.new.items ≡ text.old.items ++ named.literal_text atoms.now.entries literal) }
{
    match atoms.get(&literal.unsigned_abs()) {
        None => Ok(()),
        Some(atom) => {
            if literal < 0 {
                push_atom(text, atom.name(), atom.opposite_op(), atom.beyond())
            } else {
                push_atom(text, atom.name(), atom.op(), atom.value())
            }
        }
    }
}

fn push_atom(text: &mut Vec<u8>, name: &[u8], op: Op, value: i64) -> Result<(), Memory>
    ensures { OnOk result (text.new.items ≡ text.old.items ++ spelling.atom_text name.now op value) }
{
    text.push(b'[')?;
    text.extend_from_slice(name)?;
    text.push(b' ')?;
    text.extend_from_slice(op_text(op))?;
    let end = format!(in *text.allocator(); " {value}]")?;
    text.extend_from_slice(end.as_bytes())?;
    Ok(())
}

fn op_text(op: Op) -> &'static [u8]
    ensures { result.now ≡ spelling.op_text op }
{
    match op {
        Op::Ge => b">=",
        Op::Le => b"<=",
        Op::Eq => b"==",
        Op::Ne => b"!=",
    }
}

// The constraint and the label in round brackets; nothing where there is neither.
fn push_grounds(
    text: &mut Vec<u8>,
    constraint: Option<u64>,
    label: &Option<Name>,
) -> Result<(), Memory>
    ensures { OnOk result (text.new.items ≡ text.old.items ++ spec.grounds constraint label.now) }
{
    match constraint {
        Some(number) => push_constraint(text, number, label),
        None => push_label(text, label),
    }
}

fn push_constraint(text: &mut Vec<u8>, number: u64, label: &Option<Name>) -> Result<(), Memory>
    ensures { OnOk result (text.new.items ≡ text.old.items ++ spec.grounds (Some number) label.now) }
{
    match label {
        Some(label) => push_both(text, number, label.bytes()),
        None => {
            let field = format!(in *text.allocator(); " (c:{number})")?;
            text.extend_from_slice(field.as_bytes())?;
            Ok(())
        }
    }
}

fn push_both(text: &mut Vec<u8>, number: u64, label: &[u8]) -> Result<(), Memory>
    ensures { OnOk result (text.new.items ≡ text.old.items ++ spec.grounds (Some number) (Some label.now)) }
{
    let front = format!(in *text.allocator(); " (c:{number} l:")?;
    text.extend_from_slice(front.as_bytes())?;
    text.extend_from_slice(label)?;
    text.push(b')')?;
    Ok(())
}

fn push_label(text: &mut Vec<u8>, label: &Option<Name>) -> Result<(), Memory>
    ensures { OnOk result (text.new.items ≡ text.old.items ++ spec.grounds None label.now) }
{
    if let Some(label) = label {
        text.extend_from_slice(b" (l:")?;
        text.extend_from_slice(label.bytes())?;
        text.push(b')')?;
    }
    Ok(())
}

// The hints; nothing where there are none.
fn push_hints(text: &mut Vec<u8>, hints: &[u64]) -> Result<(), Memory>
    ensures { OnOk result (text.new.items ≡ text.old.items ++ spec.hints_text hints.now) }
{
    if hints.is_empty() {
        return Ok(());
    }
    text.extend_from_slice(b" by")?;
    push_numbers(text, hints)?;
    Ok(())
}

// Numbers, each as a field.
fn push_numbers(text: &mut Vec<u8>, numbers: &[u64]) -> Result<(), Memory>
    ensures { OnOk result (text.new.items ≡ text.old.items ++ flat_map (λ k. spelling.field (decimal k)) numbers.now) }
{
    for number in numbers {
        push_field(text, *number)?;
    }
    Ok(())
}

fn push_field(text: &mut Vec<u8>, number: u64) -> Result<(), Memory>
    ensures { OnOk result (text.new.items ≡ text.old.items ++ spelling.field (decimal number)) }
{
    let field = format!(in *text.allocator(); " {number}")?;
    text.extend_from_slice(field.as_bytes())?;
    Ok(())
}

fn push_number(text: &mut Vec<u8>, number: u64) -> Result<(), Memory>
    ensures { OnOk result (text.new.items ≡ text.old.items ++ decimal number) }
{
    let digits = format!(in *text.allocator(); "{number}")?;
    text.extend_from_slice(digits.as_bytes())?;
    Ok(())
}
