// The canonical spelling of lines.

ghost use Rattle.std.specs.Prelude.{◌≡◌, ◌++◌, IfOk, OnOk, codes};
ghost use Rattle.std.specs.List.{flat_map};
ghost use Rattle.std.specs.Fmt.{decimal};
ghost use Rattle.dp_lines.specs.Allowed.{IsAllowed};
ghost use Rattle.dp_lines.specs.Spelling as spelling;
ghost use Rattle.dp_lines.specs.declared.line.Line.TheVariants.{Atom, Inference, Nogood, Conclude};

use crate::{Claim, Line};
use dp_domain::{Memory, Name, Op, Text};
use std::alloc::Global;

/// The canonical spelling of a line, with its line end: one blank between fields, numbers without
/// leading zeros.
pub fn line_text(alloc: Global, line: &Line) -> Result<Text, Memory>
    requires { IsAllowed line.now }
    ensures { IfOk result (λ text. text ≡ spelling.line_text line.now) }
{
    let mut text = Vec::new(alloc);
    push_fields(&mut text, line)?;
    text.push(b'\n')?;
    Ok(Text::new(text))
}

// The fields of a line.
fn push_fields(text: &mut Vec<u8>, line: &Line) -> Result<(), Memory>
    ensures { OnOk result (text.new.items ≡ text.old.items ++ spelling.fields_text line.now) }
{
    match line {
        Line::Atom {
            id,
            name,
            op,
            value,
        } => push_atom(text, *id, name, *op, *value),
        Line::Inference {
            id,
            premises,
            consequent,
            constraint,
            label,
        } => push_inference(
            text,
            *id,
            premises.as_slice(),
            *consequent,
            *constraint,
            label,
        ),
        Line::Nogood { id, atoms, hints } => push_nogood(
            text,
            *id,
            atoms.as_slice(),
            hints.as_slice(),
        ),
        Line::Delete { id } => push_deletion(text, *id),
        Line::Conclude(claim) => push_conclusion(text, *claim),
    }
}

fn push_atom(text: &mut Vec<u8>, id: u64, name: &Name, op: Op, value: i64) -> Result<(), Memory>
    ensures { OnOk result (text.new.items ≡ text.old.items ++ spelling.fields_text (Atom id name.now op value)) }
{
    text.push(b'a')?;
    push_number(text, id)?;
    text.push(b' ')?;
    push_atom_text(text, name.bytes(), op, value)
}

/// Appends an atom as it is written: `[NAME OP VALUE]`.
pub fn push_atom_text(text: &mut Vec<u8>, name: &[u8], op: Op, value: i64) -> Result<(), Memory>
    ensures { OnOk result (text.new.items ≡ text.old.items ++ spelling.atom_text name.now op value) }
{
    text.push(b'[')?;
    text.extend_from_slice(name)?;
    text.push(b' ')?;
    text.extend_from_slice(op_text(op))?;
    push_literal(text, value)?;
    text.push(b']')?;
    Ok(())
}

fn op_text(op: Op) -> &'static [u8]
    ensures { result.now ≡ spelling.op_text op }
{
    match op {
        Op::Ge => b">=",
        Op::Le => b"<=",
        Op::Eq => b"==",
        Op::Ne => b"!=",
    }
}

fn push_inference(
    text: &mut Vec<u8>,
    id: u64,
    premises: &[i64],
    consequent: Option<i64>,
    constraint: Option<u64>,
    label: &Option<Name>,
) -> Result<(), Memory>
    ensures { OnOk result (text.new.items ≡ text.old.items ++ spelling.fields_text (Inference id premises.now consequent constraint label.now)) }
{
    text.push(b'i')?;
    push_number(text, id)?;
    push_literals(text, premises)?;
    text.extend_from_slice(b" 0")?;
    push_consequent(text, consequent)?;
    push_constraint(text, constraint)?;
    push_label(text, label)?;
    Ok(())
}

// The consequent, where there is one.
fn push_consequent(text: &mut Vec<u8>, consequent: Option<i64>) -> Result<(), Memory>
    ensures { OnOk result (text.new.items ≡ text.old.items ++ spelling.field_of spelling.signed consequent) }
{
    match consequent {
        Some(literal) => push_literal(text, literal),
        None => Ok(()),
    }
}

// The constraint's number, where there is one.
fn push_constraint(text: &mut Vec<u8>, constraint: Option<u64>) -> Result<(), Memory>
    ensures { OnOk result (text.new.items ≡ text.old.items ++ spelling.field_of (λ k. codes "c:" ++ decimal k) constraint) }
{
    if let Some(number) = constraint {
        let field = format!(in *text.allocator(); " c:{number}")?;
        text.extend_from_slice(field.as_bytes())?;
    }
    Ok(())
}

// The label, where there is one.
fn push_label(text: &mut Vec<u8>, label: &Option<Name>) -> Result<(), Memory>
    ensures { OnOk result (text.new.items ≡ text.old.items ++ spelling.field_of (λ l. codes "l:" ++ l) label.now) }
{
    if let Some(label) = label {
        text.extend_from_slice(b" l:")?;
        text.extend_from_slice(label.bytes())?;
    }
    Ok(())
}

fn push_nogood(text: &mut Vec<u8>, id: u64, atoms: &[i64], hints: &[u64]) -> Result<(), Memory>
    ensures { OnOk result (text.new.items ≡ text.old.items ++ spelling.fields_text (Nogood id atoms.now hints.now)) }
{
    text.push(b'n')?;
    push_number(text, id)?;
    push_literals(text, atoms)?;
    push_hints(text, hints)?;
    Ok(())
}

// The hints behind a `0`; nothing where there are none.
fn push_hints(text: &mut Vec<u8>, hints: &[u64]) -> Result<(), Memory>
    ensures { OnOk result (text.new.items ≡ text.old.items ++ spelling.hints_text hints.now) }
{
    if hints.is_empty() {
        return Ok(());
    }
    text.extend_from_slice(b" 0")?;
    push_numbers(text, hints)?;
    Ok(())
}

fn push_deletion(text: &mut Vec<u8>, id: u64) -> Result<(), Memory>
    ensures { OnOk result (text.new.items ≡ text.old.items ++ (codes "d" ++ spelling.field (decimal id))) }
{
    text.push(b'd')?;
    push_number(text, id)?;
    Ok(())
}

fn push_conclusion(text: &mut Vec<u8>, claim: Claim) -> Result<(), Memory>
    ensures { OnOk result (text.new.items ≡ text.old.items ++ spelling.fields_text (Conclude claim)) }
{
    match claim {
        Claim::Unsat => text.extend_from_slice(b"c UNSAT")?,
        Claim::Bound(literal) => push_bound(text, literal)?,
    }
    Ok(())
}

fn push_bound(text: &mut Vec<u8>, literal: i64) -> Result<(), Memory>
    ensures { OnOk result (text.new.items ≡ text.old.items ++ (codes "c" ++ spelling.field (spelling.signed literal))) }
{
    text.push(b'c')?;
    push_literal(text, literal)?;
    Ok(())
}

// Literals, each as a field.
fn push_literals(text: &mut Vec<u8>, literals: &[i64]) -> Result<(), Memory>
    ensures { OnOk result (text.new.items ≡ text.old.items ++ spelling.literals_text literals.now) }
{
    for literal in literals {
        push_literal(text, *literal)?;
    }
    Ok(())
}

// Numbers, each as a field.
fn push_numbers(text: &mut Vec<u8>, numbers: &[u64]) -> Result<(), Memory>
    ensures { OnOk result (text.new.items ≡ text.old.items ++ flat_map (λ k. spelling.field (decimal k)) numbers.now) }
{
    for number in numbers {
        push_number(text, *number)?;
    }
    Ok(())
}

fn push_literal(text: &mut Vec<u8>, literal: i64) -> Result<(), Memory>
    ensures { OnOk result (text.new.items ≡ text.old.items ++ spelling.field (spelling.signed literal)) }
{
    let field = format!(in *text.allocator(); " {literal}")?;
    text.extend_from_slice(field.as_bytes())?;
    Ok(())
}

fn push_number(text: &mut Vec<u8>, number: u64) -> Result<(), Memory>
    ensures { OnOk result (text.new.items ≡ text.old.items ++ spelling.field (decimal number)) }
{
    let field = format!(in *text.allocator(); " {number}")?;
    text.extend_from_slice(field.as_bytes())?;
    Ok(())
}
