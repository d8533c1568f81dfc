// The lines that words make.

ghost use Rattle.std.specs.Prelude.{◌≡◌, Ok, if◌then◌else◌, not, true, false};
ghost use Rattle.dp_lines.specs.Fields as spec;
ghost use Rattle.dp_lines.specs.Figures as figures;
ghost use Rattle.dp_lines.specs.Parts.{Reads, Says, stops_here};
ghost use Rattle.dp_lines.specs.Words.{front_word};

use crate::figures::{
    constraint_at, is_constraint, is_label_field, kind_at, label_at, literal_at, mark_at, name_at,
    number_at, op_at, value_at,
};
use crate::refusal::Fault;
use crate::words::Words;
use crate::{Claim, Line, Literals, Numbers};
use dp_domain::{Name, Op};
use std::alloc::Global;

/// A kind of line, as its first field names it.
#[derive(Clone, Copy, Debug, PartialEq, Eq)]
pub enum Kind {
    Atom,
    Inference,
    Nogood,
    Conclusion,
}

fn first_field(words: &mut Words) -> Result<Kind, Fault>
    ensures { Reads (λ kind. kind) result (spec.one figures.kind_at) words.old words.new }
{
    let (at, text) = words.next();
    Ok(kind_at(at, text)?)
}

fn mark(words: &mut Words, mark: &[u8]) -> Result<(), Fault>
    ensures { Reads (λ u. u) result (spec.one (figures.mark_at mark.now)) words.old words.new }
{
    let (at, text) = words.next();
    Ok(mark_at(mark, at, text)?)
}

fn number(words: &mut Words) -> Result<u64, Fault>
    ensures { Reads (λ n. n) result (spec.one figures.number_at) words.old words.new }
{
    let (at, text) = words.next();
    Ok(number_at(at, text)?)
}

fn literal(words: &mut Words) -> Result<i64, Fault>
    ensures { Reads (λ l. l) result (spec.one figures.literal_at) words.old words.new }
{
    let (at, text) = words.next();
    Ok(literal_at(at, text)?)
}

fn atom_name(alloc: Global, words: &mut Words) -> Result<Name, Fault>
    ensures { Reads (λ name. name) result (spec.one figures.name_at) words.old words.new }
{
    let (at, text) = words.next();
    Ok(name_at(alloc, at, text)?)
}

fn comparison(words: &mut Words) -> Result<Op, Fault>
    ensures { Reads (λ op. op) result (spec.one figures.op_at) words.old words.new }
{
    let (at, text) = words.next();
    Ok(op_at(at, text)?)
}

fn value(words: &mut Words, op: Op) -> Result<i64, Fault>
    ensures { Reads (λ v. v) result (spec.one (figures.value_at op)) words.old words.new }
{
    let (at, text) = words.next();
    Ok(value_at(op, at, text)?)
}

fn constraint_number(words: &mut Words) -> Result<u64, Fault>
    ensures { Reads (λ k. k) result (spec.one figures.constraint_at) words.old words.new }
{
    let (at, text) = words.next();
    Ok(constraint_at(at, text)?)
}

fn label_name(alloc: Global, words: &mut Words) -> Result<Name, Fault>
    ensures { Reads (λ label. label) result (spec.one figures.label_at) words.old words.new }
{
    let (at, text) = words.next();
    Ok(label_at(alloc, at, text)?)
}

/// The line of an atom, behind its first field.
fn atom_line(alloc: Global, words: &mut Words) -> Result<Line, Fault>
    ensures { Reads (λ line. line) result spec.atom_line words.old words.new }
{
    let id = number(words)?;
    mark(words, b"[")?;
    let name = atom_name(alloc, words)?;
    let op = comparison(words)?;
    let value = value(words, op)?;
    mark(words, b"]")?;
    mark(words, b"")?;
    Ok(Line::Atom {
        id,
        name,
        op,
        value,
    })
}

/// Whether the line ends, or the field `0` comes.
fn stops_at_nought(words: &Words) -> bool
    ensures { result ≡ stops_here figures.is_nought words.now.words }
{
    words.is_done() || words.peek() == b"0".as_slice()
}

/// Literals up to the field `0` or the line's end.
fn literals(alloc: Global, words: &mut Words) -> Result<Literals, Fault>
    ensures { Reads (λ literals. literals) result (λ end. spec.literals) words.old words.new }
{
    let mut literals = Vec::new(alloc);
    while !stops_at_nought(words) {
        literals.push(literal(words)?)?;
    }
    Ok(Literals::new(literals))
}

/// Numbers up to the line's end.
fn numbers(alloc: Global, words: &mut Words) -> Result<Numbers, Fault>
    ensures { Reads (λ numbers. numbers) result (λ end. spec.numbers) words.old words.new }
{
    let mut numbers = Vec::new(alloc);
    while !words.is_done() {
        numbers.push(number(words)?)?;
    }
    Ok(Numbers::new(numbers))
}

/// The consequent, where one comes.
fn consequent(words: &mut Words) -> Result<Option<i64>, Fault>
    ensures { Reads (λ l. l) result spec.consequent words.old words.new }
{
    let text = words.peek();
    if text.is_empty() || is_constraint(text) || is_label_field(text) {
        return Ok(None);
    }
    Ok(Some(literal(words)?))
}

fn constraint(words: &mut Words) -> Result<Option<u64>, Fault>
    ensures { Reads (λ k. k) result spec.constraint words.old words.new }
{
    if !is_constraint(words.peek()) {
        return Ok(None);
    }
    Ok(Some(constraint_number(words)?))
}

fn label(alloc: Global, words: &mut Words) -> Result<Option<Name>, Fault>
    ensures { Reads (λ l. l) result spec.label words.old words.new }
{
    if !is_label_field(words.peek()) {
        return Ok(None);
    }
    Ok(Some(label_name(alloc, words)?))
}

/// The constraint, which may stand behind the label where it did not stand before it.
fn late_constraint(words: &mut Words, early: Option<u64>) -> Result<Option<u64>, Fault>
    ensures { Reads (λ k. k) result (spec.late_constraint early) words.old words.new }
{
    match early {
        Some(k) => Ok(Some(k)),
        None => constraint(words),
    }
}

/// The constraint and the label, in either order.
fn reason(alloc: Global, words: &mut Words) -> Result<(Option<u64>, Option<Name>), Fault>
    ensures { Reads (λ why. why) result spec.reason words.old words.new }
{
    let early = constraint(words)?;
    let label = label(alloc, words)?;
    let constraint = late_constraint(words, early)?;
    Ok((constraint, label))
}

/// The line of an inference, behind its first field.
fn inference_line(alloc: Global, words: &mut Words) -> Result<Line, Fault>
    ensures { Reads (λ line. line) result spec.inference_line words.old words.new }
{
    let id = number(words)?;
    let premises = literals(alloc, words)?;
    mark(words, b"0")?;
    let consequent = consequent(words)?;
    let (constraint, label) = reason(alloc, words)?;
    mark(words, b"")?;
    Ok(Line::Inference {
        id,
        premises,
        consequent,
        constraint,
        label,
    })
}

/// The hints, behind the field `0`; none where the line ends.
fn hints(alloc: Global, words: &mut Words) -> Result<Numbers, Fault>
    ensures { Reads (λ hints. hints) result spec.hints words.old words.new }
{
    if words.is_done() {
        return Ok(Numbers::new(Vec::new(alloc)));
    }
    mark(words, b"0")?;
    numbers(alloc, words)
}

/// The line of a nogood, behind its first field.
fn nogood_line(alloc: Global, words: &mut Words) -> Result<Line, Fault>
    ensures { Reads (λ line. line) result spec.nogood_line words.old words.new }
{
    let id = number(words)?;
    let atoms = literals(alloc, words)?;
    let hints = hints(alloc, words)?;
    mark(words, b"")?;
    Ok(Line::Nogood { id, atoms, hints })
}

fn claimed(words: &mut Words) -> Result<Claim, Fault>
    ensures { Reads (λ claim. claim) result (spec.one spec.claim_at) words.old words.new }
{
    let (at, text) = words.next();
    if text == b"UNSAT".as_slice() {
        return Ok(Claim::Unsat);
    }
    Ok(Claim::Bound(literal_at(at, text)?))
}

/// The line of a conclusion, behind its first field.
fn conclusion_line(words: &mut Words) -> Result<Line, Fault>
    ensures { Reads (λ line. line) result spec.conclusion_line words.old words.new }
{
    let claim = claimed(words)?;
    mark(words, b"")?;
    Ok(Line::Conclude(claim))
}

/// The line of this kind, behind its first field.
fn line_by(alloc: Global, kind: Kind, words: &mut Words) -> Result<Line, Fault>
    ensures { Reads (λ line. line) result (spec.line_by kind) words.old words.new }
{
    match kind {
        Kind::Atom => atom_line(alloc, words),
        Kind::Inference => inference_line(alloc, words),
        Kind::Nogood => nogood_line(alloc, words),
        Kind::Conclusion => conclusion_line(words),
    }
}

/// The line of these words.
pub fn read_line(alloc: Global, words: &mut Words) -> Result<Line, Fault>
    ensures { Reads (λ line. line) result spec.line_of words.old words.new }
{
    let kind = first_field(words)?;
    line_by(alloc, kind, words)
}
