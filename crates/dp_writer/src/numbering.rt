// Numbers of atoms and steps, and the lines that define atoms.

ghost use Rattle.std.specs.Prelude.{◌≡◌, ◌+◌, ◌≤◌, ◌<◌, ◌^◌, ◌++◌, ◌∷◌, [], true, length, take, map, IfOk, OnOk};
ghost use Rattle.std.specs.List.{flat_map};
ghost use Rattle.dp_base.specs.Lists.{Each};
ghost use Rattle.dp_base.specs.Names.{is_name};
ghost use Rattle.dp_lines.specs.Allowed.{IsAllowed, IsNumber};
ghost use Rattle.dp_lines.specs.Spelling as spelling;
ghost use Rattle.dp_writer.specs.Atoms.{defined, is_defined, literal_in, number_in};
ghost use Rattle.dp_writer.specs.Steps.{definition};
ghost use Rattle.dp_writer.specs.Written.{IsOf, named, own_name};
ghost use Rattle.dp_writer.specs.Numbering.{Defines, line_if_new, literals_by, with_atom};

use crate::key::Key;
use dp_base::{Memory, Name};
use dp_domain::{Atom, Op, VarId};
use dp_lines::{Line, line_text};
use dp_parts::Problem;
use indexmap::IndexSet;
use std::alloc::Global;

const LARGEST: u64 = 1_000_000_000_000_000_000;

/// The number after so many, up to 10^18.
pub fn next_number(count: u64) -> Result<u64, Memory>
    ensures { IfOk result (λ n. (n ≡ count + 1) × IsNumber n) }
{
    if count < LARGEST {
        Ok(count + 1)
    } else {
        Err(Memory)
    }
}

/// Appends a line.
pub fn push_line(text: &mut Vec<u8>, line: &Line) -> Result<(), Memory>
    requires { IsAllowed line.now }
    ensures { OnOk result (text.new.items ≡ text.old.items ++ spelling.line_text line.now) }
{
    let line = line_text(*text.allocator(), line)?;
    text.extend_from_slice(line.bytes())?;
    Ok(())
}

// A variable's own name.
fn own_name(alloc: Global, problem: &Problem, var: VarId) -> Result<Name, Memory>
    requires { var < length problem.now.initial }
    ensures name { IfOk result (λ name. name ≡ own_name problem.now var) }
    ensures spelled { IfOk result (λ name. is_name name ≡ true) }
{
    // What a problem keeps is known by a look at it: its names are names.
    let _goal = problem.goal();
    let name = problem.own_name(var);
    Ok(Name::new(name.bytes().to_vec(alloc)?))
}

// Appends the line of a defined atom.
fn push_definition(
    text: &mut Vec<u8>,
    number: u64,
    problem: &Problem,
    atom: Atom,
) -> Result<(), Memory>
    requires variable { IsOf problem.now atom }
    requires number { IsNumber number }
    ensures text { OnOk result (text.new.items ≡ text.old.items ++ spelling.line_text (definition number (named problem.now atom))) }
    ensures allowed { OnOk result (IsAllowed (definition number (named problem.now atom))) }
{
    let name = own_name(*text.allocator(), problem, atom.var())?;
    let line = Line::Atom {
        id: number,
        name,
        op: atom.op(),
        value: atom.value(),
    };
    push_line(text, &line)
}

// The number of a defined atom. Where it is new, it is added, and its line is appended.
fn number(
    atoms: &mut IndexSet<Key>,
    text: &mut Vec<u8>,
    problem: &Problem,
    atom: Atom,
) -> Result<u64, Memory>
    requires variable { IsOf problem.now atom }
    requires few { length atoms.old.keys ≤ 10 ^ 18 }
    ensures kept { take (length atoms.old.keys) atoms.new.keys ≡ atoms.old.keys }
    ensures number { IfOk result (λ n. n ≡ number_in atoms.old.keys atom) }
    ensures fits { IfOk result IsNumber }
    ensures table { OnOk result (atoms.new.keys ≡ with_atom atoms.old.keys atom) }
    ensures few { OnOk result (length atoms.new.keys ≤ 10 ^ 18) }
    ensures text { OnOk result (text.new.items ≡ text.old.items ++ flat_map spelling.line_text (line_if_new atoms.old.keys (named problem.now atom))) }
    ensures allowed { OnOk result (Each IsAllowed (line_if_new atoms.old.keys (named problem.now atom))) }
{
    let (place, is_new) = atoms.insert_full(Key::new(atom))?;
    let number = next_number(place as u64)?;
    if is_new {
        push_definition(text, number, problem, atom)?;
    }
    Ok(number)
}

// The atom that has a number of its own: this one, or its negation.
fn defined(atom: Atom) -> Atom
    ensures { result ≡ defined atom }
{
    if is_defined(atom.op()) {
        atom
    } else {
        atom.negated()
    }
}

fn is_defined(op: Op) -> bool
    ensures { result ≡ is_defined op }
{
    match op {
        Op::Ge | Op::Eq => true,
        Op::Le | Op::Ne => false,
    }
}

/// The literal of an atom. At the first use of its defined atom the line of that one is appended.
pub fn literal(
    atoms: &mut IndexSet<Key>,
    text: &mut Vec<u8>,
    problem: &Problem,
    atom: Atom,
) -> Result<i64, Memory>
    requires variable { IsOf problem.now atom }
    requires few { length atoms.old.keys ≤ 10 ^ 18 }
    ensures kept { take (length atoms.old.keys) atoms.new.keys ≡ atoms.old.keys }
    ensures literal { IfOk result (λ l. l ≡ literal_in atoms.old.keys atom) }
    ensures defines { OnOk result (Defines (named problem.now atom ∷ []) atoms.old.keys atoms.new.keys text.old.items text.new.items) }
{
    let number = number(atoms, text, problem, defined(atom))? as i64;
    if is_defined(atom.op()) {
        Ok(number)
    } else {
        Ok(-number)
    }
}

/// The literals of atoms, in their order.
pub fn literals(
    atoms: &mut IndexSet<Key>,
    text: &mut Vec<u8>,
    problem: &Problem,
    used: &[Atom],
) -> Result<Vec<i64>, Memory>
    requires variables { Each (IsOf problem.now) used.now }
    requires few { length atoms.old.keys ≤ 10 ^ 18 }
    ensures kept { take (length atoms.old.keys) atoms.new.keys ≡ atoms.old.keys }
    ensures literals { IfOk result (λ l. l.items ≡ literals_by atoms.old.keys (map (named problem.now) used.now)) }
    ensures defines { OnOk result (Defines (map (named problem.now) used.now) atoms.old.keys atoms.new.keys text.old.items text.new.items) }
{
    let mut literals = Vec::new(*text.allocator());
    for atom in used {
        let literal = literal(atoms, text, problem, *atom)?;
        literals.push(literal)?;
    }
    Ok(literals)
}
