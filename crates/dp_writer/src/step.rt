// The lines of a step.

ghost use Rattle.std.specs.Prelude.{◌≡◌, ◌≤◌, ◌^◌, true, length, take, IfOk, IfSome, OnOk};
ghost use Rattle.std.specs.Option.{option_map, option_to_list};
ghost use Rattle.dp_base.specs.Lists.{Each};
ghost use Rattle.dp_lines.specs.Allowed.{IsNumber, is_label};
ghost use Rattle.dp_writer.specs.Written.{IsClaimOf, IsOf, conclusion, inference, named, nogood};
ghost use Rattle.dp_writer.specs.Steps.{atoms_of};
ghost use Rattle.dp_writer.specs.Numbering.{Defines, IsClaimLine, Writes, literals_by};

use crate::key::Key;
use crate::numbering::{literal, literals, push_line};
use dp_base::{Memory, Name};
use dp_domain::{Atom, Verdict};
use dp_lines::{Claim, Line, Literals, Numbers};
use dp_parts::Problem;
use indexmap::IndexSet;

/// The lines of an inference.
pub fn inference_lines(
    atoms: &mut IndexSet<Key>,
    number: u64,
    problem: &Problem,
    premises: &[Atom],
    consequent: Option<Atom>,
    constraint: u64,
    label: &str,
) -> Result<Vec<u8>, Memory>
    requires number { IsNumber number }
    requires premises { Each (IsOf problem.now) premises.now }
    requires consequent { IfSome consequent (IsOf problem.now) }
    requires constraint { IsNumber constraint }
    requires label { is_label label.now ≡ true }
    requires few { length atoms.old.keys ≤ 10 ^ 18 }
    ensures kept { take (length atoms.old.keys) atoms.new.keys ≡ atoms.old.keys }
    ensures writes { IfOk result (λ text. Writes number (inference problem.now premises.now consequent constraint label.now) atoms.old.keys atoms.new.keys text.items) }
{
    let alloc = *atoms.allocator();
    let mut text = Vec::new(alloc);
    let premises = literals(atoms, &mut text, problem, premises)?;
    let consequent = consequent_literal(atoms, &mut text, problem, consequent)?;
    let label = Name::new(label.as_bytes().to_vec(alloc)?);
    let line = Line::Inference {
        id: number,
        premises: Literals::new(premises),
        consequent,
        constraint: Some(constraint),
        label: Some(label),
    };
    push_line(&mut text, &line)?;
    Ok(text)
}

// The literal of the consequent, where there is one.
fn consequent_literal(
    atoms: &mut IndexSet<Key>,
    text: &mut Vec<u8>,
    problem: &Problem,
    consequent: Option<Atom>,
) -> Result<Option<i64>, Memory>
    requires consequent { IfSome consequent (IsOf problem.now) }
    requires few { length atoms.old.keys ≤ 10 ^ 18 }
    ensures kept { take (length atoms.old.keys) atoms.new.keys ≡ atoms.old.keys }
    ensures literal { IfOk result (λ l. option_to_list l ≡ literals_by atoms.old.keys (option_to_list (option_map (named problem.now) consequent))) }
    ensures defines { OnOk result (Defines (option_to_list (option_map (named problem.now) consequent)) atoms.old.keys atoms.new.keys text.old.items text.new.items) }
{
    match consequent {
        Some(atom) => {
            let literal = literal(atoms, text, problem, atom)?;
            Ok(Some(literal))
        }
        None => Ok(None),
    }
}

/// The lines of a nogood.
pub fn nogood_lines(
    atoms: &mut IndexSet<Key>,
    number: u64,
    problem: &Problem,
    denied: &[Atom],
    hints: &[u64],
) -> Result<Vec<u8>, Memory>
    requires number { IsNumber number }
    requires denied { Each (IsOf problem.now) denied.now }
    requires hints { Each IsNumber hints.now }
    requires few { length atoms.old.keys ≤ 10 ^ 18 }
    ensures kept { take (length atoms.old.keys) atoms.new.keys ≡ atoms.old.keys }
    ensures writes { IfOk result (λ text. Writes number (nogood problem.now denied.now hints.now) atoms.old.keys atoms.new.keys text.items) }
{
    let alloc = *atoms.allocator();
    let mut text = Vec::new(alloc);
    let denied = literals(atoms, &mut text, problem, denied)?;
    let line = Line::Nogood {
        id: number,
        atoms: Literals::new(denied),
        hints: Numbers::new(hints.to_vec(alloc)?),
    };
    push_line(&mut text, &line)?;
    Ok(text)
}

/// The lines of a conclusion, which has no number.
pub fn conclusion_lines(
    atoms: &mut IndexSet<Key>,
    problem: &Problem,
    claim: Verdict,
) -> Result<Vec<u8>, Memory>
    requires claim { IsClaimOf problem.now claim }
    requires few { length atoms.old.keys ≤ 10 ^ 18 }
    ensures kept { take (length atoms.old.keys) atoms.new.keys ≡ atoms.old.keys }
    ensures writes { IfOk result (λ text. Writes 0 (conclusion problem.now claim) atoms.old.keys atoms.new.keys text.items) }
{
    let mut text = Vec::new(*atoms.allocator());
    let claim = claim_of(atoms, &mut text, problem, claim)?;
    push_line(&mut text, &Line::Conclude(claim))?;
    Ok(text)
}

// What the line of a conclusion claims.
fn claim_of(
    atoms: &mut IndexSet<Key>,
    text: &mut Vec<u8>,
    problem: &Problem,
    claim: Verdict,
) -> Result<Claim, Memory>
    requires claim { IsClaimOf problem.now claim }
    requires few { length atoms.old.keys ≤ 10 ^ 18 }
    ensures kept { take (length atoms.old.keys) atoms.new.keys ≡ atoms.old.keys }
    ensures claimed { IfOk result (λ k. IsClaimLine atoms.old.keys (conclusion problem.now claim) k) }
    ensures defines { OnOk result (Defines (atoms_of (conclusion problem.now claim)) atoms.old.keys atoms.new.keys text.old.items text.new.items) }
{
    match claim {
        Verdict::Unsat => Ok(Claim::Unsat),
        Verdict::Bound(atom) => {
            let literal = literal(atoms, text, problem, atom)?;
            Ok(Claim::Bound(literal))
        }
    }
}
