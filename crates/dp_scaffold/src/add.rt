//! What a line adds to what is said.

ghost use Rattle.std.specs.Prelude.{◌≡◌, ◌≤◌, ◌+◌, None, Some, false, length, nat_eq, IfOk, OnOk, OnErr};
ghost use Rattle.std.specs.List.{list_any};
ghost use Rattle.dp_base.specs.Names.{named};
ghost use Rattle.dp_checker.specs.Known.{found, literal_atoms};
ghost use Rattle.dp_domain.specs.Atoms.{IsNameable};
ghost use Rattle.dp_lines.specs.Allowed.{IsAllowed};
ghost use Rattle.dp_parts.specs.Problems.{posed};
ghost use Rattle.dp_rule_clause.specs.Nogoods.{each_once};
ghost use Rattle.dp_scaffold.specs.Adding.{with_step};
ghost use Rattle.dp_scaffold.specs.Answers.{gathered_of};
ghost use Rattle.dp_scaffold.specs.Gathering.{after, concluded, line_refusal, most_literals, with_atom, with_claim};
ghost use Rattle.dp_scaffold.specs.Scaffolds.{nogood_of};

use crate::facts::{Facts, add_atom, add_step, make_room, push_nogood};
use dp_checker::{literal_atom, literal_atoms};
use dp_domain::{Atom, Memory, Name, Op, Verdict};
use dp_lines::{Claim, Line};
use dp_parts::Problem;
use dp_rule_clause::Nogood;
use std::alloc::Global;

/// Adds what the line with this number says, which no test refuses.
pub fn add_line(
    problem: &Problem,
    facts: &mut Facts,
    number: u64,
    line: &Line,
) -> Result<(), Memory>
    requires allowed { IsAllowed line.now }
    requires literals { facts.old.literals ≤ most_literals }
    requires passes { line_refusal (posed problem.now) (gathered_of facts.old) line.now ≡ None }
    ensures added { OnOk result (gathered_of facts.new ≡ after (posed problem.now) (gathered_of facts.old) number line.now) }
    ensures unchanged { OnErr result (gathered_of facts.new ≡ gathered_of facts.old) }
{
    match line {
        Line::Atom {
            id,
            name,
            op,
            value,
        } => add_named(problem, facts, *id, name, *op, *value),
        Line::Inference {
            id,
            premises: _,
            consequent: _,
            constraint: _,
            label: _,
        } => add_step(&mut facts.steps, *id),
        Line::Nogood {
            id,
            atoms,
            hints: _,
        } => add_nogood(facts, number, *id, atoms.as_slice()),
        Line::Delete { id: _ } => Ok(()),
        Line::Conclude(claim) => add_conclusion(facts, number, *claim),
    }
}

/// Adds the atom of the name's variable.
fn add_named(
    problem: &Problem,
    facts: &mut Facts,
    id: u64,
    name: &Name,
    op: Op,
    value: i64,
) -> Result<(), Memory>
    requires nameable { IsNameable op value }
    requires fresh { found id facts.old.atoms.entries ≡ None }
    ensures added { OnOk result (gathered_of facts.new ≡ with_atom (gathered_of facts.old) id op value (named problem.now.names name.now)) }
    ensures unchanged { OnErr result (gathered_of facts.new ≡ gathered_of facts.old) }
{
    let Some(var) = problem.variable(name) else {
        return Ok(());
    };
    let atom = Atom::new(var, op, value).unwrap();
    add_atom(&mut facts.atoms, id, atom)
}

/// Adds the step of a nogood's line: its number, its literals and the nogood of their atoms.
fn add_nogood(facts: &mut Facts, number: u64, id: u64, atoms: &[i64]) -> Result<(), Memory>
    requires fresh { list_any (nat_eq id) facts.old.steps.keys ≡ false }
    requires few { facts.old.literals + length atoms.now ≤ most_literals }
    ensures added { OnOk result (gathered_of facts.new ≡ with_step (gathered_of facts.old) number id atoms.now) }
    ensures unchanged { OnErr result (gathered_of facts.new ≡ gathered_of facts.old) }
{
    let alloc = *facts.nogoods.allocator();
    let denied = literal_atoms(alloc, &facts.atoms, atoms)?;
    let nogood = Nogood::new(alloc, denied.as_slice())?;
    make_room(facts)?;
    add_step(&mut facts.steps, id)?;
    facts.literals += atoms.len();
    push_nogood(facts, nogood, number, id);
    Ok(())
}

/// Adds what the claim concludes.
fn add_conclusion(facts: &mut Facts, number: u64, claim: Claim) -> Result<(), Memory>
    ensures added { OnOk result (gathered_of facts.new ≡ with_claim (gathered_of facts.old) number (concluded (gathered_of facts.old) claim)) }
    ensures unchanged { OnErr result (gathered_of facts.new ≡ gathered_of facts.old) }
{
    match concluded(facts, claim) {
        Some(verdict) => add_claim(facts, number, &verdict),
        None => Ok(()),
    }
}

/// What the claim concludes.
fn concluded(facts: &Facts, claim: Claim) -> Option<Verdict>
    ensures { result ≡ concluded (gathered_of facts.now) claim }
{
    match claim {
        Claim::Unsat => Some(Verdict::Unsat),
        Claim::Bound(literal) => {
            let atom = literal_atom(&facts.atoms, literal)?;
            Some(Verdict::Bound(atom))
        }
    }
}

/// Adds the claim, and its nogood, which has no number.
fn add_claim(facts: &mut Facts, number: u64, verdict: &Verdict) -> Result<(), Memory>
    ensures added { OnOk result (gathered_of facts.new ≡ with_claim (gathered_of facts.old) number (Some verdict.now)) }
    ensures unchanged { OnErr result (gathered_of facts.new ≡ gathered_of facts.old) }
{
    let alloc = *facts.nogoods.allocator();
    let nogood = nogood_of(alloc, verdict)?;
    make_room(facts)?;
    push_nogood(facts, nogood, number, 0);
    facts.claim = Some(*verdict);
    Ok(())
}

/// The nogood that a conclusion is.
fn nogood_of(alloc: Global, verdict: &Verdict) -> Result<Nogood, Memory>
    ensures { IfOk result (λ nogood. nogood ≡ nogood_of verdict.now) }
{
    match verdict {
        Verdict::Unsat => Nogood::new(alloc, &[]),
        Verdict::Bound(atom) => Nogood::new(alloc, &[atom.negated()]),
    }
}
