// Claims and atoms by the own names of their variables.

ghost use Rattle.std.specs.Prelude.{◌≡◌, ◌<◌, ◌++◌, IfOk, OnOk, length, codes};
ghost use Rattle.std.specs.List.{flat_map};
ghost use Rattle.dp_domain.specs.States.{AreOf};
ghost use Rattle.dp_judge.specs.Logs.{IsOfGoal};
ghost use Rattle.dp_command.specs.Named.{claim_of, conjunction, named_atom, own_name};
ghost use Rattle.dp_command.specs.declared.reply.Claim.TheVariants.{Bound};

use crate::reply::Claim;
use dp_base::{Memory, Name};
use dp_domain::{Atom, Verdict};
use dp_lines::push_atom_text;
use dp_parts::Problem;
use std::alloc::Global;

/// What is concluded, by name.
pub(crate) fn claim_of(alloc: Global, problem: &Problem, verdict: Verdict) -> Result<Claim, Memory>
    requires { IsOfGoal problem.now verdict }
    ensures { IfOk result (λ claim. claim ≡ claim_of problem.now verdict) }
{
    match verdict {
        Verdict::Unsat => Ok(Claim::Unsat),
        Verdict::Bound(atom) => bound_of(alloc, problem, atom),
    }
}

// A bound by the own name of its variable.
fn bound_of(alloc: Global, problem: &Problem, atom: Atom) -> Result<Claim, Memory>
    requires { atom.var < length problem.now.initial }
    ensures { IfOk result (λ claim. claim ≡ Bound (own_name problem.now atom.var) atom.op atom.value) }
{
    let name = problem.own_name(atom.var()).bytes().to_vec(alloc)?;
    Ok(Claim::Bound {
        name: Name::new(name),
        op: atom.op(),
        value: atom.value(),
    })
}

/// Appends the atoms by name, joined by ` & `; `true` where there are none.
pub(crate) fn push_conjunction(
    text: &mut Vec<u8>,
    problem: &Problem,
    atoms: &[Atom],
) -> Result<(), Memory>
    requires { AreOf problem.now.initial atoms.now }
    ensures { OnOk result (text.new.items ≡ text.old.items ++ conjunction problem.now atoms.now) }
{
    match atoms.split_first() {
        None => {
            text.extend_from_slice(b"true")?;
            Ok(())
        }
        Some((first, others)) => {
            push_atom(text, problem, first)?;
            push_others(text, problem, others)
        }
    }
}

// The atoms behind the first.
fn push_others(text: &mut Vec<u8>, problem: &Problem, atoms: &[Atom]) -> Result<(), Memory>
    requires { AreOf problem.now.initial atoms.now }
    ensures { OnOk result (text.new.items ≡ text.old.items ++ flat_map (λ b. codes " & " ++ named_atom problem.now b) atoms.now) }
{
    for atom in atoms {
        push_other(text, problem, atom)?;
    }
    Ok(())
}

fn push_other(text: &mut Vec<u8>, problem: &Problem, atom: &Atom) -> Result<(), Memory>
    requires { atom.now.var < length problem.now.initial }
    ensures { OnOk result (text.new.items ≡ text.old.items ++ (codes " & " ++ named_atom problem.now atom.now)) }
{
    text.extend_from_slice(b" & ")?;
    push_atom(text, problem, atom)
}

// An atom by name.
fn push_atom(text: &mut Vec<u8>, problem: &Problem, atom: &Atom) -> Result<(), Memory>
    requires { atom.now.var < length problem.now.initial }
    ensures { OnOk result (text.new.items ≡ text.old.items ++ named_atom problem.now atom.now) }
{
    let name = problem.own_name(atom.var());
    push_atom_text(text, name.bytes(), atom.op(), atom.value())
}
