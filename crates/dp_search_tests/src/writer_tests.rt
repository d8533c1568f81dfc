ghost use Rattle.std.specs.Prelude.{◌≡◌, ◌<◌, ◌≤◌, length, true, IfOk, IfSome, IsTrue, OnErr};
ghost use Rattle.dp_base.specs.Lists.{Each};
ghost use Rattle.dp_lines.specs.Allowed.{is_label};

use crate::models::{NONE_LOG, Used, atom_of, problem_of};
use dp_base::{Memory, Text};
use dp_domain::{Atom, Op, Verdict};
use dp_parts::Problem;
use dp_writer::Writer;
use std::alloc::Global;
use std::test::Fail;

#[derive(Clone, Copy)]
enum Label {
    Linear,
    Clause,
    NotEqual,
}

use Label::{Clause, Linear, NotEqual};

/// A step: an inference, with its premises, its consequent, its constraint's number and its label; a nogood, with its
/// hints; a conclusion.
enum Row {
    Infer(&'static [Used], Option<Used>, u64, Label),
    Deny(&'static [Used], &'static [u64]),
    Unsat,
    Bound(Used),
}

use Row::{Bound, Deny, Infer, Unsat};

/// Four variables and four constraints.
const MODEL: &str =
    "var 0..3: x;\nvar 0..3: y;\nvar bool: p;\nvar 0..9: obj;\nconstraint int_le(x,3);\nconstraint int_le(x,3);\nconstraint int_le(x,3);\nconstraint int_le(x,3);\nsolve satisfy;\n";

const LINEAR: &[Row] = &[
    Infer(&[], Some((0, Op::Le, 2)), 1, Linear),
    Infer(&[], Some((1, Op::Le, 2)), 1, Linear),
    Infer(&[(1, Op::Le, 2)], Some((0, Op::Ge, 1)), 2, Linear),
    Infer(&[(0, Op::Ge, 1)], Some((1, Op::Le, 1)), 1, Linear),
    Infer(&[(1, Op::Le, 1)], Some((0, Op::Ge, 2)), 2, Linear),
    Infer(&[(0, Op::Ge, 2)], Some((1, Op::Le, 0)), 1, Linear),
    Infer(&[(0, Op::Le, 2), (1, Op::Le, 0)], None, 2, Linear),
    Deny(&[], &[1, 2, 3, 4, 5, 6, 7]),
    Unsat,
];

const MIXED: &[Row] = &[
    Infer(&[(2, Op::Ge, 1)], Some((1, Op::Ge, 1)), 3, Clause),
    Infer(&[(2, Op::Ge, 1), (1, Op::Ge, 1)], None, 4, Clause),
    Deny(&[(2, Op::Ge, 1)], &[1, 2]),
    Infer(&[(2, Op::Le, 0)], Some((1, Op::Ne, 1)), 1, NotEqual),
    Deny(&[(1, Op::Eq, 1)], &[]),
    Bound((3, Op::Ge, 7)),
];

const MIXED_LOG: &str = "a 1 [p >= 1]
a 2 [y >= 1]
i 1 1 0 2 c:3 l:clause
i 2 1 2 0 c:4 l:clause
n 3 1 0 1 2
a 3 [y == 1]
i 4 -1 0 -3 c:1 l:not_equal
n 5 3
a 4 [obj >= 7]
c 4
";

fn label_of(label: Label) -> &'static str
    ensures { is_label result.now ≡ true }
{
    match label {
        Linear => "linear",
        Clause => "clause",
        NotEqual => "not_equal",
    }
}

/// The atom of a table, which is on the first four variables.
fn early_atom(used: Used) -> Result<Atom, Memory>
    ensures { IfOk result (λ a. a.var < 4) }
{
    let atom = atom_of(used)?;
    if atom.var().0 < 4 {
        Ok(atom)
    } else {
        Err(Memory)
    }
}

fn atoms_of(alloc: Global, used: &[Used]) -> Result<Vec<Atom>, Memory>
    ensures { IfOk result (λ v. Each (λ a. a.var < 4) v.items) }
{
    let mut atoms = Vec::new(alloc);
    for used in used {
        atoms.push(early_atom(*used)?)?;
    }
    Ok(atoms)
}

fn consequent_of(used: Option<Used>) -> Result<Option<Atom>, Memory>
    ensures { IfOk result (λ a. IfSome a (λ b. b.var < 4)) }
{
    match used {
        Some(used) => Ok(Some(early_atom(used)?)),
        None => Ok(None),
    }
}

fn are_answered(hints: &[u64], count: u64) -> bool
    ensures { IsTrue result → Each (λ h. (1 ≤ h) × (h ≤ count)) hints.now }
{
    for hint in hints {
        if *hint < 1 || *hint > count {
            return false;
        }
    }
    true
}

/// Writes a step after so many with numbers, and answers how many there are then.
fn write(
    alloc: Global,
    writer: &mut Writer,
    problem: &Problem,
    count: u64,
    row: &Row,
) -> Result<u64, Memory>
    requires variables { length problem.now.initial ≡ 4 }
    requires constraints { length problem.now.parts ≡ 4 }
    requires count { writer.old.count ≡ count }
    ensures count { IfOk result (λ n. writer.new.count ≡ n) }
    ensures err { OnErr result (writer.new.count ≡ count) }
{
    match row {
        Infer(premises, consequent, constraint, label) => {
            let premises = atoms_of(alloc, *premises)?;
            let consequent = consequent_of(*consequent)?;
            let constraint = (*constraint).clamp(1, 4);
            let label = label_of(*label);
            writer.inference(problem, premises.as_slice(), consequent, constraint, label)
        }
        Deny(atoms, hints) => {
            let atoms = atoms_of(alloc, *atoms)?;
            if !are_answered(*hints, count) {
                return Err(Memory);
            }
            writer.nogood(problem, atoms.as_slice(), *hints)
        }
        Unsat => {
            writer.conclude(problem, Verdict::Unsat)?;
            Ok(count)
        }
        Bound(used) => {
            let atom = early_atom(*used)?;
            writer.conclude(problem, Verdict::Bound(atom))?;
            Ok(count)
        }
    }
}

/// Writes the steps, each again where memory was wanting, and drains once or after each.
fn text_of(alloc: Global, rows: &[Row], each: bool) -> Result<Text, Memory> {
    let problem = problem_of(alloc, MODEL)?;
    if problem.initial().len() != 4 || problem.constraint_count() != 4 {
        return Err(Memory);
    }
    let mut writer = Writer::new(alloc);
    let mut count = 0;
    let mut text = Vec::new(alloc);
    for row in rows {
        count = match write(alloc, &mut writer, &problem, count, row) {
            Ok(next) => next,
            Err(Memory) => write(alloc, &mut writer, &problem, count, row)?,
        };
        if each {
            text.extend_from_slice(writer.drain().bytes())?;
        }
    }
    text.extend_from_slice(writer.drain().bytes())?;
    Ok(Text::new(text))
}

#[test]
fn steps_and_their_text(rt: HostRuntime) -> Result<(), Fail> {
    for (rows, log) in [(LINEAR, NONE_LOG), (MIXED, MIXED_LOG)] {
        for each in [false, true] {
            let written = text_of(rt.alloc(), rows, each)?;
            assert_eq!(rt; written.bytes(), log.as_bytes());
        }
    }
    Ok(())
}
