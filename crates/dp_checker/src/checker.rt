// The checker of logs: it takes the lines one by one.

ghost use Rattle.std.specs.Prelude.{◌≡◌, ◌^◌, ◌≤◌, ◌+◌, None, Some, Ok, IfOk, OnOk, OnErr};
ghost use Rattle.dp_base.specs.Names.{is_name};
ghost use Rattle.dp_domain.specs.Atoms.{IsNameable};
ghost use Rattle.dp_lines.specs.Allowed.{IsAllowed};
ghost use Rattle.dp_parts.specs.Problems.{posed};
ghost use Rattle.dp_checker.specs.Answers.{IfMemory, IfRefused, Tells, UnlessMemory, known_of};
ghost use Rattle.dp_checker.specs.Judged.{after, atom_refusal, first_refusal, judge, line_refusal, verdict, verdict_of};
ghost use Rattle.dp_checker.specs.Kept.{IsKept, IsRight};
ghost use Rattle.dp_checker.specs.Known.{nothing};
ghost use Rattle.dp_base.specs.Names.{named};

use crate::conclusion::judge_claim;
use crate::facts::{Facts, add_atom};
use crate::fault::{CheckFault, Fault};
use crate::inference::judge_inference;
use crate::nogood::judge_nogood;
use crate::steps::Steps;
use crate::{StepRefusal, Why};
use dp_domain::{Atom, Memory, Name, Op, Scratch, Verdict};
use dp_lines::Line;
use dp_parts::Problem;
use indexmap::IndexMap;
use std::alloc::Global;
use std::marker::Model;

/// A checker of a log over a problem: what the lines so far have made known, or the first refusal.
#[derive(Drop)]
pub struct Checker<'p> {
    problem: &'p Problem,
    facts: Facts,
    scratch: Scratch,
    refusal: Option<StepRefusal>,
}

impl<'p> Model for Checker<'p> {
    ghost use Rattle.dp_checker.specs.Answers.{Checking, known_of, progress_of};
    ghost use Rattle.dp_checker.specs.Kept.{IsReady};

    ghost Value = { Checking };

    ghost view = { λ c. record { problem = c.problem.now; progress = progress_of c.refusal (known_of c.facts) } };

    ghost invariant = { λ c. IsReady c.problem.now (known_of c.facts) c.scratch.base };
}

impl<'p> Checker<'p> {
    /// A checker that has taken no line.
    pub fn new(alloc: Global, problem: &'p Problem) -> Result<Checker<'p>, Memory>
        ensures problem { IfOk result (λ checker. checker.problem ≡ problem.now) }
        ensures nothing { IfOk result (λ checker. checker.progress ≡ Ok nothing) }
    {
        let facts = Facts {
            atoms: IndexMap::new(alloc),
            steps: Steps::new(alloc),
            conclusion: None,
        };
        let scratch = Scratch::new(problem.initial().copy()?);
        Ok(Checker {
            problem,
            facts,
            scratch,
            refusal: None,
        })
    }

    /// Takes the line with this number. It is refused by the first test that it fails, or because an
    /// earlier line was; that refusal then stands. Without memory the checker is as it was.
    pub fn take(&mut self, number: u64, line: &Line) -> Result<(), CheckFault>
        requires { IsAllowed line.now }
        ensures problem { self.new.problem ≡ self.old.problem }
        ensures judged { UnlessMemory result (self.new.progress ≡ judge (posed self.old.problem) self.old.progress (number, line.now)) }
        ensures told { Tells result self.new.progress }
        ensures unchanged { IfMemory result (self.new ≡ self.old) }
    {
        if let Some(refusal) = self.refusal {
            return Err(CheckFault::Refused(refusal));
        }
        match learn(self.problem, &mut self.facts, &mut self.scratch, line) {
            Ok(()) => Ok(()),
            Err(Fault::Memory) => Err(CheckFault::Memory),
            Err(Fault::Refused(why)) => {
                let refusal = StepRefusal { line: number, why };
                self.refusal = Some(refusal);
                Err(CheckFault::Refused(refusal))
            }
        }
    }

    /// The verdict on a log of so many lines: its conclusion, or the first refusal. A log without a
    /// conclusion is refused behind its last line.
    pub fn finish(self, lines: u64) -> Result<Verdict, StepRefusal>
        requires { lines ≤ 2 ^ 62 }
        ensures verdict { result ≡ verdict self.entry.progress lines }
        ensures sound { IfOk result (IsRight self.entry.problem) }
    {
        match &self.refusal {
            Some(refusal) => Err(*refusal),
            None => verdict_of(&self.facts.conclusion, lines),
        }
    }
}

/// The conclusion, or that there is none.
fn verdict_of(conclusion: &Option<Verdict>, lines: u64) -> Result<Verdict, StepRefusal>
    requires { lines ≤ 2 ^ 62 }
    ensures { result ≡ verdict_of lines conclusion.now }
{
    match conclusion {
        Some(verdict) => Ok(*verdict),
        None => Err(StepRefusal {
            line: lines + 1,
            why: Why::NoConclusion,
        }),
    }
}

/// Adds what the line makes known, unless a test refuses it.
fn learn(
    problem: &Problem,
    facts: &mut Facts,
    scratch: &mut Scratch,
    line: &Line,
) -> Result<(), Fault>
    requires kept { IsKept problem.now (known_of facts.old) }
    requires base { scratch.old.base ≡ problem.now.initial }
    requires allowed { IsAllowed line.now }
    ensures accepted { OnOk result (first_refusal (posed problem.now) (known_of facts.old) line.now ≡ None) }
    ensures known { OnOk result (known_of facts.new ≡ after (posed problem.now) (known_of facts.old) line.now) }
    ensures base { scratch.new.base ≡ scratch.old.base }
    ensures refused { IfRefused result (λ why. first_refusal (posed problem.now) (known_of facts.old) line.now ≡ Some why) }
    ensures unchanged { OnErr result (known_of facts.new ≡ known_of facts.old) }
{
    if facts.conclusion.is_some() {
        return Err(Fault::Refused(Why::AfterConclusion));
    }
    learn_line(problem, facts, scratch, line)
}

fn learn_line(
    problem: &Problem,
    facts: &mut Facts,
    scratch: &mut Scratch,
    line: &Line,
) -> Result<(), Fault>
    requires kept { IsKept problem.now (known_of facts.old) }
    requires base { scratch.old.base ≡ problem.now.initial }
    requires allowed { IsAllowed line.now }
    ensures accepted { OnOk result (line_refusal (posed problem.now) (known_of facts.old) line.now ≡ None) }
    ensures known { OnOk result (known_of facts.new ≡ after (posed problem.now) (known_of facts.old) line.now) }
    ensures base { scratch.new.base ≡ scratch.old.base }
    ensures refused { IfRefused result (λ why. line_refusal (posed problem.now) (known_of facts.old) line.now ≡ Some why) }
    ensures unchanged { OnErr result (known_of facts.new ≡ known_of facts.old) }
{
    match line {
        Line::Atom {
            id,
            name,
            op,
            value,
        } => {
            let atom = judge_atom(problem, facts, *id, name, *op, *value)?;
            add_atom(&mut facts.atoms, *id, atom)?;
            Ok(())
        }
        Line::Inference {
            id,
            premises,
            consequent,
            constraint,
            label,
        } => {
            let denial = judge_inference(
                problem,
                facts,
                scratch,
                *id,
                premises.as_slice(),
                *consequent,
                *constraint,
                label,
            )?;
            facts.steps.push(*id, denial.as_slice())?;
            Ok(())
        }
        Line::Nogood { id, atoms, hints } => {
            let denial = judge_nogood(
                problem,
                facts,
                scratch,
                *id,
                atoms.as_slice(),
                hints.as_slice(),
            )?;
            facts.steps.push(*id, denial.as_slice())?;
            Ok(())
        }
        Line::Delete { id: _ } => unreachable!(),
        Line::Conclude(claim) => {
            let verdict = judge_claim(problem, facts, scratch, *claim)?;
            facts.conclusion = Some(verdict);
            Ok(())
        }
    }
}

/// The atom of a line that defines one, or the first test that the line fails.
fn judge_atom(
    problem: &Problem,
    facts: &Facts,
    id: u64,
    name: &Name,
    op: Op,
    value: i64,
) -> Result<Atom, Fault>
    requires { IsNameable op value }
    ensures accepted { OnOk result (atom_refusal (posed problem.now) (known_of facts.now) id name.now ≡ None) }
    ensures atom { IfOk result (λ atom. (atom ≡ record { var = atom.var; op = op; value = value }) × (named problem.now.names name.now ≡ Some atom.var)) }
    ensures refused { IfRefused result (λ why. atom_refusal (posed problem.now) (known_of facts.now) id name.now ≡ Some why) }
{
    let Some(var) = problem.variable(name) else {
        return Err(Fault::Refused(Why::UnknownVar));
    };
    if facts.atoms.contains_key(&id) {
        return Err(Fault::Refused(Why::AtomTwice));
    }
    let atom = Atom::new(var, op, value).unwrap();
    Ok(atom)
}
