// The writer.

ghost use Rattle.std.specs.Prelude.{◌≡◌, ◌+◌, ◌≤◌, ◌^◌, ◌++◌, true, [], length, take, IfOk, IfSome, IsOkAnd, OnErr, OnOk};
ghost use Rattle.dp_base.specs.Lists.{Each};
ghost use Rattle.dp_lines.specs.Allowed.{is_label};
ghost use Rattle.dp_writer.specs.Written.{Adds, HandsOver, IsAnswered, IsClaimOf, IsConstraintOf, IsOf, StandsFor, conclusion, inference, nogood};

use crate::key::Key;
use crate::numbering::next_number;
use crate::step::{conclusion_lines, inference_lines, nogood_lines};
use dp_base::{Memory, Text};
use dp_domain::{Atom, Verdict};
use dp_parts::Problem;
use indexmap::IndexSet;
use std::alloc::Global;
use std::marker::Model;
use std::mem;

/// Writes a log step by step. Steps with numbers are numbered from 1 in the order of the calls, atoms
/// from 1 at first use. After want of memory a writer is as it was.
#[derive(Drop)]
pub struct Writer {
    atoms: IndexSet<Key>,
    count: u64,
    text: Vec<u8>,
}

impl Model for Writer {
    ghost use Rattle.std.specs.Prelude.{◌≤◌, ◌^◌, length};
    ghost use Rattle.dp_writer.specs.Written.{Written};

    ghost Value = { Written };

    ghost view = { λ w. record { atoms = w.atoms.keys; count = w.count; text = w.text.items } };

    ghost invariant = { λ w. (length w.atoms.keys ≤ 10 ^ 18) × (w.count ≤ 10 ^ 18) };
}

impl Writer {
    /// A writer of an empty log.
    pub fn new(alloc: Global) -> Writer
        ensures { StandsFor result [] [] }
    {
        Writer {
            atoms: IndexSet::new(alloc),
            count: 0,
            text: Vec::new(alloc),
        }
    }

    /// Writes an inference from the premises to the consequent, or to a contradiction where there is
    /// none, by the constraint with this number from 1 and this label. Answers the step's number.
    pub fn inference(
        &mut self,
        problem: &Problem,
        premises: &[Atom],
        consequent: Option<Atom>,
        constraint: u64,
        label: &str,
    ) -> Result<u64, Memory>
        requires premises { Each (IsOf problem.now) premises.now }
        requires consequent { IfSome consequent (IsOf problem.now) }
        requires constraint { IsConstraintOf problem.now constraint }
        requires label { is_label label.now ≡ true }
        ensures written { OnOk result (Adds self.old (inference problem.now premises.now consequent constraint label.now) self.new) }
        ensures number { IfOk result (λ n. n ≡ self.old.count + 1) }
        ensures counted { IfOk result (λ n. self.new.count ≡ n) }
        ensures err { OnErr result (self.new ≡ self.old) }
    {
        // What a problem keeps is known by a look at it: its constraints are few.
        let _goal = problem.goal();
        let number = next_number(self.count)?;
        let kept = self.atoms.len();
        let lines = inference_lines(
            &mut self.atoms,
            number,
            problem,
            premises,
            consequent,
            constraint,
            label,
        );
        settle(&mut self.atoms, kept, &mut self.text, lines)?;
        self.count = number;
        Ok(number)
    }

    /// Writes the nogood of the atoms with its hints, which are numbers that this writer answered.
    /// Answers the step's number.
    pub fn nogood(
        &mut self,
        problem: &Problem,
        atoms: &[Atom],
        hints: &[u64],
    ) -> Result<u64, Memory>
        requires atoms { Each (IsOf problem.now) atoms.now }
        requires hints { Each (IsAnswered self.old) hints.now }
        ensures written { OnOk result (Adds self.old (nogood problem.now atoms.now hints.now) self.new) }
        ensures number { IfOk result (λ n. n ≡ self.old.count + 1) }
        ensures counted { IfOk result (λ n. self.new.count ≡ n) }
        ensures err { OnErr result (self.new ≡ self.old) }
    {
        let number = next_number(self.count)?;
        let kept = self.atoms.len();
        let lines = nogood_lines(&mut self.atoms, number, problem, atoms, hints);
        settle(&mut self.atoms, kept, &mut self.text, lines)?;
        self.count = number;
        Ok(number)
    }

    /// Writes the conclusion.
    pub fn conclude(&mut self, problem: &Problem, claim: Verdict) -> Result<(), Memory>
        requires claim { IsClaimOf problem.now claim }
        ensures written { OnOk result (Adds self.old (conclusion problem.now claim) self.new) }
        ensures counted { OnOk result (self.new.count ≡ self.old.count) }
        ensures err { OnErr result (self.new ≡ self.old) }
    {
        let kept = self.atoms.len();
        let lines = conclusion_lines(&mut self.atoms, problem, claim);
        settle(&mut self.atoms, kept, &mut self.text, lines)
    }

    /// Hands over the bytes since the last drain. The numbering goes on.
    pub fn drain(&mut self) -> Text
        ensures handed { HandsOver self.old result self.new }
        ensures bytes { result ≡ self.old.text }
        ensures rest { self.new ≡ record self.old { text = [] } }
    {
        let alloc = *self.text.allocator();
        Text::new(mem::replace(&mut self.text, Vec::new(alloc)))
    }
}

// Appends the lines of a step, or takes back the atoms that they would have defined.
fn settle(
    atoms: &mut IndexSet<Key>,
    kept: usize,
    text: &mut Vec<u8>,
    lines: Result<Vec<u8>, Memory>,
) -> Result<(), Memory>
    ensures atoms { OnOk result (atoms.new.keys ≡ atoms.old.keys) }
    ensures text { OnOk result (IsOkAnd lines (λ l. text.new.items ≡ text.old.items ++ l.items)) }
    ensures taken_back { OnErr result (atoms.new.keys ≡ take kept atoms.old.keys) }
    ensures err { OnErr result (text.new.items ≡ text.old.items) }
{
    let settled = append(text, lines);
    if settled.is_err() {
        atoms.truncate(kept);
    }
    settled
}

// Appends the lines, where there are any.
fn append(text: &mut Vec<u8>, lines: Result<Vec<u8>, Memory>) -> Result<(), Memory>
    ensures text { OnOk result (IsOkAnd lines (λ l. text.new.items ≡ text.old.items ++ l.items)) }
    ensures err { OnErr result (text.new.items ≡ text.old.items) }
{
    let lines = lines?;
    text.extend_from_slice(lines.as_slice())?;
    Ok(())
}
