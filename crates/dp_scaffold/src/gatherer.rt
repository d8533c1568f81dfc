//! The gatherer of scaffolds: it takes the lines one by one.

ghost use Rattle.std.specs.Prelude.{◌≡◌, ◌^◌, ◌≤◌, Ok, IfOk, OnOk, length};
ghost use Rattle.dp_lines.specs.Allowed.{IsAllowed};
ghost use Rattle.dp_parts.specs.Problems.{posed};
ghost use Rattle.dp_scaffold.specs.Answers.{IfMemory, Tells, UnlessMemory, gathered_of};
ghost use Rattle.dp_scaffold.specs.Gathering.{claimed, gather, nothing, scaffold_of};
ghost use Rattle.dp_scaffold.specs.Kept.{IsClosed};
ghost use Rattle.dp_scaffold.specs.Scaffolds.{IsScaffoldOf};

use crate::add::add_line;
use crate::facts::Facts;
use crate::judge::first_refusal;
use crate::{GatherFault, GatherWhy, Scaffold, ScaffoldRefusal};
use dp_domain::Memory;
use dp_lines::Line;
use dp_parts::Problem;
use indexmap::{IndexMap, IndexSet};
use std::alloc::Global;
use std::marker::Model;

/// A gatherer of a scaffold over a problem: what the lines so far say, or the first refusal.
#[derive(Drop)]
pub struct Gatherer<'p> {
    problem: &'p Problem,
    facts: Facts,
    refusal: Option<ScaffoldRefusal>,
}

impl<'p> Model for Gatherer<'p> {
    ghost use Rattle.dp_scaffold.specs.Answers.{Standing, gathered_of, progress_of};
    ghost use Rattle.dp_scaffold.specs.Kept.{IsKept};

    ghost Value = { Standing };

    ghost view = { λ g. record { problem = g.problem.now; progress = progress_of g.refusal (gathered_of g.facts) } };

    ghost invariant = { λ g. IsKept g.problem.now (gathered_of g.facts) };
}

impl<'p> Gatherer<'p> {
    /// A gatherer that has taken no line.
    pub fn new(alloc: Global, problem: &'p Problem) -> Result<Gatherer<'p>, Memory>
        ensures problem { IfOk result (λ gatherer. gatherer.problem ≡ problem.now) }
        ensures nothing { IfOk result (λ gatherer. gatherer.progress ≡ Ok nothing) }
    {
        let _goal = problem.goal();
        let facts = Facts {
            atoms: IndexMap::new(alloc),
            steps: IndexSet::new(alloc),
            literals: 0,
            nogoods: Vec::new(alloc),
            lines: Vec::new(alloc),
            ids: Vec::new(alloc),
            claim: None,
        };
        Ok(Gatherer {
            problem,
            facts,
            refusal: None,
        })
    }

    /// Takes the line with this number. It is refused by the first test that it fails, or because an
    /// earlier line was; that refusal then stands. Without memory the gatherer is as it was.
    pub fn take(&mut self, number: u64, line: &Line) -> Result<(), GatherFault>
        requires { IsAllowed line.now }
        ensures problem { self.new.problem ≡ self.old.problem }
        ensures judged { UnlessMemory result (self.new.progress ≡ gather (posed self.old.problem) self.old.progress (number, line.now)) }
        ensures told { Tells result self.new.progress }
        ensures unchanged { IfMemory result (self.new ≡ self.old) }
    {
        if let Some(refusal) = self.refusal {
            return Err(GatherFault::Refused(refusal));
        }
        if let Some(why) = first_refusal(self.problem, &self.facts, line) {
            let refusal = ScaffoldRefusal { line: number, why };
            self.refusal = Some(refusal);
            return Err(GatherFault::Refused(refusal));
        }
        add_line(self.problem, &mut self.facts, number, line)?;
        Ok(())
    }

    /// The scaffold of so many lines, or the first refusal. Lines without a conclusion are refused
    /// behind the last of them.
    pub fn finish(self, lines: u64) -> Result<Scaffold, ScaffoldRefusal>
        requires { lines ≤ 2 ^ 62 }
        ensures scaffold { result ≡ scaffold_of self.entry.progress lines }
        ensures sound { IfOk result (IsScaffoldOf self.entry.problem) }
    {
        let Gatherer {
            problem: _,
            facts,
            refusal,
        } = self;
        if let Some(refusal) = refusal {
            return Err(refusal);
        }
        scaffold_of(facts, lines)
    }
}

/// The scaffold of what is claimed, or that nothing is.
fn scaffold_of(facts: Facts, lines: u64) -> Result<Scaffold, ScaffoldRefusal>
    requires lines { lines ≤ 2 ^ 62 }
    requires closed { IsClosed (gathered_of facts) }
    ensures { result ≡ claimed lines (gathered_of facts) facts.claim }
{
    let Facts {
        atoms: _,
        steps: _,
        literals: _,
        nogoods,
        lines: places,
        ids,
        claim,
    } = facts;
    match claim {
        Some(claim) => Ok(Scaffold::new(nogoods, places, ids, claim)),
        None => Err(ScaffoldRefusal {
            line: lines + 1,
            why: GatherWhy::NoConclusion,
        }),
    }
}
