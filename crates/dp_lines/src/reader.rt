// A reader of the lines of a log that comes in pieces.

ghost use Rattle.std.specs.Prelude.{◌≡◌, ◌+◌, ◌-◌, ◌<◌, ◌≤◌, ◌^◌, None, IfOk, IfSome, OnErr, OnOk, drop, length, take, true, false};
ghost use Rattle.dp_lines.specs.Allowed.{IsAllowed};
ghost use Rattle.dp_lines.specs.Answers.{IfMemory, UnlessMemory};
ghost use Rattle.dp_lines.specs.Kept.{has_no_feed};
ghost use Rattle.dp_lines.specs.Readers as spec;
ghost use Rattle.dp_lines.specs.Standing.{Told};
ghost use Rattle.dp_lines.specs.declared.step.First.TheVariants.{Nothing};

use crate::Line;
use crate::refusal::{Limits, LineFault, LineRefusal};
use crate::step::{First, Step, first_step, overlong_step};
use dp_domain::Memory;
use std::alloc::Global;
use std::marker::Model;

/// A reader of a log. It keeps the bytes that no line has taken; but of an unfinished line that has more than a line may have,
/// it holds just as many as that, and counts the others.
#[derive(Drop)]
pub struct Reader {
    limits: Limits,
    count: u64,
    passed: u64,
    held: Vec<u8>,
    start: usize,
    clear: usize,
    beyond: u64,
    ended: bool,
    refusal: Option<LineRefusal>,
}

impl Model for Reader {
    ghost use Rattle.std.specs.Prelude.{drop};
    ghost use Rattle.dp_lines.specs.Kept.{IsKept};
    ghost use Rattle.dp_lines.specs.Readers.{State};

    ghost Value = { State };

    ghost view = { λ r. record { limits = r.limits; count = r.count; passed = r.passed; held = drop r.start r.held.items; beyond = r.beyond; ended = r.ended; refusal = r.refusal } };

    ghost invariant = { λ r. IsKept r.held.items r.start r.clear r.count r.passed r.beyond r.limits.line };
}

impl Reader {
    /// A reader that was fed nothing.
    pub fn new(alloc: Global, limits: Limits) -> Reader
        requires line { limits.line ≤ 2 ^ 62 }
        requires total { limits.total ≤ 2 ^ 62 }
        ensures fresh { result ≡ spec.fresh limits }
        ensures stands { spec.IsStanding result }
    {
        Reader {
            limits,
            count: 0,
            passed: 0,
            held: Vec::new(alloc),
            start: 0,
            clear: 0,
            beyond: 0,
            ended: false,
            refusal: None,
        }
    }

    /// Takes the next piece of the log.
    pub fn feed(&mut self, piece: &[u8]) -> Result<(), Memory>
        requires open_text { self.old.ended ≡ false }
        requires small { spec.total self.old + length piece.now ≤ 2 ^ 62 }
        ensures fed { OnOk result (self.new ≡ spec.fed self.old piece.now) }
        ensures unchanged { OnErr result (self.new ≡ self.old) }
        ensures stands { spec.IsStanding self.new }
    {
        self.held.extend_from_slice(piece)?;
        Ok(())
    }

    /// No more bytes come.
    pub fn end(&mut self)
        ensures closed { self.new ≡ spec.closed self.old }
        ensures stands { spec.IsStanding self.new }
    {
        self.ended = true;
    }

    /// The next line that is not blank, with its number from 1; None exactly where no whole line that is not blank is left
    /// of what was fed. A refusal comes again. Without memory the reader is as it was.
    pub fn line(&mut self) -> Result<Option<(u64, Line)>, LineFault>
        ensures answered { UnlessMemory result (result ≡ spec.answer_of self.old) }
        ensures passed { UnlessMemory result (self.new ≡ spec.after self.old) }
        ensures unchanged { IfMemory result (self.new ≡ self.old) }
        ensures told { Told result self.old self.new }
        ensures kept { IfOk result (λ answer. answer ≡ None → length self.new.held ≤ self.new.limits.line) }
        ensures stood { spec.IsStanding self.old }
        ensures stands { spec.IsStanding self.new }
        ensures total { spec.total self.new ≡ spec.total self.old }
        ensures ended { self.new.ended ≡ self.old.ended }
        ensures allowed { IfOk result (λ answer. IfSome answer (λ line. IsAllowed line.1)) }
    {
        self.advance()
    }

    /// The first of the lines that are left, and the state behind it.
    fn advance(&mut self) -> Result<Option<(u64, Line)>, LineFault>
        ensures answered { UnlessMemory result (result ≡ spec.answer_of self.old) }
        ensures passed { UnlessMemory result (self.new ≡ spec.after self.old) }
        ensures unchanged { IfMemory result (self.new ≡ self.old) }
        ensures kept { IfOk result (λ answer. answer ≡ None → length self.new.held ≤ self.new.limits.line) }
        ensures stood { spec.IsStanding self.old }
        ensures stands { spec.IsStanding self.new }
        ensures total { spec.total self.new ≡ spec.total self.old }
        ensures ended { self.new.ended ≡ self.old.ended }
        ensures allowed { IfOk result (λ answer. IfSome answer (λ line. IsAllowed line.1)) }
    {
        if let Some(refusal) = self.refusal {
            return Err(LineFault::Refused(refusal));
        }
        let Step { first, count, used } = self.step()?;
        self.pass(count, used);
        match first {
            First::Line(line) => Ok(Some((count, line))),
            First::Refusal(refusal) => {
                self.refusal = Some(refusal);
                Err(LineFault::Refused(refusal))
            }
            First::Nothing => {
                self.hold_back();
                Ok(None)
            }
        }
    }

    /// What comes next.
    #[tactic(auto, using(crate::proofs::HeldLaws::stands_whole))]
    fn step(&self) -> Result<Step, Memory>
        requires { self.now.refusal ≡ None }
        ensures step { IfOk result (λ step. step ≡ spec.step_of self.now) }
        ensures within { IfOk result (λ step. step.used ≤ length self.now.held) }
        ensures lines { IfOk result (λ step. step.count ≤ self.now.passed + step.used) }
        ensures counted { IfOk result (λ step. 0 < self.now.beyond → step.used ≡ 0) }
        ensures nothing { IfOk result (λ step. step.first ≡ Nothing → has_no_feed (drop step.used self.now.held) ≡ true) }
    {
        let alloc = *self.held.allocator();
        let (_, held) = self.held.as_slice().split_at(self.start);
        if self.beyond > 0 {
            return Ok(overlong_step(
                self.limits,
                self.ended,
                self.passed,
                self.count,
                held,
                self.clear,
                self.beyond,
            ));
        }
        first_step(
            alloc,
            self.limits,
            self.ended,
            self.passed,
            self.count,
            held,
            self.clear,
        )
    }

    /// Passes lines up to this count, which have these bytes.
    fn pass(&mut self, count: u64, used: usize)
        requires within { used ≤ length self.old.held }
        requires lines { count ≤ self.old.passed + used }
        requires counted { 0 < self.old.beyond → used ≡ 0 }
        ensures { self.new ≡ record self.old { count = count; passed = self.old.passed + used; held = drop used self.old.held } }
    {
        self.count = count;
        self.passed += used as u64;
        self.start += used;
        if used > 0 {
            self.clear = 0;
        }
    }

    /// Gives up the bytes that lines have taken, and counts those that an unfinished line has too many, where none of them
    /// is a line feed.
    fn hold_back(&mut self)
        requires { has_no_feed self.old.held ≡ true }
        ensures { self.new ≡ record self.old { held = spec.held_back self.old.limits.line (spec.standing self.old); beyond = spec.counted self.old.limits.line (spec.standing self.old) } }
    {
        give_up(&mut self.held, self.start);
        self.start = 0;
        self.beyond += cut_off(&mut self.held, self.limits.line);
        self.clear = self.held.len();
    }

    /// The number of lines, blank ones included, that were given or passed over.
    pub fn lines_seen(&self) -> u64
        ensures { result ≡ self.now.count }
    {
        self.count
    }
}

/// Takes away the first bytes.
fn give_up(held: &mut Vec<u8>, taken: usize)
    requires { taken ≤ length held.old.items }
    ensures { held.new.items ≡ drop taken held.old.items }
{
    if taken > 0 {
        drop(held.drain(..taken));
    }
}

/// Takes away the bytes past the limit, and answers how many they were.
fn cut_off(held: &mut Vec<u8>, limit: u64) -> u64
    ensures held { held.new.items ≡ take limit held.old.items }
    ensures beyond { result ≡ length held.old.items - limit }
{
    let limit = limit as usize;
    let beyond = held.len().saturating_sub(limit);
    held.truncate(limit);
    beyond as u64
}
