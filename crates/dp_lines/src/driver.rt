// The driver of lines: it reads a text that comes in pieces, and hands each line on as soon as its end has come.

ghost use Rattle.std.specs.Prelude.{◌≡◌, ℕ, ◌++◌, ◌∷◌, ◌≤◌, ◌^◌, [], List, None, Some, IfOk, IfSome, length};
ghost use Rattle.dp_lines.specs.Allowed.{IsAllowed};
ghost use Rattle.dp_lines.specs.Driving.{AreLeft, HasCome, HasTaken, limits};
ghost use Rattle.dp_lines.specs.Lines.{Lines, lines};
ghost use Rattle.dp_lines.specs.RawLines.{raw_lines};
ghost use Rattle.dp_lines.specs.Runs.{with_all};
ghost use Rattle.dp_lines.specs.SoFar.{lines_so_far};
ghost use Rattle.dp_lines.specs.declared.line.Line.{Line};

use crate::{Limits, Line, LineFault, LineJudge, LineRefusal, Reader};
use dp_domain::Memory;
use std::alloc::Global;
use std::marker::Model;

/// The most bytes of a line and of a text.
const LIMITS: Limits = Limits {
    line: 1 << 24,
    total: 1 << 40,
};

/// What judges the lines of a text one by one.
pub trait LineTaker: Drop {
    /// What is answered.
    type Answer;

    /// These lines were taken, and none of them is refused.
    ghost took: { Self → List (ℕ × Line) → Type 0 };

    /// This is the answer for the text.
    ghost due: { Self → List ℕ → Self.Answer → Type 0 };

    /// The answer refuses a line, whatever follows it.
    ghost refuses: { Self.Answer → Type 0 };

    /// None of the lines of the text whose end has come is refused, in the words of the kind.
    ghost unrefused: { Self → List ℕ → Type 0 };

    /// Takes the line with this number. It answers where the line is refused; behind such an answer nothing is promised of
    /// later calls.
    fn take(&mut self, number: u64, line: Line) -> Result<Option<Self::Answer>, Memory>
        requires { IsAllowed line }
        ensures going { IfOk result (λ answer. answer ≡ None → (given : List (ℕ × Line)) → took self.old given → took self.new (given ++ (number, line) ∷ [])) }
        ensures refused { IfOk result (λ answer. IfSome answer (λ a. refuses a × ((given : List (ℕ × Line)) (rest : Lines) (text : List ℕ) → took self.old given →
            lines limits text ≡ with_all (given ++ (number, line) ∷ []) rest → due self.old text a))) }
        ensures same_due { (text : List ℕ) (a : Self.Answer) → due self.new text a → due self.old text a }
        ensures same_unrefused { (text : List ℕ) → unrefused self.new text → unrefused self.old text };

    /// The answer where the line behind those that were taken cannot be read. Nothing is promised of later calls.
    fn unread(&mut self, refusal: LineRefusal) -> Self::Answer
        ensures refused { refuses result }
        ensures answered { (given : List (ℕ × Line)) (text : List ℕ) → took self.old given →
            lines limits text ≡ record { given = given; refusal = Some refusal } → due self.old text result }
        ensures same_due { (text : List ℕ) (a : Self.Answer) → due self.new text a → due self.old text a }
        ensures same_unrefused { (text : List ℕ) → unrefused self.new text → unrefused self.old text };

    /// The answer behind the last line of a text, which has so many with the blank ones.
    fn finish(self, count: u64) -> Self::Answer
        requires { count ≤ 2 ^ 62 }
        ensures { (given : List (ℕ × Line)) (text : List ℕ) → took self given → lines limits text ≡ record { given = given; refusal = None } →
            length (raw_lines text) ≡ count → due self text result };

    /// Where all lines so far were taken, none is refused.
    ghost quiet: { (t : Self) (given : List (ℕ × Line)) (front : List ℕ) → took t given →
        lines_so_far limits front ≡ record { given = given; refusal = None } → unrefused t front };
}

/// A text that is judged while it comes: each line as soon as its end has come.
#[derive(Drop)]
pub struct InPieces<T> {
    reader: Reader,
    taker: T,
}

impl<T> Model for InPieces<T> {
    ghost use Rattle.dp_lines.specs.Driving.{Coming};

    ghost Value = { Coming T };

    ghost view = { λ c. record { taker = c.taker; reader = c.reader } };
}

impl<T: LineTaker> InPieces<T> {
    /// Nothing of the text has come.
    pub fn new(alloc: Global, taker: T) -> InPieces<T>
        requires { T.took taker [] }
        ensures behind { HasCome (T.took result.taker) [] result.reader }
        ensures taker { result.taker ≡ taker }
    {
        InPieces {
            reader: Reader::new(alloc, LIMITS),
            taker,
        }
    }
}

impl<T: LineTaker> LineJudge for InPieces<T> {
    type Answer = T::Answer;

    ghost behind = { λ c front. HasCome (T.took c.taker) front c.reader };

    ghost due = { λ c. T.due c.taker };

    ghost refuses = { T.refuses };

    ghost unrefused = { λ c. T.unrefused c.taker };

    fn feed(&mut self, piece: &[u8]) -> Result<Option<T::Answer>, Memory> {
        self.reader.feed(piece)?;
        take_lines(&mut self.reader, &mut self.taker)
    }

    fn finish(self) -> Result<T::Answer, Memory> {
        let InPieces {
            mut reader,
            mut taker,
        } = self;
        reader.end();
        match take_lines(&mut reader, &mut taker)? {
            Some(answer) => Ok(answer),
            None => Ok(taker.finish(reader.lines_seen())),
        }
    }

    ghost quiet = { λ c front h. T.quiet c.taker h.taken.given front h.taken.taken h.quiet };
}

/// Hands on the whole lines that are left, up to the first that is refused.
fn take_lines<T: LineTaker>(reader: &mut Reader, taker: &mut T) -> Result<Option<T::Answer>, Memory>
    ensures left { IfOk result (λ answer. (front : List ℕ) → HasTaken (T.took taker.old) front reader.old →
        AreLeft (T.took taker.new) (T.due taker.old) answer front reader.new) }
    ensures refused { IfOk result (λ answer. IfSome answer T.refuses) }
    ensures same_due { (text : List ℕ) (a : T.Answer) → T.due taker.new text a → T.due taker.old text a }
    ensures same_unrefused { (text : List ℕ) → T.unrefused taker.new text → T.unrefused taker.old text }
    ensures ended { reader.new.ended ≡ reader.old.ended }
{
    loop {
        match reader.line() {
            Ok(Some((number, line))) => {
                if let Some(answer) = taker.take(number, line)? {
                    return Ok(Some(answer));
                }
            }
            Ok(None) => return Ok(None),
            Err(LineFault::Refused(refusal)) => return Ok(Some(taker.unread(refusal))),
            Err(LineFault::Memory) => return Err(Memory),
        }
    }
}

/// Judges a text that has come as a whole.
pub fn judge_text<J: LineJudge + Drop>(judge: J, text: &[u8]) -> Result<J::Answer, Memory>
    requires fresh { J.behind judge [] }
    requires small { length text.now ≤ 2 ^ 62 }
    ensures { IfOk result (J.due judge text.now) }
{
    let mut judge = judge;
    match judge.feed(text)? {
        Some(answer) => Ok(answer),
        None => judge.finish(),
    }
}
