// Judging an input while it is read.

ghost use Rattle.std.specs.Prelude.{◌≡◌, ◌++◌, ◌≤◌, ◌<◌, ◌+◌, ◌^◌, ℕ, List, [], length, take, None, IfOk, IfSome, IsErrOf};
ghost use Rattle.dp_desk.specs.Channel.{IsAtEnd, IsOpen, Takes};
ghost use Rattle.dp_desk.specs.Sight.{input, with_input};
ghost use Rattle.dp_command.specs.Inputs.{HasReadCause};
ghost use Rattle.dp_command.specs.Pieces.{IsAnswered, IsPatient, Judges, StaysDue};
ghost use Rattle.dp_command.specs.declared.trouble.Trouble.TheVariants.{ReadFault};

use crate::Trouble;
use crate::reading::blank_piece;
use dp_desk::{Desk, In};
use dp_lines::LineJudge;
use std::alloc::Global;

/// Opens an input and judges it piece by piece: to its end, up to a number of bytes, or up to its first refused line,
/// behind which nothing more is read.
pub(crate) fn judge_read<D: Desk, J: LineJudge + Drop>(
    alloc: Global,
    desk: &mut D,
    which: In,
    name: &str,
    bound: usize,
    judge: J,
) -> Result<J::Answer, Trouble>
    requires fresh { J.behind judge [] }
    requires bound { bound ≤ 2 ^ 62 }
    ensures answer { IfOk result (IsAnswered (J.due judge) J.refuses bound (D.sight desk.old).names name.now (input which (D.sight desk.new))) }
    ensures patient { IsErrOf result ReadFault → IsPatient (J.unrefused judge) (D.sight desk.old).names name.now (input which (D.sight desk.old)) (input which (D.sight desk.new)) }
    ensures rest { D.sight desk.new ≡ with_input which (input which (D.sight desk.new)) (D.sight desk.old) }
    ensures cause { HasReadCause (D.faults_in desk.old) (D.faults_in desk.new) result }
    ensures other { D.faults_out desk.new ≡ D.faults_out desk.old }
{
    desk.open_in(which, name)?;
    judge_to_bound(alloc, desk, which, bound, judge)
}

// Judges an input from where it stands to its end, up to a number of bytes, or up to its first refused line.
fn judge_to_bound<D: Desk, J: LineJudge + Drop>(
    alloc: Global,
    desk: &mut D,
    which: In,
    bound: usize,
    judge: J,
) -> Result<J::Answer, Trouble>
    requires open_input { IsOpen (input which (D.sight desk.old)) }
    requires fresh { J.behind judge [] }
    requires bound { bound ≤ 2 ^ 62 }
    ensures answer { IfOk result (Judges (J.due judge) J.refuses bound (input which (D.sight desk.old)) (input which (D.sight desk.new))) }
    ensures patient { IsErrOf result ReadFault → (front : List ℕ) × Takes (input which (D.sight desk.old)) (input which (D.sight desk.new)) front × J.unrefused judge front }
    ensures rest { D.sight desk.new ≡ with_input which (input which (D.sight desk.new)) (D.sight desk.old) }
    ensures cause { HasReadCause (D.faults_in desk.old) (D.faults_in desk.new) result }
    ensures other { D.faults_out desk.new ≡ D.faults_out desk.old }
{
    let mut judge = judge;
    let mut blank = blank_piece(alloc)?;
    let piece = blank.as_mut_slice();
    let mut left = bound;
    while left > 0 {
        let most = piece.len().min(left);
        let (count, answer) = judge_next(desk, which, &mut piece[..most], &mut judge)?;
        if let Some(answer) = answer {
            return Ok(answer);
        }
        if count == 0 {
            return Ok(judge.finish()?);
        }
        left -= count;
    }
    Ok(judge.finish()?)
}

// Reads once, and judges each line whose end has come: how many bytes were read, and the answer where one is refused.
fn judge_next<D: Desk, J: LineJudge>(
    desk: &mut D,
    which: In,
    piece: &mut [u8],
    judge: &mut J,
) -> Result<(usize, Option<J::Answer>), Trouble>
    requires open_input { IsOpen (input which (D.sight desk.old)) }
    requires room { (front : List ℕ) × J.behind judge.old front × (length front + length piece.old ≤ 2 ^ 62) }
    ensures bound { IfOk result (λ next. next.0 ≤ length piece.old) }
    ensures count { IfOk result (λ next. length (take next.0 piece.new) ≡ next.0) }
    ensures len { length piece.new ≡ length piece.old }
    ensures took { IfOk result (λ next. Takes (input which (D.sight desk.old)) (input which (D.sight desk.new)) (take next.0 piece.new)) }
    ensures end { IfOk result (λ next. next.0 ≡ 0 → 0 < length piece.old → IsAtEnd (input which (D.sight desk.new))) }
    ensures going { IfOk result (λ next. next.1 ≡ None → (front : List ℕ) → J.behind judge.old front → J.behind judge.new (front ++ take next.0 piece.new)) }
    ensures refused { IfOk result (λ next. IfSome next.1 (λ a. J.refuses a × ((front more : List ℕ) → J.behind judge.old front → J.due judge.old (front ++ take next.0 piece.new ++ more) a))) }
    ensures same_due { StaysDue (J.due judge.new) (J.due judge.old) }
    ensures same_unrefused { (front : List ℕ) → J.unrefused judge.new front → J.unrefused judge.old front }
    ensures failed { IsErrOf result ReadFault → D.sight desk.new ≡ D.sight desk.old }
    ensures rest { D.sight desk.new ≡ with_input which (input which (D.sight desk.new)) (D.sight desk.old) }
    ensures cause { HasReadCause (D.faults_in desk.old) (D.faults_in desk.new) result }
    ensures other { D.faults_out desk.new ≡ D.faults_out desk.old }
{
    let count = desk.read(which, piece)?;
    let answer = judge.feed(&piece[..count])?;
    Ok((count, answer))
}
