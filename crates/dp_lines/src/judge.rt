// One line of a log, by the limits and then by its words.

ghost use Rattle.std.specs.Prelude.{◌≡◌, ◌+◌, ◌≤◌, ◌<◌, ◌^◌, IfOk, length};
ghost use Rattle.dp_lines.specs.Lines as spec;
ghost use Rattle.dp_lines.specs.RawLines as raw;

use crate::Line;
use crate::fields::read_line;
use crate::refusal::{Fault, Flaw, Limits, LineRefusal};
use crate::words::Words;
use dp_domain::Memory;
use std::alloc::Global;

/// What a line is.
#[derive(Debug, Drop)]
pub enum Judged {
    Blank,
    Given(Line),
    Refused(LineRefusal),
}

fn refusal_of(number: u64, flaw: Flaw) -> LineRefusal
    ensures { result ≡ spec.refusal_of number flaw }
{
    match flaw {
        Flaw::Form(byte) => LineRefusal::Form(number, byte),
        Flaw::Number(byte) => LineRefusal::Number(number, byte),
        Flaw::NotBuilt => LineRefusal::NotBuilt(number),
    }
}

/// The line without its end, to which a last CR belongs.
fn content(bytes: &[u8]) -> &[u8]
    ensures value { result.now ≡ raw.content bytes.now }
    ensures within { length result.now ≤ length bytes.now }
{
    match bytes {
        [front @ .., b'\r'] => front,
        _ => bytes,
    }
}

/// The line of these bytes, which stand before a line's end.
fn judge_words(alloc: Global, number: u64, content: &[u8]) -> Result<Judged, Memory>
    requires { length content.now ≤ 2 ^ 62 }
    ensures { IfOk result (λ judged. judged ≡ spec.judged_content number content.now) }
{
    let mut words = Words::new(content);
    if words.is_done() {
        return Ok(Judged::Blank);
    }
    match read_line(alloc, &mut words) {
        Ok(line) => Ok(Judged::Given(line)),
        Err(Fault::Flawed(flaw)) => Ok(Judged::Refused(refusal_of(number, flaw))),
        Err(Fault::Memory) => Err(Memory),
    }
}

/// Line `number`, before which `passed` bytes stand: these bytes, and a line feed if `fed`.
pub fn judge(
    alloc: Global,
    limits: Limits,
    number: u64,
    passed: u64,
    bytes: &[u8],
    fed: bool,
) -> Result<Judged, Memory>
    requires { passed + length bytes.now ≤ 2 ^ 62 }
    ensures { IfOk result (λ judged. judged ≡ spec.judged limits number passed (record { bytes = bytes.now; fed = fed })) }
{
    let len = bytes.len() as u64;
    let size = if fed { len + 1 } else { len };
    if passed + size > limits.total {
        return Ok(Judged::Refused(LineRefusal::LogTooLong(number)));
    }
    if len > limits.line {
        return Ok(Judged::Refused(LineRefusal::TooLong(number)));
    }
    judge_words(alloc, number, content(bytes))
}
