// What a text that comes in pieces gives next.

ghost use Rattle.std.specs.Prelude.{◌≡◌, ◌+◌, ◌≤◌, ◌<◌, ◌^◌, true, false, IfNone, IfOk, IfSome, drop, length, take};
ghost use Rattle.std.specs.List.{prefix_len};
ghost use Rattle.dp_lines.specs.Kept.{IsFirst, begins_whole, has_no_feed, is_no_feed};
ghost use Rattle.dp_lines.specs.Overlong.{over};
ghost use Rattle.dp_lines.specs.RawLines as raw;
ghost use Rattle.dp_lines.specs.RawLines.{raw_lines};
ghost use Rattle.dp_lines.specs.Readers as spec;
ghost use Rattle.dp_lines.specs.declared.step.First.TheVariants.{Nothing};

use crate::Line;
use crate::judge::{Judged, judge};
use crate::refusal::{Limits, LineRefusal};
use dp_domain::Memory;
use std::alloc::Global;

/// What comes first.
#[derive(Debug, Drop)]
pub enum First {
    Line(Line),
    Refusal(LineRefusal),
    Nothing,
}

/// What comes first, how many lines are passed with it, and how many of the held bytes.
#[derive(Debug, Drop)]
pub struct Step {
    pub first: First,
    pub count: u64,
    pub used: usize,
}

fn line_len(text: &[u8]) -> usize
    ensures value { result ≡ prefix_len is_no_feed text.now }
    ensures within { result ≤ length text.now }
{
    text.iter().take_while(|byte| **byte != b'\n').count()
}

/// How many bytes stand before the first line feed, or in all where there is none. The first `clear` are no line feeds.
#[tactic(auto, using(crate::proofs::RawLaws::prefix_behind))]
fn first_len(held: &[u8], clear: usize) -> usize
    requires cleared { clear ≤ length held.now }
    requires no_feed { has_no_feed (take clear held.now) ≡ true }
    ensures value { result ≡ prefix_len is_no_feed held.now }
    ensures within { result ≤ length held.now }
{
    let (_, rest) = held.split_at(clear);
    clear + line_len(rest)
}

/// The bytes of the first whole line, and whether a line feed follows them.
fn first_line(held: &[u8], clear: usize, ended: bool) -> Option<(&[u8], bool)>
    requires cleared { clear ≤ length held.now }
    requires no_feed { has_no_feed (take clear held.now) ≡ true }
    ensures none { IfNone result (begins_whole ended (raw_lines held.now) ≡ false) }
    ensures no_feed { IfNone result (has_no_feed held.now ≡ true) }
    ensures first { IfSome result (λ line. IsFirst ended held.now (record { bytes = line.0.now; fed = line.1 })) }
{
    let len = first_len(held, clear);
    if len < held.len() {
        let (bytes, _) = held.split_at(len);
        return Some((bytes, true));
    }
    if ended && len > 0 {
        return Some((held, false));
    }
    None
}

fn rest_of(held: &[u8], used: usize) -> &[u8]
    requires { used ≤ length held.now }
    ensures { result.now ≡ drop used held.now }
{
    let (_, rest) = held.split_at(used);
    rest
}

/// How many bytes a line has with its line feed.
fn size(bytes: &[u8], fed: bool) -> usize
    requires { length bytes.now ≤ 2 ^ 62 }
    ensures { result ≡ raw.size (record { bytes = bytes.now; fed = fed }) }
{
    if fed { bytes.len() + 1 } else { bytes.len() }
}

/// What comes first in the held bytes, behind `count` lines with `passed` bytes.
pub fn first_step(
    alloc: Global,
    limits: Limits,
    ended: bool,
    passed: u64,
    count: u64,
    held: &[u8],
    clear: usize,
) -> Result<Step, Memory>
    requires cleared { clear ≤ length held.now }
    requires no_feed { has_no_feed (take clear held.now) ≡ true }
    requires small { passed + length held.now ≤ 2 ^ 62 }
    requires lines { count ≤ passed }
    ensures step { IfOk result (λ step. step ≡ spec.step_from limits ended passed count 0 (raw_lines held.now)) }
    ensures within { IfOk result (λ step. step.used ≤ length held.now) }
    ensures lines { IfOk result (λ step. step.count ≤ passed + step.used) }
    ensures nothing { IfOk result (λ step. step.first ≡ Nothing → has_no_feed (drop step.used held.now) ≡ true) }
{
    let mut count = count;
    let mut used = 0;
    let mut clear = clear;
    while let Some((bytes, fed)) = first_line(rest_of(held, used), clear, ended) {
        let size = size(bytes, fed);
        match judge(alloc, limits, count + 1, passed + used as u64, bytes, fed)? {
            Judged::Blank => {
                count += 1;
                used += size;
                clear = 0;
            }
            Judged::Given(line) => {
                return Ok(Step {
                    first: First::Line(line),
                    count: count + 1,
                    used: used + size,
                });
            }
            Judged::Refused(refusal) => {
                return Ok(Step {
                    first: First::Refusal(refusal),
                    count,
                    used,
                });
            }
        }
    }
    Ok(Step {
        first: First::Nothing,
        count,
        used,
    })
}

/// The refusal of line `number`, which has too many bytes and ends at the byte `end` of the log.
fn by_length(limits: Limits, number: u64, end: u64) -> LineRefusal
    ensures { result ≡ over limits number end }
{
    if end > limits.total {
        LineRefusal::LogTooLong(number)
    } else {
        LineRefusal::TooLong(number)
    }
}

/// What an overlong line gives, of which `beyond` bytes were counted behind the first `clear` of those that are held: its
/// refusal by its length, where its end has come.
pub fn overlong_step(
    limits: Limits,
    ended: bool,
    passed: u64,
    count: u64,
    held: &[u8],
    clear: usize,
    beyond: u64,
) -> Step
    requires cleared { clear ≤ length held.now }
    requires no_feed { has_no_feed (take clear held.now) ≡ true }
    requires full { clear ≡ limits.line }
    requires counted { 0 < beyond }
    requires small { passed + length held.now + beyond ≤ 2 ^ 62 }
    requires lines { count ≤ passed }
    ensures step { result ≡ spec.step_from limits ended passed count 0 (raw_lines (spec.stands_for limits.line beyond held.now)) }
    ensures used { result.used ≡ 0 }
    ensures lines { result.count ≤ passed }
    ensures nothing { result.first ≡ Nothing → has_no_feed held.now ≡ true }
{
    let len = first_len(held, clear);
    let end = passed + beyond + len as u64;
    let first = if len < held.len() {
        First::Refusal(by_length(limits, count + 1, end + 1))
    } else if ended {
        First::Refusal(by_length(limits, count + 1, end))
    } else {
        First::Nothing
    };
    Step {
        first,
        count,
        used: 0,
    }
}
