// Readers of lines, and what they read.

ghost use Rattle.std.specs.Prelude.{◌≡◌, ◌+◌, ◌≤◌, ◌<◌, ◌^◌, length, false};
ghost use Rattle.dp_lines.specs.Readers.{total};

use dp_base::{Memory, Name};
use dp_domain::Op;
use dp_lines::{Claim, Limits, Line, LineFault, Reader};
use std::alloc::Global;

/// What is read of a text: how many of the wanted lines, and the fault that ends them.
pub type Read = (usize, Option<LineFault>);

/// What is wanted of a line.
#[derive(Clone, Copy)]
pub enum Wanted {
    Atom(u64, &'static [u8], Op, i64),
    Inference(u64, &'static [i64], Option<i64>, Option<u64>, &'static [u8]),
    Nogood(u64, &'static [i64], &'static [u64]),
    Unsat,
    Bound(i64),
}

fn is_label(label: &Option<Name>, wanted: &[u8]) -> bool {
    match label {
        Some(label) => label.bytes() == wanted,
        None => wanted.is_empty(),
    }
}

fn is_wanted(line: &Line, wanted: Wanted) -> bool {
    match (line, wanted) {
        (
            Line::Atom {
                id,
                name,
                op,
                value,
            },
            Wanted::Atom(i, n, o, v),
        ) => *id == i && name.bytes() == n && *op == o && *value == v,
        (
            Line::Inference {
                id,
                premises,
                consequent,
                constraint,
                label,
            },
            Wanted::Inference(i, p, q, k, l),
        ) => {
            *id == i
                && premises.as_slice() == p
                && *consequent == q
                && *constraint == k
                && is_label(label, l)
        }
        (Line::Nogood { id, atoms, hints }, Wanted::Nogood(i, a, h)) => {
            *id == i && atoms.as_slice() == a && hints.as_slice() == h
        }
        (Line::Conclude(Claim::Unsat), Wanted::Unsat) => true,
        (Line::Conclude(Claim::Bound(literal)), Wanted::Bound(l)) => *literal == l,
        _ => false,
    }
}

/// Takes lines while they are the wanted ones from the place `at` on: the place behind them, one past all after another
/// line, and the fault that ended them.
pub fn take(reader: &mut Reader, wanted: &[(u64, Wanted)], at: usize) -> Read
    requires { length wanted.now < 2 ^ 62 }
    ensures total { total reader.new ≡ total reader.old }
    ensures ended { reader.new.ended ≡ reader.old.ended }
{
    for place in at..wanted.len() {
        match reader.line() {
            Ok(Some((number, line))) => {
                let (other, kind) = wanted[place];
                if number != other || !is_wanted(&line, kind) {
                    return (wanted.len() + 1, None);
                }
            }
            Ok(None) => return (place, None),
            Err(fault) => return (place, Some(fault)),
        }
    }
    match reader.line() {
        Ok(Some(_)) => (wanted.len() + 1, None),
        Ok(None) => (at.max(wanted.len()), None),
        Err(fault) => (at.max(wanted.len()), Some(fault)),
    }
}

/// What is read of a text that is fed in two pieces: how many of the wanted lines, and the fault that ends them.
pub fn in_two(
    alloc: Global,
    limits: Limits,
    text: &[u8],
    place: usize,
    wanted: &[(u64, Wanted)],
) -> Result<Read, Memory>
    requires line { limits.line ≤ 2 ^ 62 }
    requires all { limits.total ≤ 2 ^ 62 }
    requires few { length wanted.now < 2 ^ 62 }
    requires small { length text.now < 2 ^ 62 }
    requires within { place ≤ length text.now }
{
    let mut reader = Reader::new(alloc, limits);
    let (front, back) = text.split_at(place);
    reader.feed(front)?;
    let (at, _) = take(&mut reader, wanted, 0);
    reader.feed(back)?;
    let (at, _) = take(&mut reader, wanted, at);
    reader.end();
    Ok(take(&mut reader, wanted, at))
}

/// The same of a small text that is fed byte by byte.
pub fn bytewise(
    alloc: Global,
    limits: Limits,
    text: &[u8],
    wanted: &[(u64, Wanted)],
) -> Result<Read, Memory> {
    if limits.line > WIDE.line || limits.total > WIDE.total {
        return Err(Memory);
    }
    if text.len() > 4096 || wanted.len() > 4096 {
        return Err(Memory);
    }
    let mut reader = Reader::new(alloc, limits);
    let mut at = 0;
    for byte in text {
        reader.feed(&[*byte])?;
        let (place, _) = take(&mut reader, wanted, at);
        at = place;
    }
    reader.end();
    Ok(take(&mut reader, wanted, at))
}

/// The limits of logs.
pub const WIDE: Limits = Limits {
    line: 16_777_216,
    total: 1_099_511_627_776,
};
