// Lists of intervals, each given by its first and its last number.

ghost use Rattle.std.specs.Prelude.{◌≡◌, ◌++◌, ◌-ℤ◌, int_le, pos, filter, IfOk, IsTrue, OnOk};
ghost use Rattle.std.specs.List.{flat_map, list_any};
ghost use Rattle.dp_base.specs.Lists.{Each};
ghost use Rattle.dp_domain.specs.Atoms.{IsNameable};
ghost use Rattle.dp_domain.specs.Intervals.{AreBegun, Follows, HaveSame, Joins, after, before, behind, common, failing_on, gaps_from, interval, lowest, met, met_of, outside, overlap, reaches};
ghost use Rattle.dp_domain.specs.Sets.{AreApart, AreMaximal, HasSmallEnds, IsSmall, expand, numbers_between};

use crate::{Atom, Memory, Op, VarId};
use smallvec::SmallVec;
use std::alloc::Global;

/// The interval from the first number to the last; none where the first exceeds the last.
pub(crate) fn single(
    alloc: Global,
    first: i64,
    last: i64,
) -> Result<SmallVec<(i64, i64), 2>, Memory>
    ensures { IfOk result (λ intervals. intervals.items ≡ interval first last) }
{
    let mut intervals = SmallVec::new(alloc);
    push_interval(&mut intervals, first, last)?;
    Ok(intervals)
}

/// Adds the interval from the first number to the last, if it has a number.
fn push_interval(
    intervals: &mut SmallVec<(i64, i64), 2>,
    first: i64,
    last: i64,
) -> Result<(), Memory>
    ensures { OnOk result (intervals.new.items ≡ intervals.old.items ++ interval first last) }
{
    if first <= last {
        intervals.push((first, last))?;
    }
    Ok(())
}

/// What of the intervals meets the atom.
pub(crate) fn met(
    alloc: Global,
    intervals: &[(i64, i64)],
    atom: Atom,
) -> Result<SmallVec<(i64, i64), 2>, Memory>
    ensures { IfOk result (λ kept. kept.items ≡ met atom intervals.now) }
{
    let mut kept = SmallVec::new(alloc);
    push_met(&mut kept, intervals, atom)?;
    Ok(kept)
}

/// Adds what of the intervals meets the atom.
fn push_met(
    kept: &mut SmallVec<(i64, i64), 2>,
    intervals: &[(i64, i64)],
    atom: Atom,
) -> Result<(), Memory>
    ensures { OnOk result (kept.new.items ≡ kept.old.items ++ met atom intervals.now) }
{
    for interval in intervals {
        push_met_of(kept, *interval, atom)?;
    }
    Ok(())
}

/// Adds what of the interval meets the atom.
fn push_met_of(
    kept: &mut SmallVec<(i64, i64), 2>,
    interval: (i64, i64),
    atom: Atom,
) -> Result<(), Memory>
    ensures { OnOk result (kept.new.items ≡ kept.old.items ++ met_of atom.op atom.value interval) }
{
    let (first, last) = interval;
    let value = atom.value();
    match atom.op() {
        Op::Ge => push_interval(kept, first.max(value), last),
        Op::Le => push_interval(kept, first, last.min(value)),
        Op::Eq => push_interval(kept, first.max(value), last.min(value)),
        Op::Ne => push_around(kept, interval, value),
    }
}

/// Adds what of the interval is not the value.
fn push_around(
    kept: &mut SmallVec<(i64, i64), 2>,
    interval: (i64, i64),
    value: i64,
) -> Result<(), Memory>
    requires { IsNameable Op.Ne value }
    ensures { OnOk result (kept.new.items ≡ kept.old.items ++ (before value interval ++ after value interval)) }
{
    push_before(kept, interval, value)?;
    push_after(kept, interval, value)
}

/// Adds what of the interval is less than the value.
fn push_before(
    kept: &mut SmallVec<(i64, i64), 2>,
    interval: (i64, i64),
    value: i64,
) -> Result<(), Memory>
    requires { IsNameable Op.Ne value }
    ensures { OnOk result (kept.new.items ≡ kept.old.items ++ before value interval) }
{
    let (first, last) = interval;
    push_interval(kept, first, last.min(value - 1))
}

/// Adds what of the interval is greater than the value.
fn push_after(
    kept: &mut SmallVec<(i64, i64), 2>,
    interval: (i64, i64),
    value: i64,
) -> Result<(), Memory>
    requires { IsNameable Op.Ne value }
    ensures { OnOk result (kept.new.items ≡ kept.old.items ++ after value interval) }
{
    let (first, last) = interval;
    push_interval(kept, first.max(value + 1), last)
}

/// What of the intervals fails one of the atoms on the variable, one atom after another.
pub(crate) fn failing(
    alloc: Global,
    intervals: &[(i64, i64)],
    var: VarId,
    atoms: &[Atom],
) -> Result<SmallVec<(i64, i64), 2>, Memory>
    ensures { IfOk result (λ kept. kept.items ≡ flat_map (failing_on var intervals.now) atoms.now) }
{
    let mut kept = SmallVec::new(alloc);
    for atom in atoms {
        push_failing(&mut kept, intervals, var, *atom)?;
    }
    Ok(kept)
}

/// Adds what of the intervals fails the atom, where it is on the variable.
fn push_failing(
    kept: &mut SmallVec<(i64, i64), 2>,
    intervals: &[(i64, i64)],
    var: VarId,
    atom: Atom,
) -> Result<(), Memory>
    ensures { OnOk result (kept.new.items ≡ kept.old.items ++ failing_on var intervals.now atom) }
{
    if atom.var() == var {
        push_met(kept, intervals, atom.negated())?;
    }
    Ok(())
}

/// Whether one of the intervals has a number in common with this one.
pub(crate) fn reach(intervals: &[(i64, i64)], interval: (i64, i64)) -> bool
    requires { AreApart intervals.now }
    ensures { result ≡ list_any (reaches interval) intervals.now }
{
    !near(intervals, interval).is_empty()
}

/// Whether some interval has a number in common with one of the others.
pub(crate) fn share(intervals: &[(i64, i64)], others: &[(i64, i64)]) -> bool
    requires { AreApart others.now }
    ensures { result ≡ list_any (λ i. list_any (reaches i) others.now) intervals.now }
{
    intervals.iter().any(|interval| reach(others, *interval))
}

/// The intervals that have a number in common with this one.
fn near(intervals: &[(i64, i64)], interval: (i64, i64)) -> &[(i64, i64)]
    requires { AreApart intervals.now }
    ensures { result.now ≡ filter (reaches interval) intervals.now }
{
    let (first, last) = interval;
    up_to(from(intervals, first), last)
}

/// The intervals that do not end before the number.
pub(crate) fn from(intervals: &[(i64, i64)], first: i64) -> &[(i64, i64)]
    requires { AreApart intervals.now }
    ensures { result.now ≡ filter (λ i. int_le first i.1) intervals.now }
{
    let start = intervals.partition_point(|(_, end)| *end < first);
    &intervals[start..]
}

/// The intervals that do not begin after the number.
pub(crate) fn up_to(intervals: &[(i64, i64)], last: i64) -> &[(i64, i64)]
    requires { AreApart intervals.now }
    ensures { result.now ≡ filter (λ i. int_le i.0 last) intervals.now }
{
    let count = intervals.partition_point(|(start, _)| *start <= last);
    &intervals[..count]
}

/// What the intervals have in common with the others.
pub(crate) fn common(
    alloc: Global,
    intervals: &[(i64, i64)],
    others: &[(i64, i64)],
) -> Result<SmallVec<(i64, i64), 2>, Memory>
    requires { AreApart others.now }
    ensures { IfOk result (λ kept. kept.items ≡ common intervals.now others.now) }
{
    let mut kept = SmallVec::new(alloc);
    for interval in intervals {
        push_common(&mut kept, *interval, others)?;
    }
    Ok(kept)
}

/// Adds what the interval has in common with the others.
fn push_common(
    kept: &mut SmallVec<(i64, i64), 2>,
    interval: (i64, i64),
    others: &[(i64, i64)],
) -> Result<(), Memory>
    requires { AreApart others.now }
    ensures { OnOk result (kept.new.items ≡ kept.old.items ++ flat_map (overlap interval) others.now) }
{
    push_overlaps(kept, interval, near(others, interval))
}

/// Adds what the interval has in common with each of the others.
fn push_overlaps(
    kept: &mut SmallVec<(i64, i64), 2>,
    interval: (i64, i64),
    others: &[(i64, i64)],
) -> Result<(), Memory>
    ensures { OnOk result (kept.new.items ≡ kept.old.items ++ flat_map (overlap interval) others.now) }
{
    for other in others {
        push_overlap(kept, interval, *other)?;
    }
    Ok(())
}

/// Adds what the two intervals have in common.
fn push_overlap(
    kept: &mut SmallVec<(i64, i64), 2>,
    interval: (i64, i64),
    other: (i64, i64),
) -> Result<(), Memory>
    ensures { OnOk result (kept.new.items ≡ kept.old.items ++ overlap interval other) }
{
    push_interval(kept, interval.0.max(other.0), interval.1.min(other.1))
}

/// The gaps before each of the intervals, from a number on.
pub(crate) fn gaps_from(
    alloc: Global,
    start: i64,
    intervals: &[(i64, i64)],
) -> Result<SmallVec<(i64, i64), 2>, Memory>
    requires { Each HasSmallEnds intervals.now }
    ensures { IfOk result (λ gaps. gaps.items ≡ gaps_from start intervals.now) }
{
    let mut gaps = SmallVec::new(alloc);
    let mut next = start;
    for (first, last) in intervals {
        push_gap(&mut gaps, next, *first)?;
        next = *last + 1;
    }
    Ok(gaps)
}

/// Adds the interval from the first number to the one before the end.
fn push_gap(gaps: &mut SmallVec<(i64, i64), 2>, first: i64, end: i64) -> Result<(), Memory>
    requires { IsSmall end }
    ensures { OnOk result (gaps.new.items ≡ gaps.old.items ++ interval first (end -ℤ pos 1)) }
{
    push_interval(gaps, first, end - 1)
}

const LOWEST: i64 = -1_000_000_000;

const BEYOND: i64 = 1_000_000_001;

/// A number between which and each that a set has one or more lie.
const BEFORE_ALL: i64 = -1_000_000_002;

/// What lies in none of the intervals, from the least number that sets have to beyond the greatest.
pub(crate) fn outside(
    alloc: Global,
    intervals: &[(i64, i64)],
) -> Result<SmallVec<(i64, i64), 2>, Memory>
    requires { Each HasSmallEnds intervals.now }
    ensures { IfOk result (λ gaps. gaps.items ≡ outside intervals.now) }
{
    let mut gaps = gaps_from(alloc, LOWEST, intervals)?;
    push_interval(&mut gaps, behind(intervals), BEYOND)?;
    Ok(gaps)
}

/// The number after the last interval.
fn behind(intervals: &[(i64, i64)]) -> i64
    requires { Each HasSmallEnds intervals.now }
    ensures { result ≡ behind lowest intervals.now }
{
    match intervals.last() {
        Some((_, last)) => *last + 1,
        None => LOWEST,
    }
}

/// The maximal intervals of the numbers of these intervals.
pub(crate) fn merged(intervals: SmallVec<(i64, i64), 2>) -> Result<SmallVec<(i64, i64), 2>, Memory>
    requires { Each HasSmallEnds intervals.items }
    ensures maximal { IfOk result (λ merged. AreMaximal merged.items) }
    ensures same { IfOk result (λ merged. HaveSame intervals.items merged.items) }
{
    if are_apart(intervals.as_slice()) {
        Ok(intervals)
    } else {
        united(intervals)
    }
}

/// Whether they are known to be maximal as they stand.
fn are_apart(intervals: &[(i64, i64)]) -> bool
    requires { Each HasSmallEnds intervals.now }
    ensures { IsTrue result → AreApart intervals.now }
{
    let mut end = BEFORE_ALL;
    for interval in intervals {
        if !follows(end, *interval) {
            return false;
        }
        end = interval.1;
    }
    true
}

/// Whether the interval has a number, and one or more lie between the end and it.
fn follows(end: i64, interval: (i64, i64)) -> bool
    requires { HasSmallEnds interval }
    ensures { IsTrue result → Follows end interval }
{
    let (first, last) = interval;
    end < first - 1 && first <= last
}

/// The maximal intervals of the numbers of these intervals, in whatever order they stand.
fn united(intervals: SmallVec<(i64, i64), 2>) -> Result<SmallVec<(i64, i64), 2>, Memory>
    requires { Each HasSmallEnds intervals.items }
    ensures maximal { IfOk result (λ merged. AreMaximal merged.items) }
    ensures same { IfOk result (λ merged. HaveSame intervals.items merged.items) }
{
    let mut sorted = intervals;
    sorted.sort_unstable();
    let mut merged = SmallVec::new(*sorted.allocator());
    let ordered = sorted.as_slice();
    for interval in ordered {
        join(&mut merged, *interval)?;
    }
    Ok(merged)
}

/// Joins an interval that begins no earlier than the others.
fn join(merged: &mut SmallVec<(i64, i64), 2>, interval: (i64, i64)) -> Result<(), Memory>
    requires begun { AreBegun interval.0 merged.old.items }
    requires small { HasSmallEnds interval }
    ensures { OnOk result (Joins merged.old.items merged.new.items interval) }
{
    let (first, last) = interval;
    if first > last {
        return Ok(());
    }
    match merged.pop() {
        Some((start, end)) if first - 1 <= end => merged.push((start, end.max(last)))?,
        Some(before) => {
            merged.push(before)?;
            merged.push(interval)?;
        }
        None => merged.push(interval)?,
    }
    Ok(())
}

/// The numbers of the intervals in order.
pub(crate) fn numbers(alloc: Global, intervals: &[(i64, i64)]) -> Result<Vec<i64>, Memory>
    requires { Each HasSmallEnds intervals.now }
    ensures { IfOk result (λ numbers. numbers.items ≡ expand intervals.now) }
{
    let mut numbers = Vec::new(alloc);
    for interval in intervals {
        push_numbers(&mut numbers, *interval)?;
    }
    Ok(numbers)
}

/// Adds the numbers of the interval.
fn push_numbers(numbers: &mut Vec<i64>, interval: (i64, i64)) -> Result<(), Memory>
    requires { HasSmallEnds interval }
    ensures { OnOk result (numbers.new.items ≡ numbers.old.items ++ numbers_between interval) }
{
    let (first, last) = interval;
    for number in first..last + 1 {
        numbers.push(number)?;
    }
    Ok(())
}
