//! Sets of numbers within ±10^9, by their intervals.

ghost use Rattle.std.specs.Prelude.{◌≡◌, ◌++◌, ◌^◌, filter, IfOk, OnOk, neg_ℤ, pos, ◌-ℤ◌};
ghost use Rattle.std.specs.List.{flat_map};
ghost use Rattle.dp_base.specs.Lists.{Among, Each};
ghost use Rattle.dp_domain.specs.Sets.{Collects, IsDomain, IsSmall};
ghost use Rattle.fz_sat.specs.Args.{is_in_set};
ghost use Rattle.dp_lower.specs.Intervals.{clipped, clipped_set, gaps_from, interval};
ghost use Rattle.dp_lower.specs.Small.{small_numbers};

use crate::types::LARGEST;
use dp_domain::{Dom, Memory};
use fz_model::SetText;
use std::alloc::Global;

/// The numbers of the set that are within ±10^9.
pub fn members(alloc: Global, set: &SetText) -> Result<Dom, Memory>
    ensures members { IfOk result (λ d. d ≡ filter (is_in_set set.now) small_numbers) }
    ensures domain { IfOk result IsDomain }
{
    let intervals = intervals_of(alloc, set)?;
    Dom::of(alloc, &intervals)
}

/// The numbers within ±10^9 that are not in the set.
pub fn others(alloc: Global, set: &Dom) -> Result<Dom, Memory>
    requires { IsDomain set.now }
    ensures domain { IfOk result IsDomain }
    ensures numbers { IfOk result (λ d. Collects d (λ v. IsSmall v × (¬ (Among v set.now)))) }
{
    let intervals = set.intervals(alloc)?;
    let gaps = gaps(alloc, &intervals)?;
    Dom::of(alloc, &gaps)
}

/// The intervals of the set within ±10^9.
fn intervals_of(alloc: Global, set: &SetText) -> Result<Vec<(i64, i64)>, Memory>
    ensures { IfOk result (λ intervals. intervals.items ≡ clipped_set set.now) }
{
    let mut intervals = Vec::new(alloc);
    match set {
        SetText::Range(first, last) => push_clipped(&mut intervals, *first, *last)?,
        SetText::List(numbers) => push_numbers(&mut intervals, numbers.as_slice())?,
    }
    Ok(intervals)
}

/// Adds each of the numbers that is within ±10^9.
fn push_numbers(intervals: &mut Vec<(i64, i64)>, numbers: &[i64]) -> Result<(), Memory>
    ensures { OnOk result (intervals.new.items ≡ intervals.old.items ++ flat_map (λ n. clipped n n) numbers.now) }
{
    for number in numbers {
        push_clipped(intervals, *number, *number)?;
    }
    Ok(())
}

/// Adds the part within ±10^9 of the interval from the first number to the last.
fn push_clipped(intervals: &mut Vec<(i64, i64)>, first: i64, last: i64) -> Result<(), Memory>
    ensures { OnOk result (intervals.new.items ≡ intervals.old.items ++ clipped first last) }
{
    push_interval(intervals, first.max(-LARGEST), last.min(LARGEST))
}

/// The gaps that intervals in order leave within ±10^9.
fn gaps(alloc: Global, intervals: &[(i64, i64)]) -> Result<Vec<(i64, i64)>, Memory>
    requires { Each (λ ends. IsSmall ends.0 × IsSmall ends.1) intervals.now }
    ensures { IfOk result (λ gaps. gaps.items ≡ gaps_from (neg_ℤ (pos (10 ^ 9))) intervals.now) }
{
    let mut gaps = Vec::new(alloc);
    let mut next = -LARGEST;
    for (first, last) in intervals {
        push_gap(&mut gaps, next, *first)?;
        next = *last + 1;
    }
    push_interval(&mut gaps, next, LARGEST)?;
    Ok(gaps)
}

/// Adds the interval from the first number to the one before the end.
fn push_gap(intervals: &mut Vec<(i64, i64)>, first: i64, end: i64) -> Result<(), Memory>
    requires { IsSmall end }
    ensures { OnOk result (intervals.new.items ≡ intervals.old.items ++ interval first (end -ℤ pos 1)) }
{
    push_interval(intervals, first, end - 1)
}

/// Adds the interval from the first number to the last, if it has a number.
fn push_interval(intervals: &mut Vec<(i64, i64)>, first: i64, last: i64) -> Result<(), Memory>
    ensures { OnOk result (intervals.new.items ≡ intervals.old.items ++ interval first last) }
{
    if first <= last {
        intervals.push((first, last))?;
    }
    Ok(())
}
