// Tight intervals: as many spans lie within as there are numbers.

ghost use Rattle.std.specs.Prelude.{◌≡◌, ◌++◌, ℤ, ◌-ℤ◌, ◌+ℤ◌, pos, false, if◌then◌else◌, int_le, IfOk, OnOk, map, Option, Some};
ghost use Rattle.dp_base.specs.Lists.{Each};
ghost use Rattle.dp_rule_alldiff.specs.Spans.{AreInOrder, IsSpan, has_crowd};
ghost use Rattle.dp_rule_alldiff.specs.Tight.{AreLongest, IsReach, interval_to, mirror, opposite};

use crate::Memory;
use crate::spans::{begins_from, in_order, size};
use std::alloc::Global;

/// The tight intervals that decide: from each first number the longest, and to each last number the
/// longest, mirrored.
#[derive(Debug, Drop)]
pub struct Tight {
    pub from: Vec<(i64, i64)>,
    pub to: Vec<(i64, i64)>,
}

/// The tight intervals of spans of which none are crowded.
pub fn tight_intervals(alloc: Global, spans: &[(i64, i64)]) -> Result<Tight, Memory>
    requires order { AreInOrder spans.now }
    requires spans { Each IsSpan spans.now }
    requires calm { has_crowd spans.now ≡ false }
    ensures from { IfOk result (λ tight. AreLongest spans.now tight.from.items) }
    ensures to { IfOk result (λ tight. AreLongest (map mirror spans.now) tight.to.items) }
{
    let from = longest(alloc, spans)?;
    let reversed = in_order(mirrored(alloc, spans)?);
    let to = longest(alloc, &reversed)?;
    Ok(Tight { from, to })
}

/// The spans where the order of all numbers is reversed.
fn mirrored(alloc: Global, spans: &[(i64, i64)]) -> Result<Vec<(i64, i64)>, Memory>
    ensures { IfOk result (λ list. list.items ≡ map mirror spans.now) }
{
    Ok(spans.iter().map(|span| mirror(span)).collect(alloc)?)
}

/// The span where the order is reversed.
fn mirror(span: &(i64, i64)) -> (i64, i64)
    ensures { result ≡ mirror span.now }
{
    (opposite(span.1), opposite(span.0))
}

/// The number where the order is reversed.
pub fn opposite(number: i64) -> i64
    ensures { result ≡ opposite number }
{
    -1 - number
}

/// From the first number of each span the longest tight interval, if one is tight.
fn longest(alloc: Global, spans: &[(i64, i64)]) -> Result<Vec<(i64, i64)>, Memory>
    requires order { AreInOrder spans.now }
    requires spans { Each IsSpan spans.now }
    requires calm { has_crowd spans.now ≡ false }
    ensures { IfOk result (λ list. AreLongest spans.now list.items) }
{
    let mut intervals = Vec::new(alloc);
    for span in spans {
        push_longest(&mut intervals, span, spans)?;
    }
    Ok(intervals)
}

/// Adds the longest tight interval from the first number of the span on, if one is tight.
fn push_longest(
    intervals: &mut Vec<(i64, i64)>,
    span: &(i64, i64),
    spans: &[(i64, i64)],
) -> Result<(), Memory>
    requires order { AreInOrder spans.now }
    requires spans { Each IsSpan spans.now }
    requires calm { has_crowd spans.now ≡ false }
    ensures { OnOk result ((last : Option ℤ) × IsReach spans.now span.now.0 last × (intervals.new.items ≡ intervals.old.items ++ interval_to span.now.0 last)) }
{
    if let Some(last) = reach(span.0, spans) {
        intervals.push((span.0, last))?;
    }
    Ok(())
}

/// The last number of the longest tight interval from the number on; None where none is tight.
fn reach(first: i64, spans: &[(i64, i64)]) -> Option<i64>
    requires order { AreInOrder spans.now }
    requires spans { Each IsSpan spans.now }
    requires calm { has_crowd spans.now ≡ false }
    ensures { IsReach spans.now first result }
{
    let mut count = 0;
    let mut last = None;
    for span in spans {
        if begins_from(first, span) {
            count += 1;
            last = longer(last, first, span, count);
        }
    }
    last
}

/// The last number of the span, where so many fill the numbers up to it; else what there was.
fn longer(last: Option<i64>, first: i64, span: &(i64, i64), count: usize) -> Option<i64>
    ensures { result ≡ (if int_le ((span.now.1 -ℤ first) +ℤ pos 1) (pos count) then Some span.now.1 else last) }
{
    if size(first, span.1) <= count as i128 {
        Some(span.1)
    } else {
        last
    }
}
