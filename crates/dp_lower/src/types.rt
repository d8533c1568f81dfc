//! Sets of numbers, by types.

ghost use Rattle.std.specs.Prelude.{◌≡◌, ◌&&◌, IfOk, OnOk, filter, int_le, map};
ghost use Rattle.dp_base.specs.Lists.{Each};
ghost use Rattle.dp_domain.specs.Sets.{IsSmall, is_among};
ghost use Rattle.fz_sat.specs.Satisfies.{is_of_type};
ghost use Rattle.fz_facts.specs.Facts.{IsSmallType};
ghost use Rattle.dp_lower.specs.Small.{small_numbers};

use dp_domain::{Atom, Dom, Memory, Op, VarId};
use fz_model::VarType;
use std::alloc::Global;

/// The largest number of a domain.
pub const LARGEST: i64 = 1_000_000_000;

/// The numbers of the type.
pub fn type_domain(alloc: Global, kind: &VarType) -> Result<Dom, Memory>
    requires { IsSmallType kind.now }
    ensures { IfOk result (λ d. d ≡ filter (is_of_type kind.now) small_numbers) }
{
    match kind {
        VarType::Bool => range_domain(alloc, 0, 1),
        VarType::Int => range_domain(alloc, -LARGEST, LARGEST),
        VarType::Range(first, last) => range_domain(alloc, *first, *last),
        VarType::List(numbers) => list_domain(alloc, numbers.as_slice()),
    }
}

/// The numbers from the first to the last.
fn range_domain(alloc: Global, first: i64, last: i64) -> Result<Dom, Memory>
    requires first { IsSmall first }
    requires last { IsSmall last }
    ensures { IfOk result (λ d. d ≡ filter (λ v. int_le first v && int_le v last) small_numbers) }
{
    Dom::range(alloc, first, last)
}

/// The numbers of the list.
fn list_domain(alloc: Global, numbers: &[i64]) -> Result<Dom, Memory>
    requires { Each IsSmall numbers.now }
    ensures { IfOk result (λ d. d ≡ filter (λ v. is_among v numbers.now) small_numbers) }
{
    let singles = singles(alloc, numbers)?;
    Dom::of(alloc, &singles)
}

/// Each number as an interval.
fn singles(alloc: Global, numbers: &[i64]) -> Result<Vec<(i64, i64)>, Memory>
    ensures { IfOk result (λ singles. singles.items ≡ map (λ v. (v, v)) numbers.now) }
{
    Ok(
        numbers
            .iter()
            .map(|number| (*number, *number))
            .collect(alloc)?,
    )
}

/// The set of one number.
pub fn one_number(alloc: Global, number: i64) -> Result<Dom, Memory>
    requires { IsSmall number }
    ensures { IfOk result (λ d. d ≡ filter (λ v. int_le number v && int_le v number) small_numbers) }
{
    range_domain(alloc, number, number)
}

/// Keeps the numbers of the type.
pub fn cut(alloc: Global, set: &mut Dom, kind: &VarType) -> Result<(), Memory>
    requires { IsSmallType kind.now }
    ensures { OnOk result (set.new ≡ filter (is_of_type kind.now) set.old) }
{
    match kind {
        VarType::Bool => cut_range(set, 0, 1)?,
        VarType::Int => (),
        VarType::Range(first, last) => cut_range(set, *first, *last)?,
        VarType::List(numbers) => *set = listed(alloc, set, numbers.as_slice())?,
    }
    Ok(())
}

/// Keeps the numbers from the first to the last.
pub fn cut_range(set: &mut Dom, first: i64, last: i64) -> Result<(), Memory>
    requires first { IsSmall first }
    requires last { IsSmall last }
    ensures { OnOk result (set.new ≡ filter (λ v. int_le first v && int_le v last) set.old) }
{
    set.exclude(bound(Op::Ge, first))?;
    set.exclude(bound(Op::Le, last))?;
    Ok(())
}

/// The atom by which numbers are cut.
fn bound(op: Op, number: i64) -> Atom
    requires { IsSmall number }
    ensures { result ≡ record { var = 0; op = op; value = number } }
{
    Atom::new(VarId(0), op, number).unwrap()
}

/// The numbers of the set that are in the list.
fn listed(alloc: Global, set: &Dom, numbers: &[i64]) -> Result<Dom, Memory>
    ensures { IfOk result (λ d. d ≡ filter (λ v. is_among v numbers.now) set.now) }
{
    if set.lower().is_none() {
        return set.copy();
    }
    let kept = kept(alloc, set, numbers)?;
    let singles = singles(alloc, &kept)?;
    Dom::of(alloc, &singles)
}

/// The numbers of the list that are in the set.
fn kept(alloc: Global, set: &Dom, numbers: &[i64]) -> Result<Vec<i64>, Memory>
    ensures { IfOk result (λ kept. kept.items ≡ filter (λ v. is_among v set.now) numbers.now) }
{
    Ok(
        numbers
            .iter()
            .copied()
            .filter(|number| has(set, *number))
            .collect(alloc)?,
    )
}

/// Whether the number is in the set.
fn has(set: &Dom, number: i64) -> bool
    ensures { result ≡ is_among number set.now }
{
    set.has(number)
}
