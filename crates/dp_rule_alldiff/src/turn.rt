// The turn of terms that differ, by tight intervals.

ghost use Rattle.std.specs.Prelude.{◌≡◌, ◌≤ℤ◌, ◌<ℤ◌, false, filter, IfOk, IfSome, None, Some, if◌then◌else◌, int_le, option_map};
ghost use Rattle.std.specs.List.{filter_map};
ghost use Rattle.std.specs.Option.{option_and_then};
ghost use Rattle.dp_domain.specs.Faces.{Covers};
ghost use Rattle.dp_domain.specs.Sets.{IsDomain, IsSmall, least};
ghost use Rattle.dp_domain.specs.States.{is_dead};
ghost use Rattle.dp_domain.specs.Terms.{term_scope, term_variables};
ghost use Rattle.dp_domain.specs.Turns.{turn_of};
ghost use Rattle.dp_rule_alldiff.specs.AllDifferent.{face_all_different, is_between};
ghost use Rattle.dp_rule_alldiff.specs.Once.{AreOnce};
ghost use Rattle.dp_rule_alldiff.specs.Tight.{hole_in, lesser, lower_in, start_over, tight_given, tight_on, upper_in, value_in};

use crate::tight::{Tight, opposite, tight_intervals};
use crate::{Atom, Found, Memory, State, Term, VarId, spans};
use dp_domain::{Dom, Op};

/// The turn at a nonempty state of terms of which each variable is one position alone.
pub fn found(terms: &[Term], scope: &[VarId], state: &State) -> Result<Option<Found>, Memory>
    requires scope { scope.now ≡ term_scope terms.now }
    requires once { AreOnce (term_variables terms.now) }
    requires covers { Covers scope.now state.now }
    requires alive { is_dead state.now ≡ false }
    ensures { IfOk result (λ turn. turn ≡ turn_of (face_all_different terms.now) state.now) }
{
    let spans = spans::in_order(spans::spans(terms, state)?);
    if spans::finds_crowd(&spans) {
        return Ok(Some(Found::Clash));
    }
    let tight = tight_intervals(state.allocator(), &spans)?;
    match given(&tight, scope, state) {
        Some(atom) => Ok(Some(Found::Atom(atom))),
        None => Ok(None),
    }
}

/// What the intervals give on the first variable that they give something on.
fn given(tight: &Tight, scope: &[VarId], state: &State) -> Option<Atom>
    requires { Covers scope.now state.now }
    ensures { result ≡ tight_given tight.now.from.items tight.now.to.items state.now scope.now }
{
    for var in scope {
        let atom = given_on(tight, state.set(*var), *var);
        if atom.is_some() {
            return atom;
        }
    }
    None
}

/// A lower bound, else an upper bound, else a hole.
fn given_on(tight: &Tight, set: &Dom, var: VarId) -> Option<Atom>
    ensures { result ≡ tight_on tight.now.from.items tight.now.to.items set.now var }
{
    let (lower, upper) = (set.lower()?, set.upper()?);
    let above = atom(var, Op::Ge, lower_in(&tight.to, set, lower, upper));
    if above.is_some() {
        return above;
    }
    let below = atom(var, Op::Le, upper_in(&tight.from, set, lower, upper));
    if below.is_some() {
        return below;
    }
    atom(var, Op::Ne, hole_in(&tight.from, set, lower))
}

/// The atom on the number, if there is one.
fn atom(var: VarId, op: Op, value: Option<i64>) -> Option<Atom>
    requires { IfSome value IsSmall }
    ensures { result ≡ option_map (λ v. record { var = var; op = op; value = v }) value }
{
    Atom::new(var, op, value?)
}

/// The least value after all tight intervals that hold the least value and not the greatest.
fn lower_in(to: &[(i64, i64)], set: &Dom, lower: i64, upper: i64) -> Option<i64>
    requires domain { IsDomain set.now }
    requires lower { IsSmall lower }
    requires upper { IsSmall upper }
    ensures value { result ≡ lower_in to.now set.now lower upper }
    ensures small { IfSome result IsSmall }
{
    let first = first_over(to, opposite(upper), opposite(lower))?;
    set.least_from(opposite(first) + 1)
}

/// The greatest value before all tight intervals that hold the greatest value and not the least.
fn upper_in(from: &[(i64, i64)], set: &Dom, lower: i64, upper: i64) -> Option<i64>
    requires domain { IsDomain set.now }
    requires lower { IsSmall lower }
    requires upper { IsSmall upper }
    ensures value { result ≡ upper_in from.now set.now lower upper }
    ensures small { IfSome result IsSmall }
{
    let first = first_over(from, lower, upper)?;
    set.greatest_to(first - 1)
}

/// The least value in a tight interval that begins above the least.
fn hole_in(from: &[(i64, i64)], set: &Dom, lower: i64) -> Option<i64>
    requires { IsDomain set.now }
    ensures value { result ≡ hole_in from.now set.now lower }
    ensures small { IfSome result IsSmall }
{
    let mut least = None;
    for interval in from {
        least = lesser(least, value_in(set, lower, interval));
    }
    least
}

/// The least value in the interval, where it begins above the number.
fn value_in(set: &Dom, lower: i64, interval: &(i64, i64)) -> Option<i64>
    ensures { result ≡ value_in set.now lower interval.now }
{
    if lower < interval.0 {
        least_between(set, interval.0, interval.1)
    } else {
        None
    }
}

/// The least value from the first number to the last.
fn least_between(set: &Dom, first: i64, last: i64) -> Option<i64>
    ensures { result ≡ least (filter (is_between first last) set.now) }
{
    no_more(set.least_from(first), last)
}

/// The number, where it is at most the last.
fn no_more(value: Option<i64>, last: i64) -> Option<i64>
    ensures { result ≡ option_and_then (λ v. if int_le v last then Some v else None) value }
{
    match value {
        Some(number) => if number <= last { Some(number) } else { None },
        None => None,
    }
}

/// The least first number of the intervals that begin above `lower` and hold `upper`.
fn first_over(intervals: &[(i64, i64)], lower: i64, upper: i64) -> Option<i64>
    ensures least { result ≡ least (filter_map (start_over lower upper) intervals.now) }
    ensures within { IfSome result (λ first. (lower <ℤ first) × (first ≤ℤ upper)) }
{
    let mut least = None;
    for interval in intervals {
        least = lesser(least, start_over(lower, upper, interval));
    }
    least
}

/// The first number of the interval, where it begins above `lower` and holds `upper`.
fn start_over(lower: i64, upper: i64, interval: &(i64, i64)) -> Option<i64>
    ensures { result ≡ start_over lower upper interval.now }
{
    if lower < interval.0 && interval.0 <= upper && upper <= interval.1 {
        Some(interval.0)
    } else {
        None
    }
}

/// The lesser of two numbers, where they are there.
fn lesser(one: Option<i64>, other: Option<i64>) -> Option<i64>
    ensures { result ≡ lesser one other }
{
    match (one, other) {
        (Some(a), Some(b)) => Some(if a <= b { a } else { b }),
        (Some(a), None) => Some(a),
        (None, other) => other,
    }
}
