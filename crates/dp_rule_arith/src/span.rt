// Intervals of what terms may be, and of what an operation makes of them.

ghost use Rattle.std.specs.Prelude.{◌≡◌, ◌*ℤ◌, length, neg_ℤ, pos};
ghost use Rattle.std.specs.Int.{int_max, int_min};
ghost use Rattle.dp_domain.specs.Terms.{IsTermOf};
ghost use Rattle.dp_rule_arith.specs.Operations.{absolute_span, are_apart, bounds, greater_span, lesser_span, product_span};

use crate::{State, Term};

/// The least value of the term at the state and its greatest; 0 where it has none.
pub fn bounds(term: &Term, state: &State) -> (i64, i64)
    requires { IsTermOf (length state.now) term.now }
    ensures { result ≡ bounds state.now term.now }
{
    let lower = term.lower(state).unwrap_or(0);
    let upper = term.upper(state).unwrap_or(0);
    (lower, upper)
}

/// Whether one interval ends before the other begins.
pub fn are_apart(one: (i128, i128), other: (i64, i64)) -> bool
    ensures { result ≡ are_apart one other }
{
    one.1 < i128::from(other.0) || i128::from(other.1) < one.0
}

/// The interval of the products: from the least of the four products of ends to the greatest.
pub fn product_span(a: (i64, i64), b: (i64, i64)) -> (i128, i128)
    ensures { result ≡ product_span a b }
{
    (least_product(a, b), greatest_product(a, b))
}

/// The least of the four products of ends.
fn least_product(a: (i64, i64), b: (i64, i64)) -> i128
    ensures { result ≡ (product_span a b).0 }
{
    lesser(least_multiple(a.0, b), least_multiple(a.1, b))
}

/// The greatest of the four products of ends.
fn greatest_product(a: (i64, i64), b: (i64, i64)) -> i128
    ensures { result ≡ (product_span a b).1 }
{
    greater(greatest_multiple(a.0, b), greatest_multiple(a.1, b))
}

/// The lesser of the products of the number and an end.
fn least_multiple(number: i64, ends: (i64, i64)) -> i128
    ensures { result ≡ int_min (number *ℤ ends.0) (number *ℤ ends.1) }
{
    lesser(product(number, ends.0), product(number, ends.1))
}

/// The greater of the products of the number and an end.
fn greatest_multiple(number: i64, ends: (i64, i64)) -> i128
    ensures { result ≡ int_max (number *ℤ ends.0) (number *ℤ ends.1) }
{
    greater(product(number, ends.0), product(number, ends.1))
}

/// The lesser of two numbers.
fn lesser(x: i128, y: i128) -> i128
    ensures { result ≡ int_min x y }
{
    x.min(y)
}

/// The greater of two numbers.
fn greater(x: i128, y: i128) -> i128
    ensures { result ≡ int_max x y }
{
    x.max(y)
}

/// The product of two numbers.
fn product(x: i64, y: i64) -> i128
    ensures { result ≡ x *ℤ y }
{
    i128::from(x) * i128::from(y)
}

/// The interval of the greater of two: from the greater lower end to the greater upper end.
pub fn greater_span(a: (i64, i64), b: (i64, i64)) -> (i128, i128)
    ensures { result ≡ greater_span a b }
{
    (i128::from(a.0.max(b.0)), i128::from(a.1.max(b.1)))
}

/// The interval of the lesser of two: from the lesser lower end to the lesser upper end.
pub fn lesser_span(a: (i64, i64), b: (i64, i64)) -> (i128, i128)
    ensures { result ≡ lesser_span a b }
{
    (i128::from(a.0.min(b.0)), i128::from(a.1.min(b.1)))
}

/// The interval of absolute values: from the least distance to 0 to the greatest.
pub fn absolute_span(a: (i64, i64)) -> (i128, i128)
    ensures { result ≡ absolute_span a }
{
    (nearest(a.0, a.1), farthest(a.0, a.1))
}

/// The least distance to 0 of the numbers from the lower to the upper.
fn nearest(lower: i64, upper: i64) -> i128
    ensures { result ≡ int_max (pos 0) (int_max lower (neg_ℤ upper)) }
{
    greater(0, greater(i128::from(lower), opposite(upper)))
}

/// The greatest distance to 0 of the numbers from the lower to the upper.
fn farthest(lower: i64, upper: i64) -> i128
    ensures { result ≡ int_max (neg_ℤ lower) upper }
{
    greater(opposite(lower), i128::from(upper))
}

/// The number with the other sign.
fn opposite(number: i64) -> i128
    ensures { result ≡ neg_ℤ number }
{
    -i128::from(number)
}
