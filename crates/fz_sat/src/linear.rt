//! The rows on sums, products and absolute values.

ghost use Rattle.std.specs.Prelude.{◌≡◌, ◌<◌, length, pos, ◌+ℤ◌, ◌*ℤ◌, int_le, unsigned_abs};
ghost use Rattle.std.specs.Ordering.{int_eq};
ghost use Rattle.fz_sat.specs.Meaning.{given, sum_of};
ghost use Rattle.fz_sat.specs.Satisfies.{valuation, value_of};
ghost use Rattle.fz_sat.specs.Sums.{IsReduced, LiesAs, number_of, sum_of_products};

use crate::row::Row;
use crate::wide::{Wide, product};
use fz_model::Basic;

/// The sum of the products of the values of the elements, pair by pair.
fn sum_of_products(row: &Row, first: &[Basic], second: &[Basic]) -> Wide
    ensures sum { number_of result ≡ sum_of_products row.now.items.now (valuation row.now.values.now) first.now second.now }
    ensures reduced { IsReduced result }
{
    let mut sum = Wide::ZERO;
    for place in 0..first.len().min(second.len()) {
        sum = sum.plus(product(row.value(first[place]), row.value(second[place])));
    }
    sum
}

/// A number that lies to each number of 64 bits as the sum of the row does.
fn sum(row: &Row) -> i128
    ensures { LiesAs result (sum_of (given row.now.items.now row.now.args.now (valuation row.now.values.now))) }
{
    sum_of_products(row, row.elements(0), row.elements(1)).clamped()
}

/// Whether the sum of the row is at most argument 2.
pub fn sum_is_at_most(row: &Row) -> bool
    ensures { let g = given row.now.items.now row.now.args.now (valuation row.now.values.now) in
        result ≡ int_le (sum_of g) (g.number 2) }
{
    sum(row) <= i128::from(row.number(2))
}

/// Whether the sum of the row equals argument 2.
pub fn sum_is(row: &Row) -> bool
    ensures { let g = given row.now.items.now row.now.args.now (valuation row.now.values.now) in
        result ≡ int_eq (sum_of g) (g.number 2) }
{
    sum(row) == i128::from(row.number(2))
}

/// Whether the first two numbers sum to the third.
pub fn plus_holds(row: &Row) -> bool
    ensures { let g = given row.now.items.now row.now.args.now (valuation row.now.values.now) in
        result ≡ int_eq (g.number 0 +ℤ g.number 1) (g.number 2) }
{
    i128::from(row.number(0)) + i128::from(row.number(1)) == i128::from(row.number(2))
}

/// Whether the product of the first two numbers is the third.
pub fn times_holds(row: &Row) -> bool
    ensures { let g = given row.now.items.now row.now.args.now (valuation row.now.values.now) in
        result ≡ int_eq (g.number 0 *ℤ g.number 1) (g.number 2) }
{
    multiplied(row.number(0), row.number(1)) == i128::from(row.number(2))
}

/// The product of two numbers.
fn multiplied(x: i64, y: i64) -> i128
    ensures { result ≡ x *ℤ y }
{
    i128::from(x) * i128::from(y)
}

/// Whether the second number is the first without its sign.
pub fn absolute_holds(row: &Row) -> bool
    ensures { let g = given row.now.items.now row.now.args.now (valuation row.now.values.now) in
        result ≡ int_eq (pos (unsigned_abs (g.number 0))) (g.number 1) }
{
    i128::from(row.number(0).unsigned_abs()) == i128::from(row.number(1))
}
