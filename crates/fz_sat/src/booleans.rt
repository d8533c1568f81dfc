//! The rows on Booleans.

ghost use Rattle.std.specs.Prelude.{◌≡◌, not, ◌||◌};
ghost use Rattle.std.specs.List.{list_all, list_any};
ghost use Rattle.fz_sat.specs.Meaning.{clause_of, given, is_on, xor_of};
ghost use Rattle.fz_sat.specs.Satisfies.{valuation, value_of};

use crate::row::{Row, value_of};
use fz_model::{Basic, Item};

/// Whether each of the elements holds.
fn all_on(items: &[Item], values: &[i64], elements: &[Basic]) -> bool
    ensures { result ≡ list_all (λ b. is_on (value_of items.now (valuation values.now) b)) elements.now }
{
    elements
        .iter()
        .all(|element| value_of(items, values, *element) >= 1)
}

/// Whether some of the elements holds.
fn some_on(items: &[Item], values: &[i64], elements: &[Basic]) -> bool
    ensures { result ≡ list_any (λ b. is_on (value_of items.now (valuation values.now) b)) elements.now }
{
    elements
        .iter()
        .copied()
        .any(|element| value_of(items, values, element) >= 1)
}

/// Whether each Boolean of the array at the place holds.
pub fn all_hold(row: &Row, place: usize) -> bool
    ensures { result ≡ list_all is_on ((given row.now.items.now row.now.args.now (valuation row.now.values.now)).numbers place) }
{
    all_on(row.items, row.values, row.elements(place))
}

/// Whether some Boolean of the array at the place holds.
pub fn some_holds(row: &Row, place: usize) -> bool
    ensures { result ≡ list_any is_on ((given row.now.items.now row.now.args.now (valuation row.now.values.now)).numbers place) }
{
    some_on(row.items, row.values, row.elements(place))
}

/// Whether some Boolean of the first array holds or some of the second fails.
pub fn clause_holds(row: &Row) -> bool
    ensures { result ≡ clause_of (given row.now.items.now row.now.args.now (valuation row.now.values.now)) }
{
    some_holds(row, 0) || !all_hold(row, 1)
}

/// Whether the two Booleans differ; where there is a third, whether it says so.
pub fn xor_holds(row: &Row) -> bool
    ensures { result ≡ xor_of (given row.now.items.now row.now.args.now (valuation row.now.values.now)) }
{
    let differ = row.is_on(0) != row.is_on(1);
    if row.args.len() >= 3 {
        row.is_on(2) == differ
    } else {
        differ
    }
}
