//! The rows on whole arrays: numbers that differ, and tasks that share a capacity.

ghost use Rattle.std.specs.Prelude.{◌≡◌, map};
ghost use Rattle.std.specs.List.{list_any};
ghost use Rattle.std.specs.Ordering.{int_eq};
ghost use Rattle.fz_sat.specs.Globals.{are_distinct, keeps_at, keeps_capacity};
ghost use Rattle.fz_sat.specs.Meaning.{given, schedule_of};
ghost use Rattle.fz_sat.specs.Satisfies.{valuation, value_of};

use crate::row::{Row, value_of};
use fz_model::{Basic, Item};

/// Whether some of the elements has the number as its value.
fn has_value(items: &[Item], values: &[i64], elements: &[Basic], number: i64) -> bool
    ensures { result ≡ list_any (λ b. int_eq (value_of items.now (valuation values.now) b) number) elements.now }
{
    elements
        .iter()
        .any(|element| value_of(items, values, *element) == number)
}

/// Whether the values of the elements differ at all positions.
fn values_differ(items: &[Item], values: &[i64], elements: &[Basic]) -> bool
    ensures { result ≡ are_distinct (map (value_of items.now (valuation values.now)) elements.now) }
{
    for (place, element) in elements.iter().enumerate() {
        if has_value(
            items,
            values,
            &elements[place + 1..],
            value_of(items, values, *element),
        ) {
            return false;
        }
    }
    true
}

/// Whether the numbers of argument 0 differ at all positions.
pub fn all_differ(row: &Row) -> bool
    ensures { result ≡ are_distinct ((given row.now.items.now row.now.args.now (valuation row.now.values.now)).numbers 0) }
{
    values_differ(row.items, row.values, row.elements(0))
}
