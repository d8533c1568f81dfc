//! The entry of an array at an index.

ghost use Rattle.std.specs.Prelude.{◌≡◌};
ghost use Rattle.fz_sat.specs.Globals.{entry_at};
ghost use Rattle.fz_sat.specs.Meaning.{given, selection_of};
ghost use Rattle.fz_sat.specs.Satisfies.{valuation};

use crate::row::Row;
use fz_model::Basic;

/// The entry at the index, counted from 1.
fn entry_at(entries: &[Basic], index: i64) -> Option<Basic>
    ensures { result ≡ entry_at entries.now index }
{
    let place = usize::try_from(index).ok()?.checked_sub(1)?;
    entries.get(place).copied()
}

/// Whether the array in argument 1 has, at the index in argument 0, the value of argument 2.
pub fn selection_holds(row: &Row) -> bool
    ensures { result ≡ selection_of (given row.now.items.now row.now.args.now (valuation row.now.values.now)) }
{
    match entry_at(row.elements(1), row.number(0)) {
        Some(entry) => row.equals(entry, 2),
        None => false,
    }
}
