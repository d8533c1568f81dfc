//! Whether a constraint holds of the values of its arguments.

ghost use Rattle.std.specs.Prelude.{◌≡◌};
ghost use Rattle.fz_sat.specs.Meaning.{given, holds};
ghost use Rattle.fz_sat.specs.Satisfies.{valuation};

use crate::booleans::{all_hold, clause_holds, some_holds, xor_holds};
use crate::element::selection_holds;
use crate::global::all_differ;
use crate::linear::{absolute_holds, plus_holds, sum_is, sum_is_at_most, times_holds};
use crate::row::Row;
use crate::schedule::schedule_holds;
use fz_model::ConstraintKind;

/// Whether the constraint holds.
pub fn holds(kind: ConstraintKind, row: &Row) -> bool
    ensures { result ≡ holds kind (given row.now.items.now row.now.args.now (valuation row.now.values.now)) }
{
    match kind {
        ConstraintKind::IntLinLe => sum_is_at_most(row),
        ConstraintKind::IntLinEq => sum_is(row),
        ConstraintKind::IntLinNe => !sum_is(row),
        ConstraintKind::IntLinLeReif => row.is_on(3) == sum_is_at_most(row),
        ConstraintKind::IntLinEqReif => row.is_on(3) == sum_is(row),
        ConstraintKind::IntLinNeReif => row.is_on(3) != sum_is(row),
        ConstraintKind::IntLe => row.number(0) <= row.number(1),
        ConstraintKind::IntLt => row.number(0) < row.number(1),
        ConstraintKind::IntEq => row.are_equal(0, 1),
        ConstraintKind::IntNe => !row.are_equal(0, 1),
        ConstraintKind::IntLeReif => row.is_on(2) == (row.number(0) <= row.number(1)),
        ConstraintKind::IntLtReif => row.is_on(2) == (row.number(0) < row.number(1)),
        ConstraintKind::IntEqReif => row.is_on(2) == row.are_equal(0, 1),
        ConstraintKind::IntNeReif => row.is_on(2) != row.are_equal(0, 1),
        ConstraintKind::IntPlus => plus_holds(row),
        ConstraintKind::IntTimes => times_holds(row),
        ConstraintKind::IntMax => row.number(0).max(row.number(1)) == row.number(2),
        ConstraintKind::IntMin => row.number(0).min(row.number(1)) == row.number(2),
        ConstraintKind::IntAbs => absolute_holds(row),
        ConstraintKind::Bool2Int => row.are_equal(1, 0),
        ConstraintKind::BoolEq => row.is_on(0) == row.is_on(1),
        ConstraintKind::BoolNot => row.is_on(0) != row.is_on(1),
        ConstraintKind::BoolXor => xor_holds(row),
        ConstraintKind::BoolLe => !row.is_on(0) || row.is_on(1),
        ConstraintKind::BoolLt => !row.is_on(0) && row.is_on(1),
        ConstraintKind::BoolEqReif => row.is_on(2) == (row.is_on(0) == row.is_on(1)),
        ConstraintKind::BoolLeReif => row.is_on(2) == (!row.is_on(0) || row.is_on(1)),
        ConstraintKind::BoolLtReif => row.is_on(2) == (!row.is_on(0) && row.is_on(1)),
        ConstraintKind::BoolAnd => row.is_on(2) == (row.is_on(0) && row.is_on(1)),
        ConstraintKind::BoolOr => row.is_on(2) == (row.is_on(0) || row.is_on(1)),
        ConstraintKind::ArrayBoolAnd => row.is_on(1) == all_hold(row, 0),
        ConstraintKind::ArrayBoolOr => row.is_on(1) == some_holds(row, 0),
        ConstraintKind::BoolClause => clause_holds(row),
        ConstraintKind::BoolClauseReif => row.is_on(2) == clause_holds(row),
        ConstraintKind::SetIn => row.is_in_set(0, 1),
        ConstraintKind::SetInReif => row.is_on(2) == row.is_in_set(0, 1),
        ConstraintKind::ArrayIntElement
        | ConstraintKind::ArrayVarIntElement
        | ConstraintKind::ArrayBoolElement
        | ConstraintKind::ArrayVarBoolElement => selection_holds(row),
        ConstraintKind::AllDifferentInt | ConstraintKind::FznAllDifferentInt => all_differ(row),
        ConstraintKind::Cumulative | ConstraintKind::FznCumulative => schedule_holds(row),
    }
}
