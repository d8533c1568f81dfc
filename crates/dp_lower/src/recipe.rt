//! The parts of a constraint.

ghost use Rattle.std.specs.Prelude.{◌≡◌, IfOk};
ghost use Rattle.fz_model.specs.Table.{args_of};
ghost use Rattle.fz_facts.specs.Facts.{AreFit, ArePaired};
ghost use Rattle.dp_lower.specs.Recipe.{args_in, recipe};

use crate::arithmetic::{absolute_is, greater_is, lesser_is, multiplied};
use crate::booleans::Pair;
use crate::globals::{all_different, scheduled, selected};
use crate::integers::{added, compared, compared_reified, linear, linear_reified};
use crate::rows::{
    all_hold, any_holds, both, clause_holds, clause_reified_holds, differing, either, paired,
    paired_reified,
};
use crate::sets::{member, member_reified};
use crate::sides::Relation;
use dp_domain::Memory;
use dp_parts::Part;
use fz_model::{ConstraintKind, Expr, Item};
use std::alloc::Global;

/// The parts of a constraint, in order.
pub fn parts_of(
    alloc: Global,
    items: &[Item],
    kind: ConstraintKind,
    args: &[Expr],
) -> Result<Vec<Part>, Memory>
    requires fit { AreFit items.now args.now 0 (args_of kind) }
    requires paired { ArePaired items.now args.now (args_of kind) }
    ensures { IfOk result (λ parts. parts.items ≡ recipe kind (args_in items.now args.now)) }
{
    match kind {
        ConstraintKind::IntLinLe => linear(alloc, items, args, Relation::AtMost),
        ConstraintKind::IntLinEq => linear(alloc, items, args, Relation::Equal),
        ConstraintKind::IntLinNe => linear(alloc, items, args, Relation::Other),
        ConstraintKind::IntLinLeReif => linear_reified(alloc, items, args, Relation::AtMost),
        ConstraintKind::IntLinEqReif => linear_reified(alloc, items, args, Relation::Equal),
        ConstraintKind::IntLinNeReif => linear_reified(alloc, items, args, Relation::Other),
        ConstraintKind::IntLe => compared(alloc, items, args, Relation::AtMost, 0),
        ConstraintKind::IntLt => compared(alloc, items, args, Relation::AtMost, -1),
        ConstraintKind::IntEq => compared(alloc, items, args, Relation::Equal, 0),
        ConstraintKind::IntNe => compared(alloc, items, args, Relation::Other, 0),
        ConstraintKind::IntLeReif => compared_reified(alloc, items, args, Relation::AtMost, 0),
        ConstraintKind::IntLtReif => compared_reified(alloc, items, args, Relation::AtMost, -1),
        ConstraintKind::IntEqReif => compared_reified(alloc, items, args, Relation::Equal, 0),
        ConstraintKind::IntNeReif => compared_reified(alloc, items, args, Relation::Other, 0),
        ConstraintKind::IntPlus => added(alloc, items, args),
        ConstraintKind::IntTimes => multiplied(alloc, items, args),
        ConstraintKind::IntMax => greater_is(alloc, items, args),
        ConstraintKind::IntMin => lesser_is(alloc, items, args),
        ConstraintKind::IntAbs => absolute_is(alloc, items, args),
        ConstraintKind::Bool2Int => compared(alloc, items, args, Relation::Equal, 0),
        ConstraintKind::BoolEq => paired(alloc, items, args, Pair::Same),
        ConstraintKind::BoolNot => paired(alloc, items, args, Pair::Differ),
        ConstraintKind::BoolXor => differing(alloc, items, args),
        ConstraintKind::BoolLe => paired(alloc, items, args, Pair::Le),
        ConstraintKind::BoolLt => paired(alloc, items, args, Pair::Lt),
        ConstraintKind::BoolEqReif => paired_reified(alloc, items, args, Pair::Same),
        ConstraintKind::BoolLeReif => paired_reified(alloc, items, args, Pair::Le),
        ConstraintKind::BoolLtReif => paired_reified(alloc, items, args, Pair::Lt),
        ConstraintKind::BoolAnd => both(alloc, items, args),
        ConstraintKind::BoolOr => either(alloc, items, args),
        ConstraintKind::ArrayBoolAnd => all_hold(alloc, items, args),
        ConstraintKind::ArrayBoolOr => any_holds(alloc, items, args),
        ConstraintKind::BoolClause => clause_holds(alloc, items, args),
        ConstraintKind::BoolClauseReif => clause_reified_holds(alloc, items, args),
        ConstraintKind::SetIn => member(alloc, items, args),
        ConstraintKind::SetInReif => member_reified(alloc, items, args),
        ConstraintKind::ArrayIntElement => selected(alloc, items, args),
        ConstraintKind::ArrayVarIntElement => selected(alloc, items, args),
        ConstraintKind::ArrayBoolElement => selected(alloc, items, args),
        ConstraintKind::ArrayVarBoolElement => selected(alloc, items, args),
        ConstraintKind::AllDifferentInt => all_different(alloc, items, args),
        ConstraintKind::FznAllDifferentInt => all_different(alloc, items, args),
        ConstraintKind::Cumulative => scheduled(alloc, items, args),
        ConstraintKind::FznCumulative => scheduled(alloc, items, args),
    }
}
