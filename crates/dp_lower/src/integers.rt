//! Constraints on sums of integers.

ghost use Rattle.std.specs.Prelude.{◌≡◌, [], ◌∷◌, IfOk, pos};
ghost use Rattle.dp_rule_linear.specs.Forms.{IsBounded};
ghost use Rattle.fz_model.specs.declared.kinds.ArgKind.TheVariants as arg;
ghost use Rattle.dp_lower.specs.Codes.{opposed, side_of};
ghost use Rattle.fz_facts.specs.Facts.{AreFit};
ghost use Rattle.dp_lower.specs.Recipe as spec;
ghost use Rattle.dp_lower.specs.Recipe.{args_in};
ghost use Rattle.dp_lower.specs.Sides.{always, is_equal, reified};

use crate::sides::{Relation, relate, relate_reified};
use crate::terms::{arg_number, difference, excess, linear_sum};
use dp_domain::Memory;
use dp_parts::Part;
use fz_model::{Expr, Item};
use fz_sat::arg_term;
use std::alloc::Global;

/// The parts of a linear constraint.
pub fn linear(
    alloc: Global,
    items: &[Item],
    args: &[Expr],
    relation: Relation,
) -> Result<Vec<Part>, Memory>
    requires { AreFit items.now args.now 0 (arg.Coefficients ∷ arg.Ints ∷ arg.Const ∷ []) }
    ensures { IfOk result (λ parts. parts.items ≡ always (side_of relation (spec.linear_sum (args_in items.now args.now)) (spec.limit (args_in items.now args.now)))) }
{
    let sum = linear_sum(alloc, items, args)?;
    relate(
        alloc,
        relation,
        &sum,
        i128::from(arg_number(items, args, 2)),
    )
}

/// The parts of a reified linear constraint.
pub fn linear_reified(
    alloc: Global,
    items: &[Item],
    args: &[Expr],
    relation: Relation,
) -> Result<Vec<Part>, Memory>
    requires { AreFit items.now args.now 0 (arg.Coefficients ∷ arg.Ints ∷ arg.Const ∷ arg.Bool ∷ []) }
    ensures { IfOk result (λ parts. parts.items ≡ reified ((args_in items.now args.now).term 3) (side_of relation (spec.linear_sum (args_in items.now args.now)) (spec.limit (args_in items.now args.now))) (side_of (opposed relation) (spec.linear_sum (args_in items.now args.now)) (spec.limit (args_in items.now args.now)))) }
{
    let sum = linear_sum(alloc, items, args)?;
    let number = i128::from(arg_number(items, args, 2));
    relate_reified(alloc, relation, &sum, number, arg_term(items, args, 3))
}

/// The parts of a comparison of the first two arguments: of their difference with a number.
pub fn compared(
    alloc: Global,
    items: &[Item],
    args: &[Expr],
    relation: Relation,
    number: i128,
) -> Result<Vec<Part>, Memory>
    requires { IsBounded 1 number }
    ensures { IfOk result (λ parts. parts.items ≡ always (side_of relation (spec.difference (args_in items.now args.now)) number)) }
{
    let sum = difference(alloc, items, args)?;
    relate(alloc, relation, &sum, number)
}

/// The parts of a reified comparison of the first two arguments.
pub fn compared_reified(
    alloc: Global,
    items: &[Item],
    args: &[Expr],
    relation: Relation,
    number: i128,
) -> Result<Vec<Part>, Memory>
    requires fit { AreFit items.now args.now 0 (arg.Int ∷ arg.Int ∷ arg.Bool ∷ []) }
    requires small { IsBounded 1 number }
    ensures { IfOk result (λ parts. parts.items ≡ reified ((args_in items.now args.now).term 2) (side_of relation (spec.difference (args_in items.now args.now)) number) (side_of (opposed relation) (spec.difference (args_in items.now args.now)) number)) }
{
    let sum = difference(alloc, items, args)?;
    relate_reified(alloc, relation, &sum, number, arg_term(items, args, 2))
}

/// The parts by which the first two arguments add up to the third.
pub fn added(alloc: Global, items: &[Item], args: &[Expr]) -> Result<Vec<Part>, Memory>
    ensures { IfOk result (λ parts. parts.items ≡ always (is_equal (spec.excess (args_in items.now args.now)) (pos 0))) }
{
    let sum = excess(alloc, items, args)?;
    relate(alloc, Relation::Equal, &sum, 0)
}
