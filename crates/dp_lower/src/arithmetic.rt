//! Constraints on products, maxima, minima and absolute values.

ghost use Rattle.std.specs.Prelude.{◌≡◌, IfOk};
ghost use Rattle.dp_lower.specs.Arithmetic as spec;
ghost use Rattle.dp_lower.specs.Recipe.{args_in};

use crate::globals::one_part;
use dp_domain::Memory;
use dp_parts::Part;
use dp_rule_arith::{Absolute, Greatest, Least, Times};
use fz_model::{Expr, Item};
use fz_sat::arg_term;
use std::alloc::Global;

/// The part that the product of the first two arguments is the third.
pub fn multiplied(alloc: Global, items: &[Item], args: &[Expr]) -> Result<Vec<Part>, Memory>
    ensures { IfOk result (λ parts. let a = args_in items.now args.now in parts.items ≡ spec.multiplied (a.term 0) (a.term 1) (a.term 2)) }
{
    let (first, second) = (arg_term(items, args, 0), arg_term(items, args, 1));
    let rule = Times::new(first, second, arg_term(items, args, 2));
    one_part(alloc, Part::Times(rule))
}

/// The part that the greater of the first two arguments is the third.
pub fn greater_is(alloc: Global, items: &[Item], args: &[Expr]) -> Result<Vec<Part>, Memory>
    ensures { IfOk result (λ parts. let a = args_in items.now args.now in parts.items ≡ spec.greater_is (a.term 0) (a.term 1) (a.term 2)) }
{
    let (first, second) = (arg_term(items, args, 0), arg_term(items, args, 1));
    let rule = Greatest::new(first, second, arg_term(items, args, 2));
    one_part(alloc, Part::Greatest(rule))
}

/// The part that the lesser of the first two arguments is the third.
pub fn lesser_is(alloc: Global, items: &[Item], args: &[Expr]) -> Result<Vec<Part>, Memory>
    ensures { IfOk result (λ parts. let a = args_in items.now args.now in parts.items ≡ spec.lesser_is (a.term 0) (a.term 1) (a.term 2)) }
{
    let (first, second) = (arg_term(items, args, 0), arg_term(items, args, 1));
    let rule = Least::new(first, second, arg_term(items, args, 2));
    one_part(alloc, Part::Least(rule))
}

/// The part that the second argument is the first without its sign.
pub fn absolute_is(alloc: Global, items: &[Item], args: &[Expr]) -> Result<Vec<Part>, Memory>
    ensures { IfOk result (λ parts. let a = args_in items.now args.now in parts.items ≡ spec.absolute_is (a.term 0) (a.term 1)) }
{
    let rule = Absolute::new(arg_term(items, args, 0), arg_term(items, args, 1));
    one_part(alloc, Part::Absolute(rule))
}
