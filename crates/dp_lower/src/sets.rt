//! Constraints that a term lies in a set.

ghost use Rattle.std.specs.Prelude.{◌≡◌, [], ◌∷◌, filter, if◌then◌else◌, IfOk, None, not};
ghost use Rattle.dp_domain.specs.Conditions.{IsApart};
ghost use Rattle.dp_domain.specs.Sets.{IsDomain};
ghost use Rattle.dp_parts.specs.declared.part.Part.TheVariants as part_of;
ghost use Rattle.fz_model.specs.declared.kinds.ArgKind.TheVariants as arg;
ghost use Rattle.fz_sat.specs.Args as args_spec;
ghost use Rattle.dp_lower.specs.Codes.{IsApartFrom};
ghost use Rattle.fz_facts.specs.Facts.{AreFit};
ghost use Rattle.dp_lower.specs.Recipe as spec;
ghost use Rattle.dp_lower.specs.Recipe.{args_in};
ghost use Rattle.dp_lower.specs.Sides.{is_member, is_no_member, nogood, reified};
ghost use Rattle.dp_lower.specs.Small.{small_numbers};
ghost use Rattle.dp_lower.specs.declared.literal.Literal.TheVariants as literal;

use crate::intervals::{members, others};
use crate::literal::{Literal, off, on, push_nogood};
use dp_domain::{Atom, Dom, Memory, Term, VarId};
use dp_parts::Part;
use dp_rule_clause::Within;
use fz_model::{Expr, Item};
use fz_sat::{arg_set, arg_term, is_in_set};
use std::alloc::Global;

/// The parts by which the first argument lies in the set of the second.
pub fn member(alloc: Global, items: &[Item], args: &[Expr]) -> Result<Vec<Part>, Memory>
    ensures { IfOk result (λ parts. let a = args_in items.now args.now in parts.items ≡ spec.member (a.term 0) (a.set 1)) }
{
    let mut parts = Vec::new(alloc);
    match arg_term(items, args, 0) {
        Term::Var(var) => parts.push(inside(alloc, items, args, None, var)?)?,
        Term::Const(value) => {
            if !set_has(items, args, value) {
                push_nogood(&mut parts, &[])?;
            }
        }
    }
    Ok(parts)
}

/// The parts by which the third argument says whether the first lies in the set of the second.
pub fn member_reified(alloc: Global, items: &[Item], args: &[Expr]) -> Result<Vec<Part>, Memory>
    requires { AreFit items.now args.now 0 (arg.Int ∷ arg.Set ∷ arg.Bool ∷ []) }
    ensures { IfOk result (λ parts. let a = args_in items.now args.now in parts.items ≡ spec.member_reified (a.term 0) (a.set 1) (a.term 2)) }
{
    let r = arg_term(items, args, 2);
    match arg_term(items, args, 0) {
        Term::Var(var) => variable_reified(alloc, items, args, var, &r),
        Term::Const(value) => number_reified(alloc, set_has(items, args, value), &r),
    }
}

/// The parts by which r says whether the variable lies in the set of the second argument.
fn variable_reified(
    alloc: Global,
    items: &[Item],
    args: &[Expr],
    var: VarId,
    r: &Term,
) -> Result<Vec<Part>, Memory>
    requires { IsApartFrom r.now (var ∷ []) }
    ensures { let set = args_spec.arg_set items.now args.now 1 in
        IfOk result (λ parts. parts.items ≡ reified r.now (is_member var set) (is_no_member var set)) }
{
    let mut parts = Vec::new(alloc);
    match r {
        Term::Var(r) => {
            parts.push(inside(alloc, items, args, Some(on(*r)), var)?)?;
            parts.push(outside(alloc, items, args, Some(off(*r)), var)?)?;
        }
        Term::Const(value) if *value >= 1 => parts.push(inside(alloc, items, args, None, var)?)?,
        Term::Const(_) => parts.push(outside(alloc, items, args, None, var)?)?,
    }
    Ok(parts)
}

/// The parts by which r says what it does of a number that is in the set, or is not.
fn number_reified(alloc: Global, is_in: bool, r: &Term) -> Result<Vec<Part>, Memory>
    ensures { IfOk result (λ parts. parts.items ≡ if is_in then nogood (literal.Fails r.now ∷ []) else nogood (literal.Holds r.now ∷ [])) }
{
    let mut parts = Vec::new(alloc);
    if is_in {
        push_nogood(&mut parts, &[Literal::Fails(*r)])?;
    } else {
        push_nogood(&mut parts, &[Literal::Holds(*r)])?;
    }
    Ok(parts)
}

/// Where the condition holds, the variable lies in the set of the second argument.
fn inside(
    alloc: Global,
    items: &[Item],
    args: &[Expr],
    condition: Option<Atom>,
    var: VarId,
) -> Result<Part, Memory>
    requires { IsApart condition (var ∷ []) }
    ensures { IfOk result (λ part. part ∷ [] ≡ is_member var (args_spec.arg_set items.now args.now 1) condition) }
{
    Ok(within(condition, var, set_members(alloc, items, args)?))
}

/// Where the condition holds, the variable lies within ±10^9 and not in the set of the second argument.
fn outside(
    alloc: Global,
    items: &[Item],
    args: &[Expr],
    condition: Option<Atom>,
    var: VarId,
) -> Result<Part, Memory>
    requires { IsApart condition (var ∷ []) }
    ensures { IfOk result (λ part. part ∷ [] ≡ is_no_member var (args_spec.arg_set items.now args.now 1) condition) }
{
    Ok(within(condition, var, set_others(alloc, items, args)?))
}

/// Where the condition holds, the variable lies in the set.
fn within(condition: Option<Atom>, var: VarId, set: Dom) -> Part
    requires { IsApart condition (var ∷ []) }
    ensures { result ≡ part_of.Within (record { condition = condition; var = var; set = set }) }
{
    Part::Within(Within::new(condition, var, set).unwrap())
}

/// The numbers of the set of the second argument that are within ±10^9.
fn set_members(alloc: Global, items: &[Item], args: &[Expr]) -> Result<Dom, Memory>
    ensures members { IfOk result (λ d. d ≡ filter (args_spec.is_in_set (args_spec.arg_set items.now args.now 1)) small_numbers) }
    ensures domain { IfOk result IsDomain }
{
    match arg_set(items, args, 1) {
        Some(set) => members(alloc, set),
        None => Dom::of(alloc, &[]),
    }
}

/// The numbers within ±10^9 that are not in the set of the second argument.
fn set_others(alloc: Global, items: &[Item], args: &[Expr]) -> Result<Dom, Memory>
    ensures { IfOk result (λ d. d ≡ filter (λ v. not (args_spec.is_in_set (args_spec.arg_set items.now args.now 1) v)) small_numbers) }
{
    let members = set_members(alloc, items, args)?;
    others(alloc, &members)
}

/// Whether the number is in the set of the second argument.
fn set_has(items: &[Item], args: &[Expr], number: i64) -> bool
    ensures { result ≡ args_spec.is_in_set (args_spec.arg_set items.now args.now 1) number }
{
    match arg_set(items, args, 1) {
        Some(set) => is_in_set(set, number),
        None => false,
    }
}
