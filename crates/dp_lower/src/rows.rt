//! Constraints on Booleans, by their arguments.

ghost use Rattle.std.specs.Prelude.{◌≡◌, [], ◌∷◌, IfOk};
ghost use Rattle.dp_lower.specs.Codes.{opposed_pair, pair_rows};
ghost use Rattle.dp_lower.specs.Recipe.{all_rows, any_rows, args_in, clause_row, clause_rows, rows_by, xor_rows};
ghost use Rattle.dp_lower.specs.Sides.{nogood, nogoods};

use crate::booleans::{
    Pair, all_reified, any_reified, clause, clause_reified, compare, compare_reified,
};
use crate::terms::arg_terms;
use dp_domain::Memory;
use dp_parts::Part;
use fz_model::{Expr, Item};
use fz_sat::arg_term;
use std::alloc::Global;

/// The relation of the first two arguments.
pub fn paired(alloc: Global, items: &[Item], args: &[Expr], pair: Pair) -> Result<Vec<Part>, Memory>
    ensures { IfOk result (λ parts. parts.items ≡ nogoods (pair_rows pair ((args_in items.now args.now).term 0) ((args_in items.now args.now).term 1))) }
{
    compare(
        alloc,
        pair,
        &arg_term(items, args, 0),
        &arg_term(items, args, 1),
    )
}

/// The relation of the first two arguments, as the third says.
pub fn paired_reified(
    alloc: Global,
    items: &[Item],
    args: &[Expr],
    pair: Pair,
) -> Result<Vec<Part>, Memory>
    ensures { IfOk result (λ parts. parts.items ≡ nogoods (rows_by ((args_in items.now args.now).term 2) (pair_rows pair ((args_in items.now args.now).term 0) ((args_in items.now args.now).term 1)) (pair_rows (opposed_pair pair) ((args_in items.now args.now).term 0) ((args_in items.now args.now).term 1)))) }
{
    let a = arg_term(items, args, 0);
    let b = arg_term(items, args, 1);
    let r = arg_term(items, args, 2);
    compare_reified(alloc, pair, &a, &b, &r)
}

/// The first two arguments differ; where there is a third, it says whether they do.
pub fn differing(alloc: Global, items: &[Item], args: &[Expr]) -> Result<Vec<Part>, Memory>
    ensures { IfOk result (λ parts. parts.items ≡ nogoods (xor_rows (args_in items.now args.now))) }
{
    if args.len() >= 3 {
        paired_reified(alloc, items, args, Pair::Differ)
    } else {
        paired(alloc, items, args, Pair::Differ)
    }
}

/// The third argument holds exactly where the first two do.
pub fn both(alloc: Global, items: &[Item], args: &[Expr]) -> Result<Vec<Part>, Memory>
    ensures { IfOk result (λ parts. parts.items ≡ nogoods (all_rows ((args_in items.now args.now).term 0 ∷ (args_in items.now args.now).term 1 ∷ []) ((args_in items.now args.now).term 2))) }
{
    let terms = [arg_term(items, args, 0), arg_term(items, args, 1)];
    all_reified(alloc, &terms, &arg_term(items, args, 2))
}

/// The third argument holds exactly where one of the first two does.
pub fn either(alloc: Global, items: &[Item], args: &[Expr]) -> Result<Vec<Part>, Memory>
    ensures { IfOk result (λ parts. parts.items ≡ nogoods (any_rows ((args_in items.now args.now).term 0 ∷ (args_in items.now args.now).term 1 ∷ []) ((args_in items.now args.now).term 2))) }
{
    let terms = [arg_term(items, args, 0), arg_term(items, args, 1)];
    any_reified(alloc, &terms, &arg_term(items, args, 2))
}

/// The second argument holds exactly where all of the first do.
pub fn all_hold(alloc: Global, items: &[Item], args: &[Expr]) -> Result<Vec<Part>, Memory>
    ensures { IfOk result (λ parts. parts.items ≡ nogoods (all_rows ((args_in items.now args.now).terms 0) ((args_in items.now args.now).term 1))) }
{
    let terms = arg_terms(alloc, items, args, 0)?;
    all_reified(alloc, &terms, &arg_term(items, args, 1))
}

/// The second argument holds exactly where some of the first does.
pub fn any_holds(alloc: Global, items: &[Item], args: &[Expr]) -> Result<Vec<Part>, Memory>
    ensures { IfOk result (λ parts. parts.items ≡ nogoods (any_rows ((args_in items.now args.now).terms 0) ((args_in items.now args.now).term 1))) }
{
    let terms = arg_terms(alloc, items, args, 0)?;
    any_reified(alloc, &terms, &arg_term(items, args, 1))
}

/// Some of the first argument holds or some of the second fails.
pub fn clause_holds(alloc: Global, items: &[Item], args: &[Expr]) -> Result<Vec<Part>, Memory>
    ensures { IfOk result (λ parts. parts.items ≡ nogood (clause_row ((args_in items.now args.now).terms 0) ((args_in items.now args.now).terms 1))) }
{
    let terms = arg_terms(alloc, items, args, 0)?;
    let others = arg_terms(alloc, items, args, 1)?;
    clause(alloc, &terms, &others)
}

/// The third argument holds exactly where the clause of the first two does.
pub fn clause_reified_holds(
    alloc: Global,
    items: &[Item],
    args: &[Expr],
) -> Result<Vec<Part>, Memory>
    ensures { IfOk result (λ parts. parts.items ≡ nogoods (clause_rows ((args_in items.now args.now).terms 0) ((args_in items.now args.now).terms 1) ((args_in items.now args.now).term 2))) }
{
    let terms = arg_terms(alloc, items, args, 0)?;
    let others = arg_terms(alloc, items, args, 1)?;
    clause_reified(alloc, &terms, &others, &arg_term(items, args, 2))
}
