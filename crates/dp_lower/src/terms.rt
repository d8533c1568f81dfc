//! Arguments as terms and sums.

ghost use Rattle.std.specs.Prelude.{◌≡◌, ◌≤◌, [], ◌∷◌, IfOk, false, length, pos, negsuc};
ghost use Rattle.dp_base.specs.Lists.{Each};
ghost use Rattle.dp_domain.specs.Sets.{IsSmall};
ghost use Rattle.dp_rule_linear.specs.Forms.{IsBounded, variables};
ghost use Rattle.fz_sat.specs.Args as args_spec;
ghost use Rattle.fz_facts.specs.Facts.{AreFew, IsIntTerm, IsSmallConst};
ghost use Rattle.dp_lower.specs.Merged.{IsMerged};
ghost use Rattle.dp_lower.specs.Recipe.{args_in, difference, excess, linear_sum};
ghost use Rattle.dp_lower.specs.Sums.{number_in, weighted};
ghost use Rattle.fz_facts.specs.Declared.{is_boolean};

use crate::sum::LinearSum;
use dp_domain::{Memory, Term};
use fz_model::{Basic, Expr, Item};
use fz_sat::{arg_elements, arg_term, term_of};
use std::alloc::Global;

/// Argument `place`, counted from 0, as a list of terms.
pub fn arg_terms(
    alloc: Global,
    items: &[Item],
    args: &[Expr],
    place: usize,
) -> Result<Vec<Term>, Memory>
    ensures { IfOk result (λ terms. terms.items ≡ args_spec.arg_terms items.now args.now place) }
{
    terms_of(alloc, items, arg_elements(items, args, place))
}

/// The elements as terms.
fn terms_of(alloc: Global, items: &[Item], elements: &[Basic]) -> Result<Vec<Term>, Memory>
    ensures { IfOk result (λ terms. terms.items ≡ args_spec.terms_of items.now elements.now) }
{
    let mut terms = Vec::new(alloc);
    for element in elements {
        terms.push(term_of(items, *element))?;
    }
    Ok(terms)
}

/// Argument `place`, counted from 0, as a number; 0 where it is none.
pub fn arg_number(items: &[Item], args: &[Expr], place: usize) -> i64
    ensures number { result ≡ number_in (args_spec.arg_term items.now args.now place) }
    ensures bounded { IsBounded 9223372036854775808 result }
{
    number_of(arg_term(items, args, place))
}

/// The number that a term is; 0 where it is a variable.
fn number_of(term: Term) -> i64
    ensures number { result ≡ number_in term }
    ensures bounded { IsBounded 9223372036854775808 result }
{
    match term {
        Term::Const(value) => value,
        Term::Var(_) => 0,
    }
}

/// The terms, each with its coefficient.
fn weighted(
    alloc: Global,
    coefficients: &[Term],
    terms: &[Term],
) -> Result<Vec<(i64, Term)>, Memory>
    ensures { IfOk result (λ pairs. pairs.items ≡ weighted coefficients.now terms.now) }
{
    Ok(
        coefficients
            .iter()
            .zip(terms)
            .map(|(coefficient, term)| (number_of(*coefficient), *term))
            .collect(alloc)?,
    )
}

/// The sum of a linear constraint.
pub fn linear_sum(alloc: Global, items: &[Item], args: &[Expr]) -> Result<LinearSum, Memory>
    requires coefficients { AreFew IsSmallConst (args_spec.arg_terms items.now args.now 0) }
    requires terms { AreFew (IsIntTerm items.now) (args_spec.arg_terms items.now args.now 1) }
    ensures sum { IfOk result (λ q. q ≡ linear_sum (args_in items.now args.now)) }
    ensures merged { IfOk result (λ q. IsMerged 2000000 q) }
    ensures integers { IfOk result (λ q. Each (λ x. is_boolean items.now x ≡ false) (variables q.terms)) }
{
    let coefficients = arg_terms(alloc, items, args, 0)?;
    let terms = arg_terms(alloc, items, args, 1)?;
    let pairs = weighted(alloc, &coefficients, &terms)?;
    LinearSum::of(alloc, &pairs)
}

/// The first argument less the second.
pub fn difference(alloc: Global, items: &[Item], args: &[Expr]) -> Result<LinearSum, Memory>
    ensures sum { IfOk result (λ q. q ≡ difference (args_in items.now args.now)) }
    ensures merged { IfOk result (λ q. IsMerged 2000000 q) }
    ensures integers { IfOk result (λ q. IsIntTerm items.now (args_spec.arg_term items.now args.now 0) → IsIntTerm items.now (args_spec.arg_term items.now args.now 1) →
        Each (λ x. is_boolean items.now x ≡ false) (variables q.terms)) }
{
    LinearSum::of(
        alloc,
        &[
            (1, arg_term(items, args, 0)),
            (-1, arg_term(items, args, 1)),
        ],
    )
}

/// The two first arguments less the third.
pub fn excess(alloc: Global, items: &[Item], args: &[Expr]) -> Result<LinearSum, Memory>
    ensures sum { IfOk result (λ q. q ≡ excess (args_in items.now args.now)) }
    ensures merged { IfOk result (λ q. IsMerged 2000000 q) }
{
    LinearSum::of(
        alloc,
        &[
            (1, arg_term(items, args, 0)),
            (1, arg_term(items, args, 1)),
            (-1, arg_term(items, args, 2)),
        ],
    )
}
