//! Constraints on Booleans, as nogoods.

ghost use Rattle.std.specs.Prelude.{◌≡◌, ◌++◌, [], ◌∷◌, Some, None, IfOk, OnOk, map, true, false};
ghost use Rattle.dp_lower.specs.Codes.{literal_of, opposed_pair, pair_rows, under_row, under_rows};
ghost use Rattle.dp_lower.specs.Recipe.{all_rows, any_rows, clause_row, clause_rows, rows_by};
ghost use Rattle.dp_lower.specs.Sides.{nogood, nogoods};

use crate::literal::{Literal, push_nogood};
use dp_domain::{Memory, Term};
use dp_parts::Part;
use std::alloc::Global;

/// How two Booleans stand to each other.
#[derive(Clone, Copy, Debug, PartialEq, Eq)]
pub enum Pair {
    Same,
    Differ,
    Le,
    Gt,
    Lt,
    Ge,
}

impl Pair {
    /// The relation that holds exactly where this one fails.
    fn opposed(self) -> Pair
        ensures { result ≡ opposed_pair self }
    {
        match self {
            Pair::Same => Pair::Differ,
            Pair::Differ => Pair::Same,
            Pair::Le => Pair::Gt,
            Pair::Gt => Pair::Le,
            Pair::Lt => Pair::Ge,
            Pair::Ge => Pair::Lt,
        }
    }
}

/// The nogoods by which the relation holds.
pub fn compare(alloc: Global, pair: Pair, a: &Term, b: &Term) -> Result<Vec<Part>, Memory>
    ensures { IfOk result (λ parts. parts.items ≡ nogoods (pair_rows pair a.now b.now)) }
{
    let mut parts = Vec::new(alloc);
    push_pair(&mut parts, &None, pair, a, b)?;
    Ok(parts)
}

/// The nogoods by which r says whether the relation holds.
pub fn compare_reified(
    alloc: Global,
    pair: Pair,
    a: &Term,
    b: &Term,
    r: &Term,
) -> Result<Vec<Part>, Memory>
    ensures { IfOk result (λ parts. parts.items ≡ nogoods (rows_by r.now (pair_rows pair a.now b.now) (pair_rows (opposed_pair pair) a.now b.now))) }
{
    let mut parts = Vec::new(alloc);
    push_pair(&mut parts, &Some(Literal::Holds(*r)), pair, a, b)?;
    push_pair(&mut parts, &Some(Literal::Fails(*r)), pair.opposed(), a, b)?;
    Ok(parts)
}

/// Adds the nogoods of the relation, each behind a literal if there is one.
fn push_pair(
    parts: &mut Vec<Part>,
    under: &Option<Literal>,
    pair: Pair,
    a: &Term,
    b: &Term,
) -> Result<(), Memory>
    ensures { OnOk result (parts.new.items ≡ parts.old.items ++ nogoods (under_rows under.now (pair_rows pair a.now b.now))) }
{
    match pair {
        Pair::Same => {
            push_row(parts, under, &[Literal::Holds(*a), Literal::Fails(*b)])?;
            push_row(parts, under, &[Literal::Fails(*a), Literal::Holds(*b)])
        }
        Pair::Differ => {
            push_row(parts, under, &[Literal::Holds(*a), Literal::Holds(*b)])?;
            push_row(parts, under, &[Literal::Fails(*a), Literal::Fails(*b)])
        }
        Pair::Le => push_row(parts, under, &[Literal::Holds(*a), Literal::Fails(*b)]),
        Pair::Gt => {
            push_row(parts, under, &[Literal::Fails(*a)])?;
            push_row(parts, under, &[Literal::Holds(*b)])
        }
        Pair::Lt => {
            push_row(parts, under, &[Literal::Holds(*a)])?;
            push_row(parts, under, &[Literal::Fails(*b)])
        }
        Pair::Ge => push_row(parts, under, &[Literal::Fails(*a), Literal::Holds(*b)]),
    }
}

/// Adds the nogood of a row, behind a literal if there is one.
fn push_row(parts: &mut Vec<Part>, under: &Option<Literal>, row: &[Literal]) -> Result<(), Memory>
    ensures { OnOk result (parts.new.items ≡ parts.old.items ++ nogood (under_row under.now row.now)) }
{
    match under {
        Some(first) => {
            let row = with_first(*parts.allocator(), first, row)?;
            push_nogood(parts, &row)
        }
        None => push_nogood(parts, row),
    }
}

/// The literals with another before them.
fn with_first(alloc: Global, first: &Literal, rest: &[Literal]) -> Result<Vec<Literal>, Memory>
    ensures { IfOk result (λ row. row.items ≡ first.now ∷ rest.now) }
{
    let mut row = Vec::new(alloc);
    row.push(*first)?;
    for literal in rest {
        row.push(*literal)?;
    }
    Ok(row)
}

/// The nogoods by which r holds exactly where all of the terms do.
pub fn all_reified(alloc: Global, terms: &[Term], r: &Term) -> Result<Vec<Part>, Memory>
    ensures { IfOk result (λ parts. parts.items ≡ nogoods (all_rows terms.now r.now)) }
{
    let mut parts = Vec::new(alloc);
    push_each(&mut parts, &Literal::Holds(*r), false, terms)?;
    let mut row = Vec::new(alloc);
    row.push(Literal::Fails(*r))?;
    push_literals(&mut row, true, terms)?;
    push_nogood(&mut parts, &row)?;
    Ok(parts)
}

/// The nogoods by which r holds exactly where some of the terms does.
pub fn any_reified(alloc: Global, terms: &[Term], r: &Term) -> Result<Vec<Part>, Memory>
    ensures { IfOk result (λ parts. parts.items ≡ nogoods (any_rows terms.now r.now)) }
{
    let mut parts = Vec::new(alloc);
    push_each(&mut parts, &Literal::Fails(*r), true, terms)?;
    let mut row = Vec::new(alloc);
    row.push(Literal::Holds(*r))?;
    push_literals(&mut row, false, terms)?;
    push_nogood(&mut parts, &row)?;
    Ok(parts)
}

/// The nogood by which some of the terms holds or some of the others fails.
pub fn clause(alloc: Global, terms: &[Term], others: &[Term]) -> Result<Vec<Part>, Memory>
    ensures { IfOk result (λ parts. parts.items ≡ nogood (clause_row terms.now others.now)) }
{
    let mut parts = Vec::new(alloc);
    let mut row = Vec::new(alloc);
    push_literals(&mut row, false, terms)?;
    push_literals(&mut row, true, others)?;
    push_nogood(&mut parts, &row)?;
    Ok(parts)
}

/// The nogoods by which r holds exactly where the clause does.
pub fn clause_reified(
    alloc: Global,
    terms: &[Term],
    others: &[Term],
    r: &Term,
) -> Result<Vec<Part>, Memory>
    ensures { IfOk result (λ parts. parts.items ≡ nogoods (clause_rows terms.now others.now r.now)) }
{
    let mut parts = Vec::new(alloc);
    let mut row = Vec::new(alloc);
    row.push(Literal::Holds(*r))?;
    push_literals(&mut row, false, terms)?;
    push_literals(&mut row, true, others)?;
    push_nogood(&mut parts, &row)?;
    push_each(&mut parts, &Literal::Fails(*r), true, terms)?;
    push_each(&mut parts, &Literal::Fails(*r), false, others)?;
    Ok(parts)
}

/// Adds for each term the nogood of the first literal, and that the term holds or fails.
fn push_each(
    parts: &mut Vec<Part>,
    first: &Literal,
    holds: bool,
    terms: &[Term],
) -> Result<(), Memory>
    ensures { OnOk result (parts.new.items ≡ parts.old.items ++ nogoods (map (λ t. first.now ∷ literal_of holds t ∷ []) terms.now)) }
{
    for term in terms {
        push_nogood(parts, &[*first, literal(holds, *term)])?;
    }
    Ok(())
}

/// Adds for each term the literal that it holds or fails.
fn push_literals(row: &mut Vec<Literal>, holds: bool, terms: &[Term]) -> Result<(), Memory>
    ensures { OnOk result (row.new.items ≡ row.old.items ++ map (λ t. literal_of holds t) terms.now) }
{
    for term in terms {
        row.push(literal(holds, *term))?;
    }
    Ok(())
}

/// The literal that the term holds, or that it fails.
fn literal(holds: bool, term: Term) -> Literal
    ensures { result ≡ literal_of holds term }
{
    if holds {
        Literal::Holds(term)
    } else {
        Literal::Fails(term)
    }
}
