//! Sides of constraints: parts under a condition.

ghost use Rattle.std.specs.Prelude.{◌≡◌, ◌++◌, OnOk, IfOk, ℤ};
ghost use Rattle.dp_domain.specs.Conditions.{IsApart};
ghost use Rattle.dp_rule_linear.specs.Forms.{IsBounded, variables};
ghost use Rattle.dp_lower.specs.Codes.{IsApartFrom, opposed, side_of};
ghost use Rattle.dp_lower.specs.Merged.{IsMerged};
ghost use Rattle.dp_lower.specs.Sides.{always, reified};
ghost use Rattle.dp_lower.specs.Sums.{at_most, opposite, other_than};

use crate::literal::{off, on};
use crate::sum::LinearSum;
use dp_domain::{Atom, Memory, Term};
use dp_parts::Part;
use dp_rule_linear::{LinLe, LinNe};
use std::alloc::Global;

/// How a sum stands to a number.
#[derive(Clone, Copy, Debug, PartialEq, Eq)]
pub enum Relation {
    AtMost,
    Above,
    Equal,
    Other,
}

impl Relation {
    /// The relation that holds exactly where this one fails.
    fn opposed(self) -> Relation
        ensures { result ≡ opposed self }
    {
        match self {
            Relation::AtMost => Relation::Above,
            Relation::Above => Relation::AtMost,
            Relation::Equal => Relation::Other,
            Relation::Other => Relation::Equal,
        }
    }
}

/// Where the condition holds, the sum is at most the number.
fn at_most(sum: &LinearSum, number: i128, condition: Option<Atom>) -> Result<Part, Memory>
    requires merged { IsMerged 2000000 sum.now }
    requires bounded { IsBounded 100000000000000000000 number }
    requires apart { IsApart condition (variables sum.now.terms) }
    ensures { IfOk result (λ part. part ≡ at_most sum.now number condition) }
{
    let terms = sum.nonzero()?;
    let rule = LinLe::new(condition, terms, number - sum.constant()).unwrap();
    Ok(Part::LinLe(rule))
}

/// Where the condition holds, the sum differs from the number.
fn other_than(sum: &LinearSum, number: i128, condition: Option<Atom>) -> Result<Part, Memory>
    requires merged { IsMerged 2000000 sum.now }
    requires bounded { IsBounded 100000000000000000000 number }
    requires apart { IsApart condition (variables sum.now.terms) }
    ensures { IfOk result (λ part. part ≡ other_than sum.now number condition) }
{
    let terms = sum.nonzero()?;
    let rule = LinNe::new(condition, terms, number - sum.constant()).unwrap();
    Ok(Part::LinNe(rule))
}

/// Where the condition holds, the opposite of the sum is at most the number.
fn opposite_at_most(sum: &LinearSum, number: i128, condition: Option<Atom>) -> Result<Part, Memory>
    requires merged { IsMerged 2000000 sum.now }
    requires bounded { IsBounded 100000000000000000000 number }
    requires apart { IsApart condition (variables sum.now.terms) }
    ensures { IfOk result (λ part. part ≡ at_most (opposite sum.now) number condition) }
{
    let opposite = sum.negated()?;
    at_most(&opposite, number, condition)
}

/// Adds the parts of the relation under the condition.
fn push_side(
    parts: &mut Vec<Part>,
    relation: Relation,
    sum: &LinearSum,
    number: i128,
    condition: Option<Atom>,
) -> Result<(), Memory>
    requires merged { IsMerged 2000000 sum.now }
    requires bounded { IsBounded 10000000000000000000 number }
    requires apart { IsApart condition (variables sum.now.terms) }
    ensures { OnOk result (parts.new.items ≡ parts.old.items ++ side_of relation sum.now number condition) }
{
    match relation {
        Relation::AtMost => parts.push(at_most(sum, number, condition)?)?,
        Relation::Above => parts.push(opposite_at_most(sum, -number - 1, condition)?)?,
        Relation::Equal => {
            parts.push(at_most(sum, number, condition)?)?;
            parts.push(opposite_at_most(sum, -number, condition)?)?;
        }
        Relation::Other => parts.push(other_than(sum, number, condition)?)?,
    }
    Ok(())
}

/// The parts of the relation without a condition.
pub fn relate(
    alloc: Global,
    relation: Relation,
    sum: &LinearSum,
    number: i128,
) -> Result<Vec<Part>, Memory>
    requires merged { IsMerged 2000000 sum.now }
    requires bounded { IsBounded 10000000000000000000 number }
    ensures { IfOk result (λ parts. parts.items ≡ always (side_of relation sum.now number)) }
{
    let mut parts = Vec::new(alloc);
    push_side(&mut parts, relation, sum, number, None)?;
    Ok(parts)
}

/// The parts by which r says whether the relation holds.
pub fn relate_reified(
    alloc: Global,
    relation: Relation,
    sum: &LinearSum,
    number: i128,
    r: Term,
) -> Result<Vec<Part>, Memory>
    requires merged { IsMerged 2000000 sum.now }
    requires bounded { IsBounded 10000000000000000000 number }
    requires apart { IsApartFrom r (variables sum.now.terms) }
    ensures { IfOk result (λ parts. parts.items ≡ reified r (side_of relation sum.now number) (side_of (opposed relation) sum.now number)) }
{
    match r {
        Term::Var(var) => {
            let mut parts = Vec::new(alloc);
            push_side(&mut parts, relation, sum, number, Some(on(var)))?;
            push_side(&mut parts, relation.opposed(), sum, number, Some(off(var)))?;
            Ok(parts)
        }
        Term::Const(value) if value >= 1 => relate(alloc, relation, sum, number),
        Term::Const(_) => relate(alloc, relation.opposed(), sum, number),
    }
}
