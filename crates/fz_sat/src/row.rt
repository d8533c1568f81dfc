//! A constraint's arguments at an assignment.

ghost use Rattle.std.specs.Prelude.{◌≡◌};
ghost use Rattle.std.specs.Ordering.{int_eq};
ghost use Rattle.dp_domain.specs.Terms.{term_at};
ghost use Rattle.fz_sat.specs.Args as spec;
ghost use Rattle.fz_sat.specs.Meaning.{given, is_on, truth};
ghost use Rattle.fz_sat.specs.Satisfies.{valuation, value_of};

use crate::{arg_elements, arg_set, arg_term, is_in_set, term_of};
use dp_domain::{Term, VarId};
use fz_model::{Basic, Expr, Item};

/// The value of the variable; 0 where the assignment has none for it.
pub fn value_of_variable(values: &[i64], var: VarId) -> i64
    ensures { result ≡ valuation values.now var }
{
    values.get(var.0 as usize).copied().unwrap_or(0)
}

/// The value of the term.
fn value_of_term(values: &[i64], term: Term) -> i64
    ensures { result ≡ term_at (valuation values.now) term }
{
    match term {
        Term::Var(var) => value_of_variable(values, var),
        Term::Const(value) => value,
    }
}

/// The value of a literal or a name.
pub fn value_of(items: &[Item], values: &[i64], basic: Basic) -> i64
    ensures { result ≡ value_of items.now (valuation values.now) basic }
{
    value_of_term(values, term_of(items, basic))
}

/// The arguments of a constraint, and the numbers of an assignment.
#[derive(Clone, Copy)]
pub struct Row<'a> {
    pub items: &'a [Item],
    pub args: &'a [Expr],
    pub values: &'a [i64],
}

impl<'a> Row<'a> {
    /// Argument `place`, counted from 0, as a number.
    pub fn number(&self, place: usize) -> i64
        ensures { result ≡ (given self.now.items.now self.now.args.now (valuation self.now.values.now)).number place }
    {
        value_of_term(self.values, arg_term(self.items, self.args, place))
    }

    /// Whether the Boolean at the place holds.
    pub fn is_on(&self, place: usize) -> bool
        ensures { result ≡ truth (given self.now.items.now self.now.args.now (valuation self.now.values.now)) place }
    {
        self.number(place) >= 1
    }

    /// The elements of the array at the place.
    pub fn elements(&self, place: usize) -> &'a [Basic]
        ensures { result.now ≡ spec.arg_elements self.now.items.now self.now.args.now place }
    {
        arg_elements(self.items, self.args, place)
    }

    /// The value of an element.
    pub fn value(&self, element: Basic) -> i64
        ensures { result ≡ value_of self.now.items.now (valuation self.now.values.now) element }
    {
        value_of(self.items, self.values, element)
    }

    /// Whether the value of the element is the number at the place.
    pub fn equals(&self, element: Basic, place: usize) -> bool
        ensures { let number = (given self.now.items.now self.now.args.now (valuation self.now.values.now)).number place in
            result ≡ int_eq (value_of self.now.items.now (valuation self.now.values.now) element) number }
    {
        self.value(element) == self.number(place)
    }

    /// Whether the numbers at the two places are equal.
    pub fn are_equal(&self, left: usize, right: usize) -> bool
        ensures { let row = given self.now.items.now self.now.args.now (valuation self.now.values.now) in
            result ≡ int_eq (row.number left) (row.number right) }
    {
        self.number(left) == self.number(right)
    }

    /// Whether the number at the first place is in the set at the second.
    pub fn is_in_set(&self, number: usize, set: usize) -> bool
        ensures { let row = given self.now.items.now self.now.args.now (valuation self.now.values.now) in
            result ≡ spec.is_in_set (row.set set) (row.number number) }
    {
        match arg_set(self.items, self.args, set) {
            Some(set) => is_in_set(set, self.number(number)),
            None => false,
        }
    }
}
