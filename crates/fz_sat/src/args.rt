//! The arguments of a constraint, as terms, elements and sets.

ghost use Rattle.std.specs.Prelude.{◌≡◌, [], MatchOption};
ghost use Rattle.fz_model.specs.declared.model.SetText.TheVariants as set;
ghost use Rattle.fz_sat.specs.Args as spec;

use dp_domain::{Term, VarId};
use fz_model::{Basic, Expr, Item, SetText};

/// The term of a literal or a name: a number, or a variable.
pub fn term_of(items: &[Item], basic: Basic) -> Term
    ensures { result ≡ spec.term_of items.now basic }
{
    match basic {
        Basic::Bool(value) => Term::Const(i64::from(value)),
        Basic::Int(value) => Term::Const(value),
        Basic::Item(place) => match items.get(place as usize) {
            Some(item) => term_of_item(item),
            None => Term::Const(0),
        },
    }
}

/// The term that an item is.
fn term_of_item(item: &Item) -> Term
    ensures { result ≡ spec.term_of_item item.now }
{
    match item {
        Item::Int { value, .. } => Term::Const(*value),
        Item::Bool { value, .. } => Term::Const(i64::from(*value)),
        Item::Var { var, .. } => Term::Var(VarId(*var)),
        _ => Term::Const(0),
    }
}

/// Argument `place`, counted from 0, as a term.
pub fn arg_term(items: &[Item], args: &[Expr], place: usize) -> Term
    ensures { result ≡ spec.arg_term items.now args.now place }
{
    match args.get(place) {
        Some(Expr::Basic(basic)) => term_of(items, *basic),
        _ => Term::Const(0),
    }
}

/// The elements of argument `place`, where it is an array or names one; else none.
pub fn arg_elements<'a>(items: &'a [Item], args: &'a [Expr], place: usize) -> &'a [Basic]
    ensures { result.now ≡ spec.arg_elements items.now args.now place }
{
    match args.get(place) {
        Some(Expr::Array(elements)) => elements.as_slice(),
        Some(Expr::Basic(basic)) => elements_of_basic(items, *basic),
        _ => &[],
    }
}

/// The elements of the array of this name; none of anything else.
fn elements_of_basic(items: &[Item], basic: Basic) -> &[Basic]
    ensures { result.now ≡ spec.elements_of_basic items.now basic }
{
    let Basic::Item(place) = basic else {
        return &[];
    };
    match items.get(place as usize) {
        Some(Item::Consts { elements, .. }) => elements.as_slice(),
        Some(Item::Vars { elements, .. }) => elements.as_slice(),
        _ => &[],
    }
}

/// Argument `place` as a set; None where it is not one, which reads as the set of no numbers.
pub fn arg_set<'a>(items: &'a [Item], args: &'a [Expr], place: usize) -> Option<&'a SetText>
    ensures { MatchOption result (spec.arg_set items.now args.now place ≡ set.List []) (λ s. spec.arg_set items.now args.now place ≡ s.now) }
{
    match args.get(place) {
        Some(Expr::Set(set)) => Some(set),
        Some(Expr::Basic(basic)) => set_of_basic(items, *basic),
        _ => None,
    }
}

/// The set parameter of this name; None for anything else.
fn set_of_basic(items: &[Item], basic: Basic) -> Option<&SetText>
    ensures { MatchOption result (spec.set_of_basic items.now basic ≡ set.List []) (λ s. spec.set_of_basic items.now basic ≡ s.now) }
{
    let Basic::Item(place) = basic else {
        return None;
    };
    match items.get(place as usize) {
        Some(Item::Set { set, .. }) => Some(set),
        _ => None,
    }
}

/// Whether the number is in the set.
pub fn is_in_set(set: &SetText, value: i64) -> bool
    ensures { result ≡ spec.is_in_set set.now value }
{
    match set {
        SetText::Range(first, last) => *first <= value && value <= *last,
        SetText::List(numbers) => numbers.as_slice().contains(&value),
    }
}
