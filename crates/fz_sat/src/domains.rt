//! Whether an assignment keeps the declarations.

ghost use Rattle.std.specs.Prelude.{◌≡◌, true};
ghost use Rattle.std.specs.List.{list_all};
ghost use Rattle.std.specs.Option.{option_map_or};
ghost use Rattle.std.specs.Ordering.{int_eq};
ghost use Rattle.fz_sat.specs.Satisfies.{is_kept, is_of_type, valuation, value_of};

use crate::row::{value_of, value_of_variable};
use dp_domain::VarId;
use fz_model::{Basic, Item, VarType};

/// Whether the number is of the type.
fn is_of_type(kind: &VarType, value: i64) -> bool
    ensures { result ≡ is_of_type kind.now value }
{
    match kind {
        VarType::Bool => 0 <= value && value <= 1,
        VarType::Int => true,
        VarType::Range(first, last) => *first <= value && value <= *last,
        VarType::List(numbers) => numbers.as_slice().contains(&value),
    }
}

/// Whether the values of the elements are of the type.
fn are_of_type(items: &[Item], values: &[i64], kind: &VarType, elements: &[Basic]) -> bool
    ensures { result ≡ list_all (λ b. is_of_type kind.now (value_of items.now (valuation values.now) b)) elements.now }
{
    elements.iter().all(|element| is_of_type(kind, value_of(items, values, *element)))
}

/// Whether the number is the value of the definition, if there is one.
fn is_defined_as(items: &[Item], values: &[i64], number: i64, definition: Option<Basic>) -> bool
    ensures { result ≡ option_map_or (λ b. int_eq number (value_of items.now (valuation values.now) b)) definition true }
{
    match definition {
        Some(basic) => number == value_of(items, values, basic),
        None => true,
    }
}

/// Whether the assignment keeps the declaration.
pub fn is_kept(items: &[Item], values: &[i64], item: &Item) -> bool
    ensures { result ≡ is_kept items.now (valuation values.now) item.now }
{
    match item {
        Item::Var {
            kind,
            value,
            var,
            ..
        } => {
            let number = value_of_variable(values, VarId(*var));
            is_of_type(kind, number) && is_defined_as(items, values, number, *value)
        }
        Item::Vars { kind, elements, .. } => are_of_type(items, values, kind, elements.as_slice()),
        _ => true,
    }
}
