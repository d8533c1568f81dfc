//! How many variables a model has.

ghost use Rattle.std.specs.Prelude.{◌≡◌};
ghost use Rattle.fz_model.specs.Models.{count_variables, is_own, named_variable};

use fz_model::{Basic, Item, Model};

/// The variable that a definition names, if it names one.
fn named_variable(items: &[Item], value: Option<Basic>) -> Option<u32>
    ensures { result ≡ named_variable items.now value }
{
    match value {
        Some(Basic::Item(place)) => match items.get(place as usize) {
            Some(Item::Var { var, .. }) => Some(*var),
            _ => None,
        },
        _ => None,
    }
}

/// Whether the item is a variable of its own, and no alias of another.
fn is_own(items: &[Item], item: &Item) -> bool
    ensures { result ≡ is_own items.now item.now }
{
    match item {
        Item::Var { value, .. } => named_variable(items, *value).is_none(),
        _ => false,
    }
}

/// How many variables these items declare, aliases not among them.
pub(crate) fn own_count(items: &[Item]) -> usize
    ensures { result ≡ count_variables items.now }
{
    items.iter().filter(|item| is_own(items, item)).count()
}

/// How many variables the model has, aliases not among them: so many numbers an assignment needs.
pub fn variable_count(model: &Model) -> usize
    ensures { result ≡ count_variables model.now.items }
{
    own_count(model.items())
}
