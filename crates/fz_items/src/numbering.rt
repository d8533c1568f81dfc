//! The numbers of variables.

ghost use Rattle.std.specs.Prelude.{◌≡◌, ◌+◌, ◌≤◌, IfOk, length};
ghost use Rattle.fz_model.specs.Models.{named_variable};
ghost use Rattle.fz_items.specs.States.{IsPlacedValue, number_behind, own_behind};

use dp_base::Memory;
use fz_model::{Basic, Item};

/// The variable that a definition names, if it names one. There is none beyond the items.
fn named(items: &[Item], value: Option<Basic>) -> Result<Option<u32>, Memory>
    ensures named { IfOk result (λ v. v ≡ named_variable items.now value) }
    ensures placed { IfOk result (λ _. IsPlacedValue (length items.now) value) }
{
    match value {
        Some(Basic::Item(place)) => match items.get(place as usize) {
            Some(Item::Var { var, .. }) => Ok(Some(*var)),
            Some(_) => Ok(None),
            None => Err(Memory),
        },
        _ => Ok(None),
    }
}

/// The number of a variable behind these items, of which so many are variables of their own, and how many are then.
pub fn numbered(items: &[Item], own: usize, value: Option<Basic>) -> Result<(u32, usize), Memory>
    ensures number { IfOk result (λ p. p.0 ≡ number_behind items.now own value) }
    ensures own { IfOk result (λ p. p.1 ≡ own_behind items.now own value) }
    ensures placed { IfOk result (λ _. IsPlacedValue (length items.now) value) }
{
    match named(items, value)? {
        Some(var) => Ok((var, own)),
        None => match u32::try_from(own) {
            Ok(var) => Ok((var, own + 1)),
            Err(_) => Err(Memory),
        },
    }
}
