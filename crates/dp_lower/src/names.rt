//! The names of a model's variables.

ghost use Rattle.std.specs.Prelude.{◌≡◌, ◌≤◌, ◌++◌, [], ◌∷◌, not, is_none, if◌then◌else◌, IfOk, OnOk, length, map};
ghost use Rattle.dp_base.specs.Lists.{Among};
ghost use Rattle.fz_model.specs.Models.{named_variable};
ghost use Rattle.fz_facts.specs.Facts.{AreApart};
ghost use Rattle.fz_facts.specs.Declared.{names_of, own_places};

use dp_domain::{Memory, Name, VarId};
use fz_model::{Basic, Item};
use indexmap::IndexMap;
use std::alloc::Global;

/// The names of variables and aliases, and the places of the variables' own names among them.
#[derive(Drop)]
pub struct Names {
    pub names: IndexMap<Name, VarId>,
    pub own: Vec<u32>,
}

/// The names that a model's items declare.
pub fn names_of(alloc: Global, items: &[Item]) -> Result<Names, Memory>
    requires apart { AreApart (map (λ e. e.0) (names_of items.now)) }
    requires few { length (names_of items.now) ≤ 200000 }
    ensures names { IfOk result (λ n. n.names.entries ≡ names_of items.now) }
    ensures own { IfOk result (λ n. n.own.items ≡ own_places items.now 0 items.now) }
{
    let mut names = IndexMap::new(alloc);
    let mut own = Vec::new(alloc);
    for item in items {
        add_item(items, &mut names, &mut own, item)?;
    }
    Ok(Names { names, own })
}

/// Adds the name of a variable or an alias, and its place where it is the variable's own.
fn add_item(
    items: &[Item],
    names: &mut IndexMap<Name, VarId>,
    own: &mut Vec<u32>,
    item: &Item,
) -> Result<(), Memory>
    requires fresh { AreApart (map (λ e. e.0) (names.old.entries ++ names_of (item.now ∷ []))) }
    requires few { length names.old.entries ≤ 200000 }
    ensures names { OnOk result (names.new.entries ≡ names.old.entries ++ names_of (item.now ∷ [])) }
    ensures own { OnOk result (own.new.items ≡ own.old.items ++ own_places items.now (length names.old.entries) (item.now ∷ [])) }
{
    match item {
        Item::Var {
            name,
            value,
            var,
            ..
        } => {
            let place = names.len() as u32;
            let name = copy_of(*names.allocator(), name)?;
            add_name(names, name, VarId(*var))?;
            add_own(items, own, *value, place)
        }
        _ => Ok(()),
    }
}

/// Adds the place of a variable's own name; nothing for an alias.
fn add_own(
    items: &[Item],
    own: &mut Vec<u32>,
    value: Option<Basic>,
    place: u32,
) -> Result<(), Memory>
    ensures { OnOk result (own.new.items ≡ own.old.items ++ (if is_none (named_variable items.now value) then place ∷ [] else [])) }
{
    if is_alias(items, value) {
        return Ok(());
    }
    own.push(place)?;
    Ok(())
}

/// Another name of the same bytes.
fn copy_of(alloc: Global, name: &Name) -> Result<Name, Memory>
    ensures { IfOk result (λ n. n ≡ name.now) }
{
    Ok(Name::new(name.bytes().to_vec(alloc)?))
}

/// Adds a name under its variable.
fn add_name(names: &mut IndexMap<Name, VarId>, name: Name, var: VarId) -> Result<(), Memory>
    requires { ¬ (Among name (map (λ e. e.0) names.old.entries)) }
    ensures { OnOk result (names.new.entries ≡ names.old.entries ++ (name, var) ∷ []) }
{
    names.insert(name, var)?;
    Ok(())
}

/// Whether a variable so defined is an alias.
pub fn is_alias(items: &[Item], value: Option<Basic>) -> bool
    ensures { result ≡ not (is_none (named_variable items.now value)) }
{
    match value {
        Some(Basic::Item(place)) => matches!(items.get(place as usize), Some(Item::Var { .. })),
        _ => false,
    }
}
