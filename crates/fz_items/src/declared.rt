//! What the items so far declare.

ghost use Rattle.std.specs.Prelude.{◌≡◌, ◌+◌, ◌<◌, ◌≤◌, if◌then◌else◌, [], None, IfOk, length, map};
ghost use Rattle.fz_model.specs.Items.{is_bool_type};
ghost use Rattle.fz_model.specs.declared.meant.Meant.TheVariants as meant;
ghost use Rattle.fz_items.specs.Literals.{type_count, type_words};
ghost use Rattle.fz_items.specs.Variables.{end_of, variable_text};
ghost use Rattle.fz_model.specs.Context.{fresh};
ghost use Rattle.fz_model.specs.Limits.{max_elements, max_variables};
ghost use Rattle.fz_model.specs.ModelText.{nothing};
ghost use Rattle.fz_model.specs.Models.{name_of_item};
ghost use Rattle.fz_items.specs.States.{IsNoVariable, IsPlacedValue, definition_in, own_behind, variable_behind, variable_effect, with_count, with_item};
ghost use Rattle.fz_items.specs.Places.{names_in};

use crate::arrays::listed;
use crate::kinds::kept_type;
use crate::numbering::numbered;
use crate::places::basic;
use crate::text::{BasicWord, TypeWords, VarText};
use dp_base::{Memory, Name};
use fz_model::{Basic, Item, Meant};
use fz_names::Names;
use std::alloc::Global;
use std::marker::Model;

/// The names and the items so far. `own` counts the variables, aliases not among them.
#[derive(Drop)]
pub struct Declared {
    names: Names,
    items: Vec<Item>,
    own: usize,
}

impl Model for Declared {
    ghost use Rattle.fz_items.specs.States.{State, IsKept};

    ghost Value = { State };

    ghost view = { λ d. record { context = d.names; items = d.items.items } };

    ghost invariant = { λ d. IsKept d.names d.items.items d.own };
}

/// The bytes of a name, kept.
pub fn copied(alloc: Global, name: &[u8]) -> Result<Name, Memory>
    ensures { IfOk result (λ n. n ≡ name.now) }
{
    let bytes = name.to_vec(alloc)?;
    Ok(Name::new(bytes))
}

impl Declared {
    /// Nothing is declared.
    pub fn new(alloc: Global) -> Declared
        ensures { result ≡ record { context = nothing; items = [] } }
    {
        Declared {
            names: Names::new(alloc),
            items: Vec::new(alloc),
            own: 0,
        }
    }

    /// The names.
    pub fn names(&self) -> &Names
        ensures names { result.now ≡ self.now.context }
        ensures elements { self.now.context.elements ≤ max_elements }
        ensures named { names_in self.now.context ≡ map name_of_item self.now.items }
    {
        &self.names
    }

    /// With an item more, which is no variable.
    pub fn with(
        self,
        alloc: Global,
        name: &[u8],
        meant: Meant,
        item: Item,
    ) -> Result<Declared, Memory>
        requires new { fresh self.context name.now ≡ None }
        requires named { name_of_item item ≡ name.now }
        requires other { IsNoVariable item }
        ensures { IfOk result (λ d. d ≡ with_item self name.now meant item) }
    {
        let Declared {
            mut names,
            mut items,
            own,
        } = self;
        names.declare(copied(alloc, name)?, meant)?;
        items.push(item)?;
        Ok(Declared { names, items, own })
    }

    /// With so many elements more.
    pub fn counted(mut self, count: usize) -> Declared
        requires { self.context.elements + count ≤ max_elements }
        ensures { result ≡ with_count self count }
    {
        self.names.count_elements(count);
        self
    }

    /// The names, and the items.
    pub fn into_parts(self) -> (Names, Vec<Item>)
        ensures names { result.0 ≡ self.context }
        ensures items { result.1.items ≡ self.items }
        ensures elements { self.context.elements ≤ max_elements }
    {
        let Declared {
            names,
            items,
            own: _,
        } = self;
        (names, items)
    }

    /// With a variable or an alias more.
    pub fn with_variable(self, alloc: Global, text: VarText) -> Result<Declared, Memory>
        requires new { fresh self.context text.name.now ≡ None }
        requires few { self.context.variables < max_variables }
        requires room { self.context.elements + type_count text.kind ≤ max_elements }
        ensures { IfOk result (λ d. d ≡ variable_effect self (variable_text text.entry)) }
    {
        let Declared {
            mut names,
            mut items,
            own,
        } = self;
        let (item, own) = variable(alloc, &names, items.as_slice(), own, &text)?;
        let name = copied(alloc, text.name)?;
        names.declare(name, variable_meant(&text.kind))?;
        names.count_elements(listed(&text.kind));
        names.count_variable();
        items.push(item)?;
        Ok(Declared { names, items, own })
    }
}

/// A variable or an alias behind these items, of which so many are variables of their own, and how many are then.
fn variable(
    alloc: Global,
    names: &Names,
    items: &[Item],
    own: usize,
    text: &VarText,
) -> Result<(Item, usize), Memory>
    ensures item { IfOk result (λ p. p.0 ≡ variable_behind names.now items.now own (variable_text text.now)) }
    ensures own { IfOk result (λ p. p.1 ≡ own_behind items.now own (definition_in (names_in names.now) (end_of text.now.value))) }
    ensures placed { IfOk result (λ _. IsPlacedValue (length items.now) (definition_in (names_in names.now) (end_of text.now.value))) }
{
    let value = defined(names, &text.value)?;
    let (var, own) = numbered(items, own, value)?;
    let item = Item::Var {
        name: copied(alloc, text.name)?,
        kind: kept_type(alloc, &text.kind)?,
        output: text.output,
        value,
        var,
    };
    Ok((item, own))
}

/// What the name of a variable of this type stands for.
fn variable_meant(kind: &TypeWords) -> Meant
    ensures { result ≡ (if is_bool_type (type_words kind.now) then meant.BoolVar else meant.IntVar) }
{
    match kind {
        TypeWords::Bool => Meant::BoolVar,
        TypeWords::Int => Meant::IntVar,
        TypeWords::Set(_) => Meant::IntVar,
    }
}

/// What defines a variable, with the place of what it names.
fn defined(names: &Names, value: &Option<BasicWord>) -> Result<Option<Basic>, Memory>
    ensures { IfOk result (λ v. v ≡ definition_in (names_in names.now) (end_of value.now)) }
{
    match value {
        Some(word) => {
            let basic = basic(names, *word)?;
            Ok(Some(basic))
        }
        None => Ok(None),
    }
}
