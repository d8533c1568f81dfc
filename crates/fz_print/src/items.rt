//! Items, each without the end of its line.

ghost use Rattle.std.specs.Prelude.{◌≡◌, ◌++◌, [], Some, codes, OnOk};
ghost use Rattle.fz_model.specs.declared.model.Item.TheVariants as item;
ghost use Rattle.fz_print.specs.Printed as spec;

use crate::literals::{
    push_basic, push_elements, push_integer, push_numbers, push_range, push_ranges, push_set,
    push_truth,
};
use dp_base::{Memory, Name};
use fz_model::{Basic, Item, Ranges, SetText, VarType};

/// A parameter's keyword and name, and what stands in front of its value.
fn push_parameter(text: &mut Vec<u8>, keyword: &[u8], name: &Name) -> Result<(), Memory>
    ensures { OnOk result (text.new.items ≡ text.old.items ++ keyword.now ++ name.now ++ codes " = ") }
{
    text.extend_from_slice(keyword)?;
    text.extend_from_slice(name.bytes())?;
    text.extend_from_slice(b" = ")?;
    Ok(())
}

/// An integer parameter.
fn push_int_item(text: &mut Vec<u8>, name: &Name, value: i64) -> Result<(), Memory>
    ensures { OnOk result (text.new.items ≡ text.old.items ++ spec.item_text [] (item.Int name.now value)) }
{
    push_parameter(text, b"int: ", name)?;
    push_integer(text, value)
}

/// A Boolean parameter.
fn push_bool_item(text: &mut Vec<u8>, name: &Name, value: bool) -> Result<(), Memory>
    ensures { OnOk result (text.new.items ≡ text.old.items ++ spec.item_text [] (item.Bool name.now value)) }
{
    push_parameter(text, b"bool: ", name)?;
    push_truth(text, value)
}

/// A set parameter.
fn push_set_item(text: &mut Vec<u8>, name: &Name, set: &SetText) -> Result<(), Memory>
    ensures { OnOk result (text.new.items ≡ text.old.items ++ spec.item_text [] (item.Set name.now set.now)) }
{
    push_parameter(text, b"set of int: ", name)?;
    push_set(text, set)?;
    Ok(())
}

/// What stands in front of the type of an array of so many elements.
fn push_size(text: &mut Vec<u8>, count: usize) -> Result<(), Memory>
    ensures { OnOk result (text.new.items ≡ text.old.items ++ spec.size_text count) }
{
    let words = format!(in *text.allocator(); "array [1..{count}] of ")?;
    text.extend_from_slice(words.as_bytes())?;
    Ok(())
}

/// A variable's type.
fn push_type(text: &mut Vec<u8>, kind: &VarType) -> Result<(), Memory>
    ensures { OnOk result (text.new.items ≡ text.old.items ++ spec.type_text kind.now) }
{
    match kind {
        VarType::Bool => text.extend_from_slice(b"bool")?,
        VarType::Int => text.extend_from_slice(b"int")?,
        VarType::Range(first, last) => push_range(text, *first, *last)?,
        VarType::List(numbers) => push_numbers(text, numbers.as_slice())?,
    }
    Ok(())
}

/// The type of constants: Booleans or integers.
fn kind_text(bools: bool) -> &'static [u8]
    ensures { result.now ≡ spec.kind_text bools }
{
    if bools { b"bool" } else { b"int" }
}

/// The mark of a variable to print.
fn mark_text(output: bool) -> &'static [u8]
    ensures { result.now ≡ spec.mark_text output }
{
    if output { b" :: output_var" } else { b"" }
}

/// The mark of an array that is printed with these ranges.
fn push_sizes(text: &mut Vec<u8>, ranges: &[(i64, i64)]) -> Result<(), Memory>
    ensures { OnOk result (text.new.items ≡ text.old.items ++ spec.ranges_text (Some ranges.now)) }
{
    text.extend_from_slice(b" :: output_array(")?;
    push_ranges(text, ranges)?;
    text.push(b')')?;
    Ok(())
}

/// The mark of an array to print.
fn push_output(text: &mut Vec<u8>, output: &Option<Ranges>) -> Result<(), Memory>
    ensures { OnOk result (text.new.items ≡ text.old.items ++ spec.ranges_text output.now) }
{
    match output {
        Some(ranges) => push_sizes(text, ranges.as_slice()),
        None => Ok(()),
    }
}

/// A variable's definition, where it has one.
fn push_definition(text: &mut Vec<u8>, items: &[Item], value: Option<Basic>) -> Result<(), Memory>
    ensures { OnOk result (text.new.items ≡ text.old.items ++ spec.definition_text items.now value) }
{
    if let Some(value) = value {
        text.extend_from_slice(b" = ")?;
        push_basic(text, items, value)?;
    }
    Ok(())
}

/// What stands behind the word `var`: a type and a name.
fn push_declared(text: &mut Vec<u8>, kind: &VarType, name: &Name) -> Result<(), Memory>
    ensures { OnOk result (text.new.items ≡ text.old.items ++ codes "var " ++ spec.type_text kind.now ++ codes ": " ++ name.now) }
{
    text.extend_from_slice(b"var ")?;
    push_type(text, kind)?;
    text.extend_from_slice(b": ")?;
    text.extend_from_slice(name.bytes())?;
    Ok(())
}

/// An item of these items.
pub fn push_item(text: &mut Vec<u8>, items: &[Item], item: &Item) -> Result<(), Memory>
    ensures { OnOk result (text.new.items ≡ text.old.items ++ spec.item_text items.now item.now) }
{
    match item {
        Item::Int { name, value } => push_int_item(text, name, *value),
        Item::Bool { name, value } => push_bool_item(text, name, *value),
        Item::Set { name, set } => push_set_item(text, name, set),
        Item::Consts {
            name,
            bools,
            elements,
        } => {
            push_size(text, elements.as_slice().len())?;
            text.extend_from_slice(kind_text(*bools))?;
            push_parameter(text, b": ", name)?;
            push_elements(text, items, elements.as_slice())
        }
        Item::Var {
            name,
            kind,
            output,
            value,
            ..
        } => {
            push_declared(text, kind, name)?;
            text.extend_from_slice(mark_text(*output))?;
            push_definition(text, items, *value)
        }
        Item::Vars {
            name,
            kind,
            output,
            elements,
        } => {
            push_size(text, elements.as_slice().len())?;
            push_declared(text, kind, name)?;
            push_output(text, output)?;
            text.extend_from_slice(b" = ")?;
            push_elements(text, items, elements.as_slice())
        }
    }
}
