//! Lines, each of a variable or an array that is marked.

ghost use Rattle.std.specs.Prelude.{◌≡◌, ◌++◌, IfOk, OnOk, Some, codes};
ghost use Rattle.std.specs.List.{flat_map};
ghost use Rattle.fz_sat.specs.Satisfies.{valuation};
ghost use Rattle.fz_output.specs.Output as spec;

use crate::arrays::push_array;
use crate::values::{Solution, push_value};
use dp_base::{Assignment, Memory, Name, Text};
use dp_domain::VarId;
use fz_model::{Basic, Item, Model, Ranges, VarType};
use std::alloc::Global;

/// What stands in front of a value.
fn push_name(text: &mut Vec<u8>, name: &Name) -> Result<(), Memory>
    ensures { OnOk result (text.new.items ≡ text.old.items ++ name.now ++ codes " = ") }
{
    text.extend_from_slice(name.bytes())?;
    text.extend_from_slice(b" = ")?;
    Ok(())
}

/// A variable or an alias that is marked.
fn push_marked_variable(
    text: &mut Vec<u8>,
    name: &Name,
    kind: &VarType,
    value: i64,
) -> Result<(), Memory>
    ensures { OnOk result (text.new.items ≡ text.old.items ++ spec.line name.now (spec.value_text kind.now value)) }
{
    push_name(text, name)?;
    push_value(text, kind, value)?;
    text.extend_from_slice(b";\n")?;
    Ok(())
}

/// A variable or an alias, if it is marked.
fn push_variable(
    text: &mut Vec<u8>,
    output: bool,
    name: &Name,
    kind: &VarType,
    value: i64,
) -> Result<(), Memory>
    ensures { OnOk result (text.new.items ≡ text.old.items ++ spec.variable_line output name.now kind.now value) }
{
    if output {
        push_marked_variable(text, name, kind, value)
    } else {
        Ok(())
    }
}

/// An array that is marked with these ranges.
fn push_marked_array(
    text: &mut Vec<u8>,
    solution: &Solution<'_>,
    ranges: &[(i64, i64)],
    name: &Name,
    kind: &VarType,
    elements: &[Basic],
) -> Result<(), Memory>
    ensures { OnOk result (text.new.items ≡ text.old.items ++ spec.line name.now (spec.array_text kind.now ranges.now solution.now.items.now (valuation solution.now.values.now) elements.now)) }
{
    push_name(text, name)?;
    push_array(text, solution, kind, ranges, elements)?;
    text.extend_from_slice(b";\n")?;
    Ok(())
}

/// An array, if it is marked.
fn push_array_line(
    text: &mut Vec<u8>,
    solution: &Solution<'_>,
    output: &Option<Ranges>,
    name: &Name,
    kind: &VarType,
    elements: &[Basic],
) -> Result<(), Memory>
    ensures { OnOk result (text.new.items ≡ text.old.items ++ spec.array_line output.now name.now kind.now solution.now.items.now (valuation solution.now.values.now) elements.now) }
{
    match output {
        Some(ranges) => push_marked_array(text, solution, ranges.as_slice(), name, kind, elements),
        None => Ok(()),
    }
}

/// What is printed of an item.
fn push_item(text: &mut Vec<u8>, solution: &Solution<'_>, item: &Item) -> Result<(), Memory>
    ensures { OnOk result (text.new.items ≡ text.old.items ++ spec.item_line solution.now.items.now (valuation solution.now.values.now) item.now) }
{
    match item {
        Item::Var {
            name,
            kind,
            output,
            var,
            ..
        } => push_variable(
            text,
            *output,
            name,
            kind,
            solution.value_of_variable(VarId(*var)),
        ),
        Item::Vars {
            name,
            kind,
            output,
            elements,
        } => push_array_line(text, solution, output, name, kind, elements.as_slice()),
        _ => Ok(()),
    }
}

/// What is printed of these items, in order.
fn push_items(text: &mut Vec<u8>, solution: &Solution<'_>, items: &[Item]) -> Result<(), Memory>
    ensures { OnOk result (text.new.items ≡ text.old.items ++ flat_map (spec.item_line solution.now.items.now (valuation solution.now.values.now)) items.now) }
{
    for item in items {
        push_item(text, solution, item)?;
    }
    Ok(())
}

/// The lines of these items at these numbers.
fn lines_of(alloc: Global, items: &[Item], values: &[i64]) -> Result<Text, Memory>
    ensures { IfOk result (λ text. text ≡ flat_map (spec.item_line items.now (valuation values.now)) items.now) }
{
    let mut text = Vec::new(alloc);
    push_items(&mut text, &Solution { items, values }, items)?;
    Ok(Text::new(text))
}

/// The text of the solution that an assignment is: for each variable, alias and array that the model marks for printing, in
/// order of declaration, a line of its name and its value. A variable beyond the end of the assignment counts as 0.
pub fn solution_lines(alloc: Global, model: &Model, values: &Assignment) -> Result<Text, Memory>
    ensures lines { IfOk result (λ text. text ≡ spec.solution_lines model.now (valuation values.now)) }
{
    lines_of(alloc, model.items(), values.values())
}
