//! Literals, names, sets and lists of them.

ghost use Rattle.std.specs.Prelude.{◌≡◌, ◌++◌, codes, OnOk};
ghost use Rattle.fz_model.specs.Models.{name_of_item};
ghost use Rattle.fz_print.specs.Printed as spec;

use dp_base::Memory;
use fz_model::{Basic, Item, SetText};

/// An integer in decimal.
pub fn push_integer(text: &mut Vec<u8>, value: i64) -> Result<(), Memory>
    ensures { OnOk result (text.new.items ≡ text.old.items ++ spec.integer_text value) }
{
    let digits = format!(in *text.allocator(); "{value}")?;
    text.extend_from_slice(digits.as_bytes())?;
    Ok(())
}

/// A Boolean.
pub fn push_truth(text: &mut Vec<u8>, value: bool) -> Result<(), Memory>
    ensures { OnOk result (text.new.items ≡ text.old.items ++ spec.truth_text value) }
{
    let word: &[u8] = if value { b"true" } else { b"false" };
    text.extend_from_slice(word)?;
    Ok(())
}

/// The name of an item.
pub fn name_of(item: &Item) -> &[u8]
    ensures { result.now ≡ name_of_item item.now }
{
    match item {
        Item::Int { name, .. }
        | Item::Bool { name, .. }
        | Item::Set { name, .. }
        | Item::Consts { name, .. }
        | Item::Var { name, .. }
        | Item::Vars { name, .. } => name.bytes(),
    }
}

/// The name of the item at the place.
pub fn push_name(text: &mut Vec<u8>, items: &[Item], place: u32) -> Result<(), Memory>
    ensures { OnOk result (text.new.items ≡ text.old.items ++ spec.name_text items.now place) }
{
    if let Some(item) = items.get(place as usize) {
        text.extend_from_slice(name_of(item))?;
    }
    Ok(())
}

/// A literal or a name.
pub fn push_basic(text: &mut Vec<u8>, items: &[Item], basic: Basic) -> Result<(), Memory>
    ensures { OnOk result (text.new.items ≡ text.old.items ++ spec.basic_text items.now basic) }
{
    match basic {
        Basic::Bool(value) => push_truth(text, value),
        Basic::Int(value) => push_integer(text, value),
        Basic::Item(place) => push_name(text, items, place),
    }
}

/// A range, from the first number to the last.
pub fn push_range(text: &mut Vec<u8>, first: i64, last: i64) -> Result<(), Memory>
    ensures { OnOk result (text.new.items ≡ text.old.items ++ spec.range_text first last) }
{
    push_integer(text, first)?;
    text.extend_from_slice(b"..")?;
    push_integer(text, last)?;
    Ok(())
}

/// Integers, a comma in front of each.
fn push_further_numbers(text: &mut Vec<u8>, numbers: &[i64]) -> Result<(), Memory>
    ensures { OnOk result (text.new.items ≡ text.old.items ++ spec.further_text spec.integer_text numbers.now) }
{
    for number in numbers {
        text.push(b',')?;
        push_integer(text, *number)?;
    }
    Ok(())
}

/// Integers, a comma between any two.
fn push_number_list(text: &mut Vec<u8>, numbers: &[i64]) -> Result<(), Memory>
    ensures { OnOk result (text.new.items ≡ text.old.items ++ spec.list_text spec.integer_text numbers.now) }
{
    let Some((first, further)) = numbers.split_first() else {
        return Ok(());
    };
    push_integer(text, *first)?;
    push_further_numbers(text, further)
}

/// Integers in curly brackets.
pub fn push_numbers(text: &mut Vec<u8>, numbers: &[i64]) -> Result<(), Memory>
    ensures { OnOk result (text.new.items ≡ text.old.items ++ spec.numbers_text numbers.now) }
{
    text.push(b'{')?;
    push_number_list(text, numbers)?;
    text.push(b'}')?;
    Ok(())
}

/// A comma and a range.
fn push_further_range(text: &mut Vec<u8>, range: (i64, i64)) -> Result<(), Memory>
    ensures { OnOk result (text.new.items ≡ text.old.items ++ codes "," ++ spec.range_text range.0 range.1) }
{
    text.push(b',')?;
    push_range(text, range.0, range.1)?;
    Ok(())
}

/// Ranges, a comma in front of each.
fn push_further_ranges(text: &mut Vec<u8>, ranges: &[(i64, i64)]) -> Result<(), Memory>
    ensures { OnOk result (text.new.items ≡ text.old.items ++ spec.further_text (λ r. spec.range_text r.0 r.1) ranges.now) }
{
    for range in ranges {
        push_further_range(text, *range)?;
    }
    Ok(())
}

/// Ranges, a comma between any two.
fn push_range_list(text: &mut Vec<u8>, ranges: &[(i64, i64)]) -> Result<(), Memory>
    ensures { OnOk result (text.new.items ≡ text.old.items ++ spec.list_text (λ r. spec.range_text r.0 r.1) ranges.now) }
{
    let Some((first, further)) = ranges.split_first() else {
        return Ok(());
    };
    push_range(text, first.0, first.1)?;
    push_further_ranges(text, further)
}

/// Ranges in square brackets.
pub fn push_ranges(text: &mut Vec<u8>, ranges: &[(i64, i64)]) -> Result<(), Memory>
    ensures { OnOk result (text.new.items ≡ text.old.items ++ spec.sizes_text ranges.now) }
{
    text.push(b'[')?;
    push_range_list(text, ranges)?;
    text.push(b']')?;
    Ok(())
}

/// Literals and names, a comma in front of each.
fn push_further_elements(
    text: &mut Vec<u8>,
    items: &[Item],
    elements: &[Basic],
) -> Result<(), Memory>
    ensures { OnOk result (text.new.items ≡ text.old.items ++ spec.further_text (spec.basic_text items.now) elements.now) }
{
    for element in elements {
        text.push(b',')?;
        push_basic(text, items, *element)?;
    }
    Ok(())
}

/// Literals and names, a comma between any two.
fn push_element_list(text: &mut Vec<u8>, items: &[Item], elements: &[Basic]) -> Result<(), Memory>
    ensures { OnOk result (text.new.items ≡ text.old.items ++ spec.list_text (spec.basic_text items.now) elements.now) }
{
    let Some((first, further)) = elements.split_first() else {
        return Ok(());
    };
    push_basic(text, items, *first)?;
    push_further_elements(text, items, further)
}

/// Literals and names in square brackets.
pub fn push_elements(text: &mut Vec<u8>, items: &[Item], elements: &[Basic]) -> Result<(), Memory>
    ensures { OnOk result (text.new.items ≡ text.old.items ++ spec.elements_text items.now elements.now) }
{
    text.push(b'[')?;
    push_element_list(text, items, elements)?;
    text.push(b']')?;
    Ok(())
}

/// A set in the form in which it was written.
pub fn push_set(text: &mut Vec<u8>, set: &SetText) -> Result<(), Memory>
    ensures { OnOk result (text.new.items ≡ text.old.items ++ spec.set_text set.now) }
{
    match set {
        SetText::Range(first, last) => push_range(text, *first, *last),
        SetText::List(numbers) => push_numbers(text, numbers.as_slice()),
    }
}
