//! Types, sets and meanings, as they are kept.

ghost use Rattle.std.specs.Prelude.{◌≡◌, Some, map, option_map, IfOk};
ghost use Rattle.fz_model.specs.Context.{meaning};
ghost use Rattle.fz_model.specs.Models.{set_of, type_of};
ghost use Rattle.fz_model.specs.ModelText.{array_of, bool_constant, int_constant};
ghost use Rattle.fz_items.specs.Literals.{range_of, set_words, type_words};
ghost use Rattle.fz_items.specs.Notes.{ranges_of};
ghost use Rattle.fz_items.specs.Seen.{basic_text};
ghost use Rattle.fz_items.specs.States.{bounds_of, shown_ranges};

use crate::places::values;
use crate::text::{BasicWord, Number, SetWords, TypeWords};
use dp_base::Memory;
use fz_model::{Integers, Meant, Ranges, SetText, Truths, VarType};
use fz_names::Names;
use std::alloc::Global;

/// The set.
pub fn kept_set(alloc: Global, set: &SetWords) -> Result<SetText, Memory>
    ensures { IfOk result (λ s. s ≡ set_of (set_words set.now)) }
{
    match set {
        SetWords::List(numbers) => {
            let values = values(alloc, numbers.as_slice())?;
            Ok(SetText::List(values))
        }
        SetWords::Range(low, high) => Ok(SetText::Range(low.value, high.value)),
    }
}

/// The type.
pub fn kept_type(alloc: Global, kind: &TypeWords) -> Result<VarType, Memory>
    ensures { IfOk result (λ k. k ≡ type_of (type_words kind.now)) }
{
    match kind {
        TypeWords::Bool => Ok(VarType::Bool),
        TypeWords::Int => Ok(VarType::Int),
        TypeWords::Set(SetWords::List(numbers)) => {
            let values = values(alloc, numbers.as_slice())?;
            Ok(VarType::List(values))
        }
        TypeWords::Set(SetWords::Range(low, high)) => Ok(VarType::Range(low.value, high.value)),
    }
}

/// The bounds of the ranges.
fn bounds(alloc: Global, ranges: &[(Number, Number)]) -> Result<Ranges, Memory>
    ensures { IfOk result (λ r. r ≡ map bounds_of (map range_of ranges.now)) }
{
    let mut bounds = Vec::new(alloc);
    for range in ranges {
        bounds.push((range.0.value, range.1.value))?;
    }
    Ok(Ranges::new(bounds))
}

/// The ranges that an `output_array` spells, if they count.
pub fn kept_ranges(
    alloc: Global,
    shown: &Option<Option<Vec<(Number, Number)>>>,
) -> Result<Option<Ranges>, Memory>
    ensures { IfOk result (λ r. r ≡ shown_ranges (option_map ranges_of shown.now)) }
{
    match shown {
        Some(Some(ranges)) => {
            let bounds = bounds(alloc, ranges.as_slice())?;
            Ok(Some(bounds))
        }
        Some(None) => Ok(None),
        None => Ok(None),
    }
}

/// The integer, if it is a constant one.
fn integer(names: &Names, word: BasicWord) -> Option<i64>
    ensures { result ≡ int_constant (meaning names.now (basic_text word.entry)) }
{
    match word {
        BasicWord::Whole(number) => Some(number.value),
        BasicWord::Truth(_) => None,
        BasicWord::Name(name) => match names.meaning(name) {
            Some(meant) => meant.integer(),
            None => None,
        },
    }
}

/// The Boolean, if it is a constant one.
fn truth(names: &Names, word: BasicWord) -> Option<bool>
    ensures { result ≡ bool_constant (meaning names.now (basic_text word.entry)) }
{
    match word {
        BasicWord::Truth(value) => Some(value),
        BasicWord::Whole(_) => None,
        BasicWord::Name(name) => match names.meaning(name) {
            Some(meant) => meant.truth(),
            None => None,
        },
    }
}

/// The constants among integers.
fn integers(alloc: Global, names: &Names, words: &[BasicWord]) -> Result<Integers, Memory>
    ensures { IfOk result (λ e. e ≡ map (λ text. int_constant (meaning names.now text)) (map basic_text words.now)) }
{
    let mut constants = Vec::new(alloc);
    for word in words {
        constants.push(integer(names, *word))?;
    }
    Ok(Integers::new(constants))
}

/// The constants among Booleans.
fn truths(alloc: Global, names: &Names, words: &[BasicWord]) -> Result<Truths, Memory>
    ensures { IfOk result (λ e. e ≡ map (λ text. bool_constant (meaning names.now text)) (map basic_text words.now)) }
{
    let mut constants = Vec::new(alloc);
    for word in words {
        constants.push(truth(names, *word))?;
    }
    Ok(Truths::new(constants))
}

/// What an array of Booleans or integers stands for, a parameter or not.
pub fn kept_array(
    alloc: Global,
    names: &Names,
    bools: bool,
    parameter: bool,
    words: &[BasicWord],
) -> Result<Meant, Memory>
    ensures { IfOk result (λ m. m ≡ array_of names.now bools parameter (map basic_text words.now)) }
{
    if bools {
        let elements = truths(alloc, names, words)?;
        return Ok(Meant::BoolArray {
            parameter,
            elements,
        });
    }
    let elements = integers(alloc, names, words)?;
    Ok(Meant::IntArray {
        parameter,
        elements,
    })
}
