//! Arrays with their ranges.

ghost use Rattle.std.specs.Prelude.{◌≡◌, ◌++◌, OnOk, codes, length};
ghost use Rattle.std.specs.Fmt.{decimal};
ghost use Rattle.std.specs.List.{flat_map};
ghost use Rattle.fz_sat.specs.Satisfies.{valuation};
ghost use Rattle.fz_output.specs.Output as spec;

use crate::values::{Solution, push_integer, push_value};
use dp_base::Memory;
use fz_model::{Basic, VarType};

/// A range, with the comma and the blank behind it.
fn push_range(text: &mut Vec<u8>, range: (i64, i64)) -> Result<(), Memory>
    ensures { OnOk result (text.new.items ≡ text.old.items ++ spec.range_text range) }
{
    push_integer(text, range.0)?;
    text.extend_from_slice(b"..")?;
    push_integer(text, range.1)?;
    text.extend_from_slice(b", ")?;
    Ok(())
}

/// Ranges in order.
fn push_ranges(text: &mut Vec<u8>, ranges: &[(i64, i64)]) -> Result<(), Memory>
    ensures { OnOk result (text.new.items ≡ text.old.items ++ flat_map spec.range_text ranges.now) }
{
    for range in ranges {
        push_range(text, *range)?;
    }
    Ok(())
}

/// The value of an element of an array of this type.
fn push_element(
    text: &mut Vec<u8>,
    solution: &Solution<'_>,
    kind: &VarType,
    element: Basic,
) -> Result<(), Memory>
    ensures { OnOk result (text.new.items ≡ text.old.items ++ spec.element_text kind.now solution.now.items.now (valuation solution.now.values.now) element) }
{
    push_value(text, kind, solution.value_of(element))
}

/// The same behind a comma and a blank.
fn push_further_element(
    text: &mut Vec<u8>,
    solution: &Solution<'_>,
    kind: &VarType,
    element: Basic,
) -> Result<(), Memory>
    ensures { OnOk result (text.new.items ≡ text.old.items ++ (codes ", " ++ spec.element_text kind.now solution.now.items.now (valuation solution.now.values.now) element)) }
{
    text.extend_from_slice(b", ")?;
    push_element(text, solution, kind, element)?;
    Ok(())
}

/// The values of elements, each behind a comma and a blank.
fn push_further_elements(
    text: &mut Vec<u8>,
    solution: &Solution<'_>,
    kind: &VarType,
    elements: &[Basic],
) -> Result<(), Memory>
    ensures { OnOk result (text.new.items ≡ text.old.items ++ flat_map (λ b. codes ", " ++ spec.element_text kind.now solution.now.items.now (valuation solution.now.values.now) b) elements.now) }
{
    for element in elements {
        push_further_element(text, solution, kind, *element)?;
    }
    Ok(())
}

/// The values of elements, a comma and a blank between any two.
fn push_elements(
    text: &mut Vec<u8>,
    solution: &Solution<'_>,
    kind: &VarType,
    elements: &[Basic],
) -> Result<(), Memory>
    ensures { OnOk result (text.new.items ≡ text.old.items ++ spec.elements_text kind.now solution.now.items.now (valuation solution.now.values.now) elements.now) }
{
    let Some((first, further)) = elements.split_first() else {
        return Ok(());
    };
    push_element(text, solution, kind, *first)?;
    push_further_elements(text, solution, kind, further)
}

/// What stands in front of an array's values: the number of ranges, and the ranges.
fn push_sizes(text: &mut Vec<u8>, ranges: &[(i64, i64)]) -> Result<(), Memory>
    ensures { OnOk result (text.new.items ≡ text.old.items ++ (codes "array" ++ decimal (length ranges.now) ++ codes "d(" ++ flat_map spec.range_text ranges.now)) }
{
    let count = ranges.len();
    let word = format!(in *text.allocator(); "array{count}d(")?;
    text.extend_from_slice(word.as_bytes())?;
    push_ranges(text, ranges)?;
    Ok(())
}

/// An array of this type with these ranges.
pub fn push_array(
    text: &mut Vec<u8>,
    solution: &Solution<'_>,
    kind: &VarType,
    ranges: &[(i64, i64)],
    elements: &[Basic],
) -> Result<(), Memory>
    ensures { OnOk result (text.new.items ≡ text.old.items ++ spec.array_text kind.now ranges.now solution.now.items.now (valuation solution.now.values.now) elements.now) }
{
    push_sizes(text, ranges)?;
    text.push(b'[')?;
    push_elements(text, solution, kind, elements)?;
    text.extend_from_slice(b"])")?;
    Ok(())
}
