//! Arrays of variables.

ghost use Rattle.std.specs.Prelude.{◌≡◌, ◌+◌, ◌≤◌, None, Some, IfOk, length, map, option_map};
ghost use Rattle.std.specs.List.{fold};
ghost use Rattle.fz_model.specs.Arrays.{count_of};
ghost use Rattle.fz_model.specs.Context.{fresh};
ghost use Rattle.fz_model.specs.Items.{type_elements};
ghost use Rattle.fz_model.specs.Limits.{max_elements};
ghost use Rattle.fz_items.specs.Arrays.{array_behind, array_head_of, array_test, elements_fit, elements_shut, shape_of, times, width_of};
ghost use Rattle.fz_items.specs.Gives.{Gives};
ghost use Rattle.fz_items.specs.Literals.{range_of, type_count, type_words};
ghost use Rattle.fz_items.specs.Notes.{ranges_of};
ghost use Rattle.fz_items.specs.Seen.{basic_text, number_of};

use crate::annotations::annotations;
use crate::elements::array;
use crate::literals::var_type;
use crate::parameters::new_name;
use crate::source::Source;
use crate::stop::Stop;
use crate::text::{BasicWord, Number, SetWords, TypeWords, VarsText};
use crate::want::Want;
use fz_model::Fault;
use fz_names::Names;
use fz_token::{Keyword, Mark};
use std::alloc::Global;

/// How many numbers a type lists.
#[tactic(auto, using(std::proofs::lemmas::Grind::common_steps))]
pub fn listed(kind: &TypeWords) -> usize
    ensures count { result ≡ type_count kind.now }
    ensures elements { result ≡ type_elements (type_words kind.now) }
{
    match kind {
        TypeWords::Set(SetWords::List(numbers)) => numbers.len(),
        TypeWords::Set(SetWords::Range(_, _)) => 0,
        TypeWords::Bool => 0,
        TypeWords::Int => 0,
    }
}

/// Why the ranges of an `output_array` do not fit an array of so many elements.
fn refuses_notes(size: Number, output: &Option<Option<Vec<(Number, Number)>>>) -> Option<Fault>
    ensures { result ≡ array_test (count_of size.value) (option_map ranges_of output.now) }
{
    match output {
        None => None,
        Some(None) => Some(Fault::Kind),
        Some(Some(ranges)) => {
            let count = usize::try_from(size.value).unwrap_or(0);
            if fits(count, ranges.as_slice()) {
                None
            } else {
                Some(Fault::Kind)
            }
        }
    }
}

/// The elements of an array of variables, behind what was seen of its annotations.
fn vars_end<'a>(
    alloc: Global,
    source: &mut Source<'a>,
    names: &Names,
    kind: &TypeWords,
    size: Number,
    output: &Option<Option<Vec<(Number, Number)>>>,
) -> Result<Vec<BasicWord<'a>>, Stop>
    requires { names.now.elements ≤ max_elements }
    ensures reads { Gives (λ v. map basic_text v.items)
        ((elements_shut names.now (number_of size) (type_words kind.now) (option_map ranges_of output.now)).read source.old.left) result source.new.left }
    ensures text { source.new.text ≡ source.old.text }
    ensures room { IfOk result (λ v. names.now.elements + length v.items ≤ max_elements) }
{
    source.mark(Mark::Equals)?;
    let elements = array(alloc, source, names, Want::Typed(kind), Some(size))?;
    source.mark_if(Mark::Semicolon, refuses_notes(size, output))?;
    Ok(elements)
}

/// An array of so many variables, behind its type.
pub fn vars_behind<'a>(
    alloc: Global,
    source: &mut Source<'a>,
    names: &Names,
    kind: &TypeWords,
    size: Number,
) -> Result<VarsText<'a>, Stop>
    requires { names.now.elements ≤ max_elements }
    ensures reads { Gives shape_of (array_behind names.now (number_of size) (type_words kind.now) source.old.left) result source.new.left }
    ensures text { source.new.text ≡ source.old.text }
    ensures fresh { IfOk result (λ t. fresh names.now t.name.now ≡ None) }
    ensures room { IfOk result (λ t. names.now.elements + length t.elements.items ≤ max_elements) }
{
    source.mark(Mark::Colon)?;
    let name = new_name(source, names)?;
    let notes = annotations(alloc, source)?;
    let elements = vars_end(alloc, source, names, kind, size, &notes.array)?;
    Ok(VarsText {
        name,
        output: notes.array,
        elements,
    })
}

/// `var` and the type of an array.
pub fn vars_head(alloc: Global, source: &mut Source, names: &Names) -> Result<TypeWords, Stop>
    requires { names.now.elements ≤ max_elements }
    ensures reads { Gives type_words (array_head_of names.now source.old.left) result source.new.left }
    ensures text { source.new.text ≡ source.old.text }
    ensures room { IfOk result (λ kind. names.now.elements + type_count kind ≤ max_elements) }
{
    source.keyword(Keyword::Var)?;
    var_type(alloc, source, names)
}

/// How many integers a range has.
fn width(range: (Number, Number)) -> u128
    ensures { result ≡ width_of (range_of range) }
{
    let (low, high) = (range.0.value, range.1.value);
    if high < low {
        return 0;
    }
    u128::from(high.abs_diff(low)) + 1
}

/// So many times the integers of a range, or the greatest number.
fn times(size: u128, range: (Number, Number)) -> u128
    ensures { result ≡ times size (range_of range) }
{
    size.saturating_mul(width(range))
}

/// The product of the sizes of ranges, or the greatest number.
fn size(ranges: &[(Number, Number)]) -> u128
    ensures { result ≡ fold (λ n r. times n (range_of r)) 1 ranges.now }
{
    ranges.iter().fold(1, |size, range| times(size, *range))
}

/// Whether there are ranges whose sizes multiply to the count.
fn fits(count: usize, ranges: &[(Number, Number)]) -> bool
    ensures { result ≡ elements_fit count (Some (map range_of ranges.now)) }
{
    !ranges.is_empty() && size(ranges) == count as u128
}
