//! The elements of arrays.

ghost use Rattle.std.specs.Prelude.{◌≡◌, ◌+◌, ◌<◌, ◌≤◌, length, map, IfOk};
ghost use Rattle.dp_grammar.specs.Listed.{listed};
ghost use Rattle.fz_model.specs.Items.{array_literal, basic};
ghost use Rattle.fz_model.specs.Limits.{max_elements};
ghost use Rattle.fz_items.specs.Gives.{Gives, given};
ghost use Rattle.fz_items.specs.Seen.{basic_text};
ghost use Rattle.fz_items.specs.Wants.{element_listing, element_wanted, size_wanted};

use crate::source::Source;
use crate::stop::{Cause, Stop};
use crate::text::{BasicWord, Number};
use crate::want::Want;
use fz_model::Fault;
use fz_names::Names;
use fz_token::Mark;
use std::alloc::Global;

/// Why so many elements are not as many as declared, where a number is declared.
fn refuses_size(size: Option<Number>, count: usize) -> Option<Fault>
    ensures { result ≡ size_wanted size count }
{
    match size {
        Some(number) if usize::try_from(number.value).unwrap_or(0) != count => Some(Fault::Kind),
        _ => None,
    }
}

/// An element behind `kept` others.
fn element<'a>(
    source: &mut Source<'a>,
    names: &Names,
    want: Want,
    kept: usize,
) -> Result<BasicWord<'a>, Cause>
    ensures reads { (basic (element_wanted names.now want.entry kept)).read source.old.left ≡ given basic_text result source.new.left }
    ensures text { source.new.text ≡ source.old.text }
    ensures room { IfOk result (λ _. names.now.elements + kept < max_elements) }
{
    let word = source.basic_here()?;
    if let Some(fault) = want.refuses_word(names, word) {
        return Err(Cause::Test(fault));
    }
    if let Some(fault) = names.refuses_element(kept) {
        return Err(Cause::Test(fault));
    }
    source.advance();
    Ok(word)
}

/// The elements behind their bracket, and the bracket that closes them.
pub fn elements_inside<'a>(
    alloc: Global,
    source: &mut Source<'a>,
    names: &Names,
    want: Want,
    size: Option<Number>,
) -> Result<Vec<BasicWord<'a>>, Stop>
    requires { names.now.elements ≤ max_elements }
    ensures reads { Gives (λ v. map basic_text v.items) ((listed (element_listing names.now want.entry size)).read source.old.left) result source.new.left }
    ensures text { source.new.text ≡ source.old.text }
    ensures room { IfOk result (λ v. names.now.elements + length v.items ≤ max_elements) }
{
    let mut elements = Vec::new(alloc);
    if source.is_mark(Mark::CloseSquare) {
        source.mark_if(Mark::CloseSquare, refuses_size(size, 0))?;
        return Ok(elements);
    }
    let first = element(source, names, want, 0)?;
    elements.push(first)?;
    'items: while source.is_mark(Mark::Comma) {
        source.advance();
        let element = element(source, names, want, elements.len())?;
        elements.push(element)?;
    }
    source.mark_if(Mark::CloseSquare, refuses_size(size, elements.len()))?;
    Ok(elements)
}

/// An array, of so many elements where a number is declared.
pub fn array<'a>(
    alloc: Global,
    source: &mut Source<'a>,
    names: &Names,
    want: Want,
    size: Option<Number>,
) -> Result<Vec<BasicWord<'a>>, Stop>
    requires { names.now.elements ≤ max_elements }
    ensures reads { Gives (λ v. map basic_text v.items) ((array_literal (λ kept. element_wanted names.now want.entry (length kept)) (λ kept. size_wanted size (length kept))).read source.old.left) result source.new.left }
    ensures text { source.new.text ≡ source.old.text }
    ensures room { IfOk result (λ v. names.now.elements + length v.items ≤ max_elements) }
{
    source.mark(Mark::OpenSquare)?;
    elements_inside(alloc, source, names, want, size)
}
