//! Integers, ranges, sets and the types of variables.

ghost use Rattle.std.specs.Prelude.{◌≡◌, ◌+◌, ◌<◌, ◌≤◌, length, map, IfOk};
ghost use Rattle.dp_grammar.specs.Listed.{listed};
ghost use Rattle.fz_model.specs.Items.{domain_test};
ghost use Rattle.fz_model.specs.Limits.{beyond_small, max_elements};
ghost use Rattle.fz_model.specs.Literals as grammar;
ghost use Rattle.fz_items.specs.Gives.{Gives, given};
ghost use Rattle.fz_items.specs.Literals.{bound_test, list_test, number_listing, range_of, set_count, set_words, type_count, type_words};
ghost use Rattle.fz_items.specs.Seen.{number_of};

use crate::source::Source;
use crate::stop::{Cause, Stop};
use crate::text::{Number, SetWords, TypeWords};
use fz_model::{Fault, beyond_small};
use fz_names::Names;
use fz_token::{Keyword, Mark};
use std::alloc::Global;

/// Which integers may stand there.
#[derive(Clone, Copy, Debug, PartialEq, Eq)]
pub enum Bound {
    /// Within 10^9 of 0.
    Small,
    /// All that are tokens.
    Any,
}

impl Bound {
    /// Why the integer may not stand there.
    pub fn refuses(self, value: i64) -> Option<Fault>
        ensures { result ≡ bound_test self value }
    {
        match self {
            Bound::Small => beyond_small(value),
            Bound::Any => None,
        }
    }
}

/// An integer within the bound.
pub fn integer(source: &mut Source, bound: Bound) -> Result<Number, Cause>
    ensures reads { (grammar.integer (bound_test bound)).read source.old.left ≡ given number_of result source.new.left }
    ensures text { source.new.text ≡ source.old.text }
{
    let number = source.integer_here()?;
    if let Some(fault) = bound.refuses(number.value) {
        return Err(Cause::Test(fault));
    }
    source.advance();
    Ok(number)
}

/// A range between two integers within the bound.
pub fn range(source: &mut Source, bound: Bound) -> Result<(Number, Number), Cause>
    ensures reads { (grammar.range (bound_test bound)).read source.old.left ≡ given range_of result source.new.left }
    ensures text { source.new.text ≡ source.old.text }
{
    let low = integer(source, bound)?;
    source.mark(Mark::DoubleDot)?;
    let high = integer(source, bound)?;
    Ok((low, high))
}

/// A number of a list, behind `kept` numbers.
fn listed_number(
    source: &mut Source,
    names: &Names,
    kept: usize,
    bound: Bound,
) -> Result<Number, Cause>
    ensures reads { (grammar.integer (list_test names.now bound kept)).read source.old.left ≡ given number_of result source.new.left }
    ensures text { source.new.text ≡ source.old.text }
    ensures room { IfOk result (λ _. names.now.elements + kept < max_elements) }
{
    let number = source.integer_here()?;
    if let Some(fault) = bound.refuses(number.value) {
        return Err(Cause::Test(fault));
    }
    if let Some(fault) = names.refuses_element(kept) {
        return Err(Cause::Test(fault));
    }
    source.advance();
    Ok(number)
}

/// The numbers of a list behind its bracket, and the bracket that closes it.
pub fn numbers_inside(
    alloc: Global,
    source: &mut Source,
    names: &Names,
    bound: Bound,
) -> Result<Vec<Number>, Stop>
    requires { names.now.elements ≤ max_elements }
    ensures reads { Gives (λ v. map number_of v.items) ((listed (number_listing names.now bound)).read source.old.left) result source.new.left }
    ensures text { source.new.text ≡ source.old.text }
    ensures room { IfOk result (λ v. names.now.elements + length v.items ≤ max_elements) }
{
    let mut numbers = Vec::new(alloc);
    if source.is_mark(Mark::CloseCurly) {
        source.mark(Mark::CloseCurly)?;
        return Ok(numbers);
    }
    let first = listed_number(source, names, 0, bound)?;
    numbers.push(first)?;
    'items: while source.is_mark(Mark::Comma) {
        source.advance();
        let number = listed_number(source, names, numbers.len(), bound)?;
        numbers.push(number)?;
    }
    source.mark(Mark::CloseCurly)?;
    Ok(numbers)
}

/// The numbers of a list in its brackets.
pub fn numbers(
    alloc: Global,
    source: &mut Source,
    names: &Names,
    bound: Bound,
) -> Result<Vec<Number>, Stop>
    requires { names.now.elements ≤ max_elements }
    ensures reads { Gives (λ v. map number_of v.items) ((grammar.numbers (λ kept. list_test names.now bound (length kept))).read source.old.left) result source.new.left }
    ensures text { source.new.text ≡ source.old.text }
    ensures room { IfOk result (λ v. names.now.elements + length v.items ≤ max_elements) }
{
    source.mark(Mark::OpenCurly)?;
    numbers_inside(alloc, source, names, bound)
}

/// A set whose numbers are within the bound.
pub fn set_literal(
    alloc: Global,
    source: &mut Source,
    names: &Names,
    bound: Bound,
) -> Result<SetWords, Stop>
    requires { names.now.elements ≤ max_elements }
    ensures reads { Gives set_words ((grammar.set_literal (λ kept. list_test names.now bound (length kept)) (bound_test bound)).read source.old.left) result source.new.left }
    ensures text { source.new.text ≡ source.old.text }
    ensures room { IfOk result (λ set. names.now.elements + set_count set ≤ max_elements) }
{
    if source.is_mark(Mark::OpenCurly) {
        let numbers = numbers(alloc, source, names, bound)?;
        return Ok(SetWords::List(numbers));
    }
    let (low, high) = range(source, bound)?;
    Ok(SetWords::Range(low, high))
}

/// The type of a variable, whose bounds are small.
pub fn var_type(alloc: Global, source: &mut Source, names: &Names) -> Result<TypeWords, Stop>
    requires { names.now.elements ≤ max_elements }
    ensures reads { Gives type_words ((grammar.var_type (domain_test names.now) beyond_small).read source.old.left) result source.new.left }
    ensures text { source.new.text ≡ source.old.text }
    ensures room { IfOk result (λ kind. names.now.elements + type_count kind ≤ max_elements) }
{
    if source.is_keyword(Keyword::Bool) {
        source.keyword(Keyword::Bool)?;
        return Ok(TypeWords::Bool);
    }
    if source.is_keyword(Keyword::Int) {
        source.keyword(Keyword::Int)?;
        return Ok(TypeWords::Int);
    }
    let set = set_literal(alloc, source, names, Bound::Small)?;
    Ok(TypeWords::Set(set))
}
