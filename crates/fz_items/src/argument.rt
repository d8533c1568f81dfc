//! An argument of a constraint.

ghost use Rattle.std.specs.Prelude.{◌≡◌, ◌+◌, ◌≤◌, length, map, IfOk};
ghost use Rattle.dp_grammar.specs.Choice.{begins};
ghost use Rattle.fz_model.specs.Constraints as grammar;
ghost use Rattle.fz_model.specs.Constraints.{arg_basic, argument_test};
ghost use Rattle.fz_model.specs.Context.{meaning, known};
ghost use Rattle.fz_model.specs.Limits.{max_elements};
ghost use Rattle.fz_items.specs.Arguments.{arg_count, arg_text, arg_words, dotted, no_array, no_set, range_words, text};
ghost use Rattle.fz_items.specs.Gives.{Gives, IsHere, given};
ghost use Rattle.fz_items.specs.Seen.{basic_text, number_of};

use crate::elements::elements_inside;
use crate::literals::{Bound, integer, numbers_inside};
use crate::source::{Seen, Source};
use crate::stop::{Cause, Stop};
use crate::text::{BasicWord, Number};
use crate::want::Want;
use fz_model::{ArgKind, Fault};
use fz_names::Names;
use fz_token::{Keyword, Mark, TokenKind};
use std::alloc::Global;

/// An argument as it stands in the text.
#[derive(Debug, Drop)]
pub enum ArgWords<'a> {
    Set(Vec<Number>),
    Array(Vec<BasicWord<'a>>),
    /// From the first number to the second.
    Range(i64, Number),
    Basic(BasicWord<'a>),
}

impl<'a> Source<'a> {
    /// Whether an integer that begins a range comes first.
    fn is_dotted(&self) -> bool
        ensures { result ≡ begins grammar.is_dotted self.now.left }
    {
        match self.word() {
            Some(
                Seen {
                    kind: TokenKind::Integer(_),
                    dotted,
                    ..
                },
            ) => dotted,
            _ => false,
        }
    }

    /// The integer that comes first and begins a range.
    fn dotted_here(&self) -> Result<i64, Cause>
        ensures { IsHere (λ v. v) (λ v. v) dotted self.now.left result }
    {
        match self.word() {
            Some(
                Seen {
                    kind: TokenKind::Integer(value),
                    dotted: true,
                    ..
                },
            ) => Ok(value),
            _ => Err(Cause::Syntax),
        }
    }

    /// The literal or name that comes first and begins no range.
    fn text_here(&self) -> Result<BasicWord<'a>, Cause>
        ensures { IsHere arg_text (λ t. t) text self.now.left result }
    {
        match self.word() {
            Some(
                Seen {
                    kind: TokenKind::Keyword(Keyword::True),
                    ..
                },
            ) => Ok(BasicWord::Truth(true)),
            Some(
                Seen {
                    kind: TokenKind::Keyword(Keyword::False),
                    ..
                },
            ) => Ok(BasicWord::Truth(false)),
            Some(
                Seen {
                    kind: TokenKind::Integer(value),
                    dotted: false,
                    ..
                },
            ) => Ok(BasicWord::Whole(Number {
                value,
                dotted: false,
            })),
            Some(
                Seen {
                    kind: TokenKind::Name,
                    bytes,
                    ..
                },
            ) => Ok(BasicWord::Name(bytes)),
            _ => Err(Cause::Syntax),
        }
    }
}

/// Why no set may stand there.
fn refuses_set(wanted: Option<ArgKind>) -> Option<Fault>
    ensures { result ≡ no_set wanted }
{
    match wanted {
        Some(kind) if kind.wants_set() => None,
        _ => Some(Fault::Kind),
    }
}

/// Why no array may stand there.
fn refuses_array(wanted: Option<ArgKind>) -> Option<Fault>
    ensures { result ≡ no_array wanted }
{
    match wanted {
        Some(kind) if kind.wants_array() => None,
        _ => Some(Fault::Kind),
    }
}

/// Why the literal or name may not stand there.
fn refuses_text(names: &Names, wanted: Option<ArgKind>, word: BasicWord) -> Option<Fault>
    ensures { result ≡ known (meaning names.now (arg_basic (arg_text word.entry))) (argument_test wanted) }
{
    Want::Argument(wanted).refuses_word(names, word)
}

/// Numbers in curly brackets.
fn set_argument(
    alloc: Global,
    source: &mut Source,
    names: &Names,
    wanted: Option<ArgKind>,
) -> Result<Vec<Number>, Stop>
    requires { names.now.elements ≤ max_elements }
    ensures reads { Gives (λ v. map number_of v.items) ((grammar.set_arg names.now wanted).read source.old.left) result source.new.left }
    ensures text { source.new.text ≡ source.old.text }
    ensures room { IfOk result (λ v. names.now.elements + length v.items ≤ max_elements) }
{
    source.mark_if(Mark::OpenCurly, refuses_set(wanted))?;
    numbers_inside(alloc, source, names, Bound::Any)
}

/// Literals and names in square brackets.
fn array_argument<'a>(
    alloc: Global,
    source: &mut Source<'a>,
    names: &Names,
    wanted: Option<ArgKind>,
) -> Result<Vec<BasicWord<'a>>, Stop>
    requires { names.now.elements ≤ max_elements }
    ensures reads { Gives (λ v. map basic_text v.items) ((grammar.array_arg names.now wanted).read source.old.left) result source.new.left }
    ensures text { source.new.text ≡ source.old.text }
    ensures room { IfOk result (λ v. names.now.elements + length v.items ≤ max_elements) }
{
    source.mark_if(Mark::OpenSquare, refuses_array(wanted))?;
    elements_inside(alloc, source, names, Want::Element(wanted), None)
}

/// The first number of a range.
fn low(source: &mut Source, wanted: Option<ArgKind>) -> Result<i64, Cause>
    ensures reads { (dotted (λ value. no_set wanted)).read source.old.left ≡ given (λ v. v) result source.new.left }
    ensures text { source.new.text ≡ source.old.text }
{
    let value = source.dotted_here()?;
    if let Some(fault) = refuses_set(wanted) {
        return Err(Cause::Test(fault));
    }
    source.advance();
    Ok(value)
}

/// A range.
fn range_argument(source: &mut Source, wanted: Option<ArgKind>) -> Result<(i64, Number), Cause>
    ensures reads { (grammar.range_arg wanted).read source.old.left ≡ given range_words result source.new.left }
    ensures text { source.new.text ≡ source.old.text }
{
    let low = low(source, wanted)?;
    source.mark(Mark::DoubleDot)?;
    let high = integer(source, Bound::Any)?;
    Ok((low, high))
}

/// A literal or a name that begins no range.
fn text_argument<'a>(
    source: &mut Source<'a>,
    names: &Names,
    wanted: Option<ArgKind>,
) -> Result<BasicWord<'a>, Cause>
    ensures reads { (grammar.text_arg names.now wanted).read source.old.left ≡ given arg_text result source.new.left }
    ensures text { source.new.text ≡ source.old.text }
{
    let word = source.text_here()?;
    if let Some(fault) = refuses_text(names, wanted, word) {
        return Err(Cause::Test(fault));
    }
    source.advance();
    Ok(word)
}

/// An argument where this is wanted.
pub fn argument<'a>(
    alloc: Global,
    source: &mut Source<'a>,
    names: &Names,
    wanted: Option<ArgKind>,
) -> Result<ArgWords<'a>, Stop>
    requires { names.now.elements ≤ max_elements }
    ensures reads { Gives arg_words ((grammar.argument names.now wanted).read source.old.left) result source.new.left }
    ensures text { source.new.text ≡ source.old.text }
    ensures room { IfOk result (λ a. names.now.elements + arg_count a ≤ max_elements) }
{
    if source.is_mark(Mark::OpenCurly) {
        let numbers = set_argument(alloc, source, names, wanted)?;
        return Ok(ArgWords::Set(numbers));
    }
    if source.is_mark(Mark::OpenSquare) {
        let elements = array_argument(alloc, source, names, wanted)?;
        return Ok(ArgWords::Array(elements));
    }
    if source.is_dotted() {
        let (low, high) = range_argument(source, wanted)?;
        return Ok(ArgWords::Range(low, high));
    }
    let word = text_argument(source, names, wanted)?;
    Ok(ArgWords::Basic(word))
}
