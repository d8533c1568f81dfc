//! All arguments of a constraint.

ghost use Rattle.std.specs.Prelude.{◌≡◌, ◌+◌, ◌≤◌, ◌==◌, Some, map, slice_get, IfOk};
ghost use Rattle.std.specs.List.{list_all, list_any, filter_map};
ghost use Rattle.dp_grammar.specs.Listed.{listed};
ghost use Rattle.fz_model.specs.Constraints as grammar;
ghost use Rattle.fz_model.specs.Constraints.{all_equal, array_length, behind, close_test, meant_length, pairs_arrays};
ghost use Rattle.fz_model.specs.Context.{meant_by, with_elements};
ghost use Rattle.fz_model.specs.Limits.{max_elements};
ghost use Rattle.fz_model.specs.Table.{args_of};
ghost use Rattle.fz_items.specs.Arguments.{arg_count, arg_words, args_listing};
ghost use Rattle.fz_items.specs.Gives.{Gives};

use crate::argument::{ArgWords, argument};
use crate::source::Source;
use crate::stop::Stop;
use crate::text::BasicWord;
use dp_base::Memory;
use fz_model::{ArgKind, ConstraintKind, Fault, Meant};
use fz_names::Names;
use fz_token::Mark;
use std::alloc::Global;

/// How long the array is, if it is one.
fn meant_len(meant: &Meant) -> Option<usize>
    ensures { result ≡ meant_length (Some meant.now) }
{
    match meant {
        Meant::IntArray { elements, .. } => Some(elements.as_slice().len()),
        Meant::BoolArray { elements, .. } => Some(elements.as_slice().len()),
        _ => None,
    }
}

/// How long the array of this name is, if it names one.
fn named_len(names: &Names, name: &[u8]) -> Option<usize>
    ensures { result ≡ meant_length (meant_by names.now.entries name.now) }
{
    match names.meaning(name) {
        Some(meant) => meant_len(meant),
        None => None,
    }
}

impl ArgWords<'_> {
    /// How many elements it lists.
    pub fn count(&self) -> usize
        ensures { result ≡ arg_count self.now }
    {
        match self {
            ArgWords::Set(numbers) => numbers.len(),
            ArgWords::Array(elements) => elements.len(),
            _ => 0,
        }
    }

    /// How long it is, if it is an array.
    fn array_len(&self, names: &Names) -> Option<usize>
        ensures { result ≡ array_length names.now (arg_words self.now) }
    {
        match self {
            ArgWords::Array(elements) => Some(elements.len()),
            ArgWords::Basic(BasicWord::Name(name)) => named_len(names, name),
            _ => None,
        }
    }
}

/// How long the arrays are.
fn lengths(alloc: Global, names: &Names, args: &[ArgWords]) -> Result<Vec<usize>, Memory>
    ensures { IfOk result (λ v. v.items ≡ filter_map (λ a. array_length names.now (arg_words a)) args.now) }
{
    Ok(
        args.iter()
            .filter_map(|arg| arg.array_len(names))
            .collect(alloc)?,
    )
}

/// Whether the numbers are all this one.
fn are_all(numbers: &[usize], first: usize) -> bool
    ensures { result ≡ list_all (λ n. n == first) numbers.now }
{
    numbers.iter().all(|number| *number == first)
}

/// Whether the numbers are all one.
fn are_equal(numbers: &[usize]) -> bool
    ensures { result ≡ all_equal numbers.now }
{
    match numbers {
        [] => true,
        [first, rest @ ..] => are_all(rest, *first),
    }
}

/// Whether the arrays of the constraint have to be equally long.
fn pairs_arrays(kind: ConstraintKind) -> bool
    ensures { result ≡ list_any pairs_arrays (args_of kind) }
{
    kind.args().iter().any(|arg| arg.pairs_arrays())
}

/// Why the arguments may not end there.
fn refuses_close(
    alloc: Global,
    names: &Names,
    kind: ConstraintKind,
    args: &[ArgWords],
) -> Result<Option<Fault>, Memory>
    ensures { IfOk result (λ fault. fault ≡ close_test names.now kind (map arg_words args.now)) }
{
    if args.len() < kind.least_args() {
        return Ok(Some(Fault::Kind));
    }
    if pairs_arrays(kind) {
        let lengths = lengths(alloc, names, args)?;
        if !are_equal(lengths.as_slice()) {
            return Ok(Some(Fault::Kind));
        }
    }
    Ok(None)
}

/// What is wanted behind so many arguments.
fn wanted(kind: ConstraintKind, count: usize) -> Option<ArgKind>
    ensures { result ≡ slice_get (args_of kind) count }
{
    kind.args().get(count).copied()
}

/// An argument where this is wanted. Its elements are counted.
fn counted_argument<'a>(
    alloc: Global,
    source: &mut Source<'a>,
    names: &mut Names,
    wanted: Option<ArgKind>,
) -> Result<ArgWords<'a>, Stop>
    requires { names.old.elements ≤ max_elements }
    ensures reads { Gives arg_words ((grammar.argument names.old wanted).read source.old.left) result source.new.left }
    ensures text { source.new.text ≡ source.old.text }
    ensures counted { IfOk result (λ a. names.new ≡ with_elements names.old (arg_count a)) }
    ensures room { IfOk result (λ a. names.old.elements + arg_count a ≤ max_elements) }
{
    let arg = argument(alloc, source, names, wanted)?;
    names.count_elements(arg.count());
    Ok(arg)
}

/// The arguments behind their bracket, and the bracket that closes them. Their elements are counted.
fn arguments_inside<'a>(
    alloc: Global,
    source: &mut Source<'a>,
    names: &mut Names,
    kind: ConstraintKind,
) -> Result<Vec<ArgWords<'a>>, Stop>
    requires { names.old.elements ≤ max_elements }
    ensures reads { Gives (λ v. map arg_words v.items) ((listed (args_listing names.old kind)).read source.old.left) result source.new.left }
    ensures text { source.new.text ≡ source.old.text }
    ensures counted { IfOk result (λ v. names.new ≡ behind names.old (map arg_words v.items)) }
    ensures room { IfOk result (λ _. names.new.elements ≤ max_elements) }
{
    let mut args = Vec::new(alloc);
    if source.is_mark(Mark::CloseRound) {
        let refused = refuses_close(alloc, names, kind, args.as_slice())?;
        source.mark_if(Mark::CloseRound, refused)?;
        return Ok(args);
    }
    let first = counted_argument(alloc, source, names, wanted(kind, 0))?;
    args.push(first)?;
    'items: while source.is_mark(Mark::Comma) {
        source.advance();
        let arg = counted_argument(alloc, source, names, wanted(kind, args.len()))?;
        args.push(arg)?;
    }
    let refused = refuses_close(alloc, names, kind, args.as_slice())?;
    source.mark_if(Mark::CloseRound, refused)?;
    Ok(args)
}

/// The arguments in their brackets. Their elements are counted.
pub fn arguments<'a>(
    alloc: Global,
    source: &mut Source<'a>,
    names: &mut Names,
    kind: ConstraintKind,
) -> Result<Vec<ArgWords<'a>>, Stop>
    requires { names.old.elements ≤ max_elements }
    ensures reads { Gives (λ v. map arg_words v.items) ((grammar.arguments names.old kind).read source.old.left) result source.new.left }
    ensures text { source.new.text ≡ source.old.text }
    ensures counted { IfOk result (λ v. names.new ≡ behind names.old (map arg_words v.items)) }
    ensures room { IfOk result (λ _. names.new.elements ≤ max_elements) }
{
    source.mark(Mark::OpenRound)?;
    arguments_inside(alloc, source, names, kind)
}
