//! Annotations: those that say how an item is printed are kept, and all others passed over.

ghost use Rattle.std.specs.Prelude.{◌≡◌, [], ◌∷◌, bytes_eq, codes};
ghost use Rattle.dp_grammar.specs.Chain.{mapped};
ghost use Rattle.dp_grammar.specs.Choice.{begins};
ghost use Rattle.fz_model.specs.Literals as grammar;
ghost use Rattle.fz_model.specs.Limits.{no_test};
ghost use Rattle.fz_model.specs.Marks.{is_open};
ghost use Rattle.fz_model.specs.Words.{Round as round};
ghost use Rattle.fz_items.specs.Gives.{Gives, given};
ghost use Rattle.fz_items.specs.Notes.{add_note, counted, note, note_args, notes, notes_of, ranges_of};

use crate::brackets::balanced;
use crate::ranges::array_args;
use crate::source::Source;
use crate::stop::{Cause, Stop};
use crate::text::Number;
use fz_token::Mark;
use std::alloc::Global;

/// What the annotations of an item say of how it is printed.
#[derive(Debug, Drop)]
pub struct Notes {
    /// Whether one of them is `output_var`.
    pub var: bool,
    /// The ranges of the first `output_array`, if there is one; None in it where it spells no list of ranges.
    pub array: Option<Option<Vec<(Number, Number)>>>,
}

/// A name.
pub fn plain_name<'a>(source: &mut Source<'a>) -> Result<&'a [u8], Cause>
    ensures reads { (grammar.name no_test).read source.old.left ≡ given (λ b. b.now) result source.new.left }
    ensures text { source.new.text ≡ source.old.text }
{
    let name = source.name_here()?;
    source.advance();
    Ok(name)
}

/// Whether the names are one.
fn is_name(name: &[u8], other: &[u8]) -> bool
    ensures { result ≡ bytes_eq name.now other.now }
{
    name == other
}

/// The arguments of an annotation, if it has some: the ranges that they spell, where they count.
fn args(
    alloc: Global,
    source: &mut Source,
    counts: bool,
) -> Result<Option<Vec<(Number, Number)>>, Stop>
    ensures reads { Gives ranges_of (mapped (counted counts) (note_args (begins (is_open round) source.old.left) source.old.left)) result source.new.left }
    ensures text { source.new.text ≡ source.old.text }
{
    if !source.is_mark(Mark::OpenRound) {
        return Ok(None);
    }
    source.mark(Mark::OpenRound)?;
    if counts {
        return array_args(alloc, source);
    }
    balanced(alloc, source)?;
    Ok(None)
}

/// An annotation behind its mark, and others before it.
fn annotation(alloc: Global, source: &mut Source, so_far: Notes) -> Result<Notes, Stop>
    ensures reads { Gives notes_of (mapped (add_note (notes_of so_far)) (note source.old.left)) result source.new.left }
    ensures text { source.new.text ≡ source.old.text }
{
    let name = plain_name(source)?;
    let counts = so_far.array.is_none() && is_name(name, b"output_array");
    let ranges = args(alloc, source, counts)?;
    Ok(Notes {
        var: so_far.var || is_name(name, b"output_var"),
        array: if counts { Some(ranges) } else { so_far.array },
    })
}

/// All annotations that come.
pub fn annotations(alloc: Global, source: &mut Source) -> Result<Notes, Stop>
    ensures reads { Gives notes_of (notes source.old.left) result source.new.left }
    ensures text { source.new.text ≡ source.old.text }
{
    let mut notes = Notes {
        var: false,
        array: None,
    };
    'notes: while source.is_mark(Mark::DoubleColon) {
        source.advance();
        notes = annotation(alloc, source, notes)?;
    }
    Ok(notes)
}
