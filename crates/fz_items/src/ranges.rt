//! The arguments of `output_array`.

ghost use Rattle.std.specs.Prelude.{◌≡◌, [], ◌∷◌, map, option_map, IfErr, OnOk};
ghost use Rattle.dp_grammar.specs.Listed.{listed};
ghost use Rattle.fz_model.specs.Annotations.{balanced};
ghost use Rattle.fz_model.specs.Limits.{no_test};
ghost use Rattle.fz_model.specs.Literals as grammar;
ghost use Rattle.fz_model.specs.Words.{Round as round, Square as square};
ghost use Rattle.fz_items.specs.Gives.{Gives, IfRefused, given};
ghost use Rattle.fz_items.specs.Literals.{range_of};
ghost use Rattle.fz_items.specs.Notes.{closing_all, range_listing, seen_args};

use crate::brackets::{Shape, pass_over};
use crate::literals::{Bound, range};
use crate::source::Source;
use crate::stop::{Cause, Stop};
use crate::text::Number;
use fz_token::Mark;
use std::alloc::Global;

/// A range; nothing but plain words is passed over.
fn plain_range(source: &mut Source) -> Result<(Number, Number), Cause>
    ensures reads { (grammar.range no_test).read source.old.left ≡ given range_of result source.new.left }
    ensures text { source.new.text ≡ source.old.text }
    ensures plain { closing_all (square ∷ round ∷ []) source.old.left ≡ closing_all (square ∷ round ∷ []) source.new.left }
{
    range(source, Bound::Any)
}

/// The ranges behind their bracket, and the bracket that closes them.
fn ranges_inside(alloc: Global, source: &mut Source) -> Result<Vec<(Number, Number)>, Stop>
    ensures reads { Gives (λ v. map range_of v.items) ((listed range_listing).read source.old.left) result source.new.left }
    ensures text { source.new.text ≡ source.old.text }

    // Nothing but plain words is passed over before the bracket.
    ensures closed { OnOk result (closing_all (square ∷ round ∷ []) source.old.left ≡ closing_all (round ∷ []) source.new.left) }
    ensures plain { IfErr result (λ stop. IfRefused stop (λ _.
        closing_all (square ∷ round ∷ []) source.old.left ≡ closing_all (square ∷ round ∷ []) source.new.left)) }
{
    let mut ranges = Vec::new(alloc);
    if source.is_mark(Mark::CloseSquare) {
        source.mark(Mark::CloseSquare)?;
        return Ok(ranges);
    }
    let first = plain_range(source)?;
    ranges.push(first)?;
    'items: while source.is_mark(Mark::Comma) {
        source.advance();
        let range = plain_range(source)?;
        ranges.push(range)?;
    }
    source.mark(Mark::CloseSquare)?;
    Ok(ranges)
}

/// All words up to the `)` that closes the bracket before them: the ranges that they spell, if they spell a list of ranges.
pub fn array_args(alloc: Global, source: &mut Source) -> Result<Option<Vec<(Number, Number)>>, Stop>
    ensures reads { Gives (λ o. option_map (λ v. map range_of v.items) o) (seen_args (balanced.read source.old.left)) result source.new.left }
    ensures text { source.new.text ≡ source.old.text }
{
    if !source.is_mark(Mark::OpenSquare) {
        pass_over(source, Shape::Round, Vec::new(alloc))?;
        return Ok(None);
    }
    source.mark(Mark::OpenSquare)?;
    match ranges_inside(alloc, source) {
        Ok(ranges) => {
            if source.is_mark(Mark::CloseRound) {
                source.mark(Mark::CloseRound)?;
                return Ok(Some(ranges));
            }
            pass_over(source, Shape::Round, Vec::new(alloc))?;
            Ok(None)
        }
        Err(Stop::Refused(_)) => {
            let mut below = Vec::new(alloc);
            below.push(Shape::Round)?;
            pass_over(source, Shape::Square, below)?;
            Ok(None)
        }
        Err(Stop::Memory) => Err(Stop::Memory),
    }
}
