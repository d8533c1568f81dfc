//! All words up to the bracket that closes those that are open.

ghost use Rattle.std.specs.Prelude.{◌≡◌, ◌<◌, List, [], ◌∷◌, Some, length, IfOk, IfErr, OnOk};
ghost use Rattle.dp_grammar.specs.Grammar.{Stops};
ghost use Rattle.fz_model.specs.Words.{Round as round, Word};
ghost use Rattle.fz_items.specs.Gives.{Gives, IfRefused, cause_of};
ghost use Rattle.fz_items.specs.Notes.{brackets_of, class_of, closing_all, opened, stepped};

use crate::source::Source;
use crate::stop::{Cause, Stop};
use fz_token::{Mark, TokenKind};
use std::alloc::Global;

/// A kind of brackets.
#[derive(Clone, Copy, Debug, PartialEq, Eq)]
pub enum Shape {
    Round,
    Square,
    Curly,
}

/// What a word is for brackets.
#[derive(Clone, Copy, Debug, PartialEq, Eq)]
pub enum Class {
    Plain,
    Opens(Shape),
    Closes(Shape),
}

/// What a word of this kind is for brackets.
fn classed(kind: TokenKind) -> Class
    ensures { result ≡ class_of kind }
{
    match kind {
        TokenKind::Mark(Mark::OpenRound) => Class::Opens(Shape::Round),
        TokenKind::Mark(Mark::CloseRound) => Class::Closes(Shape::Round),
        TokenKind::Mark(Mark::OpenSquare) => Class::Opens(Shape::Square),
        TokenKind::Mark(Mark::CloseSquare) => Class::Closes(Shape::Square),
        TokenKind::Mark(Mark::OpenCurly) => Class::Opens(Shape::Curly),
        TokenKind::Mark(Mark::CloseCurly) => Class::Closes(Shape::Curly),
        _ => Class::Plain,
    }
}

/// The innermost bracket behind a word of this class, if one is open; `top` was it before.
fn innermost(class: Class, top: Shape, below: &mut Vec<Shape>) -> Result<Option<Shape>, Stop>
    ensures ok { IfOk result (λ next. (left rest : List Word) →
        stepped class top (brackets_of below.old.items) left rest ≡ closing_all (opened next below.new.items) rest) }
    ensures refused { IfErr result (λ stop. IfRefused stop (λ cause. (left rest : List Word) →
        stepped class top (brackets_of below.old.items) left rest ≡ Stops (cause_of cause) left)) }
{
    match class {
        Class::Plain => Ok(Some(top)),
        Class::Opens(shape) => {
            below.push(top)?;
            Ok(Some(shape))
        }
        Class::Closes(shape) => {
            if shape != top {
                return Err(Stop::Refused(Cause::Syntax));
            }
            Ok(below.pop())
        }
    }
}

/// Passes over one word behind open brackets, of which `top` is the innermost. What is the innermost then, if one is open.
fn step(source: &mut Source, top: Shape, below: &mut Vec<Shape>) -> Result<Option<Shape>, Stop>
    ensures goes_on { IfOk result (λ next. closing_all (opened (Some top) below.old.items) source.old.left ≡ closing_all (opened next below.new.items) source.new.left) }
    ensures shorter { OnOk result (length source.new.left < length source.old.left) }
    ensures refused { IfErr result (λ stop. IfRefused stop (λ cause. closing_all (opened (Some top) below.old.items) source.old.left ≡ Stops (cause_of cause) source.new.left)) }
    ensures text { source.new.text ≡ source.old.text }
{
    let Some(seen) = source.word() else {
        return Err(Stop::Refused(Cause::Syntax));
    };
    let next = innermost(classed(seen.kind), top, below)?;
    source.advance();
    Ok(next)
}

/// All words up to the bracket that closes the last of these, where the brackets between match.
pub fn pass_over(source: &mut Source, top: Shape, mut below: Vec<Shape>) -> Result<(), Stop>
    ensures reads { Gives (λ u. u) (closing_all (opened (Some top) below.items) source.old.left) result source.new.left }
    ensures text { source.new.text ≡ source.old.text }
{
    let mut top = Some(top);
    'words: while let Some(shape) = top {
        top = step(source, shape, &mut below)?;
    }
    Ok(())
}

/// All words up to the `)` that closes the bracket before them, where the brackets between match.
pub fn balanced(alloc: Global, source: &mut Source) -> Result<(), Stop>
    ensures reads { Gives (λ u. u) (closing_all (round ∷ []) source.old.left) result source.new.left }
    ensures text { source.new.text ≡ source.old.text }
{
    pass_over(source, Shape::Round, Vec::new(alloc))
}
