//! Constraint items.

ghost use Rattle.std.specs.Prelude.{◌≡◌, ◌≤◌, map, IfOk};
ghost use Rattle.fz_token.specs.declared.Keyword.TheVariants as key;
ghost use Rattle.dp_grammar.specs.Brackets.{Plain};
ghost use Rattle.dp_grammar.specs.Chain.{mapped};
ghost use Rattle.dp_grammar.specs.Leaf.{tested_mark};
ghost use Rattle.fz_model.specs.Constraints.{behind, kind_named};
ghost use Rattle.fz_model.specs.Limits.{max_elements};
ghost use Rattle.fz_model.specs.Literals.{name};
ghost use Rattle.fz_model.specs.Marks.{is_key};
ghost use Rattle.fz_model.specs.Words.{Key};
ghost use Rattle.fz_items.specs.Arguments.{arg_words};
ghost use Rattle.fz_items.specs.ConstraintItems.{constraint_behind, item_end, named_args, no_constraint, told, told_of, too_many, words_of};
ghost use Rattle.fz_items.specs.Gives.{Gives, given};
ghost use Rattle.fz_items.specs.Places.{names_in};

use crate::annotations::annotations;
use crate::argument::ArgWords;
use crate::arguments::arguments;
use crate::places::exprs;
use crate::source::Source;
use crate::stop::{Cause, Stop};
use dp_base::{Memory, Name};
use fz_model::{Constraint, ConstraintKind, Fault};
use fz_names::Names;
use fz_token::{Keyword, Mark};
use std::alloc::Global;

/// The most constraints of a model.
const MAX_CONSTRAINTS: usize = 200_000;

/// A constraint as it stands in the text, without its annotations.
#[derive(Debug, Drop)]
pub struct ConstraintWords<'a> {
    pub name: &'a [u8],
    pub args: Vec<ArgWords<'a>>,
}

/// The keyword, behind so many constraints.
fn constraint_keyword(source: &mut Source, count: usize) -> Result<(), Cause>
    ensures reads { (tested_mark (is_key key.Constraint) (Plain (Key key.Constraint)) (too_many count)).read source.old.left ≡ given (λ u. u) result source.new.left }
    ensures text { source.new.text ≡ source.old.text }
{
    if !source.is_keyword(Keyword::Constraint) {
        return Err(Cause::Syntax);
    }
    if count >= MAX_CONSTRAINTS {
        return Err(Cause::Test(Fault::Limit));
    }
    source.advance();
    Ok(())
}

/// The name of a constraint, and which constraint it is.
fn constraint_name<'a>(source: &mut Source<'a>) -> Result<(&'a [u8], ConstraintKind), Cause>
    ensures reads { (name no_constraint).read source.old.left ≡ given (λ p. p.0.now) result source.new.left }
    ensures text { source.new.text ≡ source.old.text }
    ensures kind { IfOk result (λ p. p.1 ≡ kind_named p.0.now) }
{
    let name = source.name_here()?;
    let Some(kind) = ConstraintKind::named(name) else {
        return Err(Cause::Test(Fault::Unsupported));
    };
    source.advance();
    Ok((name, kind))
}

/// Annotations and the `;` that ends an item.
fn end_item(alloc: Global, source: &mut Source) -> Result<(), Stop>
    ensures reads { Gives (λ u. u) (mapped (λ notes. tt) (item_end.read source.old.left)) result source.new.left }
    ensures text { source.new.text ≡ source.old.text }
{
    annotations(alloc, source)?;
    source.mark(Mark::Semicolon)?;
    Ok(())
}

/// A constraint behind so many others, as it stands in the text. Its elements are counted.
fn constraint_words<'a>(
    alloc: Global,
    source: &mut Source<'a>,
    names: &mut Names,
    count: usize,
) -> Result<ConstraintWords<'a>, Stop>
    requires { names.old.elements ≤ max_elements }
    ensures reads { Gives words_of (mapped named_args ((constraint_behind names.old count).read source.old.left)) result source.new.left }
    ensures text { source.new.text ≡ source.old.text }
    ensures counted { IfOk result (λ c. names.new ≡ behind names.old (map arg_words c.args.items)) }
    ensures room { IfOk result (λ _. names.new.elements ≤ max_elements) }
{
    constraint_keyword(source, count)?;
    let (name, kind) = constraint_name(source)?;
    let args = arguments(alloc, source, names, kind)?;
    end_item(alloc, source)?;
    Ok(ConstraintWords { name, args })
}

/// The constraint, with the places of the names.
fn constraint(alloc: Global, names: &Names, words: &ConstraintWords) -> Result<Constraint, Memory>
    ensures { IfOk result (λ c. c ≡ (told names.now (words_of words.now)).0) }
{
    let args = exprs(alloc, names, words.args.as_slice())?;
    let name = words.name.to_vec(alloc)?;
    Ok(Constraint {
        name: Name::new(name),
        args,
    })
}

/// A constraint behind so many others. Its elements are counted.
pub fn constraint_item(
    alloc: Global,
    source: &mut Source,
    names: &mut Names,
    count: usize,
) -> Result<Constraint, Stop>
    requires { names.old.elements ≤ max_elements }
    ensures reads { Gives (λ c. (c, names.new)) (told_of names.old ((constraint_behind names.old count).read source.old.left)) result source.new.left }
    ensures text { source.new.text ≡ source.old.text }
    ensures room { IfOk result (λ _. names.new.elements ≤ max_elements) }
{
    let words = constraint_words(alloc, source, names, count)?;
    let constraint = constraint(alloc, names, &words)?;
    Ok(constraint)
}
