//! One item of a model, and what it declares.

ghost use Rattle.std.specs.Prelude.{◌≡◌, map};
ghost use Rattle.dp_grammar.specs.Chain.{followed, mapped};
ghost use Rattle.fz_token.specs.declared.Keyword.TheVariants as key;
ghost use Rattle.fz_model.specs.Items.{truth};
ghost use Rattle.fz_model.specs.Limits.{no_test};
ghost use Rattle.fz_model.specs.Literals as grammar;
ghost use Rattle.fz_model.specs.Marks as marks;
ghost use Rattle.fz_model.specs.Models.{name_of_item};
ghost use Rattle.fz_items.specs.Places.{names_in};
ghost use Rattle.fz_items.specs.Gives.{Gives};
ghost use Rattle.fz_items.specs.Arrays.{array_behind};
ghost use Rattle.fz_items.specs.ItemReads.{array_told, item_told, predicate_read, vars_told};
ghost use Rattle.fz_items.specs.Literals.{type_words};
ghost use Rattle.fz_items.specs.Seen.{number_of};
ghost use Rattle.fz_items.specs.Parameters.{consts_read, parameter_read, set_read};
ghost use Rattle.fz_items.specs.States.{bool_effect, consts_effect, int_effect, set_effect, variable_effect, vars_effect};
ghost use Rattle.fz_items.specs.Variables.{variable_read};

use crate::annotations::plain_name;
use crate::arrayed::{with_consts, with_set, with_vars};
use crate::arrays::{listed, vars_behind, vars_head};
use crate::brackets::balanced;
use crate::declared::{Declared, copied};
use crate::parameters::{array_head, bool_text, consts_text, int_text, set_text};
use crate::source::Source;
use crate::stop::Stop;
use crate::text::{Number, TypeWords};
use crate::variables::var_text;
use fz_model::{Item, Meant};
use fz_token::{Keyword, Mark};
use std::alloc::Global;

/// An integer parameter.
pub fn int_item(alloc: Global, source: &mut Source, declared: Declared) -> Result<Declared, Stop>
    ensures reads { Gives (λ d. d) (mapped (int_effect declared)
        (followed ((marks.keyword key.Int).read source.old.left) (λ u left. parameter_read declared.context (grammar.integer no_test) left))) result source.new.left }
    ensures text { source.new.text ≡ source.old.text }
{
    let (name, number) = int_text(alloc, source, declared.names())?;
    let item = Item::Int {
        name: copied(alloc, name)?,
        value: number.value,
    };
    let declared = declared.with(alloc, name, Meant::IntConst(number.value), item)?;
    Ok(declared)
}

/// A Boolean parameter.
pub fn bool_item(alloc: Global, source: &mut Source, declared: Declared) -> Result<Declared, Stop>
    ensures reads { Gives (λ d. d) (mapped (bool_effect declared)
        (followed ((marks.keyword key.Bool).read source.old.left) (λ u left. parameter_read declared.context truth left))) result source.new.left }
    ensures text { source.new.text ≡ source.old.text }
{
    let (name, value) = bool_text(alloc, source, declared.names())?;
    let item = Item::Bool {
        name: copied(alloc, name)?,
        value,
    };
    let declared = declared.with(alloc, name, Meant::BoolConst(value), item)?;
    Ok(declared)
}

/// A variable or an alias.
pub fn variable_item(
    alloc: Global,
    source: &mut Source,
    declared: Declared,
) -> Result<Declared, Stop>
    ensures reads { Gives (λ d. d) (mapped (variable_effect declared) (variable_read declared.context source.old.left)) result source.new.left }
    ensures text { source.new.text ≡ source.old.text }
{
    let text = var_text(alloc, source, declared.names())?;
    let declared = declared.with_variable(alloc, text)?;
    Ok(declared)
}

/// A set parameter.
fn set_item(alloc: Global, source: &mut Source, declared: Declared) -> Result<Declared, Stop>
    ensures reads { Gives (λ d. d) (mapped (set_effect declared) (set_read declared.context source.old.left)) result source.new.left }
    ensures text { source.new.text ≡ source.old.text }
{
    let (name, set) = set_text(alloc, source, declared.names())?;
    let declared = with_set(alloc, declared, name, &set)?;
    Ok(declared)
}

/// An array of so many constants.
fn consts_item(
    alloc: Global,
    source: &mut Source,
    declared: Declared,
    size: Number,
) -> Result<Declared, Stop>
    ensures reads { Gives (λ d. d) (mapped (consts_effect declared) (consts_read declared.context (number_of size) source.old.left)) result source.new.left }
    ensures text { source.new.text ≡ source.old.text }
{
    let text = consts_text(alloc, source, declared.names(), size)?;
    let declared = with_consts(alloc, declared, &text)?;
    Ok(declared)
}

/// An array of so many variables, behind its type.
fn vars_rest(
    alloc: Global,
    source: &mut Source,
    declared: Declared,
    kind: &TypeWords,
    size: Number,
) -> Result<Declared, Stop>
    ensures reads { Gives (λ d. d) (mapped (vars_effect declared (type_words kind.now)) (array_behind declared.context (number_of size) (type_words kind.now) source.old.left)) result source.new.left }
    ensures text { source.new.text ≡ source.old.text }
{
    let text = vars_behind(alloc, source, declared.names(), kind, size)?;
    let declared = with_vars(alloc, declared, kind, &text)?;
    Ok(declared)
}

/// An array of so many variables.
fn vars_item(
    alloc: Global,
    source: &mut Source,
    declared: Declared,
    size: Number,
) -> Result<Declared, Stop>
    ensures reads { Gives (λ d. d) (vars_told declared (number_of size) source.old.left) result source.new.left }
    ensures text { source.new.text ≡ source.old.text }
{
    let kind = vars_head(alloc, source, declared.names())?;
    let declared = declared.counted(listed(&kind));
    vars_rest(alloc, source, declared, &kind, size)
}

/// An array.
fn array_item(alloc: Global, source: &mut Source, declared: Declared) -> Result<Declared, Stop>
    ensures reads { Gives (λ d. d) (array_told declared source.old.left) result source.new.left }
    ensures text { source.new.text ≡ source.old.text }
{
    let (_, size) = array_head(source)?;
    if source.is_keyword(Keyword::Var) {
        return vars_item(alloc, source, declared, size);
    }
    consts_item(alloc, source, declared, size)
}

/// A predicate, of which nothing is kept.
fn predicate_item(alloc: Global, source: &mut Source) -> Result<(), Stop>
    ensures reads { Gives (λ u. u) (predicate_read source.old.left) result source.new.left }
    ensures text { source.new.text ≡ source.old.text }
{
    source.keyword(Keyword::Predicate)?;
    plain_name(source)?;
    source.mark(Mark::OpenRound)?;
    balanced(alloc, source)?;
    source.mark(Mark::Semicolon)?;
    Ok(())
}

/// An item. What is declared with it.
pub fn told(alloc: Global, source: &mut Source, declared: Declared) -> Result<Declared, Stop>
    ensures reads { Gives (λ d. d) (item_told declared source.old.left) result source.new.left }
    ensures text { source.new.text ≡ source.old.text }
    ensures named { names_in declared.context ≡ map name_of_item declared.items }
{
    let _ = declared.names();
    if source.is_keyword(Keyword::Predicate) {
        predicate_item(alloc, source)?;
        return Ok(declared);
    }
    if source.is_keyword(Keyword::Int) {
        return int_item(alloc, source, declared);
    }
    if source.is_keyword(Keyword::Bool) {
        return bool_item(alloc, source, declared);
    }
    if source.is_keyword(Keyword::Set) {
        return set_item(alloc, source, declared);
    }
    if source.is_keyword(Keyword::Array) {
        return array_item(alloc, source, declared);
    }
    variable_item(alloc, source, declared)
}
