//! Variables and arrays of variables.

ghost use Rattle.std.specs.Prelude.{◌≡◌, ◌+◌, ◌<◌, ◌≤◌, None, IfOk, length, map};
ghost use Rattle.fz_model.specs.Context.{fresh, fresh_variable};
ghost use Rattle.fz_model.specs.Items.{basic, definition_test, is_int_type, variable_end};
ghost use Rattle.fz_model.specs.Limits.{max_elements, max_variables, refuse_if};
ghost use Rattle.fz_model.specs.Literals as grammar;
ghost use Rattle.fz_model.specs.declared.fault.Fault.TheVariants.{Unbounded};
ghost use Rattle.fz_items.specs.Gives.{Gives, given};
ghost use Rattle.fz_items.specs.Literals.{type_count, type_words};
ghost use Rattle.fz_items.specs.Seen.{basic_text};
ghost use Rattle.fz_items.specs.Variables.{variable_read, end_of, variable_text};

use crate::annotations::annotations;
use crate::literals::var_type;
use crate::source::Source;
use crate::stop::{Cause, Stop};
use crate::text::{BasicWord, TypeWords, VarText};
use crate::want::{Want, basic};
use fz_model::Fault;
use fz_names::Names;
use fz_token::{Keyword, Mark};
use std::alloc::Global;

/// The name of a further variable, which is not declared yet.
fn new_variable<'a>(source: &mut Source<'a>, names: &Names) -> Result<&'a [u8], Cause>
    ensures reads { (grammar.name (fresh_variable names.now)).read source.old.left ≡ given (λ b. b.now) result source.new.left }
    ensures text { source.new.text ≡ source.old.text }
    ensures fresh { IfOk result (λ name. fresh names.now name.now ≡ None) }
    ensures room { IfOk result (λ name. names.now.variables < max_variables) }
{
    let name = source.name_here()?;
    if let Some(fault) = names.refuses_variable(name) {
        return Err(Cause::Test(fault));
    }
    source.advance();
    Ok(name)
}

/// What defines a variable of this type.
fn definition<'a>(
    source: &mut Source<'a>,
    names: &Names,
    kind: &TypeWords,
) -> Result<BasicWord<'a>, Cause>
    ensures reads { (basic (definition_test names.now (type_words kind.now))).read source.old.left ≡ given basic_text result source.new.left }
    ensures text { source.new.text ≡ source.old.text }
{
    match kind {
        TypeWords::Bool => basic(source, names, Want::Bool),
        TypeWords::Int => basic(source, names, Want::SmallInt),
        TypeWords::Set(_) => basic(source, names, Want::SmallInt),
    }
}

/// Why a variable of this type needs a definition.
fn refuses_end(kind: &TypeWords) -> Option<Fault>
    ensures { result ≡ refuse_if (is_int_type (type_words kind.now)) Unbounded }
{
    match kind {
        TypeWords::Int => Some(Fault::Unbounded),
        TypeWords::Bool => None,
        TypeWords::Set(_) => None,
    }
}

/// What defines a variable, if something does, and `;`.
fn variable_end<'a>(
    source: &mut Source<'a>,
    names: &Names,
    kind: &TypeWords,
) -> Result<Option<BasicWord<'a>>, Cause>
    ensures reads { (variable_end names.now (type_words kind.now)).read source.old.left ≡ given end_of result source.new.left }
    ensures text { source.new.text ≡ source.old.text }
{
    if source.is_mark(Mark::Equals) {
        source.mark(Mark::Equals)?;
        let word = definition(source, names, kind)?;
        source.mark(Mark::Semicolon)?;
        return Ok(Some(word));
    }
    source.mark_if(Mark::Semicolon, refuses_end(kind))?;
    Ok(None)
}

/// A variable.
pub fn var_text<'a>(
    alloc: Global,
    source: &mut Source<'a>,
    names: &Names,
) -> Result<VarText<'a>, Stop>
    requires { names.now.elements ≤ max_elements }
    ensures reads { Gives variable_text (variable_read names.now source.old.left) result source.new.left }
    ensures text { source.new.text ≡ source.old.text }
    ensures fresh { IfOk result (λ t. fresh names.now t.name.now ≡ None) }
    ensures variables { IfOk result (λ t. names.now.variables < max_variables) }
    ensures room { IfOk result (λ t. names.now.elements + type_count t.kind ≤ max_elements) }
{
    source.keyword(Keyword::Var)?;
    let kind = var_type(alloc, source, names)?;
    source.mark(Mark::Colon)?;
    let name = new_variable(source, names)?;
    let notes = annotations(alloc, source)?;
    let value = variable_end(source, names, &kind)?;
    Ok(VarText {
        name,
        kind,
        output: notes.var,
        value,
    })
}
