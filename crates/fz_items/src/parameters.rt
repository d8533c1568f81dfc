//! Items that declare constants.

ghost use Rattle.std.specs.Prelude.{◌≡◌, ◌+◌, ◌≤◌, None, IfOk, length, map};
ghost use Rattle.dp_grammar.specs.Chain.{followed};
ghost use Rattle.fz_token.specs.declared.Keyword.TheVariants as key;
ghost use Rattle.fz_model.specs.Context.{fresh};
ghost use Rattle.fz_model.specs.Arrays.{one, size_test};
ghost use Rattle.fz_model.specs.Items.{array_literal, truth};
ghost use Rattle.fz_model.specs.Limits.{max_elements, no_test};
ghost use Rattle.fz_model.specs.Literals as grammar;
ghost use Rattle.fz_model.specs.Marks as marks;
ghost use Rattle.fz_items.specs.Gives.{Gives, given};
ghost use Rattle.fz_items.specs.Literals.{set_count, set_words};
ghost use Rattle.fz_items.specs.Parameters.{array_head_read, consts_read, name_read, parameter_read, set_read};
ghost use Rattle.fz_items.specs.Seen.{basic_text, number_of};
ghost use Rattle.fz_items.specs.Wants.{element_wanted};

use crate::annotations::annotations;
use crate::elements::array;
use crate::literals::{Bound, integer, set_literal};
use crate::source::{Seen, Source};
use crate::stop::{Cause, Stop};
use crate::text::{BasicWord, ConstsText, Number, SetWords};
use crate::want::Want;
use fz_names::Names;
use fz_token::{Keyword, Mark, TokenKind};
use std::alloc::Global;

/// A name that is not declared yet.
pub fn new_name<'a>(source: &mut Source<'a>, names: &Names) -> Result<&'a [u8], Cause>
    ensures reads { (grammar.name (fresh names.now)).read source.old.left ≡ given (λ b. b.now) result source.new.left }
    ensures text { source.new.text ≡ source.old.text }
    ensures fresh { IfOk result (λ name. fresh names.now name.now ≡ None) }
{
    let name = source.name_here()?;
    if let Some(fault) = names.refuses_name(name) {
        return Err(Cause::Test(fault));
    }
    source.advance();
    Ok(name)
}

/// `:`, a name that is not declared yet, annotations, and `=`.
pub fn declared_name<'a>(
    alloc: Global,
    source: &mut Source<'a>,
    names: &Names,
) -> Result<&'a [u8], Stop>
    ensures reads { Gives (λ b. b.now) (name_read names.now source.old.left) result source.new.left }
    ensures text { source.new.text ≡ source.old.text }
    ensures fresh { IfOk result (λ name. fresh names.now name.now ≡ None) }
{
    source.mark(Mark::Colon)?;
    let name = new_name(source, names)?;
    annotations(alloc, source)?;
    source.mark(Mark::Equals)?;
    Ok(name)
}

/// `true` or `false`.
fn truth(source: &mut Source) -> Result<bool, Cause>
    ensures reads { truth.read source.old.left ≡ given (λ b. b) result source.new.left }
    ensures text { source.new.text ≡ source.old.text }
{
    let value = match source.word().map(|seen| seen.kind) {
        Some(TokenKind::Keyword(Keyword::True)) => true,
        Some(TokenKind::Keyword(Keyword::False)) => false,
        _ => return Err(Cause::Syntax),
    };
    source.advance();
    Ok(value)
}

/// The name and value of an integer parameter.
pub fn int_text<'a>(
    alloc: Global,
    source: &mut Source<'a>,
    names: &Names,
) -> Result<(&'a [u8], Number), Stop>
    ensures reads { Gives (λ p. (p.0.now, number_of p.1))
        (followed ((marks.keyword key.Int).read source.old.left) (λ u left. parameter_read names.now (grammar.integer no_test) left)) result source.new.left }
    ensures text { source.new.text ≡ source.old.text }
    ensures fresh { IfOk result (λ p. fresh names.now p.0.now ≡ None) }
{
    source.keyword(Keyword::Int)?;
    let name = declared_name(alloc, source, names)?;
    let number = integer(source, Bound::Any)?;
    source.mark(Mark::Semicolon)?;
    Ok((name, number))
}

/// The name and value of a Boolean parameter.
pub fn bool_text<'a>(
    alloc: Global,
    source: &mut Source<'a>,
    names: &Names,
) -> Result<(&'a [u8], bool), Stop>
    ensures reads { Gives (λ p. (p.0.now, p.1))
        (followed ((marks.keyword key.Bool).read source.old.left) (λ u left. parameter_read names.now truth left)) result source.new.left }
    ensures text { source.new.text ≡ source.old.text }
    ensures fresh { IfOk result (λ p. fresh names.now p.0.now ≡ None) }
{
    source.keyword(Keyword::Bool)?;
    let name = declared_name(alloc, source, names)?;
    let value = truth(source)?;
    source.mark(Mark::Semicolon)?;
    Ok((name, value))
}

/// The name and value of a set parameter.
pub fn set_text<'a>(
    alloc: Global,
    source: &mut Source<'a>,
    names: &Names,
) -> Result<(&'a [u8], SetWords), Stop>
    requires { names.now.elements ≤ max_elements }
    ensures reads { Gives (λ p. (p.0.now, set_words p.1)) (set_read names.now source.old.left) result source.new.left }
    ensures text { source.new.text ≡ source.old.text }
    ensures fresh { IfOk result (λ p. fresh names.now p.0.now ≡ None) }
    ensures room { IfOk result (λ p. names.now.elements + set_count p.1 ≤ max_elements) }
{
    source.keyword(Keyword::Set)?;
    source.keyword(Keyword::Of)?;
    source.keyword(Keyword::Int)?;
    let name = declared_name(alloc, source, names)?;
    let set = set_literal(alloc, source, names, Bound::Any)?;
    source.mark(Mark::Semicolon)?;
    Ok((name, set))
}

/// The integer 1, and whether `..` follows it.
fn one(source: &mut Source) -> Result<bool, Cause>
    ensures reads { one.read source.old.left ≡ given (λ b. b) result source.new.left }
    ensures text { source.new.text ≡ source.old.text }
{
    let dotted = match source.word() {
        Some(
            Seen {
                kind: TokenKind::Integer(value),
                dotted,
                ..
            },
        ) if 1 <= value && value <= 1 => dotted,
        _ => return Err(Cause::Syntax),
    };
    source.advance();
    Ok(dotted)
}

/// `array [1..n] of`: whether `..` follows the 1, and n.
pub fn array_head(source: &mut Source) -> Result<(bool, Number), Cause>
    ensures reads { array_head_read source.old.left ≡ given (λ p. (p.0, number_of p.1)) result source.new.left }
    ensures text { source.new.text ≡ source.old.text }
{
    source.keyword(Keyword::Array)?;
    source.mark(Mark::OpenSquare)?;
    let dotted = one(source)?;
    source.mark(Mark::DoubleDot)?;
    let size = integer(source, Bound::Any)?;
    source.mark(Mark::CloseSquare)?;
    source.keyword(Keyword::Of)?;
    Ok((dotted, size))
}

/// The name and the elements of an array of so many constants.
fn const_array<'a>(
    alloc: Global,
    source: &mut Source<'a>,
    names: &Names,
    want: Want,
    size: Number,
) -> Result<(&'a [u8], Vec<BasicWord<'a>>), Stop>
    requires { names.now.elements ≤ max_elements }
    ensures reads { Gives (λ p. (p.0.now, map basic_text p.1.items))
        (parameter_read names.now (array_literal (λ kept. element_wanted names.now want.entry (length kept)) (size_test (number_of size))) source.old.left) result source.new.left }
    ensures text { source.new.text ≡ source.old.text }
    ensures fresh { IfOk result (λ p. fresh names.now p.0.now ≡ None) }
    ensures room { IfOk result (λ p. names.now.elements + length p.1.items ≤ max_elements) }
{
    let name = declared_name(alloc, source, names)?;
    let elements = array(alloc, source, names, want, Some(size))?;
    source.mark(Mark::Semicolon)?;
    Ok((name, elements))
}

/// Whether the constants of an array are Booleans, its name and its elements, of which there are so many.
pub fn consts_text<'a>(
    alloc: Global,
    source: &mut Source<'a>,
    names: &Names,
    size: Number,
) -> Result<ConstsText<'a>, Stop>
    requires { names.now.elements ≤ max_elements }
    ensures reads { Gives (λ t. (t.bools, (t.name.now, map basic_text t.elements.items))) (consts_read names.now (number_of size) source.old.left) result source.new.left }
    ensures text { source.new.text ≡ source.old.text }
    ensures fresh { IfOk result (λ t. fresh names.now t.name.now ≡ None) }
    ensures room { IfOk result (λ t. names.now.elements + length t.elements.items ≤ max_elements) }
{
    if source.is_keyword(Keyword::Bool) {
        source.keyword(Keyword::Bool)?;
        let (name, elements) = const_array(alloc, source, names, Want::BoolConst, size)?;
        return Ok(ConstsText {
            bools: true,
            name,
            elements,
        });
    }
    source.keyword(Keyword::Int)?;
    let (name, elements) = const_array(alloc, source, names, Want::Const, size)?;
    Ok(ConstsText {
        bools: false,
        name,
        elements,
    })
}
