//! What is read, with the places of what it names.

ghost use Rattle.std.specs.Prelude.{◌≡◌, map, IfOk};
ghost use Rattle.fz_items.specs.Arguments.{arg_words};
ghost use Rattle.fz_items.specs.Places.{basic_in, expr_in, names_in, place_in};
ghost use Rattle.fz_items.specs.Seen.{basic_text, number_of};

use crate::argument::ArgWords;
use crate::text::{BasicWord, Number};
use dp_base::Memory;
use fz_model::{Args, Basic, Elements, Expr, Numbers, SetText};
use fz_names::Names;
use std::alloc::Global;

/// The place of the name among all names. There is no memory for one beyond 2^32.
pub fn place(names: &Names, name: &[u8]) -> Result<u32, Memory>
    ensures { IfOk result (λ place. place ≡ place_in (names_in names.now) name.now) }
{
    match u32::try_from(names.place(name).unwrap_or(0)) {
        Ok(place) => Ok(place),
        Err(_) => Err(Memory),
    }
}

/// The literal, or the place of the name.
pub fn basic(names: &Names, word: BasicWord) -> Result<Basic, Memory>
    ensures { IfOk result (λ b. b ≡ basic_in (names_in names.now) (basic_text word.entry)) }
{
    match word {
        BasicWord::Truth(value) => Ok(Basic::Bool(value)),
        BasicWord::Whole(number) => Ok(Basic::Int(number.value)),
        BasicWord::Name(name) => {
            let place = place(names, name)?;
            Ok(Basic::Item(place))
        }
    }
}

/// The literals, and the places of the names.
pub fn elements(alloc: Global, names: &Names, words: &[BasicWord]) -> Result<Elements, Memory>
    ensures { IfOk result (λ e. e ≡ map (basic_in (names_in names.now)) (map basic_text words.now)) }
{
    let mut elements = Vec::new(alloc);
    for word in words {
        let element = basic(names, *word)?;
        elements.push(element)?;
    }
    Ok(Elements::new(elements))
}

/// The values of the numbers.
pub fn values(alloc: Global, numbers: &[Number]) -> Result<Numbers, Memory>
    ensures { IfOk result (λ n. n ≡ map (λ p. p.0) (map number_of numbers.now)) }
{
    let mut values = Vec::new(alloc);
    for number in numbers {
        values.push(number.value)?;
    }
    Ok(Numbers::new(values))
}

/// The argument, with the places of the names.
pub fn expr(alloc: Global, names: &Names, arg: &ArgWords) -> Result<Expr, Memory>
    ensures { IfOk result (λ e. e ≡ expr_in (names_in names.now) (arg_words arg.now)) }
{
    match arg {
        ArgWords::Set(numbers) => {
            let values = values(alloc, numbers.as_slice())?;
            Ok(Expr::Set(SetText::List(values)))
        }
        ArgWords::Array(words) => {
            let elements = elements(alloc, names, words.as_slice())?;
            Ok(Expr::Array(elements))
        }
        ArgWords::Range(low, high) => Ok(Expr::Set(SetText::Range(*low, high.value))),
        ArgWords::Basic(word) => {
            let basic = basic(names, *word)?;
            Ok(Expr::Basic(basic))
        }
    }
}

/// The arguments, with the places of the names.
pub fn exprs(alloc: Global, names: &Names, args: &[ArgWords]) -> Result<Args, Memory>
    ensures { IfOk result (λ e. e ≡ map (expr_in (names_in names.now)) (map arg_words args.now)) }
{
    let mut exprs = Vec::new(alloc);
    for arg in args {
        let expr = expr(alloc, names, arg)?;
        exprs.push(expr)?;
    }
    Ok(Args::new(exprs))
}
