//! What is wanted where a literal or a name stands.

ghost use Rattle.std.specs.Prelude.{◌≡◌};
ghost use Rattle.std.specs.List.{list_any};
ghost use Rattle.fz_model.specs.Context.{meaning, known};
ghost use Rattle.fz_model.specs.Items.{basic};
ghost use Rattle.fz_items.specs.Gives.{given};
ghost use Rattle.fz_items.specs.Seen.{basic_text, number_of};
ghost use Rattle.fz_model.specs.Arrays.{type_test};
ghost use Rattle.fz_items.specs.Literals.{type_words};
ghost use Rattle.fz_items.specs.Wants.{has_value, is_within, want_test};

use crate::source::Source;
use crate::stop::Cause;
use crate::text::{BasicWord, Number, SetWords, TypeWords};
use fz_model::{ArgKind, Fault, Meant};
use fz_names::Names;

/// What a literal or a name has to mean.
#[derive(Clone, Copy, Debug)]
pub enum Want<'a> {
    /// A Boolean, a variable or not.
    Bool,
    /// A Boolean constant.
    BoolConst,
    /// An integer constant.
    Const,
    /// An integer variable, or a constant within 10^9 of 0.
    SmallInt,
    /// A variable, or a constant of this type.
    Typed(&'a TypeWords),
    /// An argument; None is wanted behind the last.
    Argument(Option<ArgKind>),
    /// An element of an argument.
    Element(Option<ArgKind>),
}

/// Whether the numbers are one.
fn is_same(number: Number, value: i64) -> bool
    ensures { result ≡ has_value value (number_of number) }
{
    number.value <= value && value <= number.value
}

/// Whether the value is one of the numbers.
fn is_listed(numbers: &[Number], value: i64) -> bool
    ensures { result ≡ list_any (λ n. has_value value (number_of n)) numbers.now }
{
    numbers.iter().any(|number| is_same(*number, value))
}

impl SetWords {
    /// Whether the value is one of the set.
    pub fn has(&self, value: i64) -> bool
        ensures { result ≡ is_within self.now value }
    {
        match self {
            SetWords::List(numbers) => is_listed(numbers, value),
            SetWords::Range(low, high) => low.value <= value && value <= high.value,
        }
    }
}

impl TypeWords {
    /// Why a value of this meaning is none of the type; a variable is cut to it.
    pub fn refuses(&self, meant: &Meant) -> Option<Fault>
        ensures { result ≡ type_test (type_words self.now) meant.now }
    {
        match self {
            TypeWords::Bool => meant.refuses_bool(),
            TypeWords::Int => meant.refuses_int(),
            TypeWords::Set(set) => match meant {
                Meant::IntConst(value) => {
                    if set.has(*value) {
                        None
                    } else {
                        Some(Fault::Kind)
                    }
                }
                Meant::IntVar => None,
                _ => Some(Fault::Kind),
            },
        }
    }
}

impl Want<'_> {
    /// Why what means this is not what is wanted.
    pub fn refuses(self, meant: &Meant) -> Option<Fault>
        ensures { result ≡ want_test self.entry meant.now }
    {
        match self {
            Want::Bool => meant.refuses_bool(),
            Want::BoolConst => meant.refuses_bool_const(),
            Want::Const => meant.refuses_const(),
            Want::SmallInt => meant.refuses_small_int(),
            Want::Typed(kind) => kind.refuses(meant),
            Want::Argument(Some(kind)) => kind.refuses(meant),
            Want::Element(Some(kind)) => kind.refuses_element(meant),
            Want::Argument(None) | Want::Element(None) => Some(Fault::Kind),
        }
    }

    /// Why the literal or name is not what is wanted.
    pub fn refuses_word(self, names: &Names, word: BasicWord) -> Option<Fault>
        ensures { result ≡ known (meaning names.now (basic_text word.entry)) (want_test self.entry) }
    {
        match word {
            BasicWord::Truth(value) => self.refuses(&Meant::BoolConst(value)),
            BasicWord::Whole(number) => self.refuses(&Meant::IntConst(number.value)),
            BasicWord::Name(name) => match names.meaning(name) {
                Some(meant) => self.refuses(meant),
                None => Some(Fault::Unknown),
            },
        }
    }
}

/// A literal or a name that is what is wanted.
pub fn basic<'a>(source: &mut Source<'a>, names: &Names, want: Want) -> Result<BasicWord<'a>, Cause>
    ensures reads { (basic (λ text. known (meaning names.now text) (want_test want.entry))).read source.old.left ≡ given basic_text result source.new.left }
    ensures text { source.new.text ≡ source.old.text }
{
    let word = source.basic_here()?;
    if let Some(fault) = want.refuses_word(names, word) {
        return Err(Cause::Test(fault));
    }
    source.advance();
    Ok(word)
}
