//! Sets and arrays, declared.

ghost use Rattle.std.specs.Prelude.{◌≡◌, ◌+◌, ◌≤◌, None, true, false, IfOk, length, map};
ghost use Rattle.fz_model.specs.Context.{fresh};
ghost use Rattle.fz_model.specs.Items.{is_bool_type, set_elements};
ghost use Rattle.fz_model.specs.Limits.{max_elements};
ghost use Rattle.fz_model.specs.ModelText.{array_of};
ghost use Rattle.fz_items.specs.Arrays.{shape_of};
ghost use Rattle.fz_items.specs.Literals.{set_count, set_words, type_words};
ghost use Rattle.fz_items.specs.Seen.{basic_text};
ghost use Rattle.fz_items.specs.States.{consts_effect, consts_kept, set_effect, vars_effect, vars_kept};

use crate::declared::{Declared, copied};
use crate::kinds::{kept_array, kept_ranges, kept_set, kept_type};
use crate::places::elements;
use crate::text::{BasicWord, ConstsText, SetWords, TypeWords, VarsText};
use dp_base::Memory;
use fz_model::{Item, Meant};
use fz_names::Names;
use std::alloc::Global;

/// How many numbers a set lists.
#[tactic(auto, using(std::proofs::lemmas::Grind::common_steps))]
fn listed_in(set: &SetWords) -> usize
    ensures count { result ≡ set_count set.now }
    ensures elements { result ≡ set_elements (set_words set.now) }
{
    match set {
        SetWords::List(numbers) => numbers.len(),
        SetWords::Range(_, _) => 0,
    }
}

/// How many elements these are.
#[tactic(auto, using(std::proofs::lemmas::Grind::common_steps))]
fn count(words: &[BasicWord]) -> usize
    ensures count { result ≡ length words.now }
    ensures elements { result ≡ length (map basic_text words.now) }
{
    words.len()
}

/// With a set parameter.
pub fn with_set(
    alloc: Global,
    declared: Declared,
    name: &[u8],
    set: &SetWords,
) -> Result<Declared, Memory>
    requires new { fresh declared.context name.now ≡ None }
    requires room { declared.context.elements + set_count set.now ≤ max_elements }
    ensures { IfOk result (λ d. d ≡ set_effect declared (name.now, set_words set.now)) }
{
    let item = Item::Set {
        name: copied(alloc, name)?,
        set: kept_set(alloc, set)?,
    };
    let declared = declared.with(alloc, name, Meant::SetConst, item)?;
    Ok(declared.counted(listed_in(set)))
}

/// With an array of constants.
pub fn with_consts(alloc: Global, declared: Declared, text: &ConstsText) -> Result<Declared, Memory>
    requires new { fresh declared.context text.now.name.now ≡ None }
    requires room { declared.context.elements + length text.now.elements.items ≤ max_elements }
    ensures { IfOk result (λ d. d ≡ consts_effect declared (text.now.bools, (text.now.name.now, map basic_text text.now.elements.items))) }
{
    let (item, meant) = consts(alloc, declared.names(), text)?;
    let declared = declared.with(alloc, text.name, meant, item)?;
    Ok(declared.counted(count(text.elements.as_slice())))
}

/// An array of constants, and what its name stands for.
fn consts(alloc: Global, names: &Names, text: &ConstsText) -> Result<(Item, Meant), Memory>
    ensures item { IfOk result (λ p. p.0 ≡ consts_kept names.now text.now.bools text.now.name.now (map basic_text text.now.elements.items)) }
    ensures meant { IfOk result (λ p. p.1 ≡ array_of names.now text.now.bools true (map basic_text text.now.elements.items)) }
{
    let words = text.elements.as_slice();
    let item = Item::Consts {
        name: copied(alloc, text.name)?,
        bools: text.bools,
        elements: elements(alloc, names, words)?,
    };
    let meant = kept_array(alloc, names, text.bools, true, words)?;
    Ok((item, meant))
}

/// Whether it is the type of Booleans.
fn is_bool(kind: &TypeWords) -> bool
    ensures { result ≡ is_bool_type (type_words kind.now) }
{
    match kind {
        TypeWords::Bool => true,
        TypeWords::Int => false,
        TypeWords::Set(_) => false,
    }
}

/// With an array of variables of this type.
pub fn with_vars(
    alloc: Global,
    declared: Declared,
    kind: &TypeWords,
    text: &VarsText,
) -> Result<Declared, Memory>
    requires new { fresh declared.context text.now.name.now ≡ None }
    requires room { declared.context.elements + length text.now.elements.items ≤ max_elements }
    ensures { IfOk result (λ d. d ≡ vars_effect declared (type_words kind.now) (shape_of text.now)) }
{
    let (item, meant) = vars(alloc, declared.names(), kind, text)?;
    let declared = declared.with(alloc, text.name, meant, item)?;
    Ok(declared.counted(count(text.elements.as_slice())))
}

/// An array of variables, and what its name stands for.
fn vars(
    alloc: Global,
    names: &Names,
    kind: &TypeWords,
    text: &VarsText,
) -> Result<(Item, Meant), Memory>
    ensures item { IfOk result (λ p. p.0 ≡ vars_kept names.now (type_words kind.now) (shape_of text.now)) }
    ensures meant { IfOk result (λ p. p.1 ≡ array_of names.now (is_bool_type (type_words kind.now)) false (map basic_text text.now.elements.items)) }
{
    let words = text.elements.as_slice();
    let item = Item::Vars {
        name: copied(alloc, text.name)?,
        kind: kept_type(alloc, kind)?,
        output: kept_ranges(alloc, &text.output)?,
        elements: elements(alloc, names, words)?,
    };
    let meant = kept_array(alloc, names, is_bool(kind), false, words)?;
    Ok((item, meant))
}
