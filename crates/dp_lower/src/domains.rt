//! What a model's variables may be at first.

ghost use Rattle.std.specs.Prelude.{◌≡◌, ℕ, ◌<◌, ◌++◌, ◌&&◌, [], ◌∷◌, if◌then◌else◌, true, IfOk, OnOk, MatchOption, filter, length, slice_set};
ghost use Rattle.std.specs.Option.{option_map_or};
ghost use Rattle.dp_base.specs.Lists.{Each};
ghost use Rattle.dp_domain.specs.States.{values};
ghost use Rattle.fz_model.specs.Models.{count_variables, is_own};
ghost use Rattle.fz_sat.specs.Args.{term_of};
ghost use Rattle.fz_sat.specs.Satisfies.{is_of_type};
ghost use Rattle.dp_lower.specs.Cuts.{IsCutBy, IsSmallOrVar, IsWithVar, own_sets, typed_in};
ghost use Rattle.fz_facts.specs.Facts.{AreNumbered, IsDeclared, IsElement, IsSmallType};
ghost use Rattle.dp_lower.specs.Problem.{allows, domains_of, fits};
ghost use Rattle.dp_lower.specs.Small.{small_numbers};

use crate::names::is_alias;
use crate::types::{cut, cut_range, one_number, type_domain};
use dp_domain::{Dom, Memory, Term};
use fz_model::{Basic, Item, VarType};
use fz_sat::term_of;
use std::alloc::Global;

/// What each variable may be at first.
pub fn domains_of(alloc: Global, items: &[Item]) -> Result<Vec<Dom>, Memory>
    requires numbered { AreNumbered items.now 0 items.now }
    requires declared { Each (IsDeclared items.now) items.now }
    ensures { IfOk result (λ sets. sets.items ≡ domains_of items.now) }
{
    let mut sets = begun(alloc, items)?;
    for item in items {
        cut_by(alloc, items, &mut sets, item)?;
    }
    Ok(sets)
}

/// The set of each variable by the item that declares it as its own.
fn begun(alloc: Global, items: &[Item]) -> Result<Vec<Dom>, Memory>
    requires { Each (IsDeclared items.now) items.now }
    ensures { IfOk result (λ sets. sets.items ≡ own_sets items.now items.now) }
{
    let mut sets = Vec::new(alloc);
    for item in items {
        push_own(alloc, items, &mut sets, item)?;
    }
    Ok(sets)
}

/// Adds the set of a variable of its own; nothing for another item.
fn push_own(alloc: Global, items: &[Item], sets: &mut Vec<Dom>, item: &Item) -> Result<(), Memory>
    requires { IsDeclared items.now item.now }
    ensures { OnOk result (sets.new.items ≡ sets.old.items ++ own_sets items.now (item.now ∷ [])) }
{
    match item {
        Item::Var { kind, value, .. } => {
            if is_alias(items, *value) {
                return Ok(());
            }
            sets.push(first_domain(alloc, items, kind, *value)?)?;
            Ok(())
        }
        _ => Ok(()),
    }
}

/// The numbers of the type that fit the definition.
fn first_domain(
    alloc: Global,
    items: &[Item],
    kind: &VarType,
    value: Option<Basic>,
) -> Result<Dom, Memory>
    requires small { IsSmallType kind.now }
    requires defined { MatchOption value (Unit {0}) (λ b. IsSmallOrVar (term_of items.now b)) }
    ensures { IfOk result (λ d. d ≡ filter (λ v. is_of_type kind.now v && option_map_or (λ b. fits v (term_of items.now b)) value true) small_numbers) }
{
    let Some(basic) = value else {
        return type_domain(alloc, kind);
    };
    match term_of(items, basic) {
        Term::Const(number) => {
            let mut set = one_number(alloc, number)?;
            cut(alloc, &mut set, kind)?;
            Ok(set)
        }
        Term::Var(_) => type_domain(alloc, kind),
    }
}

/// Keeps what the item lets each variable be.
fn cut_by(alloc: Global, items: &[Item], sets: &mut Vec<Dom>, item: &Item) -> Result<(), Memory>
    requires count { length sets.old.items ≡ count_variables items.now }
    requires below { IsWithVar (λ x. x < length sets.old.items) item.now }
    requires declared { IsDeclared items.now item.now }
    ensures { OnOk result (IsCutBy (λ x v. allows items.now x v item.now) sets.old.items sets.new.items) }
{
    match item {
        Item::Var {
            kind,
            value,
            var,
            ..
        } => cut_declared_at(alloc, items, sets, *var as usize, kind, *value),
        Item::Vars { kind, elements, .. } => {
            cut_elements(alloc, items, sets, kind, elements.as_slice())
        }
        Item::Int { .. } => Ok(()),
        Item::Bool { .. } => Ok(()),
        Item::Set { .. } => Ok(()),
        Item::Consts { .. } => Ok(()),
    }
}

/// Keeps of the set at the place the numbers of the type that fit the definition.
fn cut_declared_at(
    alloc: Global,
    items: &[Item],
    sets: &mut Vec<Dom>,
    place: usize,
    kind: &VarType,
    value: Option<Basic>,
) -> Result<(), Memory>
    requires small { IsSmallType kind.now }
    requires defined { MatchOption value (Unit {0}) (λ b. IsSmallOrVar (term_of items.now b)) }
    requires place { place < length sets.old.items }
    ensures { OnOk result (sets.new.items ≡ slice_set sets.old.items place (filter (λ v. is_of_type kind.now v && option_map_or (λ b. fits v (term_of items.now b)) value true) (values sets.old.items place))) }
{
    let set = &mut sets[place];
    cut_declared(alloc, items, set, kind, value)
}

/// Keeps the numbers of the type that fit the definition.
fn cut_declared(
    alloc: Global,
    items: &[Item],
    set: &mut Dom,
    kind: &VarType,
    value: Option<Basic>,
) -> Result<(), Memory>
    requires small { IsSmallType kind.now }
    requires defined { MatchOption value (Unit {0}) (λ b. IsSmallOrVar (term_of items.now b)) }
    ensures { OnOk result (set.new ≡ filter (λ v. is_of_type kind.now v && option_map_or (λ b. fits v (term_of items.now b)) value true) set.old) }
{
    cut(alloc, set, kind)?;
    cut_defined(items, set, value)
}

/// Keeps the numbers that fit the definition.
fn cut_defined(items: &[Item], set: &mut Dom, value: Option<Basic>) -> Result<(), Memory>
    requires { MatchOption value (Unit {0}) (λ b. IsSmallOrVar (term_of items.now b)) }
    ensures { OnOk result (set.new ≡ filter (λ v. option_map_or (λ b. fits v (term_of items.now b)) value true) set.old) }
{
    match value {
        Some(basic) => cut_fitting(set, term_of(items, basic)),
        None => Ok(()),
    }
}

/// Keeps the numbers that fit the term.
fn cut_fitting(set: &mut Dom, term: Term) -> Result<(), Memory>
    requires { IsSmallOrVar term }
    ensures { OnOk result (set.new ≡ filter (λ v. fits v term) set.old) }
{
    match term {
        Term::Const(number) => cut_range(set, number, number),
        Term::Var(_) => Ok(()),
    }
}

/// Keeps of each variable among the elements the numbers of the type.
fn cut_elements(
    alloc: Global,
    items: &[Item],
    sets: &mut Vec<Dom>,
    kind: &VarType,
    elements: &[Basic],
) -> Result<(), Memory>
    requires small { IsSmallType kind.now }
    requires below { Each (λ b. IsElement (length sets.old.items) kind.now (term_of items.now b)) elements.now }
    ensures { OnOk result (IsCutBy (typed_in items.now elements.now kind.now) sets.old.items sets.new.items) }
{
    for element in elements {
        cut_element(alloc, items, sets, kind, *element)?;
    }
    Ok(())
}

/// Keeps of the variable that is the element the numbers of the type.
fn cut_element(
    alloc: Global,
    items: &[Item],
    sets: &mut Vec<Dom>,
    kind: &VarType,
    element: Basic,
) -> Result<(), Memory>
    requires small { IsSmallType kind.now }
    requires below { IsElement (length sets.old.items) kind.now (term_of items.now element) }
    ensures { OnOk result (IsCutBy (typed_in items.now (element ∷ []) kind.now) sets.old.items sets.new.items) }
{
    match term_of(items, element) {
        Term::Var(var) => cut_at(alloc, sets, var.0 as usize, kind),
        Term::Const(_) => Ok(()),
    }
}

/// Keeps of the set at the place the numbers of the type.
fn cut_at(alloc: Global, sets: &mut Vec<Dom>, place: usize, kind: &VarType) -> Result<(), Memory>
    requires small { IsSmallType kind.now }
    requires place { place < length sets.old.items }
    ensures { OnOk result (sets.new.items ≡ slice_set sets.old.items place (filter (is_of_type kind.now) (values sets.old.items place))) }
{
    let set = &mut sets[place];
    cut(alloc, set, kind)
}
