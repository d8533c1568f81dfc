//! The elements of an array as far as they are constants.

ghost use Rattle.std.specs.Prelude.{◌≡◌, ◌||◌, is_none};
ghost use Rattle.std.specs.List.{list_any};
ghost use Rattle.fz_model.specs.Limits.{amount_limit, each_test, is_refused, beyond_small, or_else, refuse_if, no_test};
ghost use Rattle.fz_model.specs.declared.fault.Fault.TheVariants.{Kind, Unsupported};

use crate::Fault;
use crate::meant::{amount_limit, beyond_small};
use std::marker::Model;

/// Integers, None for a variable, seen as their list. What is asked of them all is found out once.
#[derive(Debug, Drop)]
pub struct Integers {
    items: Vec<Option<i64>>,
    has_variable: bool,
    has_large: bool,
    has_no_amount: bool,
}

impl Model for Integers {
    ghost use Rattle.std.specs.Prelude.{◌≡◌, is_none, List, Option, ℤ};
    ghost use Rattle.std.specs.List.{list_any};
    ghost use Rattle.fz_model.specs.Limits.{amount_limit, is_refused, beyond_small};

    ghost Value = { List (Option ℤ) };

    ghost view = { λ integers. integers.items.items };

    ghost invariant = { λ integers.
        (integers.has_variable ≡ list_any is_none integers.items.items)
        × (integers.has_large ≡ list_any (is_refused beyond_small) integers.items.items)
        × (integers.has_no_amount ≡ list_any (is_refused amount_limit) integers.items.items) };
}

impl Integers {
    /// These integers.
    pub fn new(items: Vec<Option<i64>>) -> Integers
        ensures { result ≡ items.items }
    {
        let has_variable = have_variable(items.as_slice());
        let has_large = have_large(items.as_slice());
        let has_no_amount = have_no_amount(items.as_slice());
        Integers {
            items,
            has_variable,
            has_large,
            has_no_amount,
        }
    }

    /// The integers.
    pub fn as_slice(&self) -> &[Option<i64>]
        ensures { result.now ≡ self.now }
    {
        self.items.as_slice()
    }

    /// How a variable among them is refused.
    pub fn refuses_variable(&self, fault: Fault) -> Option<Fault>
        ensures { result ≡ or_else (refuse_if (list_any is_none self.now) fault) (each_test no_test self.now) }
    {
        if self.has_variable { Some(fault) } else { None }
    }

    /// Why they are not all coefficients.
    pub fn refuses_coefficient(&self) -> Option<Fault>
        ensures { result ≡ or_else (refuse_if (list_any is_none self.now) Kind) (each_test beyond_small self.now) }
    {
        if self.has_variable {
            Some(Fault::Kind)
        } else if self.has_large {
            Some(Fault::Limit)
        } else {
            None
        }
    }

    /// Why they are not all durations or usages.
    pub fn refuses_amount(&self) -> Option<Fault>
        ensures { result ≡ or_else (refuse_if (list_any is_none self.now) Unsupported) (each_test amount_limit self.now) }
    {
        if self.has_variable {
            Some(Fault::Unsupported)
        } else if self.has_no_amount {
            Some(Fault::Limit)
        } else {
            None
        }
    }
}

/// Whether some element is a variable.
fn have_variable<T>(items: &[Option<T>]) -> bool
    ensures { result ≡ list_any is_none items.now }
{
    items.iter().any(|item| item.is_none())
}

/// Whether some element is a constant beyond 10^9.
fn have_large(items: &[Option<i64>]) -> bool
    ensures { result ≡ list_any (is_refused beyond_small) items.now }
{
    items.iter().any(|item| is_large(*item))
}

/// Whether some element is a constant outside 0..10^9.
fn have_no_amount(items: &[Option<i64>]) -> bool
    ensures { result ≡ list_any (is_refused amount_limit) items.now }
{
    items.iter().any(|item| is_no_amount(*item))
}

/// Whether the element is a constant beyond 10^9.
fn is_large(item: Option<i64>) -> bool
    ensures { result ≡ is_refused beyond_small item }
{
    match item {
        Some(value) => beyond_small(value).is_some(),
        None => false,
    }
}

/// Whether the element is a constant outside 0..10^9.
fn is_no_amount(item: Option<i64>) -> bool
    ensures { result ≡ is_refused amount_limit item }
{
    match item {
        Some(value) => amount_limit(value).is_some(),
        None => false,
    }
}

/// Booleans, None for a variable, seen as their list.
#[derive(Debug, Drop)]
pub struct Truths {
    items: Vec<Option<bool>>,
    has_variable: bool,
}

impl Model for Truths {
    ghost use Rattle.std.specs.Prelude.{◌≡◌, is_none, List, Option, Bool};
    ghost use Rattle.std.specs.List.{list_any};

    ghost Value = { List (Option Bool) };

    ghost view = { λ truths. truths.items.items };

    ghost invariant = { λ truths. truths.has_variable ≡ list_any is_none truths.items.items };
}

impl Truths {
    /// These Booleans.
    pub fn new(items: Vec<Option<bool>>) -> Truths
        ensures { result ≡ items.items }
    {
        let has_variable = have_variable(items.as_slice());
        Truths {
            items,
            has_variable,
        }
    }

    /// The Booleans.
    pub fn as_slice(&self) -> &[Option<bool>]
        ensures { result.now ≡ self.now }
    {
        self.items.as_slice()
    }

    /// How a variable among them is refused.
    pub fn refuses_variable(&self) -> Option<Fault>
        ensures { result ≡ refuse_if (list_any is_none self.now) Kind }
    {
        if self.has_variable {
            Some(Fault::Kind)
        } else {
            None
        }
    }
}
