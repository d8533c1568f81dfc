//! The lists in a model, which contracts see as those lists.

ghost use Rattle.std.specs.Prelude.{◌≡◌};

use crate::{Basic, Expr};
use std::marker::Model;

/// Numbers in the order in which they were listed.
#[derive(Debug, Drop)]
pub struct Numbers {
    items: Vec<i64>,
}

impl Model for Numbers {
    ghost use Rattle.std.specs.Prelude.{List, ℤ};

    ghost Value = { List ℤ };

    ghost view = { λ numbers. numbers.items.items };
}

impl Numbers {
    /// The list of these numbers.
    pub fn new(items: Vec<i64>) -> Numbers
        ensures { result ≡ items.items }
    {
        Numbers { items }
    }

    /// The numbers.
    pub fn as_slice(&self) -> &[i64]
        ensures { result.now ≡ self.now }
    {
        self.items.as_slice()
    }
}

/// Ranges, each from its first number to its second.
#[derive(Debug, Drop)]
pub struct Ranges {
    items: Vec<(i64, i64)>,
}

impl Model for Ranges {
    ghost use Rattle.std.specs.Prelude.{List, ℤ};

    ghost Value = { List (ℤ × ℤ) };

    ghost view = { λ ranges. ranges.items.items };
}

impl Ranges {
    /// The list of these ranges.
    pub fn new(items: Vec<(i64, i64)>) -> Ranges
        ensures { result ≡ items.items }
    {
        Ranges { items }
    }

    /// The ranges.
    pub fn as_slice(&self) -> &[(i64, i64)]
        ensures { result.now ≡ self.now }
    {
        self.items.as_slice()
    }
}

/// The elements of an array.
#[derive(Debug, Drop)]
pub struct Elements {
    items: Vec<Basic>,
}

impl Model for Elements {
    ghost use Rattle.std.specs.Prelude.{List};
    ghost use Rattle.fz_model.specs.declared.model.Basic.{Basic};

    ghost Value = { List Basic };

    ghost view = { λ elements. elements.items.items };
}

impl Elements {
    /// The list of these elements.
    pub fn new(items: Vec<Basic>) -> Elements
        ensures { result ≡ items.items }
    {
        Elements { items }
    }

    /// The elements.
    pub fn as_slice(&self) -> &[Basic]
        ensures { result.now ≡ self.now }
    {
        self.items.as_slice()
    }
}

/// The arguments of a constraint.
#[derive(Debug, Drop)]
pub struct Args {
    items: Vec<Expr>,
}

impl Model for Args {
    ghost use Rattle.std.specs.Prelude.{List};
    ghost use Rattle.fz_model.specs.declared.model.Expr.{Expr};

    ghost Value = { List Expr };

    ghost view = { λ args. args.items.items };
}

impl Args {
    /// The list of these arguments.
    pub fn new(items: Vec<Expr>) -> Args
        ensures { result ≡ items.items }
    {
        Args { items }
    }

    /// The arguments.
    pub fn as_slice(&self) -> &[Expr]
        ensures { result.now ≡ self.now }
    {
        self.items.as_slice()
    }
}
