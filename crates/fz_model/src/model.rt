//! What a model consists of: what is declared, what is required, and what is asked for.

use crate::{Args, Elements, Numbers, Ranges};
use dp_base::Name;

/// A declaration.
#[derive(Debug, Drop)]
pub enum Item {
    /// An integer parameter.
    Int {
        name: Name,
        value: i64,
    },
    /// A Boolean parameter.
    Bool {
        name: Name,
        value: bool,
    },
    /// A set parameter.
    Set {
        name: Name,
        set: SetText,
    },
    /// An array of constants, Booleans or integers.
    Consts {
        name: Name,
        bools: bool,
        elements: Elements,
    },
    /// A variable or an alias. `var` counts the variables from 0, aliases not among them; an alias has its variable's number.
    Var {
        name: Name,
        kind: VarType,
        output: bool,
        value: Option<Basic>,
        var: u32,
    },
    /// An array of variables, with the ranges that its `output_array` gives.
    Vars {
        name: Name,
        kind: VarType,
        output: Option<Ranges>,
        elements: Elements,
    },
}

/// The declared type of a variable, or of the elements of an array.
#[derive(Debug, Drop)]
pub enum VarType {
    Bool,
    Int,
    /// From the first number to the second; none, where the first is greater.
    Range(i64, i64),
    /// The numbers as they were listed.
    List(Numbers),
}

/// A set as it was written.
#[derive(Debug, Drop)]
pub enum SetText {
    /// From the first number to the second; none, where the first is greater.
    Range(i64, i64),
    /// The numbers as they were listed.
    List(Numbers),
}

/// A literal, or the place of what is named.
#[derive(Clone, Copy, Debug, PartialEq, Eq)]
pub enum Basic {
    Bool(bool),
    Int(i64),
    Item(u32),
}

/// An argument of a constraint. An array or a set parameter that is named is `Basic(Basic::Item(..))`.
#[derive(Debug, Drop)]
pub enum Expr {
    Basic(Basic),
    Set(SetText),
    Array(Elements),
}

/// A constraint item.
#[derive(Debug, Drop)]
pub struct Constraint {
    pub name: Name,
    pub args: Args,
}

/// What is asked for, a variable by its place in the items.
#[derive(Clone, Copy, Debug, PartialEq, Eq)]
pub enum ModelGoal {
    Satisfy,
    Minimize(u32),
    Maximize(u32),
}
