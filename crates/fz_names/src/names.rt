//! The names so far.

ghost use Rattle.std.specs.Prelude.{◌≡◌, ◌+◌, ◌<◌, ◌^◌, None, is_some, bytes_eq, OnOk, OnErr, option_copied, map};
ghost use Rattle.std.specs.List.{position};
ghost use Rattle.fz_model.specs.Context.{fresh, fresh_variable, meant_by, one_more, with_elements};
ghost use Rattle.fz_model.specs.ModelText.{declares, nothing};
ghost use Rattle.fz_names.specs.Counts.{with_variable};

use crate::spelled::Spelled;
use dp_base::{Memory, Name};
use fz_model::{Fault, Meant};
use indexmap::IndexMap;
use std::alloc::Global;
use std::marker::Model;

/// The most elements of arrays and sets in all.
const MAX_ELEMENTS: u64 = 2_000_000;

/// The most variables.
const MAX_VARIABLES: u64 = 200_000;

/// The names so far in order of declaration, what each stands for, and how many elements and variables there are.
#[derive(Drop)]
pub struct Names {
    entries: IndexMap<Name, Meant>,
    elements: u64,
    variables: u64,
}

impl Model for Names {
    ghost use Rattle.std.specs.List.{position};
    ghost use Rattle.fz_model.specs.Context.{Context};

    ghost Value = { Context };

    ghost view = { λ names. record { entries = names.entries.entries; elements = names.elements; variables = names.variables } };
}

impl Names {
    /// No names.
    pub fn new(alloc: Global) -> Names
        ensures { result ≡ nothing }
    {
        Names {
            entries: IndexMap::new(alloc),
            elements: 0,
            variables: 0,
        }
    }

    /// What the name stands for; None where it is not declared.
    pub fn meaning(&self, name: &[u8]) -> Option<&Meant>
        ensures { option_copied result ≡ meant_by self.now.entries name.now }
    {
        self.entries.get(Spelled::new(name))
    }

    /// The place of the name among all names; None where it is not declared.
    pub fn place(&self, name: &[u8]) -> Option<usize>
        ensures place { result ≡ position (bytes_eq name.now) (map (λ e. e.0) self.now.entries) }
        ensures declared { is_some result ≡ is_some (meant_by self.now.entries name.now) }
    {
        self.entries.get_index_of(Spelled::new(name))
    }

    /// Why the name may not be declared.
    pub fn refuses_name(&self, name: &[u8]) -> Option<Fault>
        ensures { result ≡ fresh self.now name.now }
    {
        match self.meaning(name) {
            Some(_) => Some(Fault::Declared),
            None => None,
        }
    }

    /// Why the name may not be declared as that of a variable.
    pub fn refuses_variable(&self, name: &[u8]) -> Option<Fault>
        ensures { result ≡ fresh_variable self.now name.now }
    {
        match self.meaning(name) {
            Some(_) => Some(Fault::Declared),
            None if self.variables >= MAX_VARIABLES => Some(Fault::Limit),
            None => None,
        }
    }

    /// Why there may be no further element, behind `count` of the same list.
    pub fn refuses_element(&self, count: usize) -> Option<Fault>
        ensures { result ≡ one_more self.now count }
    {
        if self.elements.saturating_add(count as u64) >= MAX_ELEMENTS {
            Some(Fault::Limit)
        } else {
            None
        }
    }

    /// Declares the name.
    pub fn declare(&mut self, name: Name, meant: Meant) -> Result<(), Memory>
        requires { fresh self.old name ≡ None }
        ensures declared { OnOk result (self.new ≡ declares self.old name meant) }
        ensures err { OnErr result (self.new ≡ self.old) }
    {
        self.entries.insert(name, meant)?;
        Ok(())
    }

    /// Counts further elements.
    pub fn count_elements(&mut self, count: usize)
        requires { self.old.elements + count < 2 ^ 64 }
        ensures { self.new ≡ with_elements self.old count }
    {
        self.elements += count as u64;
    }

    /// Counts a further variable.
    pub fn count_variable(&mut self)
        requires { self.old.variables + 1 < 2 ^ 64 }
        ensures { self.new ≡ with_variable self.old }
    {
        self.variables += 1;
    }
}
