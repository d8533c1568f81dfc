// The lists of numbers in a line, which contracts see as those lists.

ghost use Rattle.std.specs.Prelude.{◌≡◌};

use std::marker::Model;

/// Literals in order: the number of an atom, or its negative for the atom's negation.
#[derive(Debug, Drop)]
pub struct Literals {
    items: Vec<i64>,
}

impl Model for Literals {
    ghost use Rattle.std.specs.Prelude.{List, ℤ};

    ghost Value = { List ℤ };

    ghost view = { λ literals. literals.items.items };
}

impl Literals {
    /// The list of these literals.
    pub fn new(items: Vec<i64>) -> Literals
        ensures { result ≡ items.items }
    {
        Literals { items }
    }

    /// The literals.
    pub fn as_slice(&self) -> &[i64]
        ensures { result.now ≡ self.now }
    {
        self.items.as_slice()
    }
}

/// Numbers of steps in order.
#[derive(Debug, Drop)]
pub struct Numbers {
    items: Vec<u64>,
}

impl Model for Numbers {
    ghost use Rattle.std.specs.Prelude.{List, ℕ};

    ghost Value = { List ℕ };

    ghost view = { λ numbers. numbers.items.items };
}

impl Numbers {
    /// The list of these numbers.
    pub fn new(items: Vec<u64>) -> Numbers
        ensures { result ≡ items.items }
    {
        Numbers { items }
    }

    /// The numbers.
    pub fn as_slice(&self) -> &[u64]
        ensures { result.now ≡ self.now }
    {
        self.items.as_slice()
    }
}
