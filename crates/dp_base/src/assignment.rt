// Assignments: a number for each variable.

ghost use Rattle.std.specs.Prelude.{◌≡◌};

use std::marker::Model;

/// A number for each variable that is not an alias, in order of declaration.
#[derive(Debug, Drop)]
pub struct Assignment {
    values: Vec<i64>,
}

impl Model for Assignment {
    ghost use Rattle.std.specs.Prelude.{List, ℤ};

    ghost Value = { List ℤ };

    ghost view = { λ assignment. assignment.values.items };
}

impl Assignment {
    /// The assignment of these numbers.
    pub fn new(values: Vec<i64>) -> Assignment
        ensures { result ≡ values.items }
    {
        Assignment { values }
    }

    /// Its numbers.
    pub fn values(&self) -> &[i64]
        ensures { result.now ≡ self.now }
    {
        self.values.as_slice()
    }
}
