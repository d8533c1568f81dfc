//! Models as a whole.

ghost use Rattle.std.specs.Prelude.{◌≡◌};
ghost use Rattle.fz_model.specs.Models.{IsModel};

use crate::{Constraint, Item, ModelGoal};

/// What the text declares, in order, then its constraints in order, then its goal. A thing that is named is given by its
/// place in the items, from 0. Predicates, comments and other annotations are not kept. Some text spells it and passes
/// each test.
#[derive(Debug, Drop)]
pub struct Model {
    items: Vec<Item>,
    constraints: Vec<Constraint>,
    goal: ModelGoal,
}

impl std::marker::Model for Model {
    ghost use Rattle.fz_model.specs.Models.{IsModel, Plan};

    ghost Value = { Plan };

    ghost view = { λ m. record { items = m.items.items; constraints = m.constraints.items; goal = m.goal } };

    ghost invariant = { λ m. IsModel (record { items = m.items.items; constraints = m.constraints.items; goal = m.goal }) };
}

impl Model {
    /// The model of these items, constraints and goal.
    pub fn new(items: Vec<Item>, constraints: Vec<Constraint>, goal: ModelGoal) -> Model
        requires { IsModel (record { items = items.items; constraints = constraints.items; goal = goal }) }
        ensures { result ≡ record { items = items.items; constraints = constraints.items; goal = goal } }
    {
        Model {
            items,
            constraints,
            goal,
        }
    }

    /// What is declared, in order.
    pub fn items(&self) -> &[Item]
        ensures items { result.now ≡ self.now.items }
        ensures model { IsModel self.now }
    {
        self.items.as_slice()
    }

    /// The constraints in order.
    pub fn constraints(&self) -> &[Constraint]
        ensures constraints { result.now ≡ self.now.constraints }
        ensures model { IsModel self.now }
    {
        self.constraints.as_slice()
    }

    /// What is asked for.
    pub fn goal(&self) -> ModelGoal
        ensures goal { result ≡ self.now.goal }
        ensures model { IsModel self.now }
    {
        self.goal
    }
}
