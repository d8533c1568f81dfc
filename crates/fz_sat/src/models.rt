//! Which assignments satisfy a model, and the value of its objective.

ghost use Rattle.std.specs.Prelude.{◌≡◌, ◌↔◌, IsNone, IsTrue, length};
ghost use Rattle.std.specs.List.{list_all};
ghost use Rattle.fz_model.specs.Models.{count_variables};
ghost use Rattle.fz_model.specs.declared.model.ModelGoal.TheVariants as goal;
ghost use Rattle.fz_sat.specs.Satisfies.{Satisfies, is_kept, objective_of, valuation};
ghost use Rattle.fz_sat.specs.Tests.{is_met};

use crate::constraints::holds;
use crate::domains::is_kept;
use crate::row::{Row, value_of};
use dp_base::Assignment;
use fz_model::{Basic, Constraint, ConstraintKind, Item, Model, ModelGoal};

/// Whether the assignment meets the constraint.
fn is_met(items: &[Item], values: &[i64], constraint: &Constraint) -> bool
    ensures { result ≡ is_met items.now (valuation values.now) constraint.now }
{
    match ConstraintKind::named(constraint.name.bytes()) {
        Some(kind) => {
            let row = Row {
                items,
                args: constraint.args.as_slice(),
                values,
            };
            holds(kind, &row)
        }
        None => false,
    }
}

/// Whether the assignment meets each constraint.
fn meets_all(items: &[Item], values: &[i64], constraints: &[Constraint]) -> bool
    ensures { result ≡ list_all (is_met items.now (valuation values.now)) constraints.now }
{
    constraints
        .iter()
        .all(|constraint| is_met(items, values, constraint))
}

/// Whether the assignment keeps each declaration.
fn keeps_all(items: &[Item], values: &[i64]) -> bool
    ensures { result ≡ list_all (is_kept items.now (valuation values.now)) items.now }
{
    items.iter().all(|item| is_kept(items, values, item))
}

/// Whether the assignment, a number for each variable that is not an alias, in order of declaration, satisfies the model:
/// each value lies in the declared domains, those of aliases, definitions and arrays included, and each constraint holds.
pub fn satisfies(model: &Model, values: &Assignment) -> bool
    requires { length values.now ≡ count_variables model.now.items }
    ensures { IsTrue result ↔ Satisfies model.now (valuation values.now) }
{
    let items = model.items();
    let values = values.values();
    keeps_all(items, values) && meets_all(items, values, model.constraints())
}

/// The value of the variable that the model minimizes or maximizes; None exactly where it asks for no more than to be
/// satisfied.
pub fn objective(model: &Model, values: &Assignment) -> Option<i64>
    requires { length values.now ≡ count_variables model.now.items }
    ensures value { result ≡ objective_of model.now (valuation values.now) }
    ensures none { IsNone result ↔ (model.now.goal ≡ goal.Satisfy) }
{
    match model.goal() {
        ModelGoal::Satisfy => None,
        ModelGoal::Minimize(place) | ModelGoal::Maximize(place) => {
            Some(value_of(model.items(), values.values(), Basic::Item(place)))
        }
    }
}
