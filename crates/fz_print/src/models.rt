//! Models as a whole.

ghost use Rattle.std.specs.Prelude.{◌≡◌, ◌≤◌, ◌++◌, [], codes, IfOk, OnOk, Ok, length};
ghost use Rattle.fz_items.specs.Answers.{max_bytes, model_text};
ghost use Rattle.fz_model.specs.declared.model.ModelGoal.TheVariants as goal;
ghost use Rattle.fz_print.specs.Printed as spec;

use crate::items::push_item;
use crate::literals::{push_basic, push_elements, push_name, push_set};
use dp_base::{Memory, Name, Text};
use fz_model::{Constraint, Expr, Item, Model, ModelGoal};
use std::alloc::Global;

/// An argument.
fn push_expr(text: &mut Vec<u8>, items: &[Item], expr: &Expr) -> Result<(), Memory>
    ensures { OnOk result (text.new.items ≡ text.old.items ++ spec.expr_text items.now expr.now) }
{
    match expr {
        Expr::Basic(basic) => push_basic(text, items, *basic),
        Expr::Set(set) => push_set(text, set),
        Expr::Array(elements) => push_elements(text, items, elements.as_slice()),
    }
}

/// Arguments, a comma in front of each.
fn push_further_args(text: &mut Vec<u8>, items: &[Item], args: &[Expr]) -> Result<(), Memory>
    ensures { OnOk result (text.new.items ≡ text.old.items ++ spec.further_text (spec.expr_text items.now) args.now) }
{
    for arg in args {
        text.push(b',')?;
        push_expr(text, items, arg)?;
    }
    Ok(())
}

/// Arguments, a comma between any two.
fn push_args(text: &mut Vec<u8>, items: &[Item], args: &[Expr]) -> Result<(), Memory>
    ensures { OnOk result (text.new.items ≡ text.old.items ++ spec.list_text (spec.expr_text items.now) args.now) }
{
    let Some((first, further)) = args.split_first() else {
        return Ok(());
    };
    push_expr(text, items, first)?;
    push_further_args(text, items, further)
}

/// Arguments in round brackets.
fn push_arguments(text: &mut Vec<u8>, items: &[Item], args: &[Expr]) -> Result<(), Memory>
    ensures { OnOk result (text.new.items ≡ text.old.items ++ spec.arguments_text items.now args.now) }
{
    text.push(b'(')?;
    push_args(text, items, args)?;
    text.push(b')')?;
    Ok(())
}

/// What stands in front of a constraint's arguments.
fn push_required(text: &mut Vec<u8>, name: &Name) -> Result<(), Memory>
    ensures { OnOk result (text.new.items ≡ text.old.items ++ codes "constraint " ++ name.now) }
{
    text.extend_from_slice(b"constraint ")?;
    text.extend_from_slice(name.bytes())?;
    Ok(())
}

/// A constraint of these items.
fn push_constraint(
    text: &mut Vec<u8>,
    items: &[Item],
    constraint: &Constraint,
) -> Result<(), Memory>
    ensures { OnOk result (text.new.items ≡ text.old.items ++ spec.constraint_text items.now constraint.now) }
{
    push_required(text, &constraint.name)?;
    push_arguments(text, items, constraint.args.as_slice())?;
    Ok(())
}

/// The goal of a solution.
fn push_satisfy(text: &mut Vec<u8>) -> Result<(), Memory>
    ensures { OnOk result (text.new.items ≡ text.old.items ++ spec.goal_text [] goal.Satisfy) }
{
    text.extend_from_slice(b"solve satisfy")?;
    Ok(())
}

/// The goal of a least value.
fn push_minimize(text: &mut Vec<u8>, items: &[Item], place: u32) -> Result<(), Memory>
    ensures { OnOk result (text.new.items ≡ text.old.items ++ spec.goal_text items.now (goal.Minimize place)) }
{
    text.extend_from_slice(b"solve minimize ")?;
    push_name(text, items, place)?;
    Ok(())
}

/// The goal of a greatest value.
fn push_maximize(text: &mut Vec<u8>, items: &[Item], place: u32) -> Result<(), Memory>
    ensures { OnOk result (text.new.items ≡ text.old.items ++ spec.goal_text items.now (goal.Maximize place)) }
{
    text.extend_from_slice(b"solve maximize ")?;
    push_name(text, items, place)?;
    Ok(())
}

/// What is asked for, of these items.
fn push_goal(text: &mut Vec<u8>, items: &[Item], goal: ModelGoal) -> Result<(), Memory>
    ensures { OnOk result (text.new.items ≡ text.old.items ++ spec.goal_text items.now goal) }
{
    match goal {
        ModelGoal::Satisfy => push_satisfy(text),
        ModelGoal::Minimize(place) => push_minimize(text, items, place),
        ModelGoal::Maximize(place) => push_maximize(text, items, place),
    }
}

/// The end of a line.
fn push_end(text: &mut Vec<u8>) -> Result<(), Memory>
    ensures { OnOk result (text.new.items ≡ text.old.items ++ spec.line_end) }
{
    text.extend_from_slice(b";\n")?;
    Ok(())
}

/// An item with the end of its line.
fn push_item_line(text: &mut Vec<u8>, items: &[Item], item: &Item) -> Result<(), Memory>
    ensures { OnOk result (text.new.items ≡ text.old.items ++ (spec.item_text items.now item.now ++ spec.line_end)) }
{
    push_item(text, items, item)?;
    push_end(text)?;
    Ok(())
}

/// All items, each on a line.
fn push_items(text: &mut Vec<u8>, items: &[Item]) -> Result<(), Memory>
    ensures { OnOk result (text.new.items ≡ text.old.items ++ spec.items_text items.now items.now) }
{
    for item in items {
        push_item_line(text, items, item)?;
    }
    Ok(())
}

/// A constraint with the end of its line.
fn push_constraint_line(
    text: &mut Vec<u8>,
    items: &[Item],
    constraint: &Constraint,
) -> Result<(), Memory>
    ensures { OnOk result (text.new.items ≡ text.old.items ++ (spec.constraint_text items.now constraint.now ++ spec.line_end)) }
{
    push_constraint(text, items, constraint)?;
    push_end(text)?;
    Ok(())
}

/// Constraints of these items, each on a line.
fn push_constraints(
    text: &mut Vec<u8>,
    items: &[Item],
    constraints: &[Constraint],
) -> Result<(), Memory>
    ensures { OnOk result (text.new.items ≡ text.old.items ++ spec.constraints_text items.now constraints.now) }
{
    for constraint in constraints {
        push_constraint_line(text, items, constraint)?;
    }
    Ok(())
}

/// The canonical spelling of these items, constraints and goal.
fn print_parts(
    alloc: Global,
    items: &[Item],
    constraints: &[Constraint],
    goal: ModelGoal,
) -> Result<Text, Memory>
    ensures { IfOk result (λ text. text ≡ spec.printed (record { items = items.now; constraints = constraints.now; goal = goal })) }
{
    let mut text = Vec::new(alloc);
    push_items(&mut text, items)?;
    push_constraints(&mut text, items, constraints)?;
    push_goal(&mut text, items, goal)?;
    push_end(&mut text)?;
    Ok(Text::new(text))
}

/// The canonical spelling of a model: its items in order, then its constraints, then its goal, one a line, each line with
/// LF at its end. Integers are decimal, sets keep their form and lists their order, and no blank stands behind a comma.
pub fn print_model(alloc: Global, model: &Model) -> Result<Text, Memory>
    ensures text { IfOk result (λ text. text ≡ spec.printed model.now) }

    // What is printed is read as the same model, where it is not too long for a text.
    ensures read { IfOk result (λ text. length text ≤ max_bytes → model_text text ≡ Ok model.now) }
{
    let _goal = model.goal();
    let text = print_text(alloc, model)?;
    Ok(text)
}

/// The text of a model.
fn print_text(alloc: Global, model: &Model) -> Result<Text, Memory>
    ensures { IfOk result (λ text. text ≡ spec.printed model.now) }
{
    print_parts(alloc, model.items(), model.constraints(), model.goal())
}
