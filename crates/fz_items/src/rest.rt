//! The constraints of a model and its goal.

ghost use Rattle.std.specs.Prelude.{◌≡◌, ◌≤◌};
ghost use Rattle.dp_grammar.specs.Chain.{mapped};
ghost use Rattle.fz_model.specs.Limits.{max_elements};
ghost use Rattle.fz_model.specs.ModelText as grammar;
ghost use Rattle.fz_model.specs.ModelText.{closing};
ghost use Rattle.fz_items.specs.Gives.{Gives};
ghost use Rattle.fz_items.specs.Goals.{goal_words};
ghost use Rattle.fz_items.specs.Places.{names_in};
ghost use Rattle.fz_items.specs.Rests.{closing_goal, rest_in, rest_of};

use crate::annotations::annotations;
use crate::constraint::constraint_item;
use crate::goal::{GoalWords, goal, placed_goal};
use crate::source::Source;
use crate::stop::Stop;
use fz_model::{Constraint, ModelGoal};
use fz_names::Names;
use fz_token::Keyword;
use std::alloc::Global;

/// The goal with its keyword and annotations, as it stands in the text.
fn solve_words<'a>(
    alloc: Global,
    source: &mut Source<'a>,
    names: &Names,
) -> Result<GoalWords<'a>, Stop>
    ensures reads { Gives goal_words (mapped closing ((grammar.solve_item names.now).read source.old.left)) result source.new.left }
    ensures text { source.new.text ≡ source.old.text }
{
    source.keyword(Keyword::Solve)?;
    annotations(alloc, source)?;
    Ok(goal(source, names)?)
}

/// The goal with its keyword and annotations.
fn solve_item(alloc: Global, source: &mut Source, names: &Names) -> Result<ModelGoal, Stop>
    ensures reads { Gives (λ g. g) (mapped (closing_goal (names_in names.now)) ((grammar.solve_item names.now).read source.old.left)) result source.new.left }
    ensures text { source.new.text ≡ source.old.text }
{
    let words = solve_words(alloc, source, names)?;
    let goal = placed_goal(names, words)?;
    Ok(goal)
}

/// All constraints, and the goal behind them.
pub fn constraints_and_goal(
    alloc: Global,
    source: &mut Source,
    names: &mut Names,
) -> Result<(Vec<Constraint>, ModelGoal), Stop>
    requires { names.old.elements ≤ max_elements }
    ensures reads { Gives rest_of (mapped (rest_in (names_in names.old)) ((grammar.rest_of names.old).read source.old.left)) result source.new.left }
    ensures text { source.new.text ≡ source.old.text }
{
    let mut constraints = Vec::new(alloc);
    'constraints: while source.is_keyword(Keyword::Constraint) {
        let constraint = constraint_item(alloc, source, names, constraints.len())?;
        constraints.push(constraint)?;
    }
    let goal = solve_item(alloc, source, names)?;
    Ok((constraints, goal))
}
