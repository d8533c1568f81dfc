//! The goal of a model.

ghost use Rattle.std.specs.Prelude.{◌≡◌, IfOk};
ghost use Rattle.fz_token.specs.declared.Keyword.TheVariants as key;
ghost use Rattle.dp_grammar.specs.Chain.{chain};
ghost use Rattle.dp_grammar.specs.Choice.{either};
ghost use Rattle.fz_model.specs.Context.{goal_test, known, meant_by};
ghost use Rattle.fz_model.specs.Literals.{name};
ghost use Rattle.fz_model.specs.Marks.{is_key, keyword};
ghost use Rattle.fz_model.specs.ModelText as grammar;
ghost use Rattle.fz_items.specs.Gives.{given};
ghost use Rattle.fz_items.specs.Goals.{goal_in, goal_words};
ghost use Rattle.fz_items.specs.Places.{names_in};

use crate::places::place;
use crate::source::Source;
use crate::stop::Cause;
use dp_base::Memory;
use fz_model::{Fault, ModelGoal};
use fz_names::Names;
use fz_token::{Keyword, Mark};

/// A goal as it stands in the text.
#[derive(Clone, Copy, Debug)]
pub enum GoalWords<'a> {
    Satisfy,
    Minimize(&'a [u8]),
    Maximize(&'a [u8]),
}

/// Why the name is no goal.
fn refuses_goal(names: &Names, name: &[u8]) -> Option<Fault>
    ensures { result ≡ known (meant_by names.now.entries name.now) goal_test }
{
    match names.meaning(name) {
        Some(meant) => meant.refuses_goal(),
        None => Some(Fault::Unknown),
    }
}

/// The name of what is minimized or maximized.
fn goal_name<'a>(source: &mut Source<'a>, names: &Names) -> Result<&'a [u8], Cause>
    ensures reads { (name (λ bytes. known (meant_by names.now.entries bytes) goal_test)).read source.old.left ≡ given (λ b. b.now) result source.new.left }
    ensures text { source.new.text ≡ source.old.text }
{
    let name = source.name_here()?;
    if let Some(fault) = refuses_goal(names, name) {
        return Err(Cause::Test(fault));
    }
    source.advance();
    Ok(name)
}

/// What is asked for, without the `;` behind it.
fn asked<'a>(source: &mut Source<'a>, names: &Names) -> Result<GoalWords<'a>, Cause>
    ensures reads { (either (is_key key.Satisfy) (keyword key.Satisfy) (chain (either (is_key key.Minimize) (keyword key.Minimize) (keyword key.Maximize)) (λ which. name (λ bytes. known (meant_by names.now.entries bytes) goal_test)))).read source.old.left ≡ given goal_words result source.new.left }
    ensures text { source.new.text ≡ source.old.text }
{
    if source.is_keyword(Keyword::Satisfy) {
        source.keyword(Keyword::Satisfy)?;
        return Ok(GoalWords::Satisfy);
    }
    if source.is_keyword(Keyword::Minimize) {
        source.keyword(Keyword::Minimize)?;
        let name = goal_name(source, names)?;
        return Ok(GoalWords::Minimize(name));
    }
    source.keyword(Keyword::Maximize)?;
    let name = goal_name(source, names)?;
    Ok(GoalWords::Maximize(name))
}

/// A goal, and the `;` that ends it.
pub fn goal<'a>(source: &mut Source<'a>, names: &Names) -> Result<GoalWords<'a>, Cause>
    ensures reads { (grammar.goal names.now).read source.old.left ≡ given goal_words result source.new.left }
    ensures text { source.new.text ≡ source.old.text }
{
    let words = asked(source, names)?;
    source.mark(Mark::Semicolon)?;
    Ok(words)
}

/// The goal, with the place of the name.
pub fn placed_goal(names: &Names, words: GoalWords) -> Result<ModelGoal, Memory>
    ensures { IfOk result (λ g. g ≡ goal_in (names_in names.now) (goal_words words.entry)) }
{
    match words {
        GoalWords::Satisfy => Ok(ModelGoal::Satisfy),
        GoalWords::Minimize(name) => {
            let place = place(names, name)?;
            Ok(ModelGoal::Minimize(place))
        }
        GoalWords::Maximize(name) => {
            let place = place(names, name)?;
            Ok(ModelGoal::Maximize(place))
        }
    }
}
