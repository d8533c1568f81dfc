//! What the grammar of models says of the words of a text.

ghost use Rattle.std.specs.Prelude.{◌≡◌, List, Result};
ghost use Rattle.dp_grammar.specs.Grammar.{Cause};
ghost use Rattle.dp_grammar.specs.Whole.{Says, whole};
ghost use Rattle.fz_model.specs.declared.fault.Fault.{Fault};
ghost use Rattle.fz_model.specs.ModelText.{ModelWords, model};
ghost use Rattle.fz_model.specs.Words.{Word};

/// Of the words of any text the grammar says one thing, and reading answers it: the model that is spelled so and passes
/// each test, or the first word that no model has there or that a test refuses.
pub fn exactness()
    ensures says { (words : List Word) → Says model words (whole model words) }
    ensures only { (words : List Word) (answer : Result ModelWords (Cause Fault × List Word)) →
        Says model words answer → answer ≡ whole model words }
{}
