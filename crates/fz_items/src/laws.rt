//! What a text is read as, in words that know nothing of reading.

ghost use Rattle.std.specs.Prelude.{◌≡◌, ◌↔◌, ℕ, List, Ok, Err};
ghost use Rattle.fz_model.specs.Models.{Plan};
ghost use Rattle.fz_items.specs.Answers.{model_text};
ghost use Rattle.fz_items.specs.Spelling.{IsTextOf, RefusesFirst};
ghost use Rattle.fz_items.specs.declared.refusal.ModelRefusal.{ModelRefusal};

/// A text is read as a model exactly where it spells that model and passes each test, and it is refused exactly by what
/// refuses it first.
pub fn exactness()
    ensures read { (text : List ℕ) (m : Plan) → (model_text text ≡ Ok m) ↔ IsTextOf text m }
    ensures refused { (text : List ℕ) (refusal : ModelRefusal) → (model_text text ≡ Err refusal) ↔ RefusesFirst text refusal }
{}
