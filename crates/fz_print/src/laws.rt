//! What is read of a printed model.

ghost use Rattle.std.specs.Prelude.{◌≡◌, None, Ok};
ghost use Rattle.fz_token.specs.Stream.{stream};
ghost use Rattle.fz_model.specs.ModelText.{model, model_words};
ghost use Rattle.fz_model.specs.Models.{IsModel, Plan, model_of};
ghost use Rattle.fz_model.specs.Words.{words};
ghost use Rattle.fz_print.specs.Canonical.{canonical};
ghost use Rattle.fz_print.specs.Printed.{printed};

/// A printed model reads back: its text has the words of the canonical spelling and nothing is refused in it, and those
/// words are read as a spelling that stands for the same model.
pub fn read_back()
    ensures unrefused { (m : Plan) → IsModel m → (stream (printed m)).refusal ≡ None }
    ensures spelled { (m : Plan) → IsModel m → words (printed m) (stream (printed m)).tokens ≡ model.spell (canonical m) }
    ensures read { (m : Plan) → IsModel m → model_words (words (printed m) (stream (printed m)).tokens) ≡ Ok (canonical m) }
    ensures means { (m : Plan) → IsModel m → model_of (canonical m) ≡ m }
{}
