// What the promises of a run mean, in words that know nothing of reading.

ghost use Rattle.std.specs.Prelude.{◌↔◌, ℕ, List, Option};
ghost use Rattle.dp_desk.specs.Channel.{Files};
ghost use Rattle.fz_items.specs.declared.refusal.ModelRefusal.{ModelRefusal};
ghost use Rattle.fz_model.specs.Models.{Plan};
ghost use Rattle.dp_command.specs.Replies.{IsGiven, RefusesModel};
ghost use Rattle.dp_command.specs.Spelled.{IsRefusedFirst, IsSpelled};

use fz_items::exactness;

/// Where a promise of `run` speaks of a model that is given, the bytes that are read of its name spell that model: their tokens
/// are the words of its items, and each test is passed. Where it speaks of a refusal of the model, that is what refuses those
/// bytes first.
pub fn models_are_spelled()
    ensures given { (names : Option Files) (model : List ℕ) (m : Plan) → IsGiven names model m ↔ IsSpelled names model m }
    ensures refused { (names : Option Files) (words : List (List ℕ)) (refusal : ModelRefusal) → RefusesModel names words refusal ↔ IsRefusedFirst names words refusal }
{
    exactness()
}
