//! Models read and printed.

ghost use Rattle.std.specs.Prelude.{◌≡◌, ◌≤◌, length, IfOk};
ghost use Rattle.fz_items.specs.Answers.{max_bytes, model_text};
ghost use Rattle.dp_vectors.specs.Reprinted.{Gives, reprinted};

use dp_base::Text;
use fz_items::{ModelRefusal, read_model};
use fz_print::print_model;
use std::alloc::Global;

/// The canonical spelling of the model that the text spells, or the first refusal of the text. Where the spelling is not
/// too long for a text, it is read as the same model, and printed again it stays the same.
pub fn reprint(alloc: Global, text: &[u8]) -> Result<Text, ModelRefusal>
    ensures spelling { Gives (reprinted text.now) result }
    ensures same { IfOk result (λ again. length again ≤ max_bytes → model_text again ≡ model_text text.now) }
    ensures settled { IfOk result (λ again. length again ≤ max_bytes → reprinted again ≡ reprinted text.now) }
{
    let model = read_model(alloc, text)?;
    match print_model(alloc, &model) {
        Ok(again) => Ok(again),
        Err(_) => Err(ModelRefusal::Memory),
    }
}
