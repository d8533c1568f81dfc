//! Any item of a model.

ghost use Rattle.std.specs.Prelude.{◌≡◌};
ghost use Rattle.dp_grammar.specs.Chain.{mapped};
ghost use Rattle.fz_model.specs.ModelText as grammar;
ghost use Rattle.fz_items.specs.Gives.{Gives};
ghost use Rattle.fz_items.specs.States.{effect};

use crate::declared::Declared;
use crate::item::told;
use crate::source::Source;
use crate::stop::Stop;
use std::alloc::Global;

/// An item.
pub fn item(alloc: Global, source: &mut Source, declared: Declared) -> Result<Declared, Stop>
    ensures reads { Gives (λ d. d) (mapped (effect declared) ((grammar.item declared.context).read source.old.left)) result source.new.left }
    ensures text { source.new.text ≡ source.old.text }
{
    told(alloc, source, declared)
}
