// What a part gives, as its turn.

ghost use Rattle.std.specs.Prelude.{◌≡◌};
ghost use Rattle.dp_rule_linear.specs.Bounds.{found_of};

use crate::{Atom, Found};

/// The turn of a part that does not clash and gives this, if anything.
pub fn found(atom: Option<Atom>) -> Option<Found>
    ensures { result ≡ found_of atom }
{
    match atom {
        Some(atom) => Some(Found::Atom(atom)),
        None => None,
    }
}
