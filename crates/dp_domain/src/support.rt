// The bound that the supported values of a variable give.

ghost use Rattle.std.specs.Prelude.{◌≡◌};
ghost use Rattle.dp_domain.specs.Supports.{bound_by, lower_by, upper_by};

use crate::{Atom, Dom, Op, VarId};

/// The bound that the supported values give, if they give one: the least of them where it is above
/// the variable's least value, else the greatest of them where it is below its greatest.
pub fn supported_bound(var: VarId, set: &Dom, good: &Dom) -> Option<Atom>
    ensures { result ≡ bound_by set.now good.now var }
{
    let lower = lower_by(var, set, good);
    if lower.is_some() {
        return lower;
    }
    upper_by(var, set, good)
}

/// The least supported value, where it is above the least value.
fn lower_by(var: VarId, set: &Dom, good: &Dom) -> Option<Atom>
    ensures { result ≡ lower_by set.now good.now var }
{
    match (set.lower(), good.lower()) {
        (Some(least), Some(first)) if least < first => Some(Atom::small(var, Op::Ge, first)),
        _ => None,
    }
}

/// The greatest supported value, where it is below the greatest value.
fn upper_by(var: VarId, set: &Dom, good: &Dom) -> Option<Atom>
    ensures { result ≡ upper_by set.now good.now var }
{
    match (set.upper(), good.upper()) {
        (Some(greatest), Some(last)) if last < greatest => Some(Atom::small(var, Op::Le, last)),
        _ => None,
    }
}
