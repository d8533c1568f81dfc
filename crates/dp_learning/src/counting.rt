// How many nogoods can be learned.

ghost use Rattle.std.specs.Prelude.{◌≡◌, ◌≢◌, ℕ, ◌<◌, ◌^◌, [], ◌∷◌, ◌++◌, List, length};
ghost use Rattle.dp_base.specs.Lists.{Among};
ghost use Rattle.dp_domain.specs.Atoms.{Atomic};
ghost use Rattle.dp_domain.specs.States.{values};
ghost use Rattle.dp_parts.specs.Posed.{IsSoundlyPosed, Posed};
ghost use Rattle.dp_learning.specs.Learning.{AreLearned};
ghost use Rattle.dp_learning.specs.Sorts.{kept_by, kept_lists, sort_count};

/// Each atom keeps one of the lists of initial values that are counted. Of so many sorts of atoms fewer
/// nogoods can be learned than there are sets of sorts.
pub fn counted()
    ensures counted { (p : Posed) → (a : Atomic) → Among (kept_by p.initial a) (kept_lists (values p.initial a.var)) }
    ensures fewer { (p : Posed) → (nogoods : List (List Atomic)) → IsSoundlyPosed p → AreLearned p nogoods → length nogoods < 2 ^ sort_count p.initial }
{}
