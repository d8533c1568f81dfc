// What is written of a scaffold is read as the scaffold, as a law over the definitions.

ghost use Rattle.fz_prove.specs.Rereading.{Rereads};

/// A scaffold that is written within the limits is read as its nogoods, in order, and its claim.
pub fn reread()
    ensures { Rereads }
{}
