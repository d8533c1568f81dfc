// Laws of the text of steps, as contracts of functions that do nothing.

ghost use Rattle.std.specs.Prelude.{List};
ghost use Rattle.std.specs.List.{flat_map};
ghost use Rattle.dp_base.specs.Lists.{Each};
ghost use Rattle.dp_parts.specs.Problems.{Csp};
ghost use Rattle.dp_writer.specs.Logs.{IsInOrder};
ghost use Rattle.dp_writer.specs.Reading.{AreRead, Stay};
ghost use Rattle.dp_writer.specs.Steps.{Step, atoms_of, table};
ghost use Rattle.dp_writer.specs.Written.{IsNamedIn};

/// Each literal of a log stands for the atom that it was written for, and goes on to.
pub fn literals()
    ensures read { (steps : List Step) → AreRead steps }
    ensures stay { (steps : List Step) → (later : List Step) → Stay steps later }
{}

/// The lines that define atoms are those of the whole table in order, and the others are the steps'
/// own in order, by the whole table.
pub fn order()
    ensures { (steps : List Step) → IsInOrder steps }
{}

/// Where each atom that is used stands under its variable's own name, so does each defined atom.
pub fn names()
    ensures { (p : Csp) → (steps : List Step) → Each (IsNamedIn p) (flat_map atoms_of steps) → Each (IsNamedIn p) (table steps) }
{}
