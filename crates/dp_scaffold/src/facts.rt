//! What the lines so far say.

ghost use Rattle.std.specs.Prelude.{◌≡◌, ◌<◌, ◌++◌, ◌∷◌, [], None, OnOk, OnErr, false, vec_len, vec_capacity, nat_eq};
ghost use Rattle.std.specs.List.{list_any};
ghost use Rattle.dp_checker.specs.Known.{found};
ghost use Rattle.dp_scaffold.specs.Answers.{gathered_of};
ghost use Rattle.dp_scaffold.specs.Rooms.{HasRoom};
ghost use Rattle.dp_scaffold.specs.Adding.{with_nogood};

use dp_domain::{Atom, Memory, Verdict};
use dp_rule_clause::Nogood;
use indexmap::{IndexMap, IndexSet};

/// The atoms by their numbers and the numbers of the steps, both in the order of the lines, how many
/// literals the nogoods' lines have, the nogoods with the line and the number of each, and the claim.
#[derive(Drop)]
pub struct Facts {
    pub atoms: IndexMap<u64, Atom>,
    pub steps: IndexSet<u64>,
    pub literals: usize,
    pub nogoods: Vec<Nogood>,
    pub lines: Vec<u64>,
    pub ids: Vec<u64>,
    pub claim: Option<Verdict>,
}

/// Adds an atom under a new number.
pub fn add_atom(atoms: &mut IndexMap<u64, Atom>, id: u64, atom: Atom) -> Result<(), Memory>
    requires { found id atoms.old.entries ≡ None }
    ensures added { OnOk result (atoms.new.entries ≡ atoms.old.entries ++ (id, atom) ∷ []) }
    ensures err { OnErr result (atoms.new.entries ≡ atoms.old.entries) }
{
    atoms.insert(id, atom)?;
    Ok(())
}

/// Adds the new number of a step.
pub fn add_step(steps: &mut IndexSet<u64>, id: u64) -> Result<(), Memory>
    requires { list_any (nat_eq id) steps.old.keys ≡ false }
    ensures added { OnOk result (steps.new.keys ≡ steps.old.keys ++ id ∷ []) }
    ensures err { OnErr result (steps.new.keys ≡ steps.old.keys) }
{
    steps.insert(id)?;
    Ok(())
}

/// Makes room for one more nogood.
pub fn make_room(facts: &mut Facts) -> Result<(), Memory>
    ensures same { gathered_of facts.new ≡ gathered_of facts.old }
    ensures room { OnOk result (HasRoom facts.new) }
{
    facts.nogoods.reserve(1)?;
    facts.lines.reserve(1)?;
    facts.ids.reserve(1)?;
    Ok(())
}

/// Adds a nogood with its line and its number, for which there is room.
pub fn push_nogood(facts: &mut Facts, nogood: Nogood, line: u64, id: u64)
    requires { HasRoom facts.old }
    ensures { gathered_of facts.new ≡ with_nogood (gathered_of facts.old) nogood line id }
{
    push_reserved(&mut facts.nogoods, nogood);
    push_reserved(&mut facts.lines, line);
    push_reserved(&mut facts.ids, id);
}

/// Adds an item for which there is room.
fn push_reserved<T: Drop>(items: &mut Vec<T>, item: T)
    requires { vec_len items.old < vec_capacity items.old }
    ensures { items.new.items ≡ items.old.items ++ item ∷ [] }
{
    match items.push(item) {
        Ok(()) => {}
        Err(_) => unreachable!(),
    }
}
