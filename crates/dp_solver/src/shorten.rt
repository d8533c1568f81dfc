// Shorter nogoods.

ghost use Rattle.std.specs.Prelude.{◌≡◌, ◌<◌, length, IfOk, OnOk};
ghost use Rattle.std.specs.List.{remove};
ghost use Rattle.dp_solver.specs.Descents.{IsLearnable};
ghost use Rattle.dp_solver.specs.Marks.{IsOn, asked};

use crate::rest::propagate;
use crate::task::Task;
use dp_base::Memory;
use dp_domain::Atom;
use dp_engine::Engine;

/// Drops each atom but the last without which propagation still fails.
pub(crate) fn shorten(
    task: &Task,
    engine: &mut Engine,
    root: usize,
    mut atoms: Vec<Atom>,
) -> Result<Vec<Atom>, Memory>
    requires engine { IsOn (asked task.now) root engine.old }
    requires atoms { IsLearnable (asked task.now) engine.old.nogoods atoms.items }
    ensures shorter { IfOk result (λ shorter. IsLearnable (asked task.now) engine.old.nogoods shorter.items) }
    ensures engine { OnOk result (IsOn (asked task.now) root engine.new) }
    ensures nogoods { engine.new.nogoods ≡ engine.old.nogoods }
{
    let mut place = 0;
    while place + 1 < atoms.len() {
        let shorter = without(task, atoms.as_slice(), place)?;
        if propagate(engine, root, shorter.as_slice())? {
            atoms = shorter;
        } else {
            place += 1;
        }
    }
    Ok(atoms)
}

/// The atoms without the one at the place.
fn without(task: &Task, atoms: &[Atom], place: usize) -> Result<Vec<Atom>, Memory>
    requires { place < length atoms.now }
    ensures { IfOk result (λ others. others.items ≡ remove atoms.now place) }
{
    let mut others = atoms.to_vec(task.alloc)?;
    others.remove(place);
    Ok(others)
}
