// Propagation to rest.

ghost use Rattle.std.specs.Prelude.{◌≡◌, ◌+◌, ◌<◌, ◌≤◌, length, take, IfOk, OnOk};
ghost use Rattle.dp_domain.specs.States.{AreOf, cut_all};
ghost use Rattle.dp_engine.specs.Engines.{Extends, KeepsParts, parts_of, states};
ghost use Rattle.dp_engine.specs.Runs.{fails, run, state_after};
ghost use Rattle.dp_solver.specs.Marks.{state_at};

use dp_base::Memory;
use dp_domain::{Atom, Steps};
use dp_engine::{Engine, Turn};
use std::marker::Brand;
use std::sync::ledger::{Blank, Ledger};

/// Takes turns from the present state on until the run ends. Answers whether it fails.
pub(crate) fn run_to_rest(engine: &mut Engine) -> Result<bool, Memory>
    ensures failed { IfOk result (λ failed. failed ≡ fails (parts_of engine.old) engine.old.present) }
    ensures present { OnOk result (engine.new.present ≡ state_after engine.old.present (run (parts_of engine.old) engine.old.present)) }
    ensures parts { KeepsParts engine.old engine.new }
    ensures states { Extends engine.old engine.new }
{
    counted_run::<Brand>(engine, Blank::new(1))
}

/// The same, by a counter of this ledger.
fn counted_run<L: Ledger>(engine: &mut Engine, blank: Blank) -> Result<bool, Memory>
    requires name { blank.name ≡ L.name }
    requires parts { blank.parts ≡ L.parts }
    requires some { 0 < blank.parts }
    ensures failed { IfOk result (λ failed. failed ≡ fails (parts_of engine.old) engine.old.present) }
    ensures present { OnOk result (engine.new.present ≡ state_after engine.old.present (run (parts_of engine.old) engine.old.present)) }
    ensures parts { KeepsParts engine.old engine.new }
    ensures states { Extends engine.old engine.new }
{
    // What an engine keeps is known by a look at it.
    let _state = engine.state();
    let mut steps = Steps::<L>::new(blank);
    loop {
        let turn = engine.step(&mut steps)?;
        match turn {
            Turn::Atom(_, _) => {}
            Turn::Clash(_) => return Ok(true),
            Turn::Empty => return Ok(true),
            Turn::Quiet => return Ok(false),
        }
    }
}

/// Propagates the atoms from the state at the mark on. Answers whether that fails.
pub(crate) fn propagate(engine: &mut Engine, mark: usize, atoms: &[Atom]) -> Result<bool, Memory>
    requires mark { mark ≤ length engine.old.past }
    requires atoms { AreOf engine.old.problem.initial atoms.now }
    ensures failed { IfOk result (λ failed. failed ≡ fails (parts_of engine.old) (cut_all (state_at mark engine.old) atoms.now)) }
    ensures present { OnOk result (engine.new.present ≡ state_after (cut_all (state_at mark engine.old) atoms.now) (run (parts_of engine.old) (cut_all (state_at mark engine.old) atoms.now))) }
    ensures parts { KeepsParts engine.old engine.new }
    ensures states { take (mark + 1) (states engine.new) ≡ take (mark + 1) (states engine.old) }
{
    engine.undo(mark);
    engine.assume(atoms)?;
    run_to_rest(engine)
}
