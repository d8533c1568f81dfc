// The scaffold, as it is written.

ghost use Rattle.std.specs.Prelude.{◌≡◌, OnErr, OnOk};
ghost use Rattle.dp_base.specs.Lists.{Each};
ghost use Rattle.dp_desk.specs.Channel.{IsOpen};
ghost use Rattle.dp_desk.specs.Sight.{output, with_output};
ghost use Rattle.dp_writer.specs.Written.{IsClaimOf, IsOf};
ghost use Rattle.dp_solver.specs.Outcomes.{HasWriteCause};
ghost use Rattle.dp_solver.specs.Marks.{asked};
ghost use Rattle.dp_solver.specs.Rounds.{WritesClaim, WritesClaimInPart, WritesNogood, WritesNogoodInPart};

use crate::SolveFault;
use crate::task::Task;
use dp_desk::{Desk, Out, write_all};
use dp_domain::{Atom, Verdict};
use dp_writer::Writer;

/// Writes a learned nogood behind those before it.
pub(crate) fn write_nogood<D: Desk>(
    task: &Task,
    writer: &mut Writer,
    atoms: &[Atom],
    desk: &mut D,
    out: Out,
) -> Result<(), SolveFault>
    requires opened { IsOpen (output out (D.sight desk.old)) }
    requires atoms { Each (IsOf task.now.problem.now) atoms.now }
    ensures written { OnOk result (WritesNogood (asked task.now) atoms.now (output out (D.sight desk.old)) writer.old (output out (D.sight desk.new)) writer.new) }
    ensures part { OnErr result (WritesNogoodInPart (asked task.now) atoms.now (output out (D.sight desk.old)) writer.old (output out (D.sight desk.new))) }
    ensures cause { HasWriteCause (D.faults_out desk.old) (D.faults_out desk.new) result }
    ensures rest { D.sight desk.new ≡ with_output out (output out (D.sight desk.new)) (D.sight desk.old) }
    ensures other { D.faults_in desk.new ≡ D.faults_in desk.old }
{
    writer.nogood(task.problem, atoms, &[])?;
    let text = writer.drain();
    write_all(desk, out, text.bytes())?;
    Ok(())
}

/// Writes the claim behind the nogoods.
pub(crate) fn write_claim<D: Desk>(
    task: &Task,
    writer: &mut Writer,
    claim: Verdict,
    desk: &mut D,
    out: Out,
) -> Result<(), SolveFault>
    requires opened { IsOpen (output out (D.sight desk.old)) }
    requires claim { IsClaimOf task.now.problem.now claim }
    ensures written { OnOk result (WritesClaim (asked task.now) claim (output out (D.sight desk.old)) writer.old (output out (D.sight desk.new))) }
    ensures part { OnErr result (WritesClaimInPart (asked task.now) claim (output out (D.sight desk.old)) writer.old (output out (D.sight desk.new))) }
    ensures cause { HasWriteCause (D.faults_out desk.old) (D.faults_out desk.new) result }
    ensures rest { D.sight desk.new ≡ with_output out (output out (D.sight desk.new)) (D.sight desk.old) }
    ensures other { D.faults_in desk.new ≡ D.faults_in desk.old }
{
    writer.conclude(task.problem, claim)?;
    let text = writer.drain();
    write_all(desk, out, text.bytes())?;
    Ok(())
}
