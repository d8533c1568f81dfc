// Saying a reply.

ghost use Rattle.std.specs.Prelude.{◌≡◌, ◌≢◌, ◌⊎◌, ◌≤◌, ℕ, OnOk, OnErr};
ghost use Rattle.std.specs.Option.{option_map};
ghost use Rattle.dp_desk.specs.Channel.{Grows, GrowsByPart};
ghost use Rattle.dp_desk.specs.Causes.{HasCause, Rose};
ghost use Rattle.dp_desk.specs.Sight.{output, with_output};
ghost use Rattle.fz_solve.specs.Solved.{HoldsFront, Holds};
ghost use Rattle.dp_command.specs.Due.{AreCut, AreFiled, ChangesFiles, IsCut, IsFiled, Writes, WritesPart};
ghost use Rattle.dp_command.specs.Texts.{files_of, status_of};

use crate::WRITE_FAULT;
use crate::outcome::File;
use crate::reply::Reply;
use dp_desk::{Desk, Failed, Out, write_all};

/// Writes the files of a reply, if it has any, then its text as the answer, and gives back its status; after a failed
/// write 6, and nothing more is written.
pub(crate) fn hand_over<D: Desk>(desk: &mut D, reply: &Reply, text: &[u8]) -> u8
    ensures said { (result ≡ status_of reply.now × Writes (files_of reply.now) text.now (D.sight desk.old) (D.sight desk.new) × (D.faults_out desk.new ≡ D.faults_out desk.old))
        ⊎ (result ≡ WRITE_FAULT × WritesPart (files_of reply.now) text.now (D.sight desk.old) (D.sight desk.new) × Rose (D.faults_out desk.old) (D.faults_out desk.new)) }
    ensures rest { ChangesFiles (D.sight desk.old) (D.sight desk.new) }
    ensures counted { D.faults_out desk.old ≤ D.faults_out desk.new }
    ensures other { D.faults_in desk.new ≡ D.faults_in desk.old }
{
    match write_files(desk, reply) {
        Ok(()) => say(desk, text, reply.status()),
        Err(_) => WRITE_FAULT,
    }
}

// Writes the files of a reply, the first before the second, if it has any.
fn write_files<D: Desk>(desk: &mut D, reply: &Reply) -> Result<(), Failed>
    ensures filed { OnOk result (AreFiled (files_of reply.now) (D.sight desk.old) (D.sight desk.new)) }
    ensures cut { OnErr result (AreCut (files_of reply.now) (D.sight desk.old) (D.sight desk.new)) }
    ensures rest { D.sight desk.new ≡ with_output Out.Second (D.sight desk.new).second (with_output Out.First (D.sight desk.new).first (D.sight desk.old)) }
    ensures cause { HasCause (D.faults_out desk.old) (D.faults_out desk.new) result }
    ensures other { D.faults_in desk.new ≡ D.faults_in desk.old }
{
    write_file(desk, Out::First, reply.first())?;
    write_file(desk, Out::Second, reply.second())
}

// Writes a file, if it is one.
fn write_file<D: Desk>(desk: &mut D, which: Out, file: Option<&File>) -> Result<(), Failed>
    requires { which ≢ Out.Answer }
    ensures filed { OnOk result (IsFiled (option_map (λ f. f.now.text) file.entry) (output which (D.sight desk.old)) (output which (D.sight desk.new))) }
    ensures cut { OnErr result (IsCut (option_map (λ f. f.now.text) file.entry) (output which (D.sight desk.old)) (output which (D.sight desk.new))) }
    ensures rest { D.sight desk.new ≡ with_output which (output which (D.sight desk.new)) (D.sight desk.old) }
    ensures cause { HasCause (D.faults_out desk.old) (D.faults_out desk.new) result }
    ensures other { D.faults_in desk.new ≡ D.faults_in desk.old }
{
    match file {
        Some(file) => write_whole(desk, which, file.name.as_str(), file.text.bytes()),
        None => Ok(()),
    }
}

// Opens an output by a name, and writes a text to it.
fn write_whole<D: Desk>(desk: &mut D, which: Out, name: &str, text: &[u8]) -> Result<(), Failed>
    requires { which ≢ Out.Answer }
    ensures whole { OnOk result (Holds (output which (D.sight desk.new)) text.now) }
    ensures part { OnErr result (output which (D.sight desk.new) ≡ output which (D.sight desk.old) ⊎ HoldsFront (output which (D.sight desk.new)) text.now) }
    ensures rest { D.sight desk.new ≡ with_output which (output which (D.sight desk.new)) (D.sight desk.old) }
    ensures cause { HasCause (D.faults_out desk.old) (D.faults_out desk.new) result }
    ensures other { D.faults_in desk.new ≡ D.faults_in desk.old }
{
    desk.open_out(which, name)?;
    write_all(desk, which, text)
}

/// Writes a text as the answer, and gives back the status; after a failed write 6, and a front of the text stands
/// there.
pub(crate) fn say<D: Desk>(desk: &mut D, text: &[u8], status: u8) -> u8
    ensures said { (result ≡ status × Grows (D.sight desk.old).answer (D.sight desk.new).answer text.now × (D.faults_out desk.new ≡ D.faults_out desk.old))
        ⊎ (result ≡ WRITE_FAULT × GrowsByPart (D.sight desk.old).answer (D.sight desk.new).answer text.now × Rose (D.faults_out desk.old) (D.faults_out desk.new)) }
    ensures rest { D.sight desk.new ≡ with_output Out.Answer (D.sight desk.new).answer (D.sight desk.old) }
    ensures counted { D.faults_out desk.old ≤ D.faults_out desk.new }
    ensures other { D.faults_in desk.new ≡ D.faults_in desk.old }
{
    match write_all(desk, Out::Answer, text) {
        Ok(()) => status,
        Err(_) => WRITE_FAULT,
    }
}
