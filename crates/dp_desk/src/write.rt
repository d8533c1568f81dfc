// Writing all of a text.

ghost use Rattle.std.specs.Prelude.{◌≡◌, ◌≤◌, length, drop, OnOk, OnErr};
ghost use Rattle.dp_desk.specs.Causes.{HasCause};
ghost use Rattle.dp_desk.specs.Channel.{IsOpen, Grows, GrowsByPart};
ghost use Rattle.dp_desk.specs.Sight.{output, with_output};

use crate::{Desk, Failed, Out};

/// Appends all the bytes to an output. After a fault a front of them was appended, and nothing more.
pub fn write_all<D: Desk>(desk: &mut D, out: Out, bytes: &[u8]) -> Result<(), Failed>
    requires { IsOpen (output out (D.sight desk.old)) }
    ensures ok { OnOk result (Grows (output out (D.sight desk.old)) (output out (D.sight desk.new)) bytes.now) }
    ensures part { OnErr result (GrowsByPart (output out (D.sight desk.old)) (output out (D.sight desk.new)) bytes.now) }
    ensures rest { D.sight desk.new ≡ with_output out (output out (D.sight desk.new)) (D.sight desk.old) }
    ensures cause { HasCause (D.faults_out desk.old) (D.faults_out desk.new) result }
    ensures other { D.faults_in desk.new ≡ D.faults_in desk.old }
{
    let mut rest = bytes;
    while !rest.is_empty() {
        let count = desk.write(out, rest)?;
        rest = rest_of(rest, count);
    }
    Ok(())
}

// The bytes from a place on.
pub(crate) fn rest_of(bytes: &[u8], from: usize) -> &[u8]
    requires { from ≤ length bytes.now }
    ensures { result.now ≡ drop from bytes.now }
{
    &bytes[from..]
}
