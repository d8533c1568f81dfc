// Reading an input whole, or up to a bound.

ghost use Rattle.std.specs.Prelude.{◌≡◌, ◌<◌, ◌≤◌, ◌++◌, ◌-◌, length, take, IfOk, OnOk, OnErr};
ghost use Rattle.dp_desk.specs.Channel.{IsOpen, Takes, IsAtEnd};
ghost use Rattle.dp_desk.specs.Sight.{input, with_input};
ghost use Rattle.dp_command.specs.Inputs.{IsRead, HasReadCause};

use crate::Trouble;
use dp_base::Memory;
use dp_desk::{Desk, In};
use std::alloc::Global;

// What one read asks for at most.
const PIECE: usize = 65536;

/// So many bytes are read of a model at most: one more than its text may have.
pub(crate) const MOST_OF_MODEL: usize = 67_108_865;

/// And so many of a log.
pub(crate) const MOST_OF_LOG: usize = (1 << 40) + 1;

/// Opens an input and reads it to its end, or up to a number of bytes.
pub(crate) fn read_whole<D: Desk>(
    alloc: Global,
    desk: &mut D,
    which: In,
    name: &str,
    bound: usize,
) -> Result<Vec<u8>, Trouble>
    ensures bytes { IfOk result (λ bytes. IsRead bound (D.sight desk.old).names name.now bytes.items) }
    ensures bound { IfOk result (λ bytes. length bytes.items ≤ bound) }
    ensures end { IfOk result (λ bytes. length bytes.items < bound → IsAtEnd (input which (D.sight desk.new))) }
    ensures rest { D.sight desk.new ≡ with_input which (input which (D.sight desk.new)) (D.sight desk.old) }
    ensures cause { HasReadCause (D.faults_in desk.old) (D.faults_in desk.new) result }
    ensures other { D.faults_out desk.new ≡ D.faults_out desk.old }
{
    desk.open_in(which, name)?;
    read_to_bound(alloc, desk, which, bound)
}

// Reads an input from where it stands to its end, or up to a number of bytes.
fn read_to_bound<D: Desk>(
    alloc: Global,
    desk: &mut D,
    which: In,
    bound: usize,
) -> Result<Vec<u8>, Trouble>
    requires { IsOpen (input which (D.sight desk.old)) }
    ensures took { IfOk result (λ bytes. Takes (input which (D.sight desk.old)) (input which (D.sight desk.new)) bytes.items) }
    ensures bound { IfOk result (λ bytes. length bytes.items ≤ bound) }
    ensures end { IfOk result (λ bytes. length bytes.items < bound → IsAtEnd (input which (D.sight desk.new))) }
    ensures rest { D.sight desk.new ≡ with_input which (input which (D.sight desk.new)) (D.sight desk.old) }
    ensures cause { HasReadCause (D.faults_in desk.old) (D.faults_in desk.new) result }
    ensures other { D.faults_out desk.new ≡ D.faults_out desk.old }
{
    let mut blank = blank_piece(alloc)?;
    let piece = blank.as_mut_slice();
    let mut bytes = Vec::new(alloc);
    while bytes.len() < bound {
        let most = piece.len().min(bound - bytes.len());
        let count = read_piece(desk, which, &mut piece[..most], &mut bytes)?;
        if count == 0 {
            return Ok(bytes);
        }
    }
    Ok(bytes)
}

// Reads once, and appends what came.
fn read_piece<D: Desk>(
    desk: &mut D,
    which: In,
    piece: &mut [u8],
    bytes: &mut Vec<u8>,
) -> Result<usize, Trouble>
    requires { IsOpen (input which (D.sight desk.old)) }
    ensures took { IfOk result (λ count. Takes (input which (D.sight desk.old)) (input which (D.sight desk.new)) (take count piece.new)) }
    ensures bound { IfOk result (λ count. count ≤ length piece.old) }
    ensures end { IfOk result (λ count. count ≡ 0 → 0 < length piece.old → IsAtEnd (input which (D.sight desk.old))) }
    ensures bytes { IfOk result (λ count. bytes.new.items ≡ bytes.old.items ++ take count piece.new) }
    ensures rest { D.sight desk.new ≡ with_input which (input which (D.sight desk.new)) (D.sight desk.old) }
    ensures cause { HasReadCause (D.faults_in desk.old) (D.faults_in desk.new) result }
    ensures other { D.faults_out desk.new ≡ D.faults_out desk.old }
{
    let count = desk.read(which, piece)?;
    bytes.extend_from_slice(&piece[..count])?;
    Ok(count)
}

/// Room for one read.
pub(crate) fn blank_piece(alloc: Global) -> Result<Vec<u8>, Memory>
    ensures { IfOk result (λ piece. length piece.items ≡ PIECE) }
{
    Ok(vec![in alloc; 0; PIECE]?)
}
