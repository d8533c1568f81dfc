// A desk in memory that never fails.

ghost use Rattle.std.specs.Prelude.{◌≡◌, ◌≢◌, ◌<◌, ◌≤◌, ◌++◌, [], ℕ, List, Some, length, take, drop, min, IfOk, IsOk, OnOk, OnErr, IfSome, IfNone};
ghost use Rattle.std.specs.List.{concat};
ghost use Rattle.dp_desk.specs.Causes.{HasCause};
ghost use Rattle.dp_desk.specs.Channel.{IsOpen, Opens, Takes, IsAtEnd, Starts, Grows, IsUntold, Shown};
ghost use Rattle.dp_desk.specs.Honest.{honest, honest_sight, bytes_of, every_name, told_within, told_after, fitting, leaving};
ghost use Rattle.dp_desk.specs.Sight.{input, output, with_input, with_output};
ghost use Rattle.dp_desk.specs.Stored.{bytes_left, with_input_opened, taken, written_to, with_written};
ghost use Rattle.dp_desk.specs.Tells.{stored_tells_inputs, stored_answer_open};

use crate::storage::find_file;
use crate::store::Store;
use crate::{Desk, Failed, In, Out};
use dp_base::{Memory, Name, Text};
use std::alloc::Global;
use std::marker::Model;

/// A desk whose files lie in memory, that holds every name, and of which no call fails.
///
/// Its memory is taken when it is made. It tells all inputs. It tells an output while what was written since it was
/// opened has at most `room` bytes: a write past that takes the bytes, and the output is told no more until it is
/// opened again.
#[derive(Drop)]
pub struct HonestDesk {
    store: Store,
    room: usize,
}

impl Model for HonestDesk {
    ghost use Rattle.std.specs.Prelude.{◌≤◌};
    ghost use Rattle.dp_desk.specs.Honest.{Honest};

    ghost Value = { Honest };

    ghost use Rattle.dp_desk.specs.Places.{stored_of, room_of};

    ghost view = { λ desk. record { stored = stored_of desk.store; room = desk.room } };

    ghost invariant = { λ desk. desk.room ≤ room_of desk.store };
}

impl HonestDesk {
    /// A desk with these files, of which the first counts where several have one name; a name that has none is empty.
    /// Each output has memory for `room` bytes.
    pub fn new(alloc: Global, files: Vec<(Name, Text)>, room: usize) -> Result<HonestDesk, Memory>
        ensures { IfOk result (λ desk. desk ≡ honest files.items room) }
    {
        let answer = Vec::with_capacity(alloc, room)?;
        let first = Vec::with_capacity(alloc, room)?;
        let second = Vec::with_capacity(alloc, room)?;
        Ok(HonestDesk {
            store: Store::new(files, answer, first, second),
            room,
        })
    }

    /// The bytes written to an output since it was opened, unless it was not opened or they are more than its room.
    pub fn written(&self, which: Out) -> Option<&[u8]>
        ensures shown { IfSome result (λ bytes. output which (honest_sight self.now) ≡ Shown bytes.now) }
        ensures untold { IfNone result (IsUntold (output which (honest_sight self.now))) }
    {
        self.store.written(which)
    }
}

impl Desk for HonestDesk {
    ghost sight = { honest_sight };

    ghost faults_in = { λ desk. 0 };

    ghost faults_out = { λ desk. 0 };

    ghost answer_open = { λ desk. stored_answer_open every_name desk.stored };

    ghost tells_inputs = { λ desk. stored_tells_inputs every_name desk.stored };

    fn open_in(&mut self, which: In, name: &str) -> Result<(), Failed>
        ensures opened { OnOk result (Opens (honest_sight self.old).names name.now (input which (honest_sight self.new))) }
        ensures rest { honest_sight self.new ≡ with_input which (input which (honest_sight self.new)) (honest_sight self.old) }
        ensures failed { OnErr result (honest_sight self.new ≡ honest_sight self.old) }
        ensures cause { HasCause 0 0 result }

        // It never fails.
        ensures ok { IsOk result }
        ensures after { self.new ≡ leaving (with_input_opened which (bytes_of self.old.stored.files name.now) self.old.stored) self.old }
    {
        let past_all = self.store.files.len();
        let file = find_file(&self.store.files, name).unwrap_or(past_all);
        self.store.open_in(which, file);
        Ok(())
    }

    fn read(&mut self, which: In, into: &mut [u8]) -> Result<usize, Failed>
        requires { IsOpen (input which (honest_sight self.old)) }
        ensures bound { IfOk result (λ count. count ≤ length into.old) }
        ensures took { IfOk result (λ count. Takes (input which (honest_sight self.old)) (input which (honest_sight self.new)) (take count into.new)) }
        ensures end { IfOk result (λ count. count ≡ 0 → 0 < length into.old → IsAtEnd (input which (honest_sight self.old))) }
        ensures rest { honest_sight self.new ≡ with_input which (input which (honest_sight self.new)) (honest_sight self.old) }
        ensures failed { OnErr result (honest_sight self.new ≡ honest_sight self.old) }
        ensures cause { HasCause 0 0 result }

        // It takes all that fits.
        ensures ok { IsOk result }
        ensures moved { IfOk result (λ count. count ≡ min (length into.old) (length (bytes_left which self.old.stored))) }
        ensures bytes { IfOk result (λ count. into.new ≡ take count (bytes_left which self.old.stored) ++ drop count into.old) }
        ensures after { IfOk result (λ count. self.new ≡ leaving (taken count which self.old.stored) self.old) }
    {
        let piece = into.len();
        Ok(self.store.read(which, piece, into))
    }

    fn open_out(&mut self, which: Out, _name: &str) -> Result<(), Failed>
        requires { which ≢ Out.Answer }
        ensures opened { OnOk result (Starts (output which (honest_sight self.new))) }
        ensures rest { honest_sight self.new ≡ with_output which (output which (honest_sight self.new)) (honest_sight self.old) }
        ensures failed { OnErr result (honest_sight self.new ≡ honest_sight self.old) }
        ensures cause { HasCause 0 0 result }

        // It never fails.
        ensures ok { IsOk result }
        ensures after { self.new ≡ leaving (with_written which (Some []) self.old.stored) self.old }
    {
        self.store.open_out(which);
        Ok(())
    }

    fn write(&mut self, which: Out, bytes: &[u8]) -> Result<usize, Failed>
        requires { IsOpen (output which (honest_sight self.old)) }
        ensures bound { IfOk result (λ count. count ≤ length bytes.now) }
        ensures some { IfOk result (λ count. 0 < length bytes.now → 0 < count) }
        ensures grows { IfOk result (λ count. Grows (output which (honest_sight self.old)) (output which (honest_sight self.new)) (take count bytes.now)) }
        ensures rest { honest_sight self.new ≡ with_output which (output which (honest_sight self.new)) (honest_sight self.old) }
        ensures failed { OnErr result (honest_sight self.new ≡ honest_sight self.old) }
        ensures cause { HasCause 0 0 result }

        // It takes all bytes, and tells them while they fit.
        ensures ok { IsOk result }
        ensures moved { IfOk result (λ count. count ≡ length bytes.now) }
        ensures after { self.new ≡ leaving (with_written which (told_within self.old.room bytes.now (written_to which self.old.stored)) self.old.stored) self.old }
    {
        self.store.write(which, self.room, bytes);
        Ok(bytes.len())
    }
}

/// After an output was opened and texts were written to it, their bytes are told, exactly while they fit the room.
pub fn told_while_they_fit()
    ensures { (room : ℕ) → (texts : List (List ℕ)) → told_after room (Some []) texts ≡ fitting room (concat texts) }
{}
