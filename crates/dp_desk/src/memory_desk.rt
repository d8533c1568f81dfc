// A desk in memory, for tests and for texts that the program itself reads again.

ghost use Rattle.std.specs.Prelude.{◌≡◌, ◌≢◌, ◌⊎◌, ◌↔◌, ◌<◌, ◌≤◌, ◌++◌, [], Some, length, take, drop, min, IfOk, OnOk, OnErr, IsErr, IsNone, IfSome, IfNone, IsTrue};
ghost use Rattle.dp_desk.specs.Causes.{HasCause};
ghost use Rattle.dp_desk.specs.Channel.{IsOpen, Opens, Takes, IsAtEnd, Starts, Grows, IsUntold, Shown};
ghost use Rattle.dp_desk.specs.InMemory.{told, fresh, fails_next, counted, failed_in, failed_out};
ghost use Rattle.dp_desk.specs.Sight.{input, output, with_input, with_output};
ghost use Rattle.dp_desk.specs.Stored.{held, bytes_left, with_input_opened, taken, written_to, with_written};
ghost use Rattle.dp_desk.specs.Tells.{stored_tells_inputs, stored_answer_open};

use crate::storage::{count_call, count_fault, find_file};
use crate::store::Store;
use crate::{Desk, Failed, In, Out};
use dp_base::{Name, Text};
use std::alloc::Global;
use std::marker::Model;

/// A desk whose files lie in memory, and whose outputs stay there.
///
/// It tells all inputs. It tells an output until a write to it finds no memory: that write takes the bytes, and the
/// output is told no more until it is opened again. Each call that does not fail moves as many bytes as it may.
#[derive(Drop)]
pub struct MemoryDesk {
    store: Store,
    piece: usize,
    failing: Vec<u64>,
    calls: u64,
    faults_in: u64,
    faults_out: u64,
}

impl Model for MemoryDesk {
    ghost use Rattle.std.specs.Prelude.{◌≤◌};
    ghost use Rattle.dp_desk.specs.InMemory.{InMemory};

    ghost Value = { InMemory };

    ghost use Rattle.dp_desk.specs.Places.{stored_of};

    ghost view = { λ desk. record { stored = stored_of desk.store; piece = desk.piece; failing = desk.failing.items; calls = desk.calls; faults_in = desk.faults_in; faults_out = desk.faults_out } };

    ghost invariant = { λ desk. 1 ≤ desk.piece };
}

impl MemoryDesk {
    /// A desk with these files, of which the first counts where several have one name. A call moves at most `piece`
    /// bytes. The calls whose numbers, counted from 1 over all kinds together, are in `failing` fail.
    pub fn new(
        alloc: Global,
        files: Vec<(Name, Text)>,
        piece: usize,
        failing: Vec<u64>,
    ) -> MemoryDesk
        requires { 1 ≤ piece }
        ensures { result ≡ fresh files.items piece failing.items }
    {
        MemoryDesk {
            store: Store::new(files, Vec::new(alloc), Vec::new(alloc), Vec::new(alloc)),
            piece,
            failing,
            calls: 0,
            faults_in: 0,
            faults_out: 0,
        }
    }

    /// The bytes written to an output since it was opened, unless it was not opened or is told no more.
    pub fn written(&self, which: Out) -> Option<&[u8]>
        ensures shown { IfSome result (λ bytes. output which (told self.now) ≡ Shown bytes.now) }
        ensures untold { IfNone result (IsUntold (output which (told self.now))) }
    {
        self.store.written(which)
    }
}

impl Desk for MemoryDesk {
    ghost sight = { told };

    ghost faults_in = { λ desk. desk.faults_in };

    ghost faults_out = { λ desk. desk.faults_out };

    ghost answer_open = { λ desk. stored_answer_open held desk.stored };

    ghost tells_inputs = { λ desk. stored_tells_inputs held desk.stored };

    fn open_in(&mut self, which: In, name: &str) -> Result<(), Failed>
        ensures opened { OnOk result (Opens (told self.old).names name.now (input which (told self.new))) }
        ensures rest { told self.new ≡ with_input which (input which (told self.new)) (told self.old) }
        ensures failed { OnErr result (told self.new ≡ told self.old) }
        ensures cause { HasCause self.old.faults_in self.new.faults_in result }
        ensures other { self.new.faults_out ≡ self.old.faults_out }

        // It fails exactly where it is listed or the name is absent.
        ensures fails { IsErr result ↔ IsTrue (fails_next self.old) ⊎ IsNone (held self.old.stored.files name.now) }
        ensures after { OnOk result (IfSome (held self.old.stored.files name.now) (λ bytes. self.new ≡ counted (with_input_opened which bytes self.old.stored) self.old)) }
        ensures fault { OnErr result (self.new ≡ failed_in self.old) }
    {
        let listed = count_call(&mut self.calls, &self.failing);
        match find_file(&self.store.files, name) {
            Some(file) if !listed => {
                self.store.open_in(which, file);
                Ok(())
            }
            _ => Err(count_fault(&mut self.faults_in)),
        }
    }

    fn read(&mut self, which: In, into: &mut [u8]) -> Result<usize, Failed>
        requires { IsOpen (input which (told self.old)) }
        ensures bound { IfOk result (λ count. count ≤ length into.old) }
        ensures took { IfOk result (λ count. Takes (input which (told self.old)) (input which (told self.new)) (take count into.new)) }
        ensures end { IfOk result (λ count. count ≡ 0 → 0 < length into.old → IsAtEnd (input which (told self.old))) }
        ensures rest { told self.new ≡ with_input which (input which (told self.new)) (told self.old) }
        ensures failed { OnErr result (told self.new ≡ told self.old) }
        ensures cause { HasCause self.old.faults_in self.new.faults_in result }
        ensures other { self.new.faults_out ≡ self.old.faults_out }

        // It fails exactly where it is listed.
        ensures fails { IsErr result ↔ IsTrue (fails_next self.old) }
        ensures moved { IfOk result (λ count. count ≡ min self.old.piece (min (length into.old) (length (bytes_left which self.old.stored)))) }
        ensures bytes { IfOk result (λ count. into.new ≡ take count (bytes_left which self.old.stored) ++ drop count into.old) }
        ensures after { IfOk result (λ count. self.new ≡ counted (taken count which self.old.stored) self.old) }
        ensures fault { OnErr result (self.new ≡ failed_in self.old) }
        ensures untouched { OnErr result (into.new ≡ into.old) }
    {
        if count_call(&mut self.calls, &self.failing) {
            return Err(count_fault(&mut self.faults_in));
        }
        Ok(self.store.read(which, self.piece, into))
    }

    fn open_out(&mut self, which: Out, _name: &str) -> Result<(), Failed>
        requires { which ≢ Out.Answer }
        ensures opened { OnOk result (Starts (output which (told self.new))) }
        ensures rest { told self.new ≡ with_output which (output which (told self.new)) (told self.old) }
        ensures failed { OnErr result (told self.new ≡ told self.old) }
        ensures cause { HasCause self.old.faults_out self.new.faults_out result }
        ensures other { self.new.faults_in ≡ self.old.faults_in }

        // It fails exactly where it is listed.
        ensures fails { IsErr result ↔ IsTrue (fails_next self.old) }
        ensures after { OnOk result (self.new ≡ counted (with_written which (Some []) self.old.stored) self.old) }
        ensures fault { OnErr result (self.new ≡ failed_out self.old) }
    {
        if count_call(&mut self.calls, &self.failing) {
            Err(count_fault(&mut self.faults_out))
        } else {
            self.store.open_out(which);
            Ok(())
        }
    }

    fn write(&mut self, which: Out, bytes: &[u8]) -> Result<usize, Failed>
        requires { IsOpen (output which (told self.old)) }
        ensures bound { IfOk result (λ count. count ≤ length bytes.now) }
        ensures some { IfOk result (λ count. 0 < length bytes.now → 0 < count) }
        ensures grows { IfOk result (λ count. Grows (output which (told self.old)) (output which (told self.new)) (take count bytes.now)) }
        ensures rest { told self.new ≡ with_output which (output which (told self.new)) (told self.old) }
        ensures failed { OnErr result (told self.new ≡ told self.old) }
        ensures cause { HasCause self.old.faults_out self.new.faults_out result }
        ensures other { self.new.faults_in ≡ self.old.faults_in }

        // It fails exactly where it is listed.
        ensures fails { IsErr result ↔ IsTrue (fails_next self.old) }
        ensures moved { IfOk result (λ count. count ≡ min self.old.piece (length bytes.now)) }
        ensures after { OnOk result (self.new ≡ counted (with_written which (written_to which self.new.stored) self.old.stored) self.old) }
        ensures fault { OnErr result (self.new ≡ failed_out self.old) }
    {
        if count_call(&mut self.calls, &self.failing) {
            return Err(count_fault(&mut self.faults_out));
        }
        let count = self.piece.min(bytes.len());
        self.store.write(which, usize::MAX, &bytes[..count]);
        Ok(count)
    }
}
