// The desk of the machine: files, and the standard output for the answer.

ghost use Rattle.std.specs.Prelude.{◌≡◌, ◌<◌, ◌≤◌, ℕ, length, IfSome, IsTrue, is_some};
ghost use Rattle.dp_desk.specs.Host.{host_sight, idle};

use crate::storage::count_fault;
use crate::{Desk, Failed, In, Out};
use std::io::{Read, Write};
use std::marker::Model;
use std::rt::Files;
use std::{fs, io};

/// A desk over the files and the standard output of the machine. It tells no bytes.
#[derive(Drop)]
pub struct HostDesk<'a, R: Files + Print> {
    rt: &'a R,
    // They hold the numbers of standard streams that were closed when the program started: no file that is opened later
    // takes one of them, and so becomes the answer's.
    held: [Option<R::File>; 3],
    model: Option<R::File>,
    log: Option<R::File>,
    first: Option<R::File>,
    second: Option<R::File>,
    faults_in: u64,
    faults_out: u64,
}

impl<'a, R: Files + Print> Model for HostDesk<'a, R> {
    ghost use Rattle.std.specs.Prelude.{is_some};
    ghost use Rattle.dp_desk.specs.Host.{Host};

    ghost Value = { Host };

    ghost view = { λ desk. record { model = is_some desk.model; log = is_some desk.log; first = is_some desk.first; second = is_some desk.second; faults_in = desk.faults_in; faults_out = desk.faults_out } };
}

impl<'a, R: Files + Print> HostDesk<'a, R> {
    /// A desk on which nothing was opened but the answer.
    pub fn new(rt: &'a R) -> HostDesk<'a, R>
        ensures { result ≡ idle }
    {
        HostDesk {
            rt,
            held: [hold(rt), hold(rt), hold(rt)],
            model: None,
            log: None,
            first: None,
            second: None,
            faults_in: 0,
            faults_out: 0,
        }
    }
}

impl<R: Files + Print> Desk for HostDesk<'_, R> {
    ghost sight = { host_sight };

    ghost faults_in = { λ desk. desk.faults_in };

    ghost faults_out = { λ desk. desk.faults_out };

    ghost answer_open = { λ desk. tt };

    ghost tells_inputs = { λ desk. tt };

    fn open_in(&mut self, which: In, name: &str) -> Result<(), Failed> {
        match fs::open(self.rt, name) {
            Ok(file) => {
                match which {
                    In::Model => self.model = Some(file),
                    In::Log => self.log = Some(file),
                }
                Ok(())
            }
            Err(_) => Err(count_fault(&mut self.faults_in)),
        }
    }

    fn read(&mut self, which: In, into: &mut [u8]) -> Result<usize, Failed> {
        let taken = match which {
            In::Model => read_from(&mut self.model, into),
            In::Log => read_from(&mut self.log, into),
        };
        match taken {
            Some(count) => Ok(count),
            None => Err(count_fault(&mut self.faults_in)),
        }
    }

    fn open_out(&mut self, which: Out, name: &str) -> Result<(), Failed> {
        match fs::create(self.rt, name) {
            Ok(file) => {
                match which {
                    Out::Answer => {}
                    Out::First => self.first = Some(file),
                    Out::Second => self.second = Some(file),
                }
                Ok(())
            }
            Err(_) => Err(count_fault(&mut self.faults_out)),
        }
    }

    fn write(&mut self, which: Out, bytes: &[u8]) -> Result<usize, Failed> {
        let taken = match which {
            Out::Answer => write_some(&mut io::writer(self.rt), bytes),
            Out::First => write_to(&mut self.first, bytes),
            Out::Second => write_to(&mut self.second, bytes),
        };
        match taken {
            Some(count) => Ok(count),
            None => Err(count_fault(&mut self.faults_out)),
        }
    }
}

// An open file that says nothing, if the machine has one: it takes the lowest number that is free.
fn hold<R: Files>(rt: &R) -> Option<R::File> {
    fs::open(rt, "/dev/null").ok()
}

// Reads from a file that was opened.
fn read_from<F: Read>(file: &mut Option<F>, into: &mut [u8]) -> Option<usize>
    requires { IsTrue (is_some file.old) }
    ensures opened { IsTrue (is_some file.new) }
    ensures bound { IfSome result (λ count. count ≤ length into.old) }
{
    file.as_mut()?.read(into).ok()
}

// Writes to a file that was opened.
fn write_to<F: Write>(file: &mut Option<F>, bytes: &[u8]) -> Option<usize>
    requires { IsTrue (is_some file.old) }
    ensures opened { IsTrue (is_some file.new) }
    ensures bound { IfSome result (λ count. count ≤ length bytes.now) }
    ensures some { IfSome result (λ count. 0 < length bytes.now → 0 < count) }
{
    write_some(file.as_mut()?, bytes)
}

// Writes at least one of the bytes, if there are any: a write that takes none of them has failed.
fn write_some<W: Write>(to: &mut W, bytes: &[u8]) -> Option<usize>
    ensures bound { IfSome result (λ count. count ≤ length bytes.now) }
    ensures some { IfSome result (λ count. 0 < length bytes.now → 0 < count) }
{
    match to.write(bytes) {
        Ok(0) if !bytes.is_empty() => None,
        Ok(count) => Some(count),
        Err(_) => None,
    }
}
