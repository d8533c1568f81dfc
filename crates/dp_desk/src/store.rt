// What the desks in memory hold: files by name, two inputs that read them, and three outputs.

ghost use Rattle.std.specs.Prelude.{◌≡◌, ◌≤◌, ◌++◌, [], Some, length, take, drop, min, IfSome, IfNone, vec_capacity};
ghost use Rattle.dp_desk.specs.Channel.{IsOpen, Shown, IsUntold, Grows};
ghost use Rattle.dp_desk.specs.Honest.{told_within};
ghost use Rattle.dp_desk.specs.Places.{bytes_at, stored_of, room_of};
ghost use Rattle.dp_desk.specs.Stored.{output_of, bytes_left, with_input_opened, taken, written_to, with_written, unopened};

use crate::sheet::Sheet;
use crate::storage::{Place, take_from};
use crate::{In, Out};
use dp_base::{Name, Text};

// Files, of which the first counts where several have one name, the places of the inputs, and the outputs.
#[derive(Drop)]
pub(crate) struct Store {
    pub(crate) files: Vec<(Name, Text)>,
    pub(crate) model: Option<Place>,
    pub(crate) log: Option<Place>,
    pub(crate) answer: Sheet,
    pub(crate) first: Sheet,
    pub(crate) second: Sheet,
}

impl Store {
    // One on which nothing was opened but the answer. Each output has its memory.
    pub(crate) fn new(
        files: Vec<(Name, Text)>,
        answer: Vec<u8>,
        first: Vec<u8>,
        second: Vec<u8>,
    ) -> Store
        ensures held { stored_of result ≡ unopened files.items }
        ensures room { room_of result ≡ min (vec_capacity answer) (min (vec_capacity first) (vec_capacity second)) }
    {
        let mut answer = Sheet::new(answer);
        answer.open();
        Store {
            files,
            model: None,
            log: None,
            answer,
            first: Sheet::new(first),
            second: Sheet::new(second),
        }
    }

    // Opens an input at the beginning of a file; past the last file there are no bytes.
    pub(crate) fn open_in(&mut self, which: In, file: usize)
        ensures opened { stored_of self.new ≡ with_input_opened which (bytes_at self.old.files.items file) (stored_of self.old) }
        ensures room { room_of self.new ≡ room_of self.old }
    {
        let place = Some(Place { file, at: 0 });
        match which {
            In::Model => self.model = place,
            In::Log => self.log = place,
        }
    }

    // Takes the next bytes of an input, as many as there are, as fit and as may be moved at once.
    pub(crate) fn read(&mut self, which: In, piece: usize, into: &mut [u8]) -> usize
        ensures moved { result ≡ min piece (min (length into.old) (length (bytes_left which (stored_of self.old)))) }
        ensures bytes { into.new ≡ take result (bytes_left which (stored_of self.old)) ++ drop result into.old }
        ensures after { stored_of self.new ≡ taken result which (stored_of self.old) }
        ensures room { room_of self.new ≡ room_of self.old }
    {
        match which {
            In::Model => take_from(&self.files, &mut self.model, piece, into),
            In::Log => take_from(&self.files, &mut self.log, piece, into),
        }
    }

    // Opens an output, empty.
    pub(crate) fn open_out(&mut self, which: Out)
        ensures opened { stored_of self.new ≡ with_written which (Some []) (stored_of self.old) }
        ensures room { room_of self.new ≡ room_of self.old }
    {
        match which {
            Out::Answer => self.answer.open(),
            Out::First => self.first.open(),
            Out::Second => self.second.open(),
        }
    }

    // Appends to an output. Past the room, or where no memory is found, it is told no more.
    pub(crate) fn write(&mut self, which: Out, room: usize, bytes: &[u8])
        requires { IsOpen (output_of which (stored_of self.old)) }
        ensures grows { Grows (output_of which (stored_of self.old)) (output_of which (stored_of self.new)) bytes.now }
        ensures others { stored_of self.new ≡ with_written which (written_to which (stored_of self.new)) (stored_of self.old) }
        ensures told { room ≤ room_of self.old → written_to which (stored_of self.new) ≡ told_within room bytes.now (written_to which (stored_of self.old)) }
        ensures room { room_of self.old ≤ room_of self.new }
    {
        match which {
            Out::Answer => self.answer.append(room, bytes),
            Out::First => self.first.append(room, bytes),
            Out::Second => self.second.append(room, bytes),
        }
    }

    // The bytes that are told of an output.
    pub(crate) fn written(&self, which: Out) -> Option<&[u8]>
        ensures shown { IfSome result (λ bytes. output_of which (stored_of self.now) ≡ Shown bytes.now) }
        ensures untold { IfNone result (IsUntold (output_of which (stored_of self.now))) }
    {
        match which {
            Out::Answer => self.answer.kept(),
            Out::First => self.first.kept(),
            Out::Second => self.second.kept(),
        }
    }
}
