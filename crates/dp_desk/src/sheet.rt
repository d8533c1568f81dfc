// What was written to an output.

ghost use Rattle.std.specs.Prelude.{◌≡◌, ◌≤◌, ◌+◌, ◌++◌, [], length, vec_capacity, nat_le, IsTrue, IfSome, IfNone};
ghost use Rattle.dp_desk.specs.Channel.{Shut, Shown, IsUntold};
ghost use Rattle.dp_desk.specs.Honest.{told_within};
ghost use Rattle.dp_desk.specs.Places.{channel_of, GrowsIfOpen};
ghost use Rattle.dp_desk.specs.Stored.{shown_bytes};

// An output and the bytes written to it. Its memory stays when it is opened again.
#[derive(Debug, Drop)]
pub(crate) struct Sheet {
    pub(crate) state: State,
    pub(crate) bytes: Vec<u8>,
}

// Whether it was opened, and whether all that was written since is kept.
#[derive(Clone, Copy, Debug, PartialEq, Eq)]
pub(crate) enum State {
    Shut,
    Lost,
    Kept,
}

impl Sheet {
    // One that was not opened, with this memory.
    pub(crate) fn new(bytes: Vec<u8>) -> Sheet
        ensures shut { channel_of result ≡ Shut }
        ensures room { vec_capacity result.bytes ≡ vec_capacity bytes }
    {
        Sheet {
            state: State::Shut,
            bytes,
        }
    }

    // Opens it, empty.
    pub(crate) fn open(&mut self)
        ensures opened { channel_of self.new ≡ Shown [] }
        ensures room { vec_capacity self.new.bytes ≡ vec_capacity self.old.bytes }
    {
        self.bytes.clear();
        self.state = State::Kept;
    }

    // Appends to what is kept. Past the room, or where no memory is found, it is kept no more.
    pub(crate) fn append(&mut self, room: usize, bytes: &[u8])
        ensures grows { GrowsIfOpen (channel_of self.old) (channel_of self.new) bytes.now }
        ensures told { room ≤ vec_capacity self.old.bytes → shown_bytes (channel_of self.new) ≡ told_within room bytes.now (shown_bytes (channel_of self.old)) }
        ensures room { vec_capacity self.old.bytes ≤ vec_capacity self.new.bytes }
    {
        if self.state == State::Kept && !append_within(&mut self.bytes, room, bytes) {
            self.state = State::Lost;
        }
    }

    // The bytes that are kept.
    pub(crate) fn kept(&self) -> Option<&[u8]>
        ensures shown { IfSome result (λ bytes. channel_of self.now ≡ Shown bytes.now) }
        ensures untold { IfNone result (IsUntold (channel_of self.now)) }
    {
        match self.state {
            State::Kept => Some(self.bytes.as_slice()),
            State::Shut | State::Lost => None,
        }
    }
}

// Appends, and says whether all fits and memory was found.
fn append_within(kept: &mut Vec<u8>, room: usize, bytes: &[u8]) -> bool
    ensures appended { IsTrue result → kept.new.items ≡ kept.old.items ++ bytes.now }
    ensures fits { room ≤ vec_capacity kept.old → result ≡ nat_le (length kept.old.items + length bytes.now) room }
    ensures room { vec_capacity kept.old ≤ vec_capacity kept.new }
{
    match kept.len().checked_add(bytes.len()) {
        Some(len) if len <= room => kept.extend_from_slice(bytes).is_ok(),
        _ => false,
    }
}
