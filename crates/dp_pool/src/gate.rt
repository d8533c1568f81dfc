// What stands around each call of a worker.

/// Is told of each call: which item it is for, by its place.
pub trait Gate: Sync {
    /// The call is about to begin.
    fn enter(&self, place: usize);

    /// The call has come back.
    fn leave(&self, place: usize);
}

/// A gate that does nothing.
#[derive(Clone, Copy, Debug)]
pub struct Open;

impl Gate for Open {
    fn enter(&self, _place: usize) {}

    fn leave(&self, _place: usize) {}
}
