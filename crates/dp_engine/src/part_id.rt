// Parts by their places in the order of turns.

/// A part: of a constraint of the model, by the constraint's place and its own among the constraint's
/// parts, or a nogood by its place. All are counted from 0.
#[derive(Clone, Copy, Debug, PartialEq, Eq)]
pub enum PartId {
    Model { constraint: u32, part: u32 },
    Nogood(u32),
}
