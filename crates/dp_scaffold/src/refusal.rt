//! Why a line of a scaffold is refused.

/// Why a line is refused: the first test that it fails, in this order.
#[derive(Clone, Copy, Debug, PartialEq, Eq)]
pub enum GatherWhy {
    /// A conclusion was taken before.
    AfterConclusion,
    /// The name of an atom's line is no variable or alias.
    UnknownVar,
    /// The number of an atom's line is taken.
    AtomTwice,
    /// The first literal, in the line's order, whose atom is not defined.
    UnknownAtom(i64),
    /// The number of a step is taken by a step.
    StepTwice,
    /// The conclusion is a bound, and the model has no goal.
    NoGoal,
    /// The bound is not on the goal's variable, or not on the goal's side.
    WrongBound,
    /// The lines end without a conclusion.
    NoConclusion,
    /// There are a million nogoods before this one, or their lines have too many literals together.
    TooMany,
}

/// A refused line: its number from 1, and why.
#[derive(Clone, Copy, Debug, PartialEq, Eq)]
pub struct ScaffoldRefusal {
    pub line: u64,
    pub why: GatherWhy,
}
