// Why a line of a log is refused.

/// Why a line is refused: the first test that it fails, in this order.
#[derive(Clone, Copy, Debug, PartialEq, Eq)]
pub enum Why {
    /// A conclusion was taken before.
    AfterConclusion,
    /// The name of an atom's line is no variable or alias.
    UnknownVar,
    /// The number of an atom's line is taken.
    AtomTwice,
    /// The first literal, in the line's order, whose atom is not defined.
    UnknownAtom(i64),
    /// The number of a step is taken by a step.
    StepTwice,
    /// The first hint that is no earlier step.
    UnknownStep(u64),
    /// There is no constraint of this number.
    UnknownConstraint,
    /// A label other than `initial_domain` is given, and no constraint, or one with no part of that label.
    WrongLabel,
    /// The inference does not hold.
    NotImplied,
    /// The nogood is not proved by its hints.
    NoClash,
    /// The conclusion is a bound, and the model has no goal.
    NoGoal,
    /// The bound is not on the goal's variable, or not on the goal's side.
    WrongBound,
    /// The conclusion does not hold.
    NotConcluded,
    /// The log ends without a conclusion.
    NoConclusion,
}

/// A refused line: its number from 1, and why.
#[derive(Clone, Copy, Debug, PartialEq, Eq)]
pub struct StepRefusal {
    pub line: u64,
    pub why: Why,
}
