//! What is true of the family, as laws over the definitions.

ghost use Rattle.dp_gen.specs.Laws.{GoesOn, NoSolution, Sizes};

/// With n blocks there are 2n + 2 variables, 2n + 2 constraints and n + 1 nogoods.
#[tactic(auto, using(crate::proofs::SizeLaws::sizes))]
pub fn sizes()
    ensures { Sizes }
{}

/// No model of the family has a solution.
#[tactic(auto, using(crate::proofs::ChainLaws::no_solution))]
pub fn no_solution()
    ensures { NoSolution }
{}

/// What a nogood says of a block follows from the clauses of that block.
#[tactic(auto, using(crate::proofs::ChainLaws::goes_on))]
pub fn goes_on()
    ensures { GoesOn }
{}
