// What tests show of searches by public calls alone: written logs, justified nogoods, processed scaffolds, solved and
// proved models.
#![tactic(auto)]

#[cfg(test)]
mod justify_tests;
#[cfg(test)]
mod models;
#[cfg(test)]
mod process_tests;
#[cfg(test)]
mod prove_tests;
#[cfg(test)]
mod solve_tests;
#[cfg(test)]
mod solver_tests;
#[cfg(test)]
mod writer_tests;
