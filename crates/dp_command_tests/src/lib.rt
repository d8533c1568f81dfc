// What tests show of whole runs: rows with their bytes, and each call of a desk failing in turn.
#![tactic(auto)]

#[cfg(test)]
mod check_tests;
#[cfg(test)]
mod fault_tests;
#[cfg(test)]
mod generate_tests;
#[cfg(test)]
mod patience_tests;
#[cfg(test)]
mod process_tests;
#[cfg(test)]
mod prove_tests;
#[cfg(test)]
mod runs;
#[cfg(test)]
mod show_tests;
#[cfg(test)]
mod solve_tests;
#[cfg(test)]
mod words_tests;
#[cfg(test)]
mod worked_tests;
