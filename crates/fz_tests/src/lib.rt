// What tests show of the texts of models by public calls alone: tokens, names, items, and the lines of solutions.
#![tactic(auto)]

#[cfg(test)]
mod item_tests;
#[cfg(test)]
mod name_tests;
#[cfg(test)]
mod solution_tests;
#[cfg(test)]
mod token_tests;
