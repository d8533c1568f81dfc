// What the tests of domains and of the rules over them show, by public calls alone: a table of rows for each kind.
#![tactic(auto)]

#[cfg(test)]
mod all_different_tests;
#[cfg(test)]
mod arith_tests;
#[cfg(test)]
mod clause_tests;
#[cfg(test)]
mod cumulative_tests;
#[cfg(test)]
mod domain_tests;
#[cfg(test)]
mod element_tests;
#[cfg(test)]
mod linear_tests;
#[cfg(test)]
mod rows;
#[cfg(test)]
mod within_tests;
