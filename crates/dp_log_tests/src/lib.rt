// What tests show of texts of steps by public calls alone: lines, the checker, scaffolds, and what is shown of a log.
#![tactic(auto)]

#[cfg(test)]
mod checker_tests;
#[cfg(test)]
mod line_tests;
#[cfg(test)]
mod models;
#[cfg(test)]
mod pieces;
#[cfg(test)]
mod readers;
#[cfg(test)]
mod scaffold_tests;
#[cfg(test)]
mod show_tests;
#[cfg(test)]
mod spelling_tests;
