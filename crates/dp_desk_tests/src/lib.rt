// What the tests of desks show, by public calls alone.
#![tactic(auto)]

#[cfg(test)]
mod desk_tests;
