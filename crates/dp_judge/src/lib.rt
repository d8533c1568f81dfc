//! A log judged over a problem: its bytes are read line by line, and each line is given the tests of the checker.
#![tactic(auto)]

mod answer;
mod judge;
mod pieces;

pub use answer::LogAnswer;
pub use judge::judge_log;
pub use pieces::Judging;
