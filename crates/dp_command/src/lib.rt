// The program over any desk: its words, what it reads, judges and says.
#![tactic(auto)]

mod check;
mod finding;
mod generate;
mod judging;
mod laws;
mod naming;
mod outcome;
mod process;
mod program;
mod prove;
mod proving;
mod reading;
mod reply;
mod saying;
mod show;
mod solve;
mod task;
mod trouble;
mod unfailing;
mod words;

pub use laws::models_are_spelled;
pub use program::run;
pub(crate) use trouble::Trouble;
pub use unfailing::run_unfailing;
pub use words::{Command, read_words};

// The status where an input could not be opened or read.
const READ_FAULT: u8 = 5;

// The status where a write failed.
const WRITE_FAULT: u8 = 6;

// The status where an allocation was refused.
const OUT_OF_MEMORY: u8 = 7;
