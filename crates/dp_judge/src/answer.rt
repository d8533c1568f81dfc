//! What is answered for a log.

use dp_checker::StepRefusal;
use dp_domain::{Text, Verdict};
use dp_lines::LineRefusal;

/// What is answered for a log.
#[derive(Debug, Drop)]
pub enum LogAnswer {
    /// Each line passes, and this is concluded.
    Accepted(Verdict),
    /// A line could not be read.
    Unread(LineRefusal),
    /// A test refuses a line, which is spelled so; or there is no conclusion behind the last line.
    Refused(StepRefusal, Option<Text>),
}
