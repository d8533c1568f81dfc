// What is shown of a log.

use dp_checker::StepRefusal;
use dp_domain::Text;
use dp_lines::LineRefusal;

/// Why a log is not shown to its end.
#[derive(Debug, Drop)]
pub enum Refusal {
    /// A line could not be read.
    Unread(LineRefusal),
    /// A test refuses a line, which is spelled so.
    Refused(StepRefusal, Text),
}

/// A log as a person reads it: the steps before its end or before its first refused line, and why that line is refused.
#[derive(Debug, Drop)]
pub struct Shown {
    pub steps: Text,
    pub refusal: Option<Refusal>,
}
