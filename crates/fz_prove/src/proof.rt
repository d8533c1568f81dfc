// How proving a model ends.

use dp_base::Text;
use dp_checker::StepRefusal;
use dp_domain::Verdict;
use dp_lines::LineRefusal;
use dp_scaffold::ScaffoldRefusal;

/// How proving a model ends. Where no limit of scaffolds and logs is passed, it is one of the first three.
#[derive(Debug, Drop)]
pub enum Proof {
    /// The text of a solution, where nothing is claimed.
    Solved(Text),
    /// The text where the most nogoods were learned, and nothing is claimed.
    Unknown(Text),
    /// The text of the outcome, and the claim of its log, which is accepted.
    Accepted(Text, Verdict),
    /// A line of the scaffold cannot be read.
    ScaffoldUnread(LineRefusal),
    /// A test refuses a line of the scaffold, which is spelled so.
    ScaffoldRefused(ScaffoldRefusal, Option<Text>),
    /// The nogood at this place, on this line and with this number, is needed and does not follow.
    NotFollowing(usize, u64, u64),
    /// A line of the log cannot be read.
    LogUnread(LineRefusal),
    /// A test refuses a line of the log, which is spelled so.
    LogRefused(StepRefusal, Option<Text>),
}
