//! What is answered for the text of a scaffold.

use crate::{Scaffold, ScaffoldRefusal};
use dp_domain::Text;
use dp_lines::LineRefusal;

/// What is answered for the text of a scaffold.
#[derive(Debug, Drop)]
pub enum ScaffoldAnswer {
    /// Each line passes, and this is the scaffold.
    Given(Scaffold),
    /// A line could not be read.
    Unread(LineRefusal),
    /// A test refuses a line, which is spelled so; or there is no conclusion behind the last line.
    Refused(ScaffoldRefusal, Option<Text>),
}
