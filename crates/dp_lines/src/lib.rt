// The lines of a log: what each says, how it is spelled, and how a log that comes in pieces is read.
#![tactic(auto)]

mod driver;
mod fields;
mod figures;
mod judge;
mod laws;
mod line;
mod lists;
mod pieces;
mod readback;
mod reader;
mod refusal;
mod step;
mod text;
mod words;

pub use driver::{InPieces, LineTaker, judge_text};
pub use laws::{any_pieces, every_spelling, first_flaw, nothing_left, round_trip, so_far};
pub use line::{Claim, Line};
pub use lists::{Literals, Numbers};
pub use pieces::LineJudge;
pub use readback::{line_read_back, lines_read_back, log_read_back};
pub use reader::Reader;
pub use refusal::{Limits, LineFault, LineRefusal};
pub use text::{line_text, push_atom_text};
