// The justification of one nogood: the turns of its run that its proof needs, each explained.
#![tactic(auto)]

mod explain;
mod gone;
mod justification;
mod keep;
mod kept;
mod laws;
mod lists;
mod piece;
mod turns;

pub use dp_engine::PartId;
pub use justification::justify;
pub use kept::Kept;
pub use laws::replay;
pub use lists::{Atoms, KeptTurns, Places};
pub use piece::Piece;
