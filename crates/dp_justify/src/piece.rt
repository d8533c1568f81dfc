// The justification of one nogood.

use crate::{KeptTurns, Places};

/// The kept turns of the run of one nogood.
#[derive(Debug, Drop)]
pub struct Piece {
    /// The turns in their order.
    pub steps: KeptTurns,
    /// The places of the nogoods among their sources, ascending, each once.
    pub uses: Places,
}
