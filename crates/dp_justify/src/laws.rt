// What the kept turns are for, as a law over the definitions.

ghost use Rattle.dp_justify.specs.Replay.{Replays};

/// The denials of kept turns, as hints in their order, prove the nogood: at any base, with any premises
/// that suffice there, from any state that lacks what is left to be gone.
pub fn replay()
    ensures { Replays }
{}
