// What is written of steps is judged as the steps are, as laws over the definitions.

ghost use Rattle.dp_replay.specs.Accepting.{Replays, ReplaysText};

/// The lines of a log whose steps pass are accepted with its conclusion, and so are its bytes, where no line is longer
/// than a log's may be.
pub fn replayed()
    ensures lines { Replays }
    ensures text { ReplaysText }
{}
