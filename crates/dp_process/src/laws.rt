// The processed log passes the tests of a log, as a law over the definitions.

ghost use Rattle.dp_process.specs.Replaying.{LogPasses};

/// Where each nogood that is met follows, each step of the processed log passes the tests of a log behind those
/// before it.
#[tactic(auto, using(crate::proofs::PassLaws::log_passes))]
pub fn log_passes()
    ensures { LogPasses }
{}
