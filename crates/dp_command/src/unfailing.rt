// The top call over a desk that never fails.

ghost use Rattle.std.specs.Prelude.{◌≡◌, ◌⊎◌, ◌≤◌, map};
ghost use Rattle.dp_desk.specs.Honest.{honest_sight};
ghost use Rattle.dp_command.specs.Promises.{Answers, AreTrue};

use crate::run;
use dp_desk::HonestDesk;
use dp_pool::Gate;
use std::alloc::Global;
use std::thread::Threads;

/// Does what the words ask for over a desk that never fails, as `run` does: then each run comes to the answer that is due, with
/// status 4 or less, but for want of memory, where the status is 7.
pub fn run_unfailing<R: Threads + Sync, G: Gate>(
    rt: &R,
    alloc: Global,
    words: &[&str],
    desk: &mut HonestDesk,
    gate: &G,
) -> u8
    ensures complete { (result ≤ 4) ⊎ (result ≡ 7) }
    ensures answered { let texts = map (λ w. w.now) words.now in Answers (honest_sight desk.old).names texts result (honest_sight desk.old) (honest_sight desk.new) }
    ensures holds { let texts = map (λ w. w.now) words.now in AreTrue (honest_sight desk.old).names texts result (honest_sight desk.old) (honest_sight desk.new) }
{
    run(rt, alloc, words, desk, gate)
}
