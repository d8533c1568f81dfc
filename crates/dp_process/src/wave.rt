// Which nogoods a wave has.

ghost use Rattle.std.specs.Prelude.{◌≡◌, ◌++◌, ◌<◌, length, IfOk, OnOk};
ghost use Rattle.dp_process.specs.Waves.{pending_at, wave};

use crate::found::Found;
use dp_base::Memory;
use std::alloc::Global;

/// The places that are pending, ascending.
pub(crate) fn next_wave(alloc: Global, found: &Found) -> Result<Vec<usize>, Memory>
    requires { length found.now.pieces.items ≡ length found.now.marks.items }
    ensures { IfOk result (λ places. places.items ≡ wave found.now (length found.now.marks.items)) }
{
    let mut places = Vec::new(alloc);
    for place in 0..found.marks.len() {
        push_pending(&mut places, found, place)?;
    }
    Ok(places)
}

/// One place more, where it is pending.
fn push_pending(places: &mut Vec<usize>, found: &Found, place: usize) -> Result<(), Memory>
    requires mark { place < length found.now.marks.items }
    requires piece { place < length found.now.pieces.items }
    ensures { OnOk result (places.new.items ≡ places.old.items ++ pending_at found.now place) }
{
    if found.from <= place && found.marks[place] && found.pieces[place].is_none() {
        places.push(place)?;
    }
    Ok(())
}
