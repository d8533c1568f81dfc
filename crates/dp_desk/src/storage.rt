// Files by name and places in them, and counts of calls and faults.

ghost use Rattle.std.specs.Prelude.{◌≡◌, ◌≤◌, ◌++◌, ◌==◌, Some, None, length, take, drop, min, option_map, position, bytes_eq, IfSome, IfNone};
ghost use Rattle.std.specs.List.{list_any};
ghost use Rattle.dp_desk.specs.InMemory.{raised};
ghost use Rattle.dp_desk.specs.Places.{bytes_at, left_bytes, left_at};
ghost use Rattle.dp_desk.specs.Stored.{held};

use crate::Failed;
use crate::write::rest_of;
use dp_base::{Name, Text};

// How far a file was read: its place in the list, and the number of bytes that were taken.
#[derive(Clone, Copy, Debug)]
pub(crate) struct Place {
    pub(crate) file: usize,
    pub(crate) at: usize,
}

// Counts one more call, and says whether it is listed.
pub(crate) fn count_call(calls: &mut u64, listed: &[u64]) -> bool
    ensures count { calls.new ≡ raised calls.old }
    ensures listed { result ≡ list_any (λ number. number == raised calls.old) listed.now }
{
    *calls = calls.saturating_add(1);
    listed.contains(calls)
}

// Counts one more fault.
pub(crate) fn count_fault(faults: &mut u64) -> Failed
    ensures count { faults.new ≡ raised faults.old }
    ensures later { faults.old ≤ faults.new }
{
    *faults = faults.saturating_add(1);
    Failed
}

// The place of the first file with this name.
pub(crate) fn find_file(files: &[(Name, Text)], name: &str) -> Option<usize>
    ensures found { IfSome result (λ at. held files.now name.now ≡ Some (bytes_at files.now at)) }
    ensures absent { IfNone result (held files.now name.now ≡ None) }
{
    place_of(files, name)
}

fn place_of(files: &[(Name, Text)], name: &str) -> Option<usize>
    ensures { result ≡ position (λ file. bytes_eq file.0 name.now) files.now }
{
    files
        .iter()
        .position(|file| file.0.bytes() == name.as_bytes())
}

// Takes the next bytes of a file, as many as there are, as fit and as may be moved at once.
pub(crate) fn take_from(
    files: &[(Name, Text)],
    place: &mut Option<Place>,
    piece: usize,
    into: &mut [u8],
) -> usize
    ensures moved { result ≡ min piece (min (length into.old) (length (left_bytes files.now place.old))) }
    ensures bytes { into.new ≡ take result (left_bytes files.now place.old) ++ drop result into.old }
    ensures left { left_at files.now place.new ≡ option_map (λ left. drop result left) (left_at files.now place.old) }
{
    let Some(open) = place else {
        return 0;
    };
    let Some((_, text)) = files.get(open.file) else {
        return 0;
    };
    let bytes = text.bytes();
    if bytes.len() < open.at {
        return 0;
    }
    let left = rest_of(bytes, open.at);
    let count = piece.min(into.len()).min(left.len());
    into[..count].copy_from_slice(&left[..count]);
    open.at += count;
    count
}
