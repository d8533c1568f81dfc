// What is found so far of the nogoods that are met.

ghost use Rattle.std.specs.Prelude.{◌≡◌, ℕ, ◌-◌, ◌+◌, ◌==◌, ◌<◌, ◌||◌, false, true, None, max, nat_eq, length, replicate, slice_index_or, slice_set, IfOk};
ghost use Rattle.std.specs.List.{list_any};
ghost use Rattle.dp_base.specs.Lists.{Each};
ghost use Rattle.dp_process.specs.Marks.{AreMarked};
ghost use Rattle.dp_process.specs.Met.{uses_in};
ghost use Rattle.dp_process.specs.Waves.{TakesIn};

use dp_base::Memory;
use dp_justify::Piece;
use std::alloc::Global;

/// What is found so far, for each place.
#[derive(Drop)]
pub(crate) struct Found {
    /// Whether the nogood is known to be met.
    pub(crate) marks: Vec<bool>,
    /// Its justification, where it has one by now.
    pub(crate) pieces: Vec<Option<Piece>>,
    /// The place after the last one that is known to fail; 0 where none is.
    pub(crate) from: usize,
}

/// What is found of so many nogoods at first: the conclusion is met.
pub(crate) fn nothing_found(alloc: Global, count: usize) -> Result<Found, Memory>
    requires { 0 < count }
    ensures count { IfOk result (λ found. length found.marks.items ≡ count) }
    ensures marks { IfOk result (λ found. AreMarked found.marks.items (λ i. i == count - 1)) }
    ensures pieces { IfOk result (λ found. found.pieces.items ≡ replicate count None) }
    ensures from { IfOk result (λ found. found.from ≡ 0) }
{
    let marks = first_marks(alloc, count)?;
    let pieces = no_pieces(alloc, count)?;
    Ok(Found {
        marks,
        pieces,
        from: 0,
    })
}

/// Marks of this many places, of which the last is marked.
pub(crate) fn first_marks(alloc: Global, count: usize) -> Result<Vec<bool>, Memory>
    requires { 0 < count }
    ensures count { IfOk result (λ marks. length marks.items ≡ count) }
    ensures marks { IfOk result (λ marks. AreMarked marks.items (λ i. i == count - 1)) }
{
    let mut marks = vec![in alloc; false; count]?;
    marks[count - 1] = true;
    Ok(marks)
}

/// No justification at this many places.
fn no_pieces(alloc: Global, count: usize) -> Result<Vec<Option<Piece>>, Memory>
    ensures { IfOk result (λ pieces. pieces.items ≡ replicate count None) }
{
    let mut pieces = Vec::new(alloc);
    for _ in 0..count {
        pieces.push(None)?;
    }
    Ok(pieces)
}

/// Takes in the answer for the place: its justification, and then what that uses is met; with none, the
/// nogood fails.
pub(crate) fn settle(found: &mut Found, place: usize, answer: Option<Piece>)
    requires place { place < length found.old.pieces.items }
    requires uses { Each (λ u. u < length found.old.marks.items) (uses_in answer) }
    ensures { TakesIn place answer found.old found.new }
{
    match answer {
        Some(piece) => keep(found, place, piece),
        None => found.from = found.from.max(place + 1),
    }
}

/// The place has this justification, and what that uses is met.
fn keep(found: &mut Found, place: usize, piece: Piece)
    requires place { place < length found.old.pieces.items }
    requires uses { Each (λ u. u < length found.old.marks.items) piece.uses }
    ensures count { length found.new.marks.items ≡ length found.old.marks.items }
    ensures marks { AreMarked found.new.marks.items (λ i. slice_index_or found.old.marks.items i false || list_any (nat_eq i) piece.uses) }
    ensures pieces { found.new.pieces.items ≡ slice_set found.old.pieces.items place (Some piece) }
    ensures from { found.new.from ≡ found.old.from }
{
    mark(&mut found.marks, piece.uses.as_slice());
    found.pieces[place] = Some(piece);
}

/// Marks the places.
pub(crate) fn mark(marks: &mut Vec<bool>, places: &[u32])
    requires { Each (λ place. place < length marks.old.items) places.now }
    ensures count { length marks.new.items ≡ length marks.old.items }
    ensures marks { AreMarked marks.new.items (λ i. slice_index_or marks.old.items i false || list_any (nat_eq i) places.now) }
{
    for place in places {
        mark_one(marks, *place as usize);
    }
}

/// Marks the place.
fn mark_one(marks: &mut Vec<bool>, place: usize)
    requires { place < length marks.old.items }
    ensures { marks.new.items ≡ slice_set marks.old.items place true }
{
    marks[place] = true;
}
