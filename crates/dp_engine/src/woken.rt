// Which parts are woken.

ghost use Rattle.std.specs.Prelude.{◌≡◌, ℕ, ◌*◌, ◌<◌, ◌≤◌, Bool, true, false, List, [], ◌∷◌, ◌++◌, length, take, get_or, slice_set, IfOk, MatchOption, OnErr, OnOk};
ghost use Rattle.dp_engine.specs.Woken.{AreMarked, AreResting, IsFirstWoken, IsGrown};

use dp_domain::Memory;
use std::alloc::Global;
use std::marker::Model;

/// How many places stand in a block.
const BLOCK: usize = 512;

/// For each part, by its place, whether it is woken; seen as that list. No part below `lowest` is woken,
/// and none in a block of places that is not marked, so a search passes such a block in one step.
#[derive(Drop)]
pub struct Woken {
    bits: Vec<bool>,
    marks: Vec<bool>,
    lowest: usize,
}

impl Model for Woken {
    ghost use Rattle.std.specs.Prelude.{Bool, List};
    ghost use Rattle.dp_engine.specs.Woken.{AreMarked, AreResting};

    ghost Value = { List Bool };

    ghost view = { λ w. w.bits.items };

    ghost invariant = { λ w. AreMarked w.marks.items w.bits.items × AreResting w.lowest w.bits.items };
}

impl Woken {
    /// So many parts, all woken.
    pub fn all(alloc: Global, count: usize) -> Result<Woken, Memory>
        ensures count { IfOk result (λ w. length w ≡ count) }
        ensures all { IfOk result (λ w. (k : ℕ) → get_or w k true ≡ true) }
    {
        Ok(Woken {
            bits: all_true(alloc, count)?,
            marks: all_true(alloc, count / BLOCK + 1)?,
            lowest: 0,
        })
    }

    /// One part more, which is woken.
    pub fn push(&mut self) -> Result<(), Memory>
        ensures pushed { OnOk result (self.new ≡ self.old ++ true ∷ []) }
        ensures unchanged { OnErr result (self.new ≡ self.old) }
    {
        let place = self.bits.len();
        reach(&mut self.marks, place)?;
        self.bits.push(true)?;
        self.marks[place / BLOCK] = true;
        self.lowest = self.lowest.min(place);
        Ok(())
    }

    /// Without the last part.
    pub fn pop(&mut self)
        ensures { (woken : List Bool) → (last : Bool) → self.old ≡ woken ++ last ∷ [] → self.new ≡ woken }
    {
        let _last = self.bits.pop();
    }

    /// The first part that is woken.
    pub fn first(&mut self) -> Option<usize>
        ensures same { self.new ≡ self.old }
        ensures first { MatchOption result ((k : ℕ) → get_or self.old k false ≡ false) (IsFirstWoken self.old) }
    {
        let first = first_from(self.bits.as_slice(), &mut self.marks, self.lowest);
        self.lowest = match first {
            Some(place) => place,
            None => self.bits.len(),
        };
        first
    }

    /// Wakes a part.
    pub fn wake(&mut self, place: usize)
        requires { place < length self.old }
        ensures { self.new ≡ slice_set self.old place true }
    {
        self.bits[place] = true;
        self.marks[place / BLOCK] = true;
        self.lowest = self.lowest.min(place);
    }

    /// Whether a part is woken.
    pub fn is_woken(&self, place: usize) -> bool
        requires { place < length self.now }
        ensures { result ≡ get_or self.now place false }
    {
        self.bits[place]
    }

    /// Wakes a part or puts it to rest, where there is one.
    pub fn set(&mut self, place: usize, woken: bool)
        ensures { self.new ≡ slice_set self.old place woken }
    {
        if place >= self.len() {
            return;
        }
        if woken {
            self.wake(place);
        } else {
            self.rest(place);
        }
    }

    /// Puts a part to rest.
    pub fn rest(&mut self, place: usize)
        requires { place < length self.old }
        ensures { self.new ≡ slice_set self.old place false }
    {
        self.bits[place] = false;
    }

    /// The number of parts.
    fn len(&self) -> usize
        ensures { result ≡ length self.now }
    {
        self.bits.len()
    }

    /// Without the parts behind so many.
    fn cut(&mut self, count: usize)
        ensures { self.new ≡ take count self.old }
    {
        self.bits.truncate(count);
    }
}

/// So many parts: the first ones as they were, and any others woken. Want of memory leaves all as it was.
pub fn resize(woken: &mut Woken, count: usize) -> Result<(), Memory>
    ensures count { OnOk result (length woken.new ≡ count) }
    ensures kept { (k : ℕ) → get_or woken.new k true ≡ false → get_or woken.old k true ≡ false }
    ensures unchanged { OnErr result (woken.new ≡ woken.old) }
{
    let before = woken.len();
    let grown = grow(woken, count);
    if grown.is_err() {
        woken.cut(before);
        return Err(Memory);
    }
    woken.cut(count);
    Ok(())
}

/// Adds parts that are woken, up to so many.
fn grow(woken: &mut Woken, count: usize) -> Result<(), Memory>
    ensures count { OnOk result (count ≤ length woken.new) }
    ensures grown { IsGrown woken.old woken.new }
{
    while woken.len() < count {
        woken.push()?;
    }
    Ok(())
}

/// The first place from one on at which there is true. The marks of blocks that are passed whole are
/// taken away.
fn first_from(bits: &[bool], marks: &mut [bool], from: usize) -> Option<usize>
    requires marked { AreMarked marks.old bits.now }
    requires resting { AreResting from bits.now }
    ensures marked { AreMarked marks.new bits.now }
    ensures first { MatchOption result ((k : ℕ) → get_or bits.now k false ≡ false) (IsFirstWoken bits.now) }
{
    let mut place = from;
    while place < bits.len() {
        if bits[place] {
            return Some(place);
        }
        place = pass(bits, marks, place);
    }
    None
}

/// Goes on from a place at which there is false: to the next one, or to that behind the block where the
/// block is not marked. The mark of a block that is left behind is taken away.
fn pass(bits: &[bool], marks: &mut [bool], place: usize) -> usize
    requires there { place < length bits.now }
    requires here { get_or bits.now place false ≡ false }
    requires marked { AreMarked marks.old bits.now }
    requires resting { AreResting place bits.now }
    ensures on { place < result }
    ensures marked { AreMarked marks.new bits.now }
    ensures resting { AreResting result bits.now }
{
    let block = place / BLOCK;
    let end = block * BLOCK + BLOCK;
    if !marks[block] {
        return end;
    }
    if place + 1 == end {
        marks[block] = false;
    }
    place + 1
}

/// Makes sure that the block of the place has a mark.
fn reach(marks: &mut Vec<bool>, place: usize) -> Result<(), Memory>
    requires { place ≤ 512 * length marks.old.items }
    ensures reach { OnOk result (place < 512 * length marks.new.items) }
    ensures longer { length marks.old.items ≤ length marks.new.items }
    ensures unmarked { (block : ℕ) → get_or marks.new.items block false ≡ false → get_or marks.old.items block false ≡ false }
{
    if place / BLOCK >= marks.len() {
        marks.push(true)?;
    }
    Ok(())
}

fn all_true(alloc: Global, count: usize) -> Result<Vec<bool>, Memory>
    ensures count { IfOk result (λ bits. length bits.items ≡ count) }
    ensures all { IfOk result (λ bits. (k : ℕ) → get_or bits.items k true ≡ true) }
{
    let mut bits = Vec::new(alloc);
    for _ in 0..count {
        bits.push(true)?;
    }
    Ok(bits)
}
