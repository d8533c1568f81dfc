// Which parts are woken, and which of them were at each earlier point.

ghost use Rattle.std.specs.Prelude.{◌≡◌, ℕ, ◌+◌, ◌<◌, ◌≤◌, Bool, true, false, List, [], ◌∷◌, ◌++◌, length, get_or, slice_set, IfOk, MatchOption, OnErr, OnOk};
ghost use Rattle.dp_base.specs.Lists.{Each};
ghost use Rattle.dp_engine.specs.Debts.{IsTouched, gone, left, rested, touched};
ghost use Rattle.dp_engine.specs.Woken.{IsFirstWoken};

use crate::woken::{Woken, resize};
use dp_domain::Memory;
use std::alloc::Global;
use std::marker::Model;

/// What is noted on the way: that a point was left, or whether a part was woken before it was touched.
#[derive(Clone, Copy)]
pub enum Note {
    Left,
    Was { place: usize, woken: bool },
}

/// For each part whether it is woken, with the notes that lead back to earlier points, the last one first.
/// Each touch of a part is noted. A part that is put to rest was not touched since the points that it
/// rested at then, so this needs no note; but the parts from `lasting` on came later than some points.
#[derive(Drop)]
pub struct Debts {
    woken: Woken,
    notes: Vec<Note>,
    lasting: usize,
}

impl Model for Debts {
    ghost use Rattle.std.specs.Prelude.{reverse};
    ghost use Rattle.dp_engine.specs.Debts.{History};

    ghost Value = { History };

    ghost view = { λ d. record { notes = reverse d.notes.items; now = d.woken; lasting = d.lasting } };
}

impl Debts {
    /// So many parts, all woken, with no point before.
    pub fn all(alloc: Global, count: usize) -> Result<Debts, Memory>
        ensures count { IfOk result (λ d. length d.now ≡ count) }
        ensures all { IfOk result (λ d. (k : ℕ) → get_or d.now k true ≡ true) }
        ensures notes { IfOk result (λ d. d.notes ≡ []) }
        ensures lasting { IfOk result (λ d. d.lasting ≡ count) }
    {
        Ok(Debts {
            woken: Woken::all(alloc, count)?,
            notes: Vec::new(alloc),
            lasting: count,
        })
    }

    /// The first part that is woken.
    pub fn first(&mut self) -> Option<usize>
        ensures same { self.new ≡ self.old }
        ensures first { MatchOption result ((k : ℕ) → get_or self.old.now k false ≡ false) (IsFirstWoken self.old.now) }
    {
        self.woken.first()
    }

    /// Leaves the present point. Want of memory leaves all as it was.
    pub fn leave(&mut self) -> Result<(), Memory>
        ensures left { OnOk result (self.new ≡ left self.old) }
        ensures unchanged { OnErr result (self.new ≡ self.old) }
    {
        self.notes.push(Note::Left)?;
        Ok(())
    }

    /// Wakes a part, and notes whether it was woken. Want of memory leaves all as it was.
    pub fn touch(&mut self, place: usize) -> Result<(), Memory>
        requires { place < length self.old.now }
        ensures touched { OnOk result (self.new ≡ touched self.old place) }
        ensures unchanged { OnErr result (self.new ≡ self.old) }
    {
        let woken = self.woken.is_woken(place);
        self.notes.push(Note::Was { place, woken })?;
        self.woken.wake(place);
        Ok(())
    }

    /// Wakes the parts at these places. Want of memory leaves some of them done.
    pub fn touch_each(&mut self, places: &[usize]) -> Result<(), Memory>
        requires { Each (λ k. k < length self.old.now) places.now }
        ensures { IsTouched self.old self.new (λ done. OnOk result (done ≡ places.now)) }
    {
        for place in places {
            self.touch(*place)?;
        }
        Ok(())
    }

    /// Puts a part to rest that is woken. Want of memory leaves all as it was.
    pub fn rest(&mut self, place: usize) -> Result<(), Memory>
        requires there { place < length self.old.now }
        requires awake { get_or self.old.now place false ≡ true }
        ensures rested { OnOk result (self.new ≡ rested self.old place) }
        ensures unchanged { OnErr result (self.new ≡ self.old) }
    {
        if place >= self.lasting {
            self.notes.push(Note::Was { place, woken: true })?;
        }
        self.woken.rest(place);
        Ok(())
    }

    /// Goes back to the point that was left last.
    pub fn back(&mut self)
        ensures { self.new ≡ gone self.old.lasting self.old.notes self.old.now }
    {
        while let Some(Note::Was { place, woken }) = self.notes.pop() {
            self.woken.set(place, woken);
        }
    }

    /// One part more, which is woken.
    pub fn push(&mut self) -> Result<(), Memory>
        ensures pushed { OnOk result (self.new.now ≡ self.old.now ++ true ∷ []) }
        ensures notes { self.new.notes ≡ self.old.notes }
        ensures lasting { self.new.lasting ≡ self.old.lasting }
        ensures unchanged { OnErr result (self.new.now ≡ self.old.now) }
    {
        self.woken.push()
    }

    /// Without the last part.
    pub fn pop(&mut self)
        ensures now { (woken : List Bool) → (last : Bool) → self.old.now ≡ woken ++ last ∷ [] → self.new.now ≡ woken }
        ensures notes { self.new.notes ≡ self.old.notes }
        ensures lasting { self.new.lasting ≡ self.old.lasting }
    {
        self.woken.pop();
    }

    /// So many parts, with no point before: the first ones as they were, and any others woken. Want of
    /// memory leaves all as it was.
    pub fn resize(&mut self, count: usize) -> Result<(), Memory>
        ensures count { OnOk result (length self.new.now ≡ count) }
        ensures lasting { OnOk result (self.new.lasting ≡ count) }
        ensures notes { OnOk result (self.new.notes ≡ []) }
        ensures kept { (k : ℕ) → get_or self.new.now k true ≡ false → get_or self.old.now k true ≡ false }
        ensures unchanged { OnErr result (self.new ≡ self.old) }
    {
        resize(&mut self.woken, count)?;
        self.notes.clear();
        self.lasting = count;
        Ok(())
    }
}
