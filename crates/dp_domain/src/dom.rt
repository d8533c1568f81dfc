// Finite sets of integers.

ghost use Rattle.std.specs.Prelude.{◌≡◌, ◌↔◌, IfOk, OnErr, OnOk, IsTrue, true, not, filter, int_le};
ghost use Rattle.std.specs.List.{list_all};
ghost use Rattle.std.specs.Option.{option_map_or};
ghost use Rattle.dp_base.specs.Lists.{Among, Each};
ghost use Rattle.dp_domain.specs.Atoms.{meets};
ghost use Rattle.dp_domain.specs.Explanations.{is_hole};
ghost use Rattle.dp_domain.specs.Sets.{AreApart, Collects, IsDomain, IsSmall, LiesBetween, LiesInOne, greatest, intervals_of, is_among, least, share};
ghost use Rattle.dp_domain.specs.States.{fails_one, is_nil};

use crate::intervals::{
    common, failing, from, gaps_from, merged, met, numbers, outside, reach, share, single, up_to,
};
use crate::{Atom, Memory, Op, VarId};
use smallvec::SmallVec;
use std::alloc::Global;
use std::marker::Model;

/// A finite set of integers within ±10^9, seen as its values in ascending order. It is kept as its maximal
/// intervals in ascending order, each by its first and its last number; up to two lie in the set's own place.
#[derive(Debug, Drop)]
pub struct Dom {
    intervals: SmallVec<(i64, i64), 2>,
}

impl Model for Dom {
    ghost use Rattle.std.specs.Prelude.{List, ℤ};
    ghost use Rattle.dp_domain.specs.Sets.{AreMaximal, expand};

    ghost Value = { List ℤ };

    ghost view = { λ d. expand d.intervals.items };

    ghost invariant = { λ d. AreMaximal d.intervals.items };
}

impl Dom {
    /// The numbers from the first to the last; none where the first exceeds the last.
    pub fn range(alloc: Global, first: i64, last: i64) -> Result<Dom, Memory>
        requires first { IsSmall first }
        requires last { IsSmall last }
        ensures domain { IfOk result IsDomain }
        ensures numbers { IfOk result (λ d. Collects d (LiesBetween (first, last))) }
    {
        let intervals = single(alloc, first, last)?;
        Ok(Dom { intervals })
    }

    /// The numbers of the intervals, each given by its first and its last number. One whose first
    /// exceeds its last adds nothing.
    pub fn of(alloc: Global, intervals: &[(i64, i64)]) -> Result<Dom, Memory>
        requires { Each (λ ends. IsSmall ends.0 × IsSmall ends.1) intervals.now }
        ensures domain { IfOk result IsDomain }
        ensures numbers { IfOk result (λ d. Collects d (LiesInOne intervals.now)) }
    {
        let given = SmallVec::from_slice(alloc, intervals)?;
        let intervals = merged(given)?;
        Ok(Dom { intervals })
    }

    /// Another set of the same numbers.
    pub fn copy(&self) -> Result<Dom, Memory>
        ensures { IfOk result (λ d. d ≡ self.now) }
    {
        let alloc = *self.intervals.allocator();
        let intervals = SmallVec::from_slice(alloc, self.intervals.as_slice())?;
        Ok(Dom { intervals })
    }

    /// Whether it has no number.
    pub fn is_empty(&self) -> bool
        ensures { result ≡ is_nil self.now }
    {
        self.intervals.is_empty()
    }

    /// The least number; None exactly where there is none.
    pub fn lower(&self) -> Option<i64>
        ensures least { result ≡ least self.now }
        ensures domain { IsDomain self.now }
    {
        let (first, _) = self.intervals.first()?;
        Some(*first)
    }

    /// The greatest number; None exactly where there is none.
    pub fn upper(&self) -> Option<i64>
        ensures greatest { result ≡ greatest self.now }
        ensures domain { IsDomain self.now }
    {
        let (_, last) = self.intervals.last()?;
        Some(*last)
    }

    /// The least number that is this value or more; None exactly where there is none.
    pub fn least_from(&self, value: i64) -> Option<i64>
        ensures { result ≡ least (filter (int_le value) self.now) }
    {
        let (first, _) = from(self.intervals.as_slice(), value).first()?;
        Some((*first).max(value))
    }

    /// The greatest number that is this value or less; None exactly where there is none.
    pub fn greatest_to(&self, value: i64) -> Option<i64>
        ensures { result ≡ greatest (filter (λ v. int_le v value) self.now) }
    {
        let (_, last) = up_to(self.intervals.as_slice(), value).last()?;
        Some((*last).min(value))
    }

    /// Its numbers in ascending order.
    pub(crate) fn values(&self) -> Result<Vec<i64>, Memory>
        ensures values { IfOk result (λ values. values.items ≡ self.now) }
        ensures domain { IfOk result (λ values. IsDomain values.items) }
    {
        numbers(*self.intervals.allocator(), self.intervals.as_slice())
    }

    /// Whether the number is in the set.
    pub fn has(&self, number: i64) -> bool
        ensures { IsTrue result ↔ Among number self.now }
    {
        reach(self.intervals.as_slice(), (number, number))
    }

    /// Whether each number of the set, as the value of the atom's variable, meets the atom.
    pub fn entails(&self, atom: Atom) -> bool
        ensures { result ≡ list_all (meets atom) self.now }
    {
        let value = atom.value();
        match atom.op() {
            Op::Ge => is_from(self.lower(), value),
            Op::Le => is_up_to(self.upper(), value),
            Op::Eq => is_from(self.lower(), value) && is_up_to(self.upper(), value),
            Op::Ne => !self.has(value),
        }
    }

    /// Keeps the numbers that meet the atom, and answers whether others were there. Want of memory
    /// leaves the set as it was.
    pub fn exclude(&mut self, atom: Atom) -> Result<bool, Memory>
        ensures kept { OnOk result (self.new ≡ filter (meets atom) self.old) }
        ensures changed { IfOk result (λ changed. changed ≡ not (list_all (meets atom) self.old)) }
        ensures err { OnErr result (self.new ≡ self.old) }
    {
        if self.entails(atom) {
            return Ok(false);
        }
        *self = self.meeting(atom)?;
        Ok(true)
    }

    /// Its numbers that meet the atom.
    pub(crate) fn meeting(&self, atom: Atom) -> Result<Dom, Memory>
        ensures { IfOk result (λ d. d ≡ filter (meets atom) self.now) }
    {
        let intervals = met(*self.intervals.allocator(), self.intervals.as_slice(), atom)?;
        Ok(Dom { intervals })
    }

    /// Takes out the numbers that, as the variable's value, meet each of the atoms on it. Want of memory
    /// leaves the set as it was.
    pub fn refute(&mut self, var: VarId, atoms: &[Atom]) -> Result<(), Memory>
        ensures kept { OnOk result (self.new ≡ filter (fails_one var atoms.now) self.old) }
        ensures err { OnErr result (self.new ≡ self.old) }
    {
        *self = self.failing_one(var, atoms)?;
        Ok(())
    }

    /// Its numbers that, as the variable's value, fail one of the atoms on it.
    pub(crate) fn failing_one(&self, var: VarId, atoms: &[Atom]) -> Result<Dom, Memory>
        ensures { IfOk result (λ d. d ≡ filter (fails_one var atoms.now) self.now) }
    {
        let kept = failing(
            *self.intervals.allocator(),
            self.intervals.as_slice(),
            var,
            atoms,
        )?;
        let intervals = merged(kept)?;
        Ok(Dom { intervals })
    }

    /// The numbers of the other set strictly between this set's bounds that this set lacks.
    pub(crate) fn holes(&self, initial: &Dom) -> Result<Dom, Memory>
        ensures { IfOk result (λ holes. holes ≡ filter (is_hole self.now) initial.now) }
    {
        let alloc = *self.intervals.allocator();
        let start = self.lower().unwrap_or(0);
        let gaps = gaps_from(alloc, start, self.intervals.as_slice())?;
        let intervals = common(alloc, initial.intervals.as_slice(), gaps.as_slice())?;
        Ok(Dom { intervals })
    }

    /// Its numbers that are also in the other set.
    pub fn common(&self, other: &Dom) -> Result<Dom, Memory>
        ensures numbers { IfOk result (λ d. d ≡ filter (λ v. is_among v other.now) self.now) }
        ensures domain { IfOk result IsDomain }
    {
        let alloc = *self.intervals.allocator();
        let intervals = common(alloc, self.intervals.as_slice(), other.intervals.as_slice())?;
        Ok(Dom { intervals })
    }

    /// Its numbers that are not in the other set.
    pub fn without(&self, other: &Dom) -> Result<Dom, Memory>
        ensures numbers { IfOk result (λ d. d ≡ filter (λ v. not (is_among v other.now)) self.now) }
        ensures domain { IfOk result IsDomain }
    {
        let alloc = *self.intervals.allocator();
        let outside = outside(alloc, other.intervals.as_slice())?;
        let intervals = common(alloc, self.intervals.as_slice(), outside.as_slice())?;
        Ok(Dom { intervals })
    }

    /// Its maximal intervals in ascending order, each as its first and its last number.
    pub fn intervals(&self, alloc: Global) -> Result<Vec<(i64, i64)>, Memory>
        ensures intervals { IfOk result (λ intervals. intervals.items ≡ intervals_of self.now) }
        ensures numbers { IfOk result (λ intervals. Collects self.now (LiesInOne intervals.items)) }
        ensures apart { IfOk result (λ intervals. AreApart intervals.items) }
    {
        Ok(Vec::from_slice(alloc, self.intervals.as_slice())?)
    }

    /// Whether some number is in both sets.
    pub fn shares(&self, other: &Dom) -> bool
        ensures { result ≡ share self.now other.now }
    {
        share(self.intervals.as_slice(), other.intervals.as_slice())
    }
}

/// Whether there is no least number, or it is the value or more.
fn is_from(lower: Option<i64>, value: i64) -> bool
    ensures { result ≡ option_map_or (λ number. int_le value number) lower true }
{
    match lower {
        Some(number) => value <= number,
        None => true,
    }
}

/// Whether there is no greatest number, or it is the value or less.
fn is_up_to(upper: Option<i64>, value: i64) -> bool
    ensures { result ≡ option_map_or (λ number. int_le number value) upper true }
{
    match upper {
        Some(number) => number <= value,
        None => true,
    }
}
