// Atomic constraints.

ghost use Rattle.std.specs.Prelude.{◌≡◌, ◌↔◌, IsSome, IfSome, pos};
ghost use Rattle.dp_domain.specs.declared.atom.Op.TheVariants.{Ge};
ghost use Rattle.dp_domain.specs.Atoms.{Atomic, IsNameable, meets, negated, opposite};
ghost use Rattle.dp_domain.specs.Sets.{IsSmall};

use std::marker::Model;

/// A variable, by its place in the order of declaration.
#[derive(Clone, Copy, Debug, Default, PartialEq, Eq, PartialOrd, Ord, Hash)]
pub struct VarId(pub u32);

impl Model for VarId {
    ghost use Rattle.std.specs.Prelude.{ℕ};

    ghost Value = { ℕ };

    ghost view = { λ v. v.0 };

    ghost inverse = { λ n. record { 0 = n } };
}

/// How an atom compares its variable with its number.
#[derive(Clone, Copy, Debug, PartialEq, Eq, PartialOrd, Ord)]
pub enum Op {
    Ge,
    Le,
    Eq,
    Ne,
}

impl Op {
    /// The comparison that holds exactly where this one fails, of the next number for an order.
    fn opposite(self) -> Op
        ensures { result ≡ opposite self }
    {
        match self {
            Op::Ge => Op::Le,
            Op::Le => Op::Ge,
            Op::Eq => Op::Ne,
            Op::Ne => Op::Eq,
        }
    }
}

/// An atomic constraint `[x >= v]`, `[x <= v]`, `[x == v]` or `[x != v]`. It names no number whose
/// negation could not be named too. Atoms are ordered by variable, comparison and number.
#[derive(Clone, Copy, Debug, PartialEq, Eq, PartialOrd, Ord)]
pub struct Atom {
    var: VarId,
    op: Op,
    value: i64,
}

impl Model for Atom {
    ghost use Rattle.dp_domain.specs.Atoms.{Atomic, IsNameable};

    ghost Value = { Atomic };

    ghost view = { λ a. record { var = a.var; op = a.op; value = a.value } };

    ghost invariant = { λ a. IsNameable a.op a.value };

    ghost inverse = { λ a. record { var = a.var; op = a.op; value = a.value } };
}

impl Default for Atom {
    ghost is_default = { λ a. a ≡ record { var = 0; op = Ge; value = pos 0 } };

    /// The atom `[x >= 0]` of the first variable.
    fn default() -> Atom {
        Atom {
            var: VarId(0),
            op: Op::Ge,
            value: 0,
        }
    }
}

const LARGEST: i64 = 1_000_000_000_000_000_000;

impl Atom {
    /// The atom, or None exactly where its number can't be named: beyond ±10^18, and for `>=` the
    /// least and for `<=` the greatest of these.
    pub fn new(var: VarId, op: Op, value: i64) -> Option<Atom>
        ensures nameable { IsSome result ↔ IsNameable op value }
        ensures atom { IfSome result (λ a. a ≡ record { var = var; op = op; value = value }) }
    {
        let (least, greatest) = match op {
            Op::Ge => (-LARGEST + 1, LARGEST),
            Op::Le => (-LARGEST, LARGEST - 1),
            Op::Eq | Op::Ne => (-LARGEST, LARGEST),
        };
        if least <= value && value <= greatest {
            Some(Atom { var, op, value })
        } else {
            None
        }
    }

    /// The atom on a number within ±10^9.
    pub(crate) fn small(var: VarId, op: Op, value: i64) -> Atom
        requires { IsSmall value }
        ensures { result ≡ record { var = var; op = op; value = value } }
    {
        Atom { var, op, value }
    }

    /// The atom that holds exactly where this one fails.
    pub fn negated(self) -> Atom
        ensures { result ≡ negated self }
    {
        let value = match self.op {
            Op::Ge => self.value - 1,
            Op::Le => self.value + 1,
            Op::Eq | Op::Ne => self.value,
        };
        Atom {
            var: self.var,
            op: self.op.opposite(),
            value,
        }
    }

    /// Its variable.
    pub fn var(&self) -> VarId
        ensures { result ≡ self.now.var }
    {
        self.var
    }

    /// Its comparison.
    pub fn op(&self) -> Op
        ensures { result ≡ self.now.op }
    {
        self.op
    }

    /// Its number.
    pub fn value(&self) -> i64
        ensures value { result ≡ self.now.value }
        ensures nameable { IsNameable self.now.op self.now.value }
    {
        self.value
    }

    /// Whether the number, as the value of the variable, meets the atom.
    pub fn meets(&self, number: i64) -> bool
        ensures { result ≡ meets self.now number }
    {
        match self.op {
            Op::Ge => number >= self.value,
            Op::Le => number <= self.value,
            Op::Eq => number == self.value,
            Op::Ne => number != self.value,
        }
    }
}
