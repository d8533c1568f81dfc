// The variables of up to three terms, without memory.

ghost use Rattle.std.specs.Prelude.{◌≡◌, ◌<◌, ◌≤◌, ◌+◌, ◌∷◌, [], Some, length, slice_get};
ghost use Rattle.dp_base.specs.Scopes.{with_variable};
ghost use Rattle.dp_domain.specs.Terms.{term_scope};
ghost use Rattle.dp_rule_arith.specs.Scopes.{listed, with_term};

use crate::{Term, VarId};

/// Up to three variables, in order of declaration.
#[derive(Clone, Copy, Debug)]
pub enum Scope {
    Zero,
    One(VarId),
    Two(VarId, VarId),
    Three(VarId, VarId, VarId),
}

impl Scope {
    /// The variables of the terms, each once, in order of declaration.
    pub fn new(a: Term, b: Term, c: Term) -> Scope
        ensures { listed result ≡ term_scope (a ∷ b ∷ c ∷ []) }
    {
        Scope::Zero.with(c).with(b).with(a)
    }

    /// The term's variable too, if it is one.
    fn with(self, term: Term) -> Scope
        requires few { length (listed self) < 3 }
        ensures listed { listed result ≡ with_term term (listed self) }
        ensures few { length (listed result) ≤ length (listed self) + 1 }
    {
        match term {
            Term::Var(var) => self.with_variable(var),
            Term::Const(_) => self,
        }
    }

    /// The variable too, in its place.
    fn with_variable(self, var: VarId) -> Scope
        requires few { length (listed self) < 3 }
        ensures listed { listed result ≡ with_variable var (listed self) }
        ensures few { length (listed result) ≤ length (listed self) + 1 }
    {
        match self {
            Scope::Zero => Scope::One(var),
            Scope::One(own) => Scope::with_one(own, var),
            Scope::Two(first, last) => Scope::with_two(first, last, var),
            Scope::Three(_, _, _) => self,
        }
    }

    /// The variable and one other.
    fn with_one(own: VarId, var: VarId) -> Scope
        ensures listed { listed result ≡ with_variable var (own ∷ []) }
    {
        if var < own {
            Scope::Two(var, own)
        } else if own < var {
            Scope::Two(own, var)
        } else {
            Scope::One(own)
        }
    }

    /// The variable and two others.
    fn with_two(first: VarId, last: VarId, var: VarId) -> Scope
        ensures listed { listed result ≡ with_variable var (first ∷ last ∷ []) }
    {
        if var < first {
            Scope::Three(var, first, last)
        } else if first < var {
            if var < last {
                Scope::Three(first, var, last)
            } else if last < var {
                Scope::Three(first, last, var)
            } else {
                Scope::Two(first, last)
            }
        } else {
            Scope::Two(first, last)
        }
    }

    /// How many they are.
    pub fn len(self) -> usize
        ensures { result ≡ length (listed self) }
    {
        match self {
            Scope::Zero => 0,
            Scope::One(_) => 1,
            Scope::Two(_, _) => 2,
            Scope::Three(_, _, _) => 3,
        }
    }

    /// The variable at a place.
    pub fn at(self, place: usize) -> VarId
        requires { place < length (listed self) }
        ensures { slice_get (listed self) place ≡ Some result }
    {
        match self {
            Scope::Zero => VarId(0),
            Scope::One(own) => own,
            Scope::Two(first, last) => if place == 0 { first } else { last },
            Scope::Three(first, middle, last) => {
                if place == 0 {
                    first
                } else if place == 1 {
                    middle
                } else {
                    last
                }
            }
        }
    }
}
