//! Looking up a name by its bytes.

ghost use Rattle.std.specs.Prelude.{◌≡◌, nat_eq};
ghost use Rattle.std.proofs.Common.{rules};
ghost use Rattle.std.specs.Cmp.{on_equiv, partial_equiv_from_equiv};
ghost use Rattle.std.specs.Cmp.Lexicographic.{nat_list_eq_equiv, pointwise};
ghost use Rattle.std.specs.Cmp.Rules.{hashing};
ghost use Rattle.std.specs.Hash as fed;

use dp_base::Name;
use indexmap::Equivalent;
use std::hash::{Hash, Hasher};

/// The bytes of a name that is looked for.
#[derive(Clone, Copy)]
pub(crate) struct Spelled<'a> {
    bytes: &'a [u8],
}

impl<'a> Spelled<'a> {
    /// These bytes.
    pub(crate) fn new(bytes: &'a [u8]) -> Spelled<'a>
        ensures { result.bytes.now ≡ bytes.now }
    {
        Spelled { bytes }
    }
}

impl PartialEq for Spelled<'_> {
    ghost eq = { λ a b. pointwise nat_eq a.bytes.now b.bytes.now };

    ghost laws = { partial_equiv_from_equiv (on_equiv (λ s. s.bytes.now) nat_list_eq_equiv) };

    fn eq(&self, other: &Self) -> bool {
        self.bytes == other.bytes
    }
}

impl Eq for Spelled<'_> {
    ghost laws = { on_equiv (λ s. s.bytes.now) nat_list_eq_equiv };
}

impl Hash for Spelled<'_> {
    ghost hash_input = { λ s. fed.slice fed.u8 s.bytes.now };

    ghost respects_eq = { Prim.search (hashing, rules) };

    fn hash<H: Hasher>(&self, state: &mut H) {
        self.bytes.hash(state);
    }
}

impl Equivalent<Name> for Spelled<'_> {
    ghost equivalent = { λ s. pointwise nat_eq s.bytes.now };

    ghost respects_hash = { Prim.search (hashing, rules) };

    ghost respects_eq = { λ s. nat_list_eq_equiv.congr s.bytes.now };

    fn equivalent(&self, key: &Name) -> bool {
        self.bytes == key.bytes()
    }
}
