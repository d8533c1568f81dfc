//! A scaffold: learned nogoods in order, and what they are to conclude.

ghost use Rattle.std.specs.Prelude.{◌≡◌, ◌<◌, Some, length, slice_get};
ghost use Rattle.dp_scaffold.specs.Scaffolds.{IsScaffold, Learned};

use dp_domain::Verdict;
use dp_rule_clause::Nogood;
use std::marker::Model;

/// Learned nogoods in order, with the line and the number of each, and what they are to conclude. The
/// last of them is the conclusion's, which has the number 0.
#[derive(Debug, Drop)]
pub struct Scaffold {
    nogoods: Vec<Nogood>,
    lines: Vec<u64>,
    ids: Vec<u64>,
    claim: Verdict,
}

impl Model for Scaffold {
    ghost use Rattle.dp_scaffold.specs.Scaffolds.{IsScaffold, Learned};

    ghost Value = { Learned };

    ghost view = { λ s. record { nogoods = s.nogoods.items; lines = s.lines.items; ids = s.ids.items; claim = s.claim } };

    ghost invariant = { λ s. IsScaffold (record { nogoods = s.nogoods.items; lines = s.lines.items; ids = s.ids.items; claim = s.claim }) };
}

impl Scaffold {
    /// The scaffold of these nogoods, with the line and the number of each, and of this claim.
    pub fn new(nogoods: Vec<Nogood>, lines: Vec<u64>, ids: Vec<u64>, claim: Verdict) -> Scaffold
        requires { IsScaffold (record { nogoods = nogoods.items; lines = lines.items; ids = ids.items; claim = claim }) }
        ensures { result ≡ record { nogoods = nogoods.items; lines = lines.items; ids = ids.items; claim = claim } }
    {
        Scaffold {
            nogoods,
            lines,
            ids,
            claim,
        }
    }

    /// The nogoods in order.
    pub fn nogoods(&self) -> &[Nogood]
        ensures nogoods { result.now ≡ self.now.nogoods }
        ensures scaffold { IsScaffold self.now }
    {
        self.nogoods.as_slice()
    }

    /// The number of the line on which the nogood at this place stands.
    pub fn line_at(&self, place: usize) -> u64
        requires { place < length self.now.nogoods }
        ensures { slice_get self.now.lines place ≡ Some result }
    {
        self.lines[place]
    }

    /// The number that the nogood at this place has there; the conclusion's has none, which is told as 0.
    pub fn id_at(&self, place: usize) -> u64
        requires { place < length self.now.nogoods }
        ensures { slice_get self.now.ids place ≡ Some result }
    {
        self.ids[place]
    }

    /// What the nogoods are to conclude.
    pub fn claim(&self) -> Verdict
        ensures { result ≡ self.now.claim }
    {
        self.claim
    }
}
