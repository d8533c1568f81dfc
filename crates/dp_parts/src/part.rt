// The parts of constraints, one variant for each kind.

ghost use Rattle.std.specs.Prelude.{◌≡◌, ◌<◌, Some, IfOk, length, slice_get};
ghost use Rattle.dp_domain.specs.Faces.{Covers};
ghost use Rattle.dp_parts.specs.Parts.{ClashesPart, MeetsPart, face_of, label_of};
ghost use Rattle.dp_parts.specs.PartLaws.{part_deciding, part_exact, part_lawful, part_sound};

use dp_domain::{Atom, Found, Memory, Rule, Scratch, State, Steps, Test, VarId};
use dp_rule_alldiff::AllDiff;
use dp_rule_arith::{Absolute, Greatest, Least, Times};
use dp_rule_clause::{Nogood, Within};
use dp_rule_cumulative::Cumulative;
use dp_rule_element::Element;
use dp_rule_linear::{LinLe, LinNe};
use std::marker::Model;
use std::sync::ledger::Ledger;

/// A part of a constraint.
#[derive(Debug, Drop)]
pub enum Part {
    LinLe(LinLe),
    LinNe(LinNe),
    Nogood(Nogood),
    Within(Within),
    Element(Element),
    Cumulative(Cumulative),
    AllDiff(AllDiff),
    Times(Times),
    Greatest(Greatest),
    Least(Least),
    Absolute(Absolute),
}

impl Test for Part {
    ghost face = { face_of };

    ghost clashes = { ClashesPart };

    ghost meets = { MeetsPart };

    fn scope_len(&self) -> usize {
        match self {
            Part::LinLe(part) => part.scope_len(),
            Part::LinNe(part) => part.scope_len(),
            Part::Nogood(part) => part.scope_len(),
            Part::Within(part) => part.scope_len(),
            Part::Element(part) => part.scope_len(),
            Part::Cumulative(part) => part.scope_len(),
            Part::AllDiff(part) => part.scope_len(),
            Part::Times(part) => part.scope_len(),
            Part::Greatest(part) => part.scope_len(),
            Part::Least(part) => part.scope_len(),
            Part::Absolute(part) => part.scope_len(),
        }
    }

    fn scope_at(&self, place: usize) -> VarId {
        match self {
            Part::LinLe(part) => part.scope_at(place),
            Part::LinNe(part) => part.scope_at(place),
            Part::Nogood(part) => part.scope_at(place),
            Part::Within(part) => part.scope_at(place),
            Part::Element(part) => part.scope_at(place),
            Part::Cumulative(part) => part.scope_at(place),
            Part::AllDiff(part) => part.scope_at(place),
            Part::Times(part) => part.scope_at(place),
            Part::Greatest(part) => part.scope_at(place),
            Part::Least(part) => part.scope_at(place),
            Part::Absolute(part) => part.scope_at(place),
        }
    }

    fn is_point(&self, var: VarId, value: i64) -> bool {
        match self {
            Part::LinLe(part) => part.is_point(var, value),
            Part::LinNe(part) => part.is_point(var, value),
            Part::Nogood(part) => part.is_point(var, value),
            Part::Within(part) => part.is_point(var, value),
            Part::Element(part) => part.is_point(var, value),
            Part::Cumulative(part) => part.is_point(var, value),
            Part::AllDiff(part) => part.is_point(var, value),
            Part::Times(part) => part.is_point(var, value),
            Part::Greatest(part) => part.is_point(var, value),
            Part::Least(part) => part.is_point(var, value),
            Part::Absolute(part) => part.is_point(var, value),
        }
    }

    fn clash(&self, state: &State) -> Result<bool, Memory> {
        match self {
            Part::LinLe(part) => part.clash(state),
            Part::LinNe(part) => part.clash(state),
            Part::Nogood(part) => part.clash(state),
            Part::Within(part) => part.clash(state),
            Part::Element(part) => part.clash(state),
            Part::Cumulative(part) => part.clash(state),
            Part::AllDiff(part) => part.clash(state),
            Part::Times(part) => part.clash(state),
            Part::Greatest(part) => part.clash(state),
            Part::Least(part) => part.clash(state),
            Part::Absolute(part) => part.clash(state),
        }
    }

    ghost exact = { part_exact };

    ghost lawful = { part_lawful };

    ghost sound = { part_sound };

    ghost deciding = { part_deciding };
}

impl Rule for Part {
    fn next<L: Ledger>(
        &self,
        state: &State,
        steps: &mut Steps<L>,
    ) -> Result<Option<Found>, Memory> {
        match self {
            Part::LinLe(part) => part.next(state, steps),
            Part::LinNe(part) => part.next(state, steps),
            Part::Nogood(part) => part.next(state, steps),
            Part::Within(part) => part.next(state, steps),
            Part::Element(part) => part.next(state, steps),
            Part::Cumulative(part) => part.next(state, steps),
            Part::AllDiff(part) => part.next(state, steps),
            Part::Times(part) => part.next(state, steps),
            Part::Greatest(part) => part.next(state, steps),
            Part::Least(part) => part.next(state, steps),
            Part::Absolute(part) => part.next(state, steps),
        }
    }

    fn explain(
        &self,
        initial: &State,
        work: &mut Scratch,
        now: &State,
        target: Option<Atom>,
    ) -> Result<Vec<Atom>, Memory> {
        match self {
            Part::LinLe(part) => part.explain(initial, work, now, target),
            Part::LinNe(part) => part.explain(initial, work, now, target),
            Part::Nogood(part) => part.explain(initial, work, now, target),
            Part::Within(part) => part.explain(initial, work, now, target),
            Part::Element(part) => part.explain(initial, work, now, target),
            Part::Cumulative(part) => part.explain(initial, work, now, target),
            Part::AllDiff(part) => part.explain(initial, work, now, target),
            Part::Times(part) => part.explain(initial, work, now, target),
            Part::Greatest(part) => part.explain(initial, work, now, target),
            Part::Least(part) => part.explain(initial, work, now, target),
            Part::Absolute(part) => part.explain(initial, work, now, target),
        }
    }
}

/// The label of the part's kind, as logs name it.
pub fn label(part: &Part) -> &'static str
    ensures { result.now ≡ label_of part.now }
{
    match part {
        Part::LinLe(_) => "linear",
        Part::LinNe(_) => "not_equal",
        Part::Nogood(_) => "clause",
        Part::Within(_) => "domain",
        Part::Element(_) => "element",
        Part::Cumulative(_) => "time_table",
        Part::AllDiff(_) => "all_different",
        Part::Times(_) => "times",
        Part::Greatest(_) => "maximum",
        Part::Least(_) => "minimum",
        Part::Absolute(_) => "absolute",
    }
}

/// The parts of one constraint, in order.
#[derive(Debug, Drop)]
pub struct Parts {
    items: Vec<Part>,
}

impl Model for Parts {
    ghost use Rattle.std.specs.Prelude.{List};
    ghost use Rattle.dp_parts.specs.declared.part.Part.{Part};

    ghost Value = { List Part };

    ghost view = { λ parts. parts.items.items };
}

impl Parts {
    /// These parts.
    pub fn new(items: Vec<Part>) -> Parts
        ensures { result ≡ items.items }
    {
        Parts { items }
    }

    /// The parts in order.
    pub fn as_slice(&self) -> &[Part]
        ensures { result.now ≡ self.now }
    {
        self.items.as_slice()
    }
}
