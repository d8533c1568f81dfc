// The explanation of a turn, by the part that gave it.

ghost use Rattle.std.specs.Prelude.{◌≡◌, IfOk};
ghost use Rattle.dp_domain.specs.Explanations.{explanation};
ghost use Rattle.dp_parts.specs.Problems.{posed};
ghost use Rattle.dp_justify.specs.Taking.{IsRunTurn, seen_at, source_face};

use crate::PartId;
use crate::turns::RunTurn;
use dp_domain::{Atom, Memory, Rule, Scratch, State};
use dp_parts::Problem;
use dp_rule_clause::Nogood;

/// Why the turn's part gives it at the state before it: atoms that suffice at the initial domains.
pub(crate) fn explain(
    problem: &Problem,
    nogoods: &[Nogood],
    work: &mut Scratch,
    before: &State,
    turn: &RunTurn,
) -> Result<Vec<Atom>, Memory>
    requires turn { IsRunTurn (posed problem.now) nogoods.now (seen_at before.now turn.now) }
    requires base { work.old.base ≡ problem.now.initial }
    ensures base { work.new.base ≡ problem.now.initial }
    ensures explanation { IfOk result (λ atoms. atoms.items ≡ explanation (source_face (posed problem.now) nogoods.now turn.now.source) problem.now.initial before.now turn.now.target) }
{
    let initial = problem.initial();
    match turn.source {
        PartId::Model { constraint, part } => {
            let parts = problem.parts_of(constraint as usize);
            parts[part as usize].explain(initial, work, before, turn.target)
        }
        PartId::Nogood(place) => nogoods[place as usize].explain(
            initial,
            work,
            before,
            turn.target,
        ),
    }
}
