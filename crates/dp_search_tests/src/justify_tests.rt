ghost use Rattle.dp_scaffold.specs.Scaffolds.{IsScaffoldOf};

use crate::models::{DIFFERENT, NONE, Used, is_atom, problem_of};
use crate::process_tests::scaffold_of;
use dp_base::Memory;
use dp_domain::{Atom, Op};
use dp_engine::{Engine, Index};
use dp_justify::{Kept, PartId, Piece, justify};
use dp_parts::Problem;
use dp_scaffold::Scaffold;
use std::alloc::Global;
use std::test::Fail;

/// A kept turn: the part that gives it, its explanation, and its atom.
type Step = (PartId, &'static [Used], Option<Used>);

/// The steps of a justification, and the places of the nogoods that they use.
type Justified = (&'static [Step], &'static [u32]);

const FIRST: PartId = PartId::Model {
    constraint: 0,
    part: 0,
};

const SECOND: PartId = PartId::Model {
    constraint: 1,
    part: 0,
};

const NONE_STEPS: &[Step] = &[
    (FIRST, &[], Some((0, Op::Le, 2))),
    (FIRST, &[], Some((1, Op::Le, 2))),
    (SECOND, &[(1, Op::Le, 2)], Some((0, Op::Ge, 1))),
    (FIRST, &[(0, Op::Ge, 1)], Some((1, Op::Le, 1))),
    (SECOND, &[(1, Op::Le, 1)], Some((0, Op::Ge, 2))),
    (FIRST, &[(0, Op::Ge, 2)], Some((1, Op::Le, 0))),
    (SECOND, &[(0, Op::Le, 2), (1, Op::Le, 0)], None),
];

/// One bound, of the first of four variables.
const BOUND: &str =
    "var 0..3: a;\nvar 0..3: b;\nvar 0..3: c;\nvar 0..3: d;\nconstraint int_le(a,0);\nsolve satisfy;\n";

const BOUND_TEXT: &str =
    "a 1 [c >= 1]\na 2 [a <= 0]\na 3 [b >= 1]\na 4 [d >= 1]\nn 1 1\nn 2 2 3\nn 3 -3 4\nn 4 4\nc UNSAT\n";

const BOUND_STEPS: &[Step] = &[
    (FIRST, &[], Some((0, Op::Le, 0))),
    (PartId::Nogood(1), &[(0, Op::Le, 0)], Some((1, Op::Le, 0))),
    (PartId::Nogood(2), &[(1, Op::Le, 0), (3, Op::Ge, 1)], None),
];

/// A name, a model, a scaffold, the place of a nogood, and its justification if there is one.
const ROWS: &[(&str, &str, &str, usize, Option<Justified>)] = &[
    (
        "two inequalities",
        NONE,
        "c UNSAT\n",
        0,
        Some((NONE_STEPS, &[])),
    ),
    ("what does not follow", DIFFERENT, "c UNSAT\n", 0, None),
    (
        "atoms that no value meets",
        DIFFERENT,
        "a 1 [w >= 2]\nn 1 1 -1\nc UNSAT\n",
        0,
        Some((&[], &[])),
    ),
    (
        "nogoods that are used",
        BOUND,
        BOUND_TEXT,
        3,
        Some((BOUND_STEPS, &[1, 2])),
    ),
    ("what two nogoods leave open", BOUND, BOUND_TEXT, 4, None),
];

/// Justifies the nogood of a scaffold at a place.
fn justified(problem: &Problem, scaffold: &Scaffold, place: usize) -> Result<Option<Piece>, Memory>
    requires { IsScaffoldOf problem.now scaffold.now }
{
    let nogoods = scaffold.nogoods();
    if place >= nogoods.len() {
        return Err(Memory);
    }
    let alloc = problem.initial().allocator();
    let index = Index::new(alloc, problem, nogoods)?;
    let mut engine = Engine::new(alloc, &index)?;
    justify(&index, &mut engine, place)
}

/// The same of the texts of a model and a scaffold.
fn justified_of(
    alloc: Global,
    model: &str,
    text: &str,
    place: usize,
) -> Result<Option<Piece>, Memory> {
    let problem = problem_of(alloc, model)?;
    let scaffold = scaffold_of(alloc, &problem, text)?;
    justified(&problem, &scaffold, place)
}

fn are_atoms(atoms: &[Atom], used: &[Used]) -> bool {
    atoms.len() == used.len()
        && atoms
            .iter()
            .zip(used)
            .all(|(atom, used)| is_atom(atom, used))
}

fn is_step(step: &Kept, wanted: &Step) -> bool {
    let (source, premises, consequent) = wanted;
    let concludes = match (&step.consequent, consequent) {
        (Some(atom), Some(used)) => is_atom(atom, used),
        (None, None) => true,
        _ => false,
    };
    step.source == *source && are_atoms(step.premises.as_slice(), *premises) && concludes
}

fn is_piece(piece: &Option<Piece>, wanted: &Option<Justified>) -> bool {
    match (piece, wanted) {
        (Some(piece), Some((steps, uses))) => {
            let kept = piece.steps.as_slice();
            kept.len() == steps.len()
                && kept
                    .iter()
                    .zip(*steps)
                    .all(|(step, wanted)| is_step(step, wanted))
                && piece.uses.as_slice() == *uses
        }
        (None, None) => true,
        _ => false,
    }
}

#[test]
fn nogoods_are_justified(rt: HostRuntime) -> Result<(), Fail> {
    for (name, model, text, place, wanted) in ROWS {
        let piece = justified_of(rt.alloc(), *model, *text, *place)?;
        assert!(rt; is_piece(&piece, wanted), "{name}: {piece:?}");
    }
    Ok(())
}

fn crosses_threads<T: Send + Sync>(_value: &T) {}

#[test]
fn problems_and_pieces_cross_threads(rt: HostRuntime) -> Result<(), Fail> {
    let problem = problem_of(rt.alloc(), NONE)?;
    crosses_threads(&problem);
    let piece = justified_of(rt.alloc(), NONE, "c UNSAT\n", 0)?;
    crosses_threads(&piece);
    if problem.constraint_count() > 0 {
        for part in problem.parts_of(0) {
            crosses_threads(part);
        }
    }
    Ok(())
}
