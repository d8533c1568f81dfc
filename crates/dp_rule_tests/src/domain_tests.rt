ghost use Rattle.std.specs.Prelude.{◌≡◌, length, IfOk};

use crate::rows::{NONE, set_of};
use dp_domain::*;
use dp_trials::LARGEST;
use std::alloc::Global;
use std::test::Fail;

const BOUND: i64 = 1_000_000_000_000_000_000;

#[test]
fn atoms_and_their_negations(rt: HostRuntime) {
    for (op, value, nameable) in [
        (Op::Ge, -BOUND, false),
        (Op::Ge, -BOUND + 1, true),
        (Op::Ge, BOUND, true),
        (Op::Ge, BOUND + 1, false),
        (Op::Le, -BOUND - 1, false),
        (Op::Le, -BOUND, true),
        (Op::Le, BOUND - 1, true),
        (Op::Le, BOUND, false),
        (Op::Eq, -BOUND - 1, false),
        (Op::Eq, -BOUND, true),
        (Op::Eq, BOUND, true),
        (Op::Eq, BOUND + 1, false),
        (Op::Ne, -BOUND - 1, false),
        (Op::Ne, -BOUND, true),
        (Op::Ne, BOUND, true),
        (Op::Ne, BOUND + 1, false),
    ] {
        assert_eq!(rt;
            Atom::new(VarId(3), op, value).is_some(),
            nameable,
            "at {value}"
        );
    }
    for (op, value, opposite, beyond) in [
        (Op::Ge, 4, Op::Le, 3),
        (Op::Ge, -BOUND + 1, Op::Le, -BOUND),
        (Op::Le, -2, Op::Ge, -1),
        (Op::Le, BOUND - 1, Op::Ge, BOUND),
        (Op::Eq, 5, Op::Ne, 5),
        (Op::Ne, -6, Op::Eq, -6),
    ] {
        let negated = Atom::new(VarId(1), op, value).map(|atom| atom.negated());
        assert_eq!(rt;
            negated,
            Atom::new(VarId(1), opposite, beyond),
            "at {value}"
        );
    }
}

#[test]
fn intervals(rt: HostRuntime) -> Result<(), Fail> {
    let alloc = rt.alloc();
    let whole = Dom::range(alloc, 0, 3)?.intervals(alloc)?;
    assert_eq!(rt; whole.as_slice(), [(0, 3)].as_slice());
    let none = Dom::range(alloc, 5, 3)?;
    assert_eq!(rt; none.is_empty(), true);
    assert_eq!(rt; none.intervals(alloc)?.len(), 0);
    let apart = Dom::of(alloc, &[(0, 0), (2, 2), (5, 5)])?.intervals(alloc)?;
    assert_eq!(rt; apart.as_slice(), [(0, 0), (2, 2), (5, 5)].as_slice());
    let joined = Dom::of(alloc, &[(0, 1), (2, 4)])?.intervals(alloc)?;
    assert_eq!(rt; joined.as_slice(), [(0, 4)].as_slice());
    let mixed = Dom::of(alloc, &[(7, 9), (3, 1), (-2, 4), (0, 1), (8, 12)])?.intervals(alloc)?;
    assert_eq!(rt; mixed.as_slice(), [(-2, 4), (7, 12)].as_slice());
    for (of, union) in [
        ([(1, 3), (4, 6), (7, 7)], [(1, 7)].as_slice()),
        (
            [(1, 3), (5, 6), (8, 8)],
            [(1, 3), (5, 6), (8, 8)].as_slice(),
        ),
        ([(1, 9), (2, 3), (4, 5)], [(1, 9)].as_slice()),
        ([(5, 5), (5, 5), (5, 4)], [(5, 5)].as_slice()),
        ([(3, 1), (2, 1), (9, 0)], [].as_slice()),
        (
            [(LARGEST, LARGEST), (-LARGEST, -LARGEST), (-LARGEST + 1, 0)],
            [(-LARGEST, 0), (LARGEST, LARGEST)].as_slice(),
        ),
    ] {
        let found = set_of(alloc, of)?.intervals(alloc)?;
        assert_eq!(rt; found.as_slice(), union);
    }
    Ok(())
}

#[test]
fn cuts_of_intervals(rt: HostRuntime) -> Result<(), Fail> {
    let alloc = rt.alloc();
    let wide = [(-LARGEST, LARGEST), NONE, NONE];
    let two = [(1, 3), (7, 9), NONE];
    let none = [NONE, NONE, NONE];
    for (of, op, value, left) in [
        (wide, Op::Ge, -LARGEST, [(-LARGEST, LARGEST)].as_slice()),
        (wide, Op::Ge, LARGEST, [(LARGEST, LARGEST)].as_slice()),
        (wide, Op::Ge, LARGEST + 1, [].as_slice()),
        (wide, Op::Le, 5, [(-LARGEST, 5)].as_slice()),
        (wide, Op::Eq, 6, [(6, 6)].as_slice()),
        (wide, Op::Eq, -LARGEST - 1, [].as_slice()),
        (wide, Op::Ne, 0, [(-LARGEST, -1), (1, LARGEST)].as_slice()),
        (wide, Op::Ne, -LARGEST, [(-LARGEST + 1, LARGEST)].as_slice()),
        (wide, Op::Ne, LARGEST, [(-LARGEST, LARGEST - 1)].as_slice()),
        (two, Op::Ge, 3, [(3, 3), (7, 9)].as_slice()),
        (two, Op::Ge, 4, [(7, 9)].as_slice()),
        (two, Op::Le, 7, [(1, 3), (7, 7)].as_slice()),
        (two, Op::Le, 6, [(1, 3)].as_slice()),
        (two, Op::Eq, 8, [(8, 8)].as_slice()),
        (two, Op::Eq, 5, [].as_slice()),
        (two, Op::Ne, 5, [(1, 3), (7, 9)].as_slice()),
        (two, Op::Ne, 1, [(2, 3), (7, 9)].as_slice()),
        (two, Op::Ne, 2, [(1, 1), (3, 3), (7, 9)].as_slice()),
        (two, Op::Ne, 9, [(1, 3), (7, 8)].as_slice()),
        (none, Op::Ne, 3, [].as_slice()),
        (none, Op::Ge, 3, [].as_slice()),
    ] {
        let mut set = set_of(alloc, of)?;
        if let Some(atom) = Atom::new(VarId(0), op, value) {
            let entailed = set.entails(atom);
            let changed = set.exclude(atom)?;
            assert_eq!(rt; changed, !entailed, "at {value}");
        }
        let cut = set.intervals(alloc)?;
        assert_eq!(rt; cut.as_slice(), left, "at {value}");
    }
    Ok(())
}

#[test]
fn two_sets(rt: HostRuntime) -> Result<(), Fail> {
    let alloc = rt.alloc();
    for (one, other, answer) in [
        ([(1, 3), (7, 9), NONE], [(4, 6), (10, 12), NONE], false),
        ([(1, 3), (7, 9), NONE], [(4, 7), (10, 12), NONE], true),
        ([(1, 3), (7, 9), NONE], [(4, 6), (9, 12), NONE], true),
        ([(1, 3), (7, 9), NONE], [(-5, 0), (4, 6), NONE], false),
        ([(1, 3), (7, 9), NONE], [(2, 2), NONE, NONE], true),
        ([NONE, NONE, NONE], [(0, 9), NONE, NONE], false),
        (
            [(-LARGEST, 0), (5, LARGEST), NONE],
            [(1, 4), NONE, NONE],
            false,
        ),
        (
            [(-LARGEST, 0), (5, LARGEST), NONE],
            [(1, 4), (LARGEST, LARGEST), NONE],
            true,
        ),
    ] {
        let first = set_of(alloc, one)?;
        let second = set_of(alloc, other)?;
        assert_eq!(rt; first.shares(&second), answer);
        assert_eq!(rt; second.shares(&first), answer);
    }
    let wide = [(-LARGEST, LARGEST), NONE, NONE];
    let two = [(1, 3), (7, 9), NONE];
    let none = [NONE, NONE, NONE];
    for (one, other, both, first) in [
        (
            two,
            [(2, 7), NONE, NONE],
            [(2, 3), (7, 7)].as_slice(),
            [(1, 1), (8, 9)].as_slice(),
        ),
        (
            two,
            [(2, 2), (8, 8), NONE],
            [(2, 2), (8, 8)].as_slice(),
            [(1, 1), (3, 3), (7, 7), (9, 9)].as_slice(),
        ),
        (
            two,
            [(4, 6), (10, 12), NONE],
            [].as_slice(),
            [(1, 3), (7, 9)].as_slice(),
        ),
        (two, none, [].as_slice(), [(1, 3), (7, 9)].as_slice()),
        (none, two, [].as_slice(), [].as_slice()),
        (two, wide, [(1, 3), (7, 9)].as_slice(), [].as_slice()),
        (
            wide,
            two,
            [(1, 3), (7, 9)].as_slice(),
            [(-LARGEST, 0), (4, 6), (10, LARGEST)].as_slice(),
        ),
        (
            wide,
            [(-LARGEST, -LARGEST), (LARGEST, LARGEST), NONE],
            [(-LARGEST, -LARGEST), (LARGEST, LARGEST)].as_slice(),
            [(-LARGEST + 1, LARGEST - 1)].as_slice(),
        ),
    ] {
        let set = set_of(alloc, one)?;
        let others = set_of(alloc, other)?;
        let common = set.common(&others)?.intervals(alloc)?;
        assert_eq!(rt; common.as_slice(), both);
        let without = set.without(&others)?.intervals(alloc)?;
        assert_eq!(rt; without.as_slice(), first);
    }
    Ok(())
}

#[test]
fn nearest_numbers(rt: HostRuntime) -> Result<(), Fail> {
    let alloc = rt.alloc();
    let two = set_of(alloc, [(1, 3), (7, 9), NONE])?;
    for (value, from, to) in [
        (i64::MIN, Some(1), None),
        (0, Some(1), None),
        (1, Some(1), Some(1)),
        (2, Some(2), Some(2)),
        (3, Some(3), Some(3)),
        (4, Some(7), Some(3)),
        (6, Some(7), Some(3)),
        (7, Some(7), Some(7)),
        (8, Some(8), Some(8)),
        (9, Some(9), Some(9)),
        (10, None, Some(9)),
        (i64::MAX, None, Some(9)),
    ] {
        assert_eq!(rt; two.least_from(value), from, "from {value}");
        assert_eq!(rt; two.greatest_to(value), to, "to {value}");
    }
    let none = set_of(alloc, [NONE, NONE, NONE])?;
    assert_eq!(rt; none.least_from(0), None);
    assert_eq!(rt; none.greatest_to(0), None);
    Ok(())
}

#[test]
fn bounds_of_supported_values(rt: HostRuntime) -> Result<(), Fail> {
    let alloc = rt.alloc();
    let x = VarId(4);
    let two = [(1, 3), (7, 9), NONE];
    for (good, bound) in [
        (two, None),
        ([(1, 1), (9, 9), NONE], None),
        ([(2, 3), (9, 9), NONE], Atom::new(x, Op::Ge, 2)),
        ([(1, 3), (7, 7), NONE], Atom::new(x, Op::Le, 7)),
        ([(7, 8), NONE, NONE], Atom::new(x, Op::Ge, 7)),
        ([NONE, NONE, NONE], None),
    ] {
        let set = set_of(alloc, two)?;
        let supported = set_of(alloc, good)?;
        assert_eq!(rt; supported_bound(x, &set, &supported), bound);
    }
    Ok(())
}

#[test]
fn refuted_numbers(rt: HostRuntime) -> Result<(), Fail> {
    let alloc = rt.alloc();
    let wide = [(-LARGEST, LARGEST), NONE, NONE];
    let four = [(2, 5), NONE, NONE];
    for (of, atoms, left) in [
        (
            wide,
            [(Op::Ge, 3), (Op::Le, 8)],
            [(-LARGEST, 2), (9, LARGEST)].as_slice(),
        ),
        (
            wide,
            [(Op::Ge, 3), (Op::Ne, 8)],
            [(-LARGEST, 2), (8, 8)].as_slice(),
        ),
        (wide, [(Op::Ge, 3), (Op::Ge, 3)], [(-LARGEST, 2)].as_slice()),
        (
            wide,
            [(Op::Le, 3), (Op::Ge, 4)],
            [(-LARGEST, LARGEST)].as_slice(),
        ),
        (
            wide,
            [(Op::Eq, 3), (Op::Le, 4)],
            [(-LARGEST, 2), (4, LARGEST)].as_slice(),
        ),
        (four, [(Op::Ge, 1), (Op::Le, 9)], [].as_slice()),
        (four, [(Op::Ne, 3), (Op::Ne, 4)], [(3, 4)].as_slice()),
    ] {
        let mut set = set_of(alloc, of)?;
        let mut denial = Vec::new(alloc);
        for (op, value) in atoms {
            if let Some(atom) = Atom::new(VarId(0), op, value) {
                denial.push(atom)?;
            }
        }
        set.refute(VarId(0), &denial)?;
        let found = set.intervals(alloc)?;
        assert_eq!(rt; found.as_slice(), left);
    }
    Ok(())
}

// One variable, with the values 1, 2, 3, 7 and 8.
fn with_a_hole(alloc: Global) -> Result<State, Memory>
    ensures { IfOk result (λ state. length state ≡ 1) }
{
    let set = Dom::of(alloc, &[(1, 3), (7, 8)])?;
    let mut sets = Vec::new(alloc);
    sets.push(set)?;
    Ok(State::new(sets))
}

#[test]
fn entailed_and_excluded(rt: HostRuntime) -> Result<(), Fail> {
    let alloc = rt.alloc();
    for (op, value, entailed, lower, upper) in [
        (Op::Ge, 1, true, Some(1), Some(8)),
        (Op::Ge, 4, false, Some(7), Some(8)),
        (Op::Le, 6, false, Some(1), Some(3)),
        (Op::Le, 8, true, Some(1), Some(8)),
        (Op::Eq, 7, false, Some(7), Some(7)),
        (Op::Eq, 5, false, None, None),
        (Op::Ne, 5, true, Some(1), Some(8)),
        (Op::Ne, 1, false, Some(2), Some(8)),
    ] {
        let mut state = with_a_hole(alloc)?;
        let x = VarId(0);
        if let Some(atom) = Atom::new(x, op, value) {
            assert_eq!(rt; state.entails(atom), entailed, "at {value}");
            let changed = state.exclude(atom)?;
            assert_eq!(rt; changed, !entailed, "at {value}");
            assert_eq!(rt; state.lower(x), lower, "at {value}");
            assert_eq!(rt; state.upper(x), upper, "at {value}");
            assert_eq!(rt; state.dead(), lower.is_none(), "at {value}");
        }
    }
    Ok(())
}

fn crosses_threads<T: Send + Sync>(_value: &T) {}

#[test]
fn states(rt: HostRuntime) -> Result<(), Fail> {
    let alloc = rt.alloc();
    let x = VarId(0);
    let mut state = with_a_hole(alloc)?;
    assert_eq!(rt; state.len(), 1);
    assert_eq!(rt; state.is_empty(), false);
    assert_eq!(rt; state.dead(), false);
    assert_eq!(rt; state.lower(x), Some(1));
    assert_eq!(rt; state.upper(x), Some(8));
    for (number, held) in [
        (0, false),
        (1, true),
        (3, true),
        (4, false),
        (6, false),
        (7, true),
        (8, true),
        (9, false),
    ] {
        assert_eq!(rt; state.has(x, number), held, "at {number}");
    }
    crosses_threads(&state);
    crosses_threads(state.set(VarId(0)));
    crosses_threads(&Atom::new(VarId(0), Op::Ge, 7));
    let mut copy = state.copy()?;
    if let Some(atom) = Atom::new(x, Op::Ge, 7) {
        assert_eq!(rt; copy.exclude(atom)?, true);
    }
    assert_eq!(rt; copy.lower(x), Some(7));
    assert_eq!(rt; state.lower(x), Some(1));
    let old = state.replace(x, Dom::range(alloc, 4, 5)?);
    assert_eq!(rt;
        old.intervals(alloc)?.as_slice(),
        [(1, 3), (7, 8)].as_slice()
    );
    assert_eq!(rt; state.lower(x), Some(4));
    assert_eq!(rt; state.upper(x), Some(5));
    Ok(())
}
