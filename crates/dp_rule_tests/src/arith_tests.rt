// Products, maxima, minima and absolute values against all assignments, which are written out here.
use dp_domain::{Atom, Found, Memory, Op, Term, VarId};
use dp_rule_arith::{Absolute, Greatest, Least, Times};
use dp_trials::{LARGEST, clash_at, is_counted, state_of, turn_at};
use std::alloc::Global;
use std::test::Fail;

const A: Term = Term::Var(VarId(0));

const B: Term = Term::Var(VarId(1));

const C: Term = Term::Var(VarId(2));

// Two numbers and what each kind makes of them: their product, the greater, the lesser, and the first
// without its sign.
type Results = (i64, i64, i64, i64, i64, i64);

const RESULTS: [Results; 25] = [
    (-2, -2, 4, -2, -2, 2),
    (-2, -1, 2, -1, -2, 2),
    (-2, 0, 0, 0, -2, 2),
    (-2, 1, -2, 1, -2, 2),
    (-2, 2, -4, 2, -2, 2),
    (-1, -2, 2, -1, -2, 1),
    (-1, -1, 1, -1, -1, 1),
    (-1, 0, 0, 0, -1, 1),
    (-1, 1, -1, 1, -1, 1),
    (-1, 2, -2, 2, -1, 1),
    (0, -2, 0, 0, -2, 0),
    (0, -1, 0, 0, -1, 0),
    (0, 0, 0, 0, 0, 0),
    (0, 1, 0, 1, 0, 0),
    (0, 2, 0, 2, 0, 0),
    (1, -2, -2, 1, -2, 1),
    (1, -1, -1, 1, -1, 1),
    (1, 0, 0, 1, 0, 1),
    (1, 1, 1, 1, 1, 1),
    (1, 2, 2, 2, 1, 1),
    (2, -2, -4, 2, -2, 2),
    (2, -1, -2, 2, -1, 2),
    (2, 0, 0, 2, 0, 2),
    (2, 1, 2, 2, 1, 2),
    (2, 2, 4, 2, 2, 2),
];

// Whether the four kinds clash at a state.
type Clashes = (bool, bool, bool, bool);

// The clashes of the four kinds where a, b and c lie between these ends.
fn clashes(alloc: Global, ends: &[(i64, i64); 3]) -> Result<Option<Clashes>, Memory> {
    let state = state_of(alloc, ends)?;
    let times = clash_at(&Times::new(A, B, C), &state)?;
    let greatest = clash_at(&Greatest::new(A, B, C), &state)?;
    let least = clash_at(&Least::new(A, B, C), &state)?;
    let absolute = clash_at(&Absolute::new(A, C), &state)?;
    match (times, greatest, least, absolute) {
        (Some(times), Some(greatest), Some(least), Some(absolute)) => {
            Ok(Some((times, greatest, least, absolute)))
        }
        _ => Ok(None),
    }
}

// Where each variable has one number, each kind clashes exactly where that is not its result.
#[test]
fn single_numbers(rt: HostRuntime) -> Result<(), Fail> {
    for (a, b, product, greater, lesser, absolute) in RESULTS {
        for c in -4..5 {
            let wanted = (c != product, c != greater, c != lesser, c != absolute);
            let found = clashes(rt.alloc(), &[(a, a), (b, b), (c, c)])?;
            assert_eq!(rt; found, Some(wanted), "{a} {b} {c}");
        }
    }
    Ok(())
}

// The interval widened by the number.
fn with(ends: (i64, i64), number: i64) -> (i64, i64) {
    (ends.0.min(number), ends.1.max(number))
}

// The least and the greatest result of each kind over the numbers between these ends.
fn reached(a: (i64, i64), b: (i64, i64)) -> [(i64, i64); 4] {
    let mut ends = [(9, -9); 4];
    for (x, y, product, greater, lesser, absolute) in RESULTS {
        if a.0 <= x && x <= a.1 && b.0 <= y && y <= b.1 {
            ends = [
                with(ends[0], product),
                with(ends[1], greater),
                with(ends[2], lesser),
                with(ends[3], absolute),
            ];
        }
    }
    ends
}

// Whether no number is in both intervals.
fn are_apart(one: (i64, i64), other: (i64, i64)) -> bool {
    one.1 < other.0 || other.1 < one.0
}

const INTERVALS: [(i64, i64); 6] = [(-2, -1), (-2, 1), (-1, 2), (0, 0), (0, 2), (1, 2)];

// Over intervals each kind clashes exactly where c lies beside the results.
#[test]
fn intervals(rt: HostRuntime) -> Result<(), Fail> {
    for a in INTERVALS {
        for b in INTERVALS {
            for c in [(-4, -3), (-2, -2), (-1, 0), (1, 1), (2, 2), (3, 4)] {
                let [product, greater, lesser, absolute] = reached(a, b);
                let wanted = (
                    are_apart(product, c),
                    are_apart(greater, c),
                    are_apart(lesser, c),
                    are_apart(absolute, c),
                );
                let found = clashes(rt.alloc(), &[a, b, c])?;
                assert_eq!(rt; found, Some(wanted), "{a:?} {b:?} {c:?}");
            }
        }
    }
    Ok(())
}

// Products of a and b that may be the constant, over wide intervals and where a stands twice.
#[test]
fn constants_and_wide_bounds(rt: HostRuntime) -> Result<(), Fail> {
    let alloc = rt.alloc();
    let wide = (-LARGEST, LARGEST);
    let square = LARGEST * LARGEST;
    for (a, b, product, wanted) in [
        ((-2, 1), (-3, 1), -3, false),
        ((-2, 1), (-3, 1), -4, true),
        ((2, 5), (3, 4), 5, true),
        ((2, 5), (3, 4), 7, false),
        (wide, wide, square, false),
        (wide, wide, -square, false),
        (wide, wide, square + 1, true),
        (wide, wide, -square - 1, true),
        ((LARGEST, LARGEST), (LARGEST, LARGEST), square - 1, true),
    ] {
        let state = state_of(alloc, &[a, b])?;
        let rule = Times::new(A, B, Term::Const(product));
        assert_eq!(rt;
            clash_at(&rule, &state)?,
            Some(wanted),
            "{a:?} {b:?} {product}"
        );
    }
    let state = state_of(alloc, &[(-3, 2)])?;
    let numbers = Times::new(Term::Const(3), Term::Const(-4), Term::Const(-12));
    assert_eq!(rt; clash_at(&numbers, &state)?, Some(false));
    assert_eq!(rt;
        clash_at(&Times::new(A, A, Term::Const(10)), &state)?,
        Some(true)
    );
    assert_eq!(rt;
        clash_at(&Absolute::new(A, Term::Const(4)), &state)?,
        Some(true)
    );
    assert_eq!(rt;
        clash_at(&Absolute::new(Term::Const(-3), A), &state)?,
        Some(true)
    );
    assert_eq!(rt; clash_at(&Absolute::new(A, A), &state)?, Some(false));
    Ok(())
}

// Each variable stands once in the scope, in order of declaration.
#[test]
fn scopes(rt: HostRuntime) -> Result<(), Fail> {
    assert!(rt; is_counted(&Times::new(C, A, B), 3));
    assert!(rt; is_counted(&Times::new(B, C, A), 3));
    assert!(rt; is_counted(&Greatest::new(B, B, A), 2));
    assert!(rt; is_counted(&Least::new(A, Term::Const(1), B), 2));
    assert!(rt; is_counted(&Absolute::new(A, A), 1));
    assert!(rt; is_counted(&Absolute::new(Term::Const(1), Term::Const(1)), 0));
    Ok(())
}

// The first new bound is given, because of the bounds that it needs.
#[test]
fn turns(rt: HostRuntime) -> Result<(), Fail> {
    let alloc = rt.alloc();
    let state = state_of(alloc, &[(2, 5), (3, 4), (0, 25)])?;
    let product = Atom::new(VarId(2), Op::Ge, 6);
    assert_eq!(rt;
        turn_at(&Times::new(A, B, C), &state)?,
        product.map(Found::Atom)
    );
    let greater = Atom::new(VarId(2), Op::Ge, 3);
    assert_eq!(rt;
        turn_at(&Greatest::new(A, B, C), &state)?,
        greater.map(Found::Atom)
    );
    let lesser = Atom::new(VarId(2), Op::Ge, 2);
    assert_eq!(rt;
        turn_at(&Least::new(A, B, C), &state)?,
        lesser.map(Found::Atom)
    );
    let absolute = Atom::new(VarId(2), Op::Ge, 2);
    assert_eq!(rt;
        turn_at(&Absolute::new(A, C), &state)?,
        absolute.map(Found::Atom)
    );
    Ok(())
}
