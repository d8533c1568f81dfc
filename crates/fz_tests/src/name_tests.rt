use fz_model::*;
use std::test::*;

// The name, how many arguments it has, and how many at least.
const ROWS: [(&[u8], usize, usize); 8] = [
    (b"int_lin_le", 3, 3),
    (b"int_lin_ne_reif", 4, 4),
    (b"bool2int", 2, 2),
    (b"bool_xor", 3, 2),
    (b"set_in_reif", 3, 3),
    (b"array_var_bool_element", 3, 3),
    (b"fzn_all_different_int", 1, 1),
    (b"fzn_cumulative", 4, 4),
];

#[test]
fn names_and_counts(rt: HostRuntime) -> Result<(), Fail> {
    for (name, args, least) in &ROWS {
        let kind = ConstraintKind::named(*name).ok_or("a name of the table")?;
        assert!(rt; kind.name() == *name);
        assert_eq!(rt; kind.args().len(), *args);
        assert_eq!(rt; kind.least_args(), *least);
    }
    Ok(())
}

#[test]
fn names_that_are_none(rt: HostRuntime) {
    assert!(rt; ConstraintKind::named(b"int_lin_gt").is_none());
    assert!(rt; ConstraintKind::named(b"").is_none());
    assert!(rt; ConstraintKind::named(b"int_l").is_none());
}
